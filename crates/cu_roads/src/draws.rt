//! Numbers drawn one after the other.

ghost use Rattle.std.specs.Prelude.{◌≡◌, ◌<◌};
ghost use Rattle.cu_roads.specs.Draws.{drawn, stepped};

use std::marker::Model;

// The multiplier and the increment of Knuth's MMIX.
pub const MULTIPLIER: u64 = 6_364_136_223_846_793_005;

pub const INCREMENT: u64 = 1_442_695_040_888_963_407;

/// Numbers drawn one after the other. From one start they are always the same. Contracts see it as its state of 64 bits.
#[derive(Clone, Copy)]
pub struct Draws {
    state: u64,
}

impl Model for Draws {
    ghost use Rattle.std.specs.Prelude.{ℕ};

    ghost Value = { ℕ };

    ghost view = { λ draws. draws.state };

    ghost inverse = { λ state. record { state = state } };
}

impl Draws {
    /// The draws that follow from this state.
    pub fn new(start: u64) -> Draws
        ensures { result ≡ start }
    {
        Draws { state: start }
    }

    /// Draws the next number, below `below`, which isn't 0: steps, and takes the upper 31 bits of the new state modulo
    /// `below`.
    pub fn next(&mut self, below: u32) -> u32
        requires { 0 < below }
        ensures number { result ≡ drawn below self.old }
        ensures below { result < below }
        ensures state { self.new ≡ stepped self.old }
    {
        self.state = self.state.wrapping_mul(MULTIPLIER).wrapping_add(INCREMENT);
        ((self.state >> 33) % u64::from(below)) as u32
    }
}
