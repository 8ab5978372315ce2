//! The road network of a file whose roads and profiles passed their checks.

ghost use Rattle.std.specs.Prelude.{◌≡◌};
ghost use Rattle.cu_pack.specs.Checks.{HasRoads};
ghost use Rattle.cu_pack.specs.Reading.{network_in};

use crate::cutting::Sections;
use cu_model::{Piece, RoadArc, Roads};
use std::marker::Model;

/// The roads of a file whose roads and profiles passed their checks. Contracts see the bytes.
#[derive(Drop)]
pub struct CheckedRoads<'a, 'b> {
    sections: &'a Sections<'b>,
}

impl<'a, 'b> Model for CheckedRoads<'a, 'b> {
    ghost use Rattle.std.specs.Prelude.{ℕ, List};
    ghost use Rattle.cu_pack.specs.Checks.{HasRoads};

    ghost Value = { List ℕ };

    ghost view = { λ roads. roads.sections.now };

    ghost invariant = { λ roads. HasRoads roads.sections.now };
}

impl<'a, 'b> CheckedRoads<'a, 'b> {
    /// The roads of these sections.
    pub fn of(sections: &'a Sections<'b>) -> CheckedRoads<'a, 'b>
        requires roads { HasRoads sections.now }
        ensures same { result ≡ sections.now }
    {
        CheckedRoads { sections }
    }
}

impl<'a, 'b> Roads for CheckedRoads<'a, 'b> {
    ghost network = { λ roads. network_in roads };

    fn nodes(&self) -> u32 {
        self.sections.counts().nodes
    }

    fn arcs(&self) -> u32 {
        self.sections.counts().arcs
    }

    fn profiles(&self) -> u32 {
        self.sections.counts().profiles
    }

    fn arc(&self, arc: u32) -> RoadArc {
        self.sections.arc(arc)
    }

    fn closed(&self, arc: u32) -> bool {
        self.sections.is_closed(arc)
    }

    fn drive(&self, arc: u32, second: u64) -> u64 {
        self.sections.arrive(arc, second)
    }

    fn pieces(&self, profile: u32) -> u32 {
        self.sections.piece_count(profile)
    }

    fn piece(&self, profile: u32, index: u32) -> Piece {
        self.sections.piece_of(profile, index)
    }
}
