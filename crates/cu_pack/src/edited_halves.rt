//! The halves of shortcuts as edits leave them. They are where they were, since edits leave the graph as it is.

ghost use Rattle.std.specs.Prelude.{◌≡◌};
ghost use Rattle.cu_pack.specs.Steps.EditedHalves.{HaveSameEdges};

use cu_bounds::Halving;
use cu_interval::{Shortcut, Ways};
use std::marker::Model;

/// Finds the halves of a hierarchy's shortcuts by a finder of another one, with the same edges. Contracts see both, and how far the
/// finder has come.
#[derive(Drop)]
pub(crate) struct EditedHalves<'a, W: Ways, F: Halving> {
    ways: &'a W,
    finder: F,
}

impl<'a, W: Ways, F: Halving> Model for EditedHalves<'a, W, F> {
    ghost use Rattle.cu_pack.specs.Steps.EditedHalves.{HalvesValue, HaveSameEdges};

    ghost Value = { HalvesValue };

    ghost view = { λ halves. record {
      hierarchy = W.hierarchy halves.ways.now;
      known = F.hierarchy halves.finder;
      reached = F.reached halves.finder;
    } };

    ghost invariant = { λ halves. HaveSameEdges (W.hierarchy halves.ways.now) (F.hierarchy halves.finder) };
}

impl<'a, W: Ways, F: Halving> EditedHalves<'a, W, F> {
    /// The halves in this hierarchy, by this finder, which stays as far as it has come. Takes no memory.
    pub(crate) fn of(ways: &'a W, finder: F) -> EditedHalves<'a, W, F>
        requires same { HaveSameEdges (W.hierarchy ways.now) (F.hierarchy finder) }
        ensures { result ≡ record {
          hierarchy = W.hierarchy ways.now;
          known = F.hierarchy finder;
          reached = F.reached finder;
        } }
    {
        EditedHalves { ways, finder }
    }
}

impl<'a, W: Ways, F: Halving> Halving for EditedHalves<'a, W, F> {
    ghost hierarchy = { λ halves. halves.hierarchy };

    ghost reached = { λ halves. halves.reached };

    fn halves(&mut self, shortcut: Shortcut, middle: u32) -> (Shortcut, Shortcut) {
        self.finder.halves(shortcut, middle)
    }
}
