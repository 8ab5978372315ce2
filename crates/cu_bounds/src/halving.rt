//! Whatever finds the halves of shortcuts.

ghost use Rattle.std.specs.Prelude.{◌≡◌, ◌≤◌, ℕ};
ghost use Rattle.cu_interval.specs.Hierarchies.{HierarchyValue, IsHierarchy};
ghost use Rattle.cu_interval.specs.Shortcuts.{AreHalves, IsMiddle};

use cu_interval::{Shortcut, Ways, halves};

/// Whatever finds the halves of a hierarchy's shortcuts, asked by rising edge: it may have come to an edge, and then is asked
/// of none before that. No call takes memory.
pub trait Halving {
    ghost hierarchy: { Self → HierarchyValue };

    ghost reached: { Self → ℕ };

    /// The halves of a shortcut at a middle, which edges join to both of its ends.
    fn halves(&mut self, shortcut: Shortcut, middle: u32) -> (Shortcut, Shortcut)
        requires sound { IsHierarchy (hierarchy self.old) }
        requires turn { reached self.old ≤ shortcut.edge }
        requires middle { IsMiddle (hierarchy self.old) shortcut.edge shortcut.dir middle }
        ensures halves { AreHalves (hierarchy self.old) shortcut middle result.0 result.1 }
        ensures same { hierarchy self.new ≡ hierarchy self.old }
        ensures turn { reached self.new ≤ shortcut.edge };
}

/// The halves of a hierarchy's shortcuts, each sought when it is asked for, whatever the order.
#[derive(Drop)]
pub struct Searching<'a, W> {
    pub ways: &'a W,
}

impl<'a, W: Ways> Halving for Searching<'a, W> {
    ghost hierarchy = { λ searching. W.hierarchy searching.ways.now };

    ghost reached = { λ searching. 0 };

    fn halves(&mut self, shortcut: Shortcut, middle: u32) -> (Shortcut, Shortcut) {
        halves(self.ways, shortcut, middle)
    }
}
