//! Relaxations: what asking a shortcut at a second answers.

ghost use Rattle.std.specs.Prelude.{◌≡◌, ◌≤◌, ◌<◌, ◌+◌, ◌^◌, ℕ, List, Option, length};
ghost use Rattle.cu_interval.specs.declared.relaxing.Call.{Call};
ghost use Rattle.cu_interval.specs.Hierarchies.{HierarchyValue, IsHierarchy};
ghost use Rattle.cu_interval.specs.Unpacking.{relaxed};
ghost use Rattle.cu_interval.specs.Calls.{Adds, IfAt};
ghost use Rattle.cu_interval.specs.LeastBounds.{far, least_bound};

use crate::ways::Dir;

/// The answer of a relaxation: the second at which the shortcut's walk arrives; that it has no way; or that its walk has as
/// many roads as there are nodes, which no built hierarchy lets happen.
#[derive(Clone, Copy, Debug, PartialEq, Eq)]
pub enum Relaxed {
    At(u64),
    NoWay,
    Long,
}

/// A call of a relaxation: the edge, its direction, and the second.
#[derive(Clone, Copy, PartialEq, Eq)]
pub struct Call {
    pub edge: u32,
    pub dir: Dir,
    pub second: u64,
}

/// Whatever relaxes the shortcuts of one hierarchy. It may tell its calls so far.
pub trait Relaxer {
    ghost hierarchy: { Self → HierarchyValue };

    ghost calls: { Self → Option (List Call) };

    /// What the shortcut of an edge in a direction answers at an absolute second below 2^61. Takes no memory.
    fn relax(&mut self, edge: u32, dir: Dir, at: u64) -> Relaxed
        requires edge { edge < length (hierarchy self.old).edges }
        requires time { at < 2 ^ 61 }
        ensures answer { result ≡ relaxed (hierarchy self.old) edge dir at }
        ensures near { IfAt result (λ (arrival : ℕ). (at ≤ arrival) × (arrival ≤ at + 2 ^ 38)) }
        ensures sound { IsHierarchy (hierarchy self.old) }
        ensures stays { hierarchy self.new ≡ hierarchy self.old }
        ensures told { Adds (calls self.old) (calls self.new)
            (record { edge = edge; dir = dir; second = at }) };

    /// The seconds below which no answer of this shortcut falls, at most 2^60. It is no call. Takes no memory.
    fn least(&self, edge: u32, dir: Dir) -> u64
        requires edge { edge < length (hierarchy self.now).edges }
        ensures bound { result ≡ least_bound (hierarchy self.now) edge dir }
        ensures most { result ≤ far };
}
