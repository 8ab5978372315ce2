//! Ways whose look-ups are counted.

ghost use Rattle.std.specs.Prelude.{◌≡◌, ◌≤◌, ◌<◌, ◌+◌, ◌^◌, ℕ, Some, false, length, slice_get};
ghost use Rattle.cu_model.specs.Roads.{arc_value, is_closed_arc};
ghost use Rattle.cu_chordal.specs.Graphs.{FindsEdge};
ghost use Rattle.cu_interval.specs.WayLists.{way_at};
ghost use Rattle.cu_interval.specs.Hierarchies.{HierarchyValue, IsHierarchy, list_of};

use cu_chordal::Ends;
use cu_interval::{Dir, Way, Ways};
use std::marker::Model;

/// Whatever stands for a hierarchy and counts how often a way is looked up. No call takes memory.
pub trait CountedWays {
    ghost hierarchy: { Self → HierarchyValue };

    ghost steps: { Self → ℕ };

    /// How many nodes there are, at most 262,144.
    fn nodes(&self) -> u32
        ensures count { result ≡ (hierarchy self.now).network.nodes }
        ensures sound { IsHierarchy (hierarchy self.now) };

    /// The ends of the edge with this number, which is below the number of edges.
    fn ends(&self, edge: u32) -> Ends
        requires { edge < length (hierarchy self.now).edges }
        ensures there { slice_get (hierarchy self.now).edges edge ≡ Some result }
        ensures sound { IsHierarchy (hierarchy self.now) };

    /// The number of the edge between two ranks, of which the lower is below the number of nodes. None exactly where there
    /// is no such edge.
    fn edge(&self, low: u32, high: u32) -> Option<u32>
        requires { low < (hierarchy self.now).network.nodes }
        ensures found { FindsEdge (hierarchy self.now).edges low high result }
        ensures sound { IsHierarchy (hierarchy self.now) };

    /// When the road with this number, below the number of roads, arrives, leaving at an absolute second of at most 2^62; it
    /// isn't closed.
    fn drive(&self, arc: u32, second: u64) -> u64
        requires road { arc < length (hierarchy self.now).network.arcs }
        requires time { second ≤ 2 ^ 62 }
        requires open { is_closed_arc (hierarchy self.now).network arc ≡ false }
        ensures value { result ≡ arc_value (hierarchy self.now).network arc second }
        ensures onward { second ≤ result };

    /// How many look-ups were counted.
    fn steps(&self) -> u64
        ensures { result ≡ steps self.now };

    /// The way that is taken at a second over an edge in a direction. None exactly where its list is empty. It counts one
    /// look-up; fewer than 2^63 were counted.
    fn counted_way(&mut self, edge: u32, dir: Dir, second: u64) -> Option<Way>
        requires edge { edge < length (hierarchy self.old).edges }
        requires few { steps self.old < 2 ^ 63 }
        ensures way { result ≡ way_at (list_of (hierarchy self.old) edge dir) second }
        ensures counted { steps self.new ≡ steps self.old + 1 }
        ensures stays { hierarchy self.new ≡ hierarchy self.old }
        ensures sound { IsHierarchy (hierarchy self.old) };
}

/// Ways with a count of the look-ups. Contracts see the hierarchy that the ways stand for, and the count.
#[derive(Drop)]
pub struct Counted<'a, W: Ways> {
    ways: &'a W,
    steps: u64,
}

impl<'a, W: Ways> Model for Counted<'a, W> {
    ghost use Rattle.cu_unpack.specs.Counts.{CountedValue};

    ghost Value = { CountedValue };

    ghost view = { λ counted. record {
      hierarchy = W.hierarchy counted.ways.now;
      steps = counted.steps;
    } };
}

impl<'a, W: Ways> Counted<'a, W> {
    /// These ways, with no look-up counted. Takes no memory.
    pub fn of(ways: &'a W) -> Counted<'a, W>
        ensures { result ≡ record { hierarchy = W.hierarchy ways.now; steps = 0 } }
    {
        Counted { ways, steps: 0 }
    }
}

impl<'a, W: Ways> CountedWays for Counted<'a, W> {
    ghost hierarchy = { λ counted. counted.hierarchy };

    ghost steps = { λ counted. counted.steps };

    fn nodes(&self) -> u32 {
        self.ways.ranks()
    }

    fn ends(&self, edge: u32) -> Ends {
        self.ways.ends(edge)
    }

    fn edge(&self, low: u32, high: u32) -> Option<u32> {
        self.ways.edge(low, high)
    }

    fn drive(&self, arc: u32, second: u64) -> u64 {
        self.ways.drive(arc, second)
    }

    fn steps(&self) -> u64 {
        self.steps
    }

    fn counted_way(&mut self, edge: u32, dir: Dir, second: u64) -> Option<Way> {
        self.steps += 1;
        self.ways.way(edge, dir, second)
    }
}
