//! The most roads of all lists of a short hierarchy, kept.

ghost use Rattle.std.specs.Prelude.{◌≡◌, ◌<◌, ◌↔◌, All, IfOk, IfSome, IsSome, IsTrue, length, map};
ghost use Rattle.std.specs.List.Sorted.{IsStrictlyIncreasing};
ghost use Rattle.cu_interval.specs.declared.ways.TouchedEdge.{TouchedEdge};
ghost use Rattle.cu_short.specs.Counts.{AreRoadCounts, AreRoadCountsBut};
ghost use Rattle.cu_short.specs.Shortness.{IsShort, NeverLong};

use crate::counting::count_lists;
use crate::renewing::renew_lists;
use cu_bounds::Halving;
use cu_interval::{TouchedEdge, Ways};
use cu_model::NoMemory;
use std::alloc::Global;
use std::marker::Model;

/// The most roads of each list of a hierarchy that is short: each list has fewer roads, whichever ways are taken, than there are
/// nodes. Contracts see the counts by the number of their list.
#[derive(Drop)]
pub struct RoadCounts {
    counts: Vec<u32>,
}

impl Model for RoadCounts {
    ghost use Rattle.std.specs.Prelude.{ℕ, List};

    ghost Value = { List ℕ };

    ghost view = { λ roads. roads.counts.items };
}

impl RoadCounts {
    /// Counts the most roads of each list, by a finder of this hierarchy's halves that has come to no edge yet; none where some
    /// list has as many as there are nodes. Where there are counts no relaxation is answered by a walk that is too long. They take
    /// eight bytes an edge.
    pub fn of<W: Ways, F: Halving>(
        alloc: Global,
        ways: &W,
        finder: &mut F,
    ) -> Result<Option<RoadCounts>, NoMemory>
        requires same { F.hierarchy finder.old ≡ W.hierarchy ways.now }
        requires begins { F.reached finder.old ≡ 0 }
        ensures counts { IfOk result
            (λ roads. IfSome roads (AreRoadCounts (W.hierarchy ways.now))) }
        ensures short { IfOk result (λ roads. IsSome roads ↔ IsShort (W.hierarchy ways.now)) }
        ensures never { IfOk result (λ roads. IsSome roads → NeverLong (W.hierarchy ways.now)) }
    {
        let mut counts = Vec::with_capacity(alloc, 2 * ways.edges() as usize)?;
        if !count_lists(ways, finder, &mut counts)? {
            return Ok(None);
        }
        Ok(Some(RoadCounts { counts }))
    }

    /// Counts the most roads of the lists of some edges anew, in the place of their old ones, and answers whether the hierarchy is
    /// short; where it isn't, these are no counts of it any more. The edges rise and are below the number of edges, and the lists
    /// of all other edges are counted already. Goes over the entries of these edges' lists alone, and takes no memory.
    pub fn renew<W: Ways>(&mut self, ways: &W, lists: &[TouchedEdge]) -> bool
        requires rising { IsStrictlyIncreasing
            (map (λ (touched : TouchedEdge). touched.edge) lists.now) }
        requires edges { All
            (λ (touched : TouchedEdge). touched.edge < length (W.hierarchy ways.now).edges)
            lists.now }
        requires kept { AreRoadCountsBut (W.hierarchy ways.now) self.old
            (map (λ (touched : TouchedEdge). touched.edge) lists.now) }
        ensures counts { IsTrue result → AreRoadCounts (W.hierarchy ways.now) self.new }
        ensures short { IsTrue result ↔ IsShort (W.hierarchy ways.now) }
    {
        renew_lists(ways, self.counts.as_mut_slice(), lists)
    }
}
