//! Both passes of a sweep over ranks, in places for labels and links.

ghost use Rattle.std.specs.Prelude.{◌≡◌, ◌≤◌, ◌<◌, ◌+◌, [], ℕ, All, false, reverse};
ghost use Rattle.std.specs.List.{AllPairs, Contains};
ghost use Rattle.std.specs.List.Sorted.{IsStrictlyIncreasing};
ghost use Rattle.cu_chordal.specs.Graphs.{HasEdge};
ghost use Rattle.cu_elimtree.specs.SweepArcs.{ancestors_in};
ghost use Rattle.cu_interval.specs.Hierarchies.{IsHierarchyOf};
ghost use Rattle.cu_sweep.specs.Places.{second_at};
ghost use Rattle.cu_sweep.specs.Steps.Ahead.{FallsOff, LeadsUp};
ghost use Rattle.cu_sweep.specs.Steps.Made.{Led};
ghost use Rattle.cu_sweep.specs.Steps.Ready.{IsReadyBy};
ghost use Rattle.cu_sweep.specs.Steps.Sweeping.{IfSecond, IsDownOver, IsDownSwept, IsUpOver, IsUpSwept};

use crate::limits::Limits;
use crate::linking::Linking;
use crate::sweeping::{Below, lead_from, lead_to};
use cu_chordal::Chordal;
use cu_elimtree::Ancestors;
use cu_interval::{Call, Relaxer};

/// The upward pass over the ancestors of a rank, by the calls that may be made. Answers the first call whose walk is too long, with which it ends.
pub fn pass_up<R: Relaxer, L: Limits, K: Linking>(
    graph: &Chordal,
    labels: &mut [Option<u64>],
    chain: &mut K,
    relaxer: &mut R,
    limits: &L,
    ancestors: Ancestors<'_>,
) -> Option<Call>
    requires ancestors { All (λ rank. rank < graph.now.ranks) ancestors }
    requires rising { IsStrictlyIncreasing ancestors }
    requires graph { IsHierarchyOf graph.now (R.hierarchy relaxer.old) }
    requires known { L.knows limits.now (R.hierarchy relaxer.old) }
    requires ready { IsReadyBy K.links K.turned graph.now.ranks labels.old chain.old }
    requires unturned { K.turned chain.old ≡ false }
    requires leads { All (LeadsUp (R.hierarchy relaxer.old) (L.allows limits.now)) ancestors }
    ensures ready { IsReadyBy K.links K.turned graph.now.ranks labels.new chain.new }
    ensures unturned { K.turned chain.new ≡ false }
    ensures stays { R.hierarchy relaxer.new ≡ R.hierarchy relaxer.old }
    ensures over { (q : Led) → ancestors_in graph.now q.from ≡ ancestors.entry
        → q.allows ≡ L.allows limits.now
        → IsUpSwept (R.hierarchy relaxer.old) q [] labels.old (K.links chain.old)
        → IsUpOver (R.hierarchy relaxer.old) q ancestors.entry
        (R.calls relaxer.old) (R.calls relaxer.new) labels.new (K.links chain.new) result }
{
    'ranks: for rank in ancestors {
        let long = lead_from(graph, labels, chain, relaxer, limits, rank);
        if long.is_some() {
            return long;
        }
    }
    None
}

/// The downward pass over ranks, from the last to the first, by the calls that may be made. Answers the first call whose walk is too long, with which it
/// ends.
pub fn pass_down<R: Relaxer, L: Limits, K: Linking>(
    graph: &Chordal,
    labels: &mut [Option<u64>],
    chain: &mut K,
    relaxer: &mut R,
    limits: &L,
    path: &[u32],
) -> Option<Call>
    requires path { All (λ rank. rank < graph.now.ranks) path.now }
    requires rising { AllPairs (λ a b. a < b) path.now }
    requires upwards { (low high : ℕ) → Contains path.now low → HasEdge graph.now.edges low high
        → Contains path.now high }
    requires graph { IsHierarchyOf graph.now (R.hierarchy relaxer.old) }
    requires known { L.knows limits.now (R.hierarchy relaxer.old) }
    requires ready { IsReadyBy K.links K.turned graph.now.ranks labels.old chain.old }
    requires unturned { K.turned chain.old ≡ false }
    requires falls { FallsOff (L.allows limits.now) }
    ensures ready { IsReadyBy K.links K.turned graph.now.ranks labels.new chain.new }
    ensures unturned { K.turned chain.new ≡ false }
    ensures stays { R.hierarchy relaxer.new ≡ R.hierarchy relaxer.old }
    ensures over { (q : Led) → path.now ≡ q.path → q.allows ≡ L.allows limits.now
        → IsDownSwept (R.hierarchy relaxer.old) q [] labels.old (K.links chain.old)
        → IsDownOver (R.hierarchy relaxer.old) q (reverse path.now)
        (R.calls relaxer.old) (R.calls relaxer.new) labels.new (K.links chain.new) result }
{
    let nodes = graph.ranks();
    let mut soonest = u64::MAX;
    let mut left = path.len();
    'ranks: while left > 0 {
        left -= 1;
        let rank = path[left];
        let below = Below { rank, soonest };
        let long = lead_to(graph, labels, chain, relaxer, limits, below);
        if long.is_some() {
            return long;
        }
        soonest = sooner_of(soonest, labels[(nodes + rank) as usize]);
    }
    None
}

// The sooner of two seconds, the second of which may not be there.
fn sooner_of(soonest: u64, second: Option<u64>) -> u64
    ensures first { result ≤ soonest }
    ensures second { IfSecond second (λ at. result ≤ at) }
{
    match second {
        None => soonest,
        Some(second) => soonest.min(second),
    }
}
