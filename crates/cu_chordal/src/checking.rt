//! Whether two lists hold the chordal supergraph, found rank by rank without building it.

ghost use Rattle.std.specs.Prelude.{ℕ, List, ◌≡◌, ◌≤◌, ◌<◌, ◌+◌, true, false, IfOk, All, length};
ghost use Rattle.cu_chordal.specs.Lists.{edges_below};
ghost use Rattle.cu_chordal.specs.WrongParts.{IsFirstWrong};
ghost use Rattle.cu_chordal.specs.Steps.Checking.{AreCounted, AreFoundRight, Climbs, CountsSources, IsBeforeCheck, IsFresh, IsSourcePart, StampsAll};

use crate::closure::{Children, filled, links};
use crate::graph::MAX_EDGES;
use crate::groups::part;
use cu_model::{MAX_NODES, NoMemory, Order, Roads};
use std::alloc::Global;

// The children of the ranks whose parts were found right, and the stamps of these ranks.
#[derive(Drop)]
struct Checking {
    children: Children,
    stamps: Vec<u32>,
}

// Stamps the candidates that have no stamp of this rank yet, and adds how many these are to the count.
fn stamp_all(stamps: &mut [u32], rank: u32, count: u32, candidates: &[u32]) -> u32
    requires in_range { All (λ y. y < length stamps.old) candidates.now }
    requires counted { (found : List ℕ) × AreCounted rank stamps.old found count }
    requires few { length stamps.old ≤ MAX_NODES }
    requires fits { rank < MAX_NODES }
    ensures { StampsAll rank candidates.now stamps.old count stamps.new result }
{
    let mut total = count;
    for candidate in candidates {
        if stamps[*candidate as usize] != rank + 1 {
            stamps[*candidate as usize] = rank + 1;
            total += 1;
        }
    }
    total
}

// Stamps the sources of a rank's higher neighbours, and answers how many these are.
fn stamp_sources(
    rank: u32,
    links: &[u32],
    starts: &[u32],
    uppers: &[u32],
    children: &Children,
    stamps: &mut [u32],
) -> u32
    requires below { rank < length stamps.old }
    requires links { All (λ y. y < length stamps.old) links.now }
    requires starts { length starts.now ≡ length stamps.old + 1 }
    requires before { AreFoundRight (length stamps.old) rank starts.now uppers.now children.now
        stamps.old }
    requires few { length stamps.old ≤ MAX_NODES }
    ensures counts { CountsSources (edges_below starts.now uppers.now rank) links.now rank
        stamps.new result }
{
    stamps[rank as usize] = rank + 1;
    let mut count = stamp_all(stamps, rank, 0, links);
    let mut child = children.latest[rank as usize];
    'children: while let Some(lower) = child {
        count = stamp_all(stamps, rank, count, part(starts, uppers, lower));
        child = children.before[lower as usize];
    }
    count
}

// Whether a part rises from above a rank over numbers with its stamp.
fn climbs(rank: u32, part: &[u32], stamps: &[u32]) -> bool
    requires fits { rank < MAX_NODES }
    ensures yes { result ≡ true → Climbs rank stamps.now part.now }
    ensures no { result ≡ false → Climbs rank stamps.now part.now → ⊥ }
{
    let mut last = rank;
    for upper in part {
        if *upper <= last || *upper as usize >= stamps.len() {
            return false;
        }
        if stamps[*upper as usize] != rank + 1 {
            return false;
        }
        last = *upper;
    }
    true
}

impl Checking {
    // No rank was checked yet.
    fn new(alloc: Global, ranks: u32) -> Result<Checking, NoMemory>
        requires { ranks ≤ MAX_NODES }
        ensures { IfOk result (IsFresh ranks) }
    {
        Ok(Checking {
            children: Children {
                latest: filled(alloc, ranks, None)?,
                before: filled(alloc, ranks, None)?,
            },
            stamps: filled(alloc, ranks, 0)?,
        })
    }

    // Accepts a rank's part if it is the sources of the rank's higher neighbours, rising. Answers whether it is.
    fn accept(&mut self, rank: u32, links: &[u32], starts: &[u32], uppers: &[u32]) -> bool
        requires below { rank < length self.old.stamps.items }
        requires links { All (λ y. (rank ≤ y) × (y < length self.old.stamps.items)) links.now }
        requires starts { length starts.now ≡ length self.old.stamps.items + 1 }
        requires few { length self.old.stamps.items ≤ MAX_NODES }
        requires few_edges { length uppers.now ≤ MAX_EDGES }
        requires before { IsBeforeCheck (length self.old.stamps.items) rank starts.now uppers.now
            self.old }
        ensures yes { result ≡ true → IsSourcePart starts.now uppers.now links.now rank }
        ensures no { result ≡ false → IsSourcePart starts.now uppers.now links.now rank → ⊥ }
        ensures before { result ≡ true → IsBeforeCheck (length self.old.stamps.items) (rank + 1)
            starts.now uppers.now self.new }
    {
        let start = starts[rank as usize];
        let end = starts[rank as usize + 1];
        if end < start || end as usize > uppers.len() {
            return false;
        }
        let part = part(starts, uppers, rank);
        let stamps = &mut self.stamps;
        let count = stamp_sources(rank, links, starts, uppers, &self.children, stamps);
        if part.len() != count as usize || !climbs(rank, part, stamps) {
            return false;
        }
        self.children.hand_on(rank, part);
        true
    }
}

/// The least rank whose part in two lists is wrong, against the chordal supergraph of a road network under an order of
/// as many nodes. `starts` has where each rank's part begins in `uppers`, at most [`MAX_EDGES`] entries, and behind
/// these where the last part ends. A part is right where it is the rank's higher neighbours, rising. The number of
/// nodes is answered where nothing is wrong but the last part's end, which isn't that of `uppers`. None exactly where
/// nothing is wrong. The chordal supergraph may have any number of edges.
pub fn first_wrong<N: Roads>(
    alloc: Global,
    roads: &N,
    order: &Order,
    starts: &[u32],
    uppers: &[u32],
) -> Result<Option<u32>, NoMemory>
    requires same { length order.now.node_at ≡ (N.network roads.now).nodes }
    requires starts { length starts.now ≡ (N.network roads.now).nodes + 1 }
    requires few { length uppers.now ≤ MAX_EDGES }
    ensures { IfOk result
        (λ found. IsFirstWrong (N.network roads.now) order.now starts.now uppers.now found) }
{
    if starts[0] != 0 {
        return Ok(Some(0));
    }
    let ranks = order.nodes();
    let links = links(alloc, roads, order)?;
    let mut checking = Checking::new(alloc, ranks)?;
    for rank in 0..ranks {
        if !checking.accept(rank, links.group(rank), starts, uppers) {
            return Ok(Some(rank));
        }
    }
    if starts[ranks as usize] as usize != uppers.len() {
        return Ok(Some(ranks));
    }
    Ok(None)
}
