//! The chordal supergraph of a road network under an order: the elimination of the ranks from the lowest on, in which
//! each rank hands its higher neighbours to the lowest of them (Rose, Tarjan, Lueker: "Algorithmic aspects of vertex
//! elimination on graphs", 1976; George, Liu: "Computer solution of large sparse positive definite systems", 1981).

ghost use Rattle.std.specs.Prelude.{◌≡◌, ◌≤◌, ◌<◌, ◌+◌, ◌-◌, Err, OnOk, IfOk, All, eqb, length, replicate, slice_get};
ghost use Rattle.std.specs.List.{Contains, IsDistinct};
ghost use Rattle.cu_model.specs.Networks.{NetworkValue, IsNetwork};
ghost use Rattle.cu_model.specs.Orders.{OrderValue, IsOrder};
ghost use Rattle.cu_chordal.specs.Graphs.{IsChordal};
ghost use Rattle.cu_chordal.specs.Edges.{HasTooManyEdges, IsClosureOf};
ghost use Rattle.cu_chordal.specs.Steps.Closing.{AddsRank, AreStamped, Gathers, HandsOn, HasMoreThan, IsBefore, IsCrowded, IsGathered, IsReady, ListsSources};
ghost use Rattle.cu_chordal.specs.Steps.Flat.{edges_in};
ghost use Rattle.cu_chordal.specs.Steps.Links.{AreEnds, HoldsLinks};

use crate::graph::{Chordal, MAX_EDGES};
use crate::groups::Groups;
use crate::table::EdgeTable;
use cu_model::{MAX_NODES, NoMemory, Order, Roads};
use std::alloc::{AllocError, AllocFailed, Global};
use thiserror::Error;

/// Why a graph was not closed. Want of memory may come in place of the other answers.
#[derive(Clone, Copy, Debug, PartialEq, Eq, Error)]
pub enum CloseRefusal {
    /// It has more than [`MAX_EDGES`] edges.
    #[error("more than 16,777,216 edges")]
    TooManyEdges,
    /// An allocation failed.
    #[error("out of memory")]
    NoMemory,
}

impl From<NoMemory> for CloseRefusal {
    ghost use Rattle.cu_chordal.specs.declared.closure.CloseRefusal.{CloseRefusal};

    ghost from_gives = { λ _ refusal. refusal ≡ CloseRefusal.NoMemory };

    fn from(_error: NoMemory) -> CloseRefusal {
        CloseRefusal::NoMemory
    }
}

impl From<AllocError> for CloseRefusal {
    ghost use Rattle.cu_chordal.specs.declared.closure.CloseRefusal.{CloseRefusal};

    ghost from_gives = { λ _ refusal. refusal ≡ CloseRefusal.NoMemory };

    fn from(_error: AllocError) -> CloseRefusal {
        CloseRefusal::NoMemory
    }
}

impl<T: Drop> From<AllocFailed<T>> for CloseRefusal {
    ghost use Rattle.cu_chordal.specs.declared.closure.CloseRefusal.{CloseRefusal};

    ghost from_gives = { λ _ refusal. refusal ≡ CloseRefusal.NoMemory };

    fn from(_error: AllocFailed<T>) -> CloseRefusal {
        CloseRefusal::NoMemory
    }
}

// The children of each rank so far, linked from the latest to the one before: a rank's parent is its lowest higher
// neighbour.
#[derive(Drop)]
pub struct Children {
    pub latest: Vec<Option<u32>>,
    pub before: Vec<Option<u32>>,
}

// The edges of the ranks so far, and what the next ranks need.
#[derive(Drop)]
struct Closing {
    table: EdgeTable,
    children: Children,
    stamps: Vec<u32>,
}

// Adds the candidates that have no stamp of this rank yet, and stamps them.
fn gather(
    part: &mut Vec<u32>,
    stamps: &mut [u32],
    rank: u32,
    room: usize,
    candidates: &[u32],
) -> Result<(), CloseRefusal>
    requires in_range { All (λ y. y < length stamps.old) candidates.now }
    requires own { rank < length stamps.old }
    requires marked { AreStamped rank stamps.old part.old.items }
    requires fits { rank < MAX_NODES }
    requires room { length part.old.items ≤ room }
    ensures marked { OnOk result (AreStamped rank stamps.new part.new.items) }
    ensures gathered { OnOk result (Gathers rank candidates.now part.old.items part.new.items) }
    ensures room { OnOk result (length part.new.items ≤ room) }
    ensures too_many { result ≡ Err CloseRefusal.TooManyEdges
        → HasMoreThan room (IsGathered rank part.old.items candidates.now) }
{
    for candidate in candidates {
        if stamps[*candidate as usize] != rank + 1 {
            if part.len() == room {
                return Err(CloseRefusal::TooManyEdges);
            }
            part.push(*candidate)?;
            stamps[*candidate as usize] = rank + 1;
        }
    }
    Ok(())
}

// Gathers the higher neighbours of a rank, in no order: its links, and the higher neighbours of its children.
fn gather_all(
    alloc: Global,
    rank: u32,
    links: &[u32],
    table: &EdgeTable,
    children: &Children,
    stamps: &mut [u32],
) -> Result<Vec<u32>, CloseRefusal>
    requires below { rank < length stamps.old }
    requires links { All (λ y. y < length stamps.old) links.now }
    requires before { IsBefore (length stamps.old) rank table.now children.now stamps.old }
    requires few { length stamps.old ≤ MAX_NODES }
    ensures exact { IfOk result
        (λ part. ListsSources (edges_in table.now) links.now rank part.items) }
    ensures once { IfOk result (λ part. IsDistinct eqb part.items) }
    ensures room { IfOk result
        (λ part. length table.now.lows.items + length part.items ≤ MAX_EDGES) }
    ensures stamps { OnOk result (All (λ stamp. stamp ≤ rank + 1) stamps.new) }
    ensures too_many { result ≡ Err CloseRefusal.TooManyEdges → IsCrowded table.now links.now rank }
{
    let room = MAX_EDGES as usize - table.lows.len();
    let mut part = Vec::new(alloc);
    stamps[rank as usize] = rank + 1;
    gather(&mut part, stamps, rank, room, links)?;
    let mut child = children.latest[rank as usize];
    'children: while let Some(lower) = child {
        gather(&mut part, stamps, rank, room, table.up(lower))?;
        child = children.before[lower as usize];
    }
    Ok(part)
}

// So many times the value.
pub fn filled<T: Copy + Drop>(alloc: Global, count: u32, value: T) -> Result<Vec<T>, AllocError>
    ensures { IfOk result (λ items. items.items ≡ replicate count value) }
{
    let mut items = Vec::new(alloc);
    items.resize(count as usize, value)?;
    Ok(items)
}

impl Closing {
    // The closure of no rank yet.
    fn new(alloc: Global, ranks: u32) -> Result<Closing, NoMemory>
        requires { ranks ≤ MAX_NODES }
        ensures { IfOk result (IsReady ranks 0) }
    {
        Ok(Closing {
            table: EdgeTable::new(alloc, ranks)?,
            children: Children {
                latest: filled(alloc, ranks, None)?,
                before: filled(alloc, ranks, None)?,
            },
            stamps: filled(alloc, ranks, 0)?,
        })
    }

    // Adds a rank's edges to its higher neighbours, and hands these to the lowest of them.
    fn add_rank(&mut self, alloc: Global, rank: u32, links: &[u32]) -> Result<(), CloseRefusal>
        requires below { rank < length self.old.stamps.items }
        requires links { All (λ y. (rank ≤ y) × (y < length self.old.stamps.items)) links.now }
        requires before { IsReady (length self.old.stamps.items) rank self.old }
        requires few { length self.old.stamps.items ≤ MAX_NODES }
        ensures before { OnOk result (IsReady (length self.old.stamps.items) (rank + 1) self.new) }
        ensures added { OnOk result
            (AddsRank links.now rank (edges_in self.old.table) (edges_in self.new.table)) }
        ensures too_many { result ≡ Err CloseRefusal.TooManyEdges
            → IsCrowded self.old.table links.now rank }
    {
        let mut part = gather_all(
            alloc,
            rank,
            links,
            &self.table,
            &self.children,
            &mut self.stamps,
        )?;
        part.sort_unstable();
        self.table.append(rank, &part)?;
        self.children.hand_on(rank, &part);
        Ok(())
    }
}

impl Children {
    // Makes the rank a child of the lowest of its higher neighbours, if it has any.
    pub fn hand_on(&mut self, rank: u32, part: &[u32])
        requires below { rank < length self.old.before.items }
        requires in_range { All (λ y. y < length self.old.latest.items) part.now }
        ensures { HandsOn rank (slice_get part.now 0) self.old self.new }
    {
        if let Some(parent) = part.first() {
            self.before[rank as usize] = self.latest[*parent as usize];
            self.latest[*parent as usize] = Some(rank);
        }
    }
}

// The ends of each road by rank, the lower and the higher.
#[derive(Drop)]
struct RankEnds {
    lows: Vec<u32>,
    highs: Vec<u32>,
}

fn rank_ends<N: Roads>(alloc: Global, roads: &N, order: &Order) -> Result<RankEnds, NoMemory>
    requires same { length order.now.node_at ≡ (N.network roads.now).nodes }
    requires ordered { IsOrder order.now }
    ensures { IfOk result (AreEnds (N.network roads.now) order.now) }
{
    let mut lows = Vec::with_capacity(alloc, roads.arcs() as usize)?;
    let mut highs = Vec::with_capacity(alloc, roads.arcs() as usize)?;
    for arc in 0..roads.arcs() {
        let road = roads.arc(arc);
        let tail = order.rank(road.tail);
        let head = order.rank(road.head);
        lows.push(tail.min(head))?;
        highs.push(tail.max(head))?;
    }
    Ok(RankEnds { lows, highs })
}

// The links of each rank to itself or a higher one.
pub fn links<N: Roads>(alloc: Global, roads: &N, order: &Order) -> Result<Groups, NoMemory>
    requires same { length order.now.node_at ≡ (N.network roads.now).nodes }
    requires ordered { IsOrder order.now }
    ensures { IfOk result (HoldsLinks (N.network roads.now) order.now) }
{
    let ranks = roads.nodes();
    let ends = rank_ends(alloc, roads, order)?;
    Groups::of(alloc, &ends.lows, &ends.highs, ranks)
}

/// The chordal supergraph of a road network under an order of as many nodes: two ranks are joined by an edge where a path
/// of roads, taken in either direction, leads from one to the other and its inner nodes rank below both. A road joins
/// its ends whether or not it may be driven; a loop makes no edge. Refused are exactly the graphs of more than
/// [`MAX_EDGES`] edges.
pub fn close<N: Roads>(alloc: Global, roads: &N, order: &Order) -> Result<Chordal, CloseRefusal>
    requires { length order.now.node_at ≡ (N.network roads.now).nodes }
    ensures closed { IfOk result (λ graph. IsClosureOf (N.network roads.now) order.now graph) }
    ensures sound { IfOk result (λ graph. IsChordal graph) }
    ensures few { IfOk result (λ graph. length graph.edges ≤ MAX_EDGES) }
    ensures too_many { result ≡ Err CloseRefusal.TooManyEdges
        → HasTooManyEdges (N.network roads.now) order.now }
{
    let ranks = order.nodes();
    let links = links(alloc, roads, order)?;
    let mut closing = Closing::new(alloc, ranks)?;
    for rank in 0..ranks {
        closing.add_rank(alloc, rank, links.group(rank))?;
    }
    Ok(Chordal::of_table(alloc, ranks, closing.table)?)
}
