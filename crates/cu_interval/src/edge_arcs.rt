//! The roads of each edge.

ghost use Rattle.std.specs.Prelude.{◌≡◌, ◌≤◌, ◌<◌, Some, IfOk, length, slice_get};
ghost use Rattle.std.specs.List.Sorted.{IsStrictlyIncreasing};
ghost use Rattle.cu_model.specs.Orders.{IsOrder};
ghost use Rattle.cu_chordal.specs.Edges.{IsClosureOf};
ghost use Rattle.cu_chordal.specs.Graphs.{IsChordal};
ghost use Rattle.cu_interval.specs.EdgeArcs.{AreEdgeArcs};
ghost use Rattle.cu_interval.specs.Hierarchies.{list_number};
ghost use Rattle.cu_interval.specs.Steps.ArcLists.{AreListed, IsListOf};

use crate::shortcuts::Shortcut;
use crate::ways::Dir;
use cu_chordal::{Chordal, Groups};
use cu_model::{MAX_ARCS, NoMemory, Order, Roads};
use std::alloc::Global;
use std::marker::Model;

/// For each edge and direction the roads that join its ends in that direction. Contracts see them by list number: the
/// roads of an edge upwards as list 2 * edge, downwards as list 2 * edge + 1.
#[derive(Drop)]
pub struct EdgeArcs {
    lists: Groups,
}

impl Model for EdgeArcs {
    ghost use Rattle.std.specs.Prelude.{ℕ, List};
    ghost use Rattle.cu_interval.specs.Steps.ArcLists.{AreLists};

    ghost Value = { List (List ℕ) };

    ghost view = { λ arcs. arcs.lists };

    ghost invariant = { λ arcs. AreLists arcs.lists };
}

impl EdgeArcs {
    /// The roads of each edge of a graph, which is the chordal one of these roads and this order. Closed roads are among
    /// them; a road that begins and ends at one node is in no list.
    pub fn of<N: Roads>(
        alloc: Global,
        roads: &N,
        order: &Order,
        graph: &Chordal,
    ) -> Result<EdgeArcs, NoMemory>
        requires same { length order.now.node_at ≡ (N.Roads.network roads.now).nodes }
        requires graph { IsClosureOf (N.Roads.network roads.now) order.now graph.now }
        ensures { IfOk result
            (λ arcs. AreEdgeArcs (N.Roads.network roads.now) order.now graph.now.edges arcs) }
    {
        prove_eq!(order.nodes(), graph.ranks());
        let listed = listed(alloc, roads, order, graph)?;
        let lists = Groups::of(alloc, &listed.numbers, &listed.arcs, 2 * graph.edges())?;
        Ok(EdgeArcs { lists })
    }

    /// The roads that join the ends of an edge in a direction, rising; closed ones are among them. The edge's number is
    /// below the number of edges. Takes no memory.
    pub fn arcs(&self, edge: u32, dir: Dir) -> &[u32]
        requires { list_number edge dir < length self.now }
        ensures there { slice_get self.now (list_number edge dir) ≡ Some result.now }
        ensures rising { IsStrictlyIncreasing result.now }
        ensures few { length result.now ≤ MAX_ARCS }
    {
        let list = Shortcut { edge, dir }.list();
        self.lists.group(list as u32)
    }
}

// The roads that are no loops, and the number of the list of each.
#[derive(Drop)]
struct Listing {
    numbers: Vec<u32>,
    arcs: Vec<u32>,
}

// Finds the list of each road.
fn listed<N: Roads>(
    alloc: Global,
    roads: &N,
    order: &Order,
    graph: &Chordal,
) -> Result<Listing, NoMemory>
    requires same { length order.now.node_at ≡ (N.Roads.network roads.now).nodes }
    requires ordered { IsOrder order.now }
    requires chordal { IsChordal graph.now }
    requires graph { IsClosureOf (N.Roads.network roads.now) order.now graph.now }
    ensures few { IfOk result (λ listing. length listing.numbers.items ≤ MAX_ARCS) }
    ensures listed { IfOk result
        (λ listing. AreListed (N.Roads.network roads.now) order.now graph.now.edges
        (length (N.Roads.network roads.now).arcs) listing.numbers.items listing.arcs.items) }
{
    let mut numbers = Vec::with_capacity(alloc, roads.arcs() as usize)?;
    let mut arcs = Vec::with_capacity(alloc, roads.arcs() as usize)?;
    for arc in 0..roads.arcs() {
        if let Some(number) = list_of_arc(roads, order, graph, arc) {
            numbers.push(number)?;
            arcs.push(arc)?;
        }
    }
    Ok(Listing { numbers, arcs })
}

// The number of the list that a road stands in. None exactly where it is a loop.
fn list_of_arc<N: Roads>(roads: &N, order: &Order, graph: &Chordal, arc: u32) -> Option<u32>
    requires arc { arc < length (N.Roads.network roads.now).arcs }
    requires same { length order.now.node_at ≡ (N.Roads.network roads.now).nodes }
    requires ordered { IsOrder order.now }
    requires chordal { IsChordal graph.now }
    requires graph { IsClosureOf (N.Roads.network roads.now) order.now graph.now }
    ensures { IsListOf (N.Roads.network roads.now) order.now graph.now.edges arc result }
{
    let road = roads.arc(arc);
    let tail = order.rank(road.tail);
    let head = order.rank(road.head);
    if tail < head {
        let Some(edge) = graph.edge(tail, head) else {
            return None
        };
        return Some(2 * edge);
    }
    let Some(edge) = graph.edge(head, tail) else {
        return None
    };
    Some(2 * edge + 1)
}
