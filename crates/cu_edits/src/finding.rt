//! The edges that an edit of a list touches, found from its roads on.

ghost use Rattle.std.specs.Prelude.{◌≡◌, ◌≤◌, ◌<◌, ◌∷◌, [], All, IfOk, OnOk, length};
ghost use Rattle.cu_chordal.specs.declared.graph.TheConstants.{MAX_EDGES};
ghost use Rattle.cu_chordal.specs.Graphs.{FindsEdge, IsChordal};
ghost use Rattle.cu_interval.specs.Hierarchies.{IsHierarchyOf};
ghost use Rattle.cu_edits.specs.Steps.Climbing.{ArePlanned, IsEdgeOf};
ghost use Rattle.cu_edits.specs.Steps.Found.{AddsFound, AreTouchedFrom, IsOfSome, LeadsTo, Reaches, joined_to};
ghost use Rattle.cu_edits.specs.Steps.Spreading.{IsBetween, IsOfRoad};

use crate::climbing::climb;
use crate::found_edges::FoundEdges;
use cu_chordal::{Chordal, Ends};
use cu_interval::Ways;
use cu_model::NoMemory;
use std::alloc::Global;

/// How many edges an edit touches, and edges to be marked, so that all that it touches are.
#[derive(Drop)]
pub(crate) struct Planned {
    pub(crate) count: u32,
    pub(crate) edges: Vec<u32>,
}

/// How many edges an edit touches which changes this road alone, and those of them that aren't marked, and maybe some that are. The
/// graph is that of the hierarchy, and what is touched from a marked edge on is marked.
pub(crate) fn plan_road<W: Ways>(
    alloc: Global,
    ways: &W,
    arc: u32,
    graph: &Chordal,
    marks: &[bool],
) -> Result<Planned, NoMemory>
    requires arc { arc < length (W.hierarchy ways.now).network.arcs }
    requires graph { IsHierarchyOf graph.now (W.hierarchy ways.now) }
    requires marks { length marks.now ≡ length graph.now.edges }
    ensures { IfOk result
        (ArePlanned (W.hierarchy ways.now) (arc ∷ []) marks.now) }
{
    let mut edges = Vec::new(alloc);
    let Some(edge) = edge_of_road(ways, arc, graph) else {
        return Ok(Planned { count: 0, edges });
    };
    let count = climb(graph, edge, marks, &mut edges)?;
    Ok(Planned { count, edges })
}

// The edge of a road. A loop has none.
fn edge_of_road<W: Ways>(ways: &W, arc: u32, graph: &Chordal) -> Option<u32>
    requires arc { arc < length (W.hierarchy ways.now).network.arcs }
    requires graph { IsHierarchyOf graph.now (W.hierarchy ways.now) }
    ensures { IsEdgeOf (W.hierarchy ways.now) arc result }
{
    let road = ways.arc(arc);
    let first = ways.rank(road.tail);
    let second = ways.rank(road.head);
    graph.edge(first.min(second), first.max(second))
}

/// The edges that an edit touches which changes these roads, by rising number. The graph is that of the hierarchy. What was found
/// is cleared first. It takes the time of the edges touched, and not that of all edges.
pub(crate) fn plan_roads<W: Ways>(
    alloc: Global,
    ways: &W,
    arcs: &[u32],
    graph: &Chordal,
    found: &mut FoundEdges,
) -> Result<Vec<u32>, NoMemory>
    requires arcs { All (λ arc. arc < length (W.hierarchy ways.now).network.arcs) arcs.now }
    requires graph { IsHierarchyOf graph.now (W.hierarchy ways.now) }
    requires edges { found.old.edges ≡ length graph.now.edges }
    ensures touched { IfOk result
        (λ edges. AreTouchedFrom (W.hierarchy ways.now) arcs.now edges.items) }
    ensures few { IfOk result (λ edges. length edges.items ≤ MAX_EDGES) }
    ensures edges { found.new.edges ≡ found.old.edges }
{
    found.clear();
    find_roads(ways, arcs, graph, found)?;
    find_onward(graph, found)?;
    let mut edges = Vec::from_slice(alloc, found.found())?;
    edges.sort_unstable();
    Ok(edges)
}

// Finds the edges of these roads.
fn find_roads<W: Ways>(
    ways: &W,
    arcs: &[u32],
    graph: &Chordal,
    found: &mut FoundEdges,
) -> Result<(), NoMemory>
    requires arcs { All (λ arc. arc < length (W.hierarchy ways.now).network.arcs) arcs.now }
    requires graph { IsHierarchyOf graph.now (W.hierarchy ways.now) }
    requires edges { found.old.edges ≡ length graph.now.edges }
    ensures added { OnOk result (AddsFound (IsOfSome (W.hierarchy ways.now) arcs.now)
        found.old.found found.new.found) }
    ensures edges { found.new.edges ≡ found.old.edges }
{
    for arc in arcs {
        find_road(ways, *arc, graph, found)?;
    }
    Ok(())
}

// Finds the edge of a road. A loop has none.
fn find_road<W: Ways>(
    ways: &W,
    arc: u32,
    graph: &Chordal,
    found: &mut FoundEdges,
) -> Result<(), NoMemory>
    requires arc { arc < length (W.hierarchy ways.now).network.arcs }
    requires graph { IsHierarchyOf graph.now (W.hierarchy ways.now) }
    requires edges { found.old.edges ≡ length graph.now.edges }
    ensures added { OnOk result
        (AddsFound (IsOfRoad (W.hierarchy ways.now) arc) found.old.found found.new.found) }
    ensures edges { found.new.edges ≡ found.old.edges }
{
    let road = ways.arc(arc);
    find_between(graph, found, ways.rank(road.tail), ways.rank(road.head))
}

// Finds the edges that those found lead to, until none of them is new.
fn find_onward(graph: &Chordal, found: &mut FoundEdges) -> Result<(), NoMemory>
    requires edges { found.old.edges ≡ length graph.now.edges }
    ensures reached { OnOk result (Reaches graph.now.edges found.old.found found.new.found) }
    ensures edges { found.new.edges ≡ found.old.edges }
{
    let mut next = 0;
    'edges: while next < found.found().len() {
        let edge = found.found()[next];
        find_next(graph, found, edge)?;
        next += 1;
    }
    Ok(())
}

// Finds the edges that an edge leads to. Those over the other lower triangles that it is a side of are reached over these.
fn find_next(graph: &Chordal, found: &mut FoundEdges, edge: u32) -> Result<(), NoMemory>
    requires edge { edge < length graph.now.edges }
    requires edges { found.old.edges ≡ length graph.now.edges }
    ensures added { OnOk result
        (AddsFound (LeadsTo graph.now.edges edge) found.old.found found.new.found) }
    ensures edges { found.new.edges ≡ found.old.edges }
{
    let ends = graph.ends(edge);
    for high in joined(graph.up(ends.low), ends.high) {
        find_between(graph, found, *high, ends.high)?;
    }
    Ok(())
}

// Of the higher neighbours of a rank, rising, those that the edge to one of them leads to.
fn joined(highs: &[u32], high: u32) -> &[u32]
    ensures { result.now ≡ joined_to highs.now high }
{
    match highs {
        [lowest, ..] if *lowest != high => &highs[..1],
        _ => highs,
    }
}

// Finds the edge between two ranks, if there is one. None joins a rank with itself.
fn find_between(
    graph: &Chordal,
    found: &mut FoundEdges,
    first: u32,
    second: u32,
) -> Result<(), NoMemory>
    requires first { first < graph.now.ranks }
    requires second { second < graph.now.ranks }
    requires edges { found.old.edges ≡ length graph.now.edges }
    ensures added { OnOk result
        (AddsFound (IsBetween graph.now.edges first second) found.old.found found.new.found) }
    ensures edges { found.new.edges ≡ found.old.edges }
{
    let near = found.behind_last();
    match edge_near(graph, near, first.min(second), first.max(second)) {
        Some(edge) => found.add(edge),
        None => Ok(()),
    }
}

// The edge between two ranks, if there is one. It is looked for at a number first where it may be.
fn edge_near(graph: &Chordal, near: u32, low: u32, high: u32) -> Option<u32>
    requires low { low < graph.now.ranks }
    ensures found { FindsEdge graph.now.edges low high result }
    ensures sound { IsChordal graph.now }
{
    if near < graph.edges() && graph.ends(near) == (Ends { low, high }) {
        return Some(near);
    }
    graph.edge(low, high)
}
