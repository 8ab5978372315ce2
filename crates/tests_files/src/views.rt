//! The file of a small hierarchy answers as its roads and ways do, worked out by hand, and does so before its digest is written.

ghost use Rattle.std.specs.Prelude.{◌≡◌, ◌<◌, [], length};
ghost use Rattle.cu_model.specs.Edits.{IsEditInRange};
ghost use Rattle.cu_interval.specs.Replacing.{hierarchy_with};

use cu_chordal::{Chordal, Ends};
use cu_edits::{EditedRoads, Edits};
use cu_interval::{BoundedWays, Dir, Entry, TouchedEdge, Way, Ways};
use cu_model::{Edit, Order, Piece, Roads, Rule};
use cu_pack::{PackedView, chordal_of, order_of, repack, repack_unsealed, seal};
use cu_samples::{RUSH_HOUR, packed};
use std::alloc::Global;
use std::process::Abort;
use std::test::Fail;

fn arrival<R: Roads>(roads: &R, arc: u32, second: u64) -> Option<u64> {
    if arc >= roads.arcs() || second > 1 << 62 || roads.closed(arc) {
        return None;
    }
    Some(roads.drive(arc, second))
}

fn piece<R: Roads>(roads: &R, profile: u32, index: u32) -> Option<Piece> {
    if profile >= roads.profiles() || index >= roads.pieces(profile) {
        return None;
    }
    Some(roads.piece(profile, index))
}

fn joins<W: Ways>(ways: &W, edge: u32, low: u32, high: u32) -> bool {
    edge < ways.edges() && ways.ends(edge) == Ends { low, high }
}

fn edge<W: Ways>(ways: &W, low: u32, high: u32) -> Option<u32> {
    if low >= ways.nodes() {
        return None;
    }
    ways.edge(low, high)
}

fn way<W: Ways>(ways: &W, edge: u32, dir: Dir, second: u64) -> Option<Way> {
    if edge >= ways.edges() {
        return None;
    }
    ways.way(edge, dir, second)
}

fn entry<W: Ways>(ways: &W, edge: u32, dir: Dir, index: u32) -> Option<Entry> {
    if edge >= ways.edges() || index >= ways.entries(edge, dir) {
        return None;
    }
    Some(ways.entry(edge, dir, index))
}

fn least<W: BoundedWays>(ways: &W, edge: u32, dir: Dir) -> Option<u64> {
    if edge >= ways.edges() {
        return None;
    }
    Some(ways.least(edge, dir))
}

fn node(order: &Order, rank: u32) -> Option<u32> {
    if rank >= order.nodes() {
        return None;
    }
    Some(order.node(rank))
}

// The edit that gives the first road the profile that it has.
fn first_road_again(view: &PackedView<'_>) -> Edit
    requires some { 0 < length view.now.network.arcs }
    ensures range { IsEditInRange view.now.network result }
    ensures same { hierarchy_with view.now result [] ≡ view.now }
{
    Edit::Assign {
        arc: 0,
        profile: view.arc(0).profile,
    }
}

// Does the second road, left at this second, arrive then?
fn is_arrival(rt: &impl Abort, view: &PackedView<'_>, second: u64, found: u64) {
    assert_eq!(rt; arrival(view, 1, second), Some(found), "at {second}");
}

// Seconds at which the second road is left, and when it arrives then.
const ARRIVALS: [(u64, u64); 8] = [
    (0, 100),
    (28_799, 28_899),
    (28_800, 29_100),
    (35_799, 36_099),
    (35_800, 36_100),
    (35_999, 36_100),
    (36_000, 36_100),
    (86_400 + 28_800, 86_400 + 29_100),
];

fn answers_arrivals(rt: &impl Abort, view: &PackedView<'_>) {
    for (second, found) in &ARRIVALS {
        is_arrival(rt, view, *second, *found);
    }
}

// Has the second profile a slow piece, and no fifth one?
fn answers_pieces(rt: &impl Abort, view: &PackedView<'_>) {
    let slow = Piece {
        from: 28_800,
        rule: Rule::Travel(300),
    };
    assert!(rt; piece(view, 1, 1) == Some(slow));
    assert!(rt; piece(view, 1, 4) == None);
}

#[test]
fn answers_as_the_roads_do(rt: HostRuntime) -> Result<(), Fail> {
    let bytes = packed(rt.alloc(), RUSH_HOUR)?;
    let view = PackedView::adopt(&bytes);
    answers_arrivals(&rt, &view);
    answers_pieces(&rt, &view);
    Ok(())
}

// The edges, and the nodes that they are between.
const EDGES: [(u32, u32, u32); 3] = [(0, 0, 1), (1, 0, 2), (2, 1, 2)];

// Nodes without an edge between them.
const NO_EDGES: [(u32, u32); 5] = [(0, 0), (1, 0), (1, 1), (2, 1), (0, 3)];

// Is this the edge between these nodes?
fn is_edge(rt: &impl Abort, view: &PackedView<'_>, low: u32, high: u32, found: Option<u32>) {
    assert_eq!(rt; edge(view, low, high), found, "{low} and {high}");
}

// Are there edges between these, and none between the others?
fn answers_edges(rt: &impl Abort, view: &PackedView<'_>) {
    for (number, low, high) in &EDGES {
        assert!(rt; joins(view, *number, *low, *high), "edge {number}");
        is_edge(rt, view, *low, *high, Some(*number));
    }
    for (low, high) in &NO_EDGES {
        is_edge(rt, view, *low, *high, None);
    }
}

// Is this the way of an edge at this second?
fn is_way(
    rt: &impl Abort,
    view: &PackedView<'_>,
    edge: u32,
    dir: Dir,
    second: u64,
    found: Option<Way>,
) {
    assert_eq!(rt; way(view, edge, dir, second), found, "at {second}");
}

// Seconds of day and next day, and the ways of edge 2 upwards at them.
const WAYS: [(u64, Way); 7] = [
    (0, Way::Via(0)),
    (28_739, Way::Via(0)),
    (28_740, Way::Road(2)),
    (35_850, Way::Road(2)),
    (35_851, Way::Via(0)),
    (86_399, Way::Via(0)),
    (86_400 + 28_740, Way::Road(2)),
];

// Are these the ways of edge 2 upwards, and none downwards?
fn answers_ways(rt: &impl Abort, view: &PackedView<'_>) {
    for (second, found) in &WAYS {
        is_way(rt, view, 2, Dir::Up, *second, Some(*found));
    }
    is_way(rt, view, 2, Dir::Down, 0, None);
    is_way(rt, view, 0, Dir::Down, 0, Some(Way::Road(0)));
}

// Has edge 2 upwards this third entry, and no fourth one?
fn answers_entries(rt: &impl Abort, view: &PackedView<'_>) {
    let last = Entry {
        from: 35_851,
        way: Way::Via(0),
    };
    assert!(rt; entry(view, 2, Dir::Up, 2) == Some(last));
    assert!(rt; entry(view, 2, Dir::Up, 3) == None);
}

#[test]
fn answers_as_the_ways_do(rt: HostRuntime) -> Result<(), Fail> {
    let bytes = packed(rt.alloc(), RUSH_HOUR)?;
    let view = PackedView::adopt(&bytes);
    answers_edges(&rt, &view);
    answers_ways(&rt, &view);
    answers_entries(&rt, &view);
    Ok(())
}

// Edges, and their least bounds upwards and downwards.
const LEAST: [(u32, u64, u64); 3] = [(0, 1 << 60, 60), (1, 100, 1 << 60), (2, 160, 1 << 60)];

// Is this an edge's least bound?
fn is_least(rt: &impl Abort, view: &PackedView<'_>, edge: u32, dir: Dir, bound: u64) {
    assert_eq!(rt; least(view, edge, dir), Some(bound), "edge {edge} {dir:?}");
}

fn answers_bounds(rt: &impl Abort, view: &PackedView<'_>) {
    for (edge, up, down) in &LEAST {
        is_least(rt, view, *edge, Dir::Up, *up);
        is_least(rt, view, *edge, Dir::Down, *down);
    }
}

#[test]
fn answers_as_the_least_bounds_do(rt: HostRuntime) -> Result<(), Fail> {
    let bytes = packed(rt.alloc(), RUSH_HOUR)?;
    let view = PackedView::adopt(&bytes);
    answers_bounds(&rt, &view);
    Ok(())
}

// Are these the nodes by rank?
fn copies_order(rt: &impl Abort, order: &Order) {
    assert!(rt; node(order, 0) == Some(1), "rank 0");
    assert!(rt; node(order, 1) == Some(0), "rank 1");
    assert!(rt; node(order, 2) == Some(2), "rank 2");
}

// Are these the higher neighbours of each rank?
fn is_graph(graph: &Chordal) -> bool {
    graph.ranks() == 3 && graph.up(0) == [1, 2].as_slice() && graph.up(1) == [2].as_slice()
}

fn copies(rt: &impl Abort, alloc: Global, view: &PackedView<'_>) -> Result<(), Fail> {
    copies_order(rt, &order_of(alloc, view)?);
    assert!(rt; is_graph(&chordal_of(alloc, view)?));
    Ok(())
}

#[test]
fn copies_the_order_and_the_graph(rt: HostRuntime) -> Result<(), Fail> {
    let alloc = rt.alloc();
    let bytes = packed(alloc, RUSH_HOUR)?;
    let view = PackedView::adopt(&bytes);
    copies(&rt, alloc, &view)
}

// The file with its first road's profile given again, as it is written whole, and without its digest: it is answered from before
// it is sealed, and is the whole one then.
fn answers_unsealed(rt: &impl Abort, alloc: Global, view: &PackedView<'_>) -> Result<(), Fail>
    requires some { 0 < length view.now.network.arcs }
{
    let _edges = view.edges();
    let edit = first_road_again(view);
    let lists: [TouchedEdge; 0] = [];
    let roads = EditedRoads::of(view, Edits::One(&edit));
    let whole = repack(alloc, view, &roads, &lists)?;
    let mut unsealed = repack_unsealed(alloc, view, &roads, &lists)?;
    assert!(rt; unsealed.as_slice() != whole.as_slice());
    let later = PackedView::adopt_unsealed(&unsealed);
    is_arrival(rt, &later, 28_800, 29_100);
    is_way(rt, &later, 2, Dir::Up, 86_399, Some(Way::Via(0)));
    seal(unsealed.as_mut_slice());
    assert!(rt; unsealed.as_slice() == whole.as_slice());
    Ok(())
}

#[test]
fn answers_before_it_is_sealed(rt: HostRuntime) -> Result<(), Fail> {
    let alloc = rt.alloc();
    let bytes = packed(alloc, RUSH_HOUR)?;
    let view = PackedView::adopt(&bytes);
    assert_eq!(rt; view.arcs(), 3);
    answers_unsealed(&rt, alloc, &view)
}
