//! Closed graphs that were worked by hand.

ghost use Rattle.std.specs.Prelude.{◌≡◌, ◌≤◌, ◌+◌, length};

use crate::ranked::Ranked;
use cu_chordal::{Chordal, Ends, Groups, MAX_EDGES, close, first_wrong};
use cu_model::{NoMemory, Order, Roads};
use cu_samples::{EMPTY, RANKED, RUSH_HOUR, Tables};
use std::alloc::Global;
use std::process::Abort;
use std::test::Fail;

// Three edges between three ranks.
const THREE: [Ends; 3] = [
    Ends { low: 0, high: 1 },
    Ends { low: 0, high: 2 },
    Ends { low: 1, high: 2 },
];

// Are the edges of a graph these?
fn has_edges(graph: &Chordal, wanted: &[Ends]) -> bool {
    for edge in 0..graph.edges() {
        if wanted.get(edge as usize) != Some(&graph.ends(edge)) {
            return false;
        }
    }
    graph.edges() as usize == wanted.len()
}

// Is this the graph of three ranks, each two joined?
fn is_triangle(rt: &impl Abort, graph: &Chordal) {
    assert!(rt; has_edges(graph, &THREE));
    assert!(rt; graph.ranks() == 3);
    assert_eq!(rt; graph.up(0), [1, 2].as_slice());
    assert_eq!(rt; graph.down(2), [0, 1].as_slice());
    assert_eq!(rt; graph.first_edge(1), 2);
    assert_eq!(rt; graph.edge(0, 2), Some(1));
    assert_eq!(rt; graph.edge(2, 0), None);
}

#[test]
fn three_roads_close_to_three_edges(rt: HostRuntime) -> Result<(), Fail> {
    let ranked = Ranked::of(rt.alloc(), RUSH_HOUR)?;
    let graph = close(rt.alloc(), &ranked.network, &ranked.order)?;
    is_triangle(&rt, &graph);
    Ok(())
}

#[test]
fn values_by_key(rt: HostRuntime) -> Result<(), Fail> {
    let groups = Groups::of(rt.alloc(), &[2, 0, 2], &[10, 11, 12], 3)?;
    assert_eq!(rt; groups.count(), 3);
    assert_eq!(rt; groups.group(0), [11].as_slice());
    assert!(rt; groups.group(1).is_empty());
    assert_eq!(rt; groups.group(2), [10, 12].as_slice());
    Ok(())
}

// The roads 0 -> 1 and 0 -> 2, each node its own rank.
const FORK: Tables<'static> = Tables {
    roads: b"arc,tail,head,profile\n0,0,1,0\n1,0,2,0\n",
    ..RANKED
};

// The graph that two lists hold, or the first part of them that is wrong.
fn adopted<N: Roads>(
    alloc: Global,
    roads: &N,
    order: &Order,
    starts: Vec<u32>,
    uppers: Vec<u32>,
) -> Result<Result<Chordal, u32>, NoMemory>
    requires same { length order.now.node_at ≡ (N.network roads.now).nodes }
    requires starts { length starts.items ≡ (N.network roads.now).nodes + 1 }
    requires few { length uppers.items ≤ MAX_EDGES }
{
    let _ranks = order.nodes();
    match first_wrong(alloc, roads, order, &starts, &uppers)? {
        Some(part) => Ok(Err(part)),
        None => Ok(Ok(Chordal::of_lists(alloc, starts, uppers)?)),
    }
}

// The same of copies of two lists, which are as long as such lists are.
fn adopted_copies(
    rt: &impl Abort,
    alloc: Global,
    ranked: &Ranked,
    starts: &[u32],
    uppers: &[u32],
) -> Result<Result<Chordal, u32>, Fail>
    requires same { length ranked.now.order.node_at ≡ ranked.now.network.nodes }
{
    assert!(rt; starts.len() == ranked.network.nodes() as usize + 1);
    assert!(rt; uppers.len() <= MAX_EDGES as usize);
    let starts = Vec::from_slice(alloc, starts)?;
    let uppers = Vec::from_slice(alloc, uppers)?;
    Ok(adopted(alloc, &ranked.network, &ranked.order, starts, uppers)?)
}

// Two lists over tables: the first places and the upper ends of edges; and the first part of them that is wrong.
type Wrong<'a> = (Tables<'a>, &'a [u32], &'a [u32], u32);

const WRONG_LISTS: [Wrong<'static>; 9] = [
    (FORK, &[1, 2, 3, 3], &[1, 2, 2], 0),
    (FORK, &[0, 2, 1, 3], &[1, 2, 2], 1),
    (FORK, &[0, 2, 4, 4], &[1, 2, 2], 1),
    (FORK, &[0, 2, 2, 2], &[1, 2], 1),
    (FORK, &[0, 2, 3, 4], &[1, 2, 2, 2], 2),
    (FORK, &[0, 2, 3, 3], &[2, 1, 2], 0),
    (FORK, &[0, 2, 3, 3], &[1, 2, 2, 2], 3),
    (EMPTY, &[1], &[], 0),
    (EMPTY, &[0], &[0], 0),
];

#[test]
fn the_least_wrong_part(rt: HostRuntime) -> Result<(), Fail> {
    for (tables, starts, uppers, part) in WRONG_LISTS {
        let ranked = Ranked::of(rt.alloc(), tables)?;
        let graph = adopted_copies(&rt, rt.alloc(), &ranked, starts, uppers)?;
        assert!(rt; graph.err() == Some(part));
    }
    Ok(())
}

// Two such lists over tables, and the edges that they hold.
type Right<'a> = (Tables<'a>, &'a [u32], &'a [u32], &'a [Ends]);

const RIGHT_LISTS: [Right<'static>; 2] = [
    (FORK, &[0, 2, 3, 3], &[1, 2, 2], &THREE),
    (EMPTY, &[0], &[], &[]),
];

// Is this a graph of so many ranks with these edges?
fn is_graph(rt: &impl Abort, graph: Option<Chordal>, ranks: u32, edges: &[Ends]) {
    let graph = graph.expect(rt, "a graph");
    assert_eq!(rt; graph.ranks(), ranks);
    assert!(rt; has_edges(&graph, edges));
}

#[test]
fn right_lists_become_a_graph(rt: HostRuntime) -> Result<(), Fail> {
    for (tables, starts, uppers, edges) in RIGHT_LISTS {
        let ranked = Ranked::of(rt.alloc(), tables)?;
        let adopted = adopted_copies(&rt, rt.alloc(), &ranked, starts, uppers)?;
        is_graph(&rt, adopted.ok(), ranked.network.nodes(), edges);
    }
    Ok(())
}
