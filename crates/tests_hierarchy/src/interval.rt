//! Way lists, and the roads of edges, that were worked by hand.

ghost use Rattle.std.specs.Prelude.{◌≡◌, IfOk, length};

use crate::ranked::Ranked;
use cu_chordal::close;
use cu_interval::{Dir, EdgeArcs, Entry, Way, WayList};
use cu_samples::{RUSH_HOUR, Tables};
use std::alloc::Global;
use std::process::Abort;
use std::test::Fail;

fn list(alloc: Global, entries: &[(u32, Way)]) -> Result<Option<WayList>, Fail> {
    let mut all = Vec::new(alloc);
    for (from, way) in entries {
        all.push(Entry {
            from: *from,
            way: *way,
        })?;
    }
    Ok(WayList::of(all))
}

const FIRST: (u32, Way) = (0, Way::Via(0));

// Entries, and whether they are a way list.
const LISTS: [(&[(u32, Way)], bool); 7] = [
    (&[], true),
    (&[FIRST], true),
    (&[FIRST, (86_399, Way::Road(0))], true),
    (&[(1, Way::Via(0))], false),
    (&[FIRST, (5, Way::Via(0))], false),
    (&[FIRST, (0, Way::Road(0))], false),
    (&[FIRST, (86_400, Way::Road(0))], false),
];

#[test]
fn takes_exactly_the_way_lists(rt: HostRuntime) -> Result<(), Fail> {
    for (entries, is_list) in LISTS {
        assert_eq!(rt; list(rt.alloc(), entries)?.is_some(), is_list);
    }
    Ok(())
}

const THREE: [(u32, Way); 3] = [
    (0, Way::Via(0)),
    (28_740, Way::Road(2)),
    (35_851, Way::Via(0)),
];

// A way list, and the way that it takes at a second.
type InForce<'a> = (&'a [(u32, Way)], u64, Option<Way>);

const IN_FORCE: [InForce<'static>; 7] = [
    (&THREE, 0, Some(Way::Via(0))),
    (&THREE, 28_739, Some(Way::Via(0))),
    (&THREE, 28_740, Some(Way::Road(2))),
    (&THREE, 35_850, Some(Way::Road(2))),
    (&THREE, 86_400 + 35_851, Some(Way::Via(0))),
    (&[(0, Way::Road(7))], 86_400, Some(Way::Road(7))),
    (&[], 0, None),
];

#[test]
fn takes_the_way_in_force_on_each_day(rt: HostRuntime) -> Result<(), Fail> {
    for (entries, second, way) in IN_FORCE {
        let ways = list(rt.alloc(), entries)?.expect(&rt, "a way list");
        assert_eq!(rt; ways.entries().len(), entries.len());
        assert_eq!(rt; ways.at(second), way, "at {second}");
    }
    Ok(())
}

// A road from each of three nodes to each later one, a loop, and a closed road beside the first.
const BESIDE: Tables<'static> = Tables {
    roads: b"arc,tail,head,profile\n0,0,1,0\n1,1,2,0\n2,0,2,0\n3,1,1,0\n4,0,1,1\n",
    profiles: b"profile,from,kind,value\n0,0,travel,60\n1,0,closed,0\n",
    ..RUSH_HOUR
};

// The roads upwards and downwards of each edge.
const BESIDE_ROADS: [(&[u32], &[u32]); 3] = [(&[], &[0, 4]), (&[1], &[]), (&[2], &[])];

// Are these the roads of three edges?
fn are_beside(rt: &impl Abort, arcs: &EdgeArcs)
    requires { length arcs.now ≡ 6 }
{
    for edge in 0..3u32 {
        let (up, down) = BESIDE_ROADS[edge as usize];
        assert_eq!(rt; arcs.arcs(edge, Dir::Up), up, "edge {edge} up");
        assert_eq!(rt; arcs.arcs(edge, Dir::Down), down, "edge {edge} down");
    }
}

// The roads of the edges of a ranked network's graph, which has three.
fn three_edges(rt: &impl Abort, alloc: Global, ranked: &Ranked) -> Result<EdgeArcs, Fail>
    requires same { length ranked.now.order.node_at ≡ ranked.now.network.nodes }
    ensures three { IfOk result (λ arcs. length arcs ≡ 6) }
{
    let graph = close(alloc, &ranked.network, &ranked.order)?;
    assert!(rt; graph.edges() == 3);
    let arcs = EdgeArcs::of(alloc, &ranked.network, &ranked.order, &graph)?;
    Ok(arcs)
}

#[test]
fn lists_the_roads_of_each_edge(rt: HostRuntime) -> Result<(), Fail> {
    let ranked = Ranked::of(rt.alloc(), BESIDE)?;
    let arcs = three_edges(&rt, rt.alloc(), &ranked)?;
    are_beside(&rt, &arcs);
    Ok(())
}
