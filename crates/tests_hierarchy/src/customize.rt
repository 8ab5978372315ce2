//! Built way lists that were worked by hand, and the same settled by words.

ghost use Rattle.std.specs.Prelude.{◌≡◌, ◌<◌, ◌*◌, IfOk, length};
ghost use Rattle.cu_model.specs.Orders.{OrderValue};
ghost use Rattle.cu_chordal.specs.Edges.{IsClosureOf};
ghost use Rattle.cu_interval.specs.EdgeArcs.{AreEdgeArcs};

use crate::ranked::Ranked;
use crate::runs::taking;
use cu_chordal::{Chordal, close};
use cu_customize::{PackedSettling, SettledRuns, built_lists};
use cu_interval::{Dir, EdgeArcs, Entry, Hierarchy, Shortcut, Way, WayList, Ways};
use cu_model::{Network, NoMemory};
use cu_runs::{DayFunction, LayeredFunctions};
use cu_samples::{RANKED, RUSH_HOUR, Tables, hierarchy};
use std::alloc::Global;
use std::process::Abort;
use std::test::Fail;

// Does this entry stand in the list of an edge in a direction?
fn stands(hierarchy: &Hierarchy, edge: u32, dir: Dir, entry: Entry) -> bool {
    if edge >= hierarchy.edges() {
        return false;
    }
    for index in 0..hierarchy.entries(edge, dir) {
        if hierarchy.entry(edge, dir, index) == entry {
            return true;
        }
    }
    false
}

// Do these entries, and no others, stand in the lists?
fn are_all(hierarchy: &Hierarchy, wanted: &[(u32, Dir, u32, Way)]) -> bool {
    let mut more = 0u32;
    for edge in 0..hierarchy.edges() {
        more = more.saturating_add(hierarchy.entries(edge, Dir::Up));
        more = more.saturating_add(hierarchy.entries(edge, Dir::Down));
    }
    for (edge, dir, from, way) in wanted {
        let entry = Entry {
            from: *from,
            way: *way,
        };
        if !stands(hierarchy, *edge, *dir, entry) {
            return false;
        }
    }
    more as usize == wanted.len()
}

// The ranked tables with the straight road closed: then only the middle is left.
const CLOSED: Tables<'static> = Tables {
    profiles: b"profile,from,kind,value\n0,0,travel,60\n1,0,travel,100\n1,28800,travel,300\n1,35800,until,36100\n1,36000,travel,100\n2,0,closed,0\n",
    ..RANKED
};

// Two roads: 50 seconds, and 40 but where that takes 60 or waits until 2,060. At 2,010 waiting arrives as early, and
// the first road is kept; one second later waiting is earlier. A loop is no way.
const TIE: Tables<'static> = Tables {
    nodes: b"node,x,y\n0,0,0\n1,0,0\n",
    roads: b"arc,tail,head,profile\n0,0,0,0\n1,0,1,0\n2,0,1,1\n",
    profiles: b"profile,from,kind,value\n0,0,travel,50\n1,0,travel,40\n1,1000,travel,60\n1,2000,until,2060\n1,2020,travel,40\n",
    ranks: b"0\n1\n",
};

// The twelve roads between four nodes, which all take ten seconds.
const ALIKE: Tables<'static> = Tables {
    nodes: b"node,x,y\n0,0,0\n1,0,0\n2,0,0\n3,0,0\n",
    roads: b"arc,tail,head,profile\n0,0,1,0\n1,0,2,0\n2,0,3,0\n3,1,0,0\n4,1,2,0\n5,1,3,0\n6,2,0,0\n7,2,1,0\n8,2,3,0\n9,3,0,0\n10,3,1,0\n11,3,2,0\n",
    profiles: b"profile,from,kind,value\n0,0,travel,10\n",
    ranks: b"0\n1\n2\n3\n",
};

// Over no middle is any of them faster: each list is its one road.
const OWN_WAYS: [(u32, Dir, u32, Way); 12] = [
    (0, Dir::Up, 0, Way::Road(0)),
    (1, Dir::Up, 0, Way::Road(1)),
    (2, Dir::Up, 0, Way::Road(2)),
    (3, Dir::Up, 0, Way::Road(4)),
    (4, Dir::Up, 0, Way::Road(5)),
    (5, Dir::Up, 0, Way::Road(8)),
    (0, Dir::Down, 0, Way::Road(3)),
    (1, Dir::Down, 0, Way::Road(6)),
    (2, Dir::Down, 0, Way::Road(9)),
    (3, Dir::Down, 0, Way::Road(7)),
    (4, Dir::Down, 0, Way::Road(10)),
    (5, Dir::Down, 0, Way::Road(11)),
];

// Over the middle a minute and then the slow road, which take 160 seconds, and 360 from 7:59:00 on; straight on 250.
// From 9:55:40 on the middle arrives at 10:01:40, from 35,851 on earlier than the straight road.
const RUSH_WAYS: [(u32, Dir, u32, Way); 5] = [
    (0, Dir::Down, 0, Way::Road(0)),
    (1, Dir::Up, 0, Way::Road(1)),
    (2, Dir::Up, 0, Way::Via(0)),
    (2, Dir::Up, 28_740, Way::Road(2)),
    (2, Dir::Up, 35_851, Way::Via(0)),
];

const CLOSED_WAYS: [(u32, Dir, u32, Way); 3] = [
    (0, Dir::Down, 0, Way::Road(0)),
    (1, Dir::Up, 0, Way::Road(1)),
    (2, Dir::Up, 0, Way::Via(0)),
];

const TIE_WAYS: [(u32, Dir, u32, Way); 3] = [
    (0, Dir::Up, 0, Way::Road(2)),
    (0, Dir::Up, 1_000, Way::Road(1)),
    (0, Dir::Up, 2_011, Way::Road(2)),
];

#[test]
fn takes_the_first_way_of_those_that_arrive_earliest(rt: HostRuntime) -> Result<(), Fail> {
    let rows: [(Tables<'_>, &[(u32, Dir, u32, Way)]); 4] = [
        (RUSH_HOUR, &RUSH_WAYS),
        (CLOSED, &CLOSED_WAYS),
        (TIE, &TIE_WAYS),
        (ALIKE, &OWN_WAYS),
    ];
    for (tables, wanted) in rows {
        assert!(rt; are_all(&hierarchy(rt.alloc(), tables)?, wanted));
    }
    Ok(())
}

// What is customized, and the roads of its edges.
#[derive(Clone, Copy)]
struct Parts<'a> {
    network: &'a Network,
    graph: &'a Chordal,
    arcs: &'a EdgeArcs,
}

// The list of an edge in a direction, settled by words over these functions of lists, once its triangles are found.
fn settle(
    alloc: Global,
    parts: &Parts<'_>,
    settling: &mut PackedSettling,
    functions: LayeredFunctions<'_>,
    edge: u32,
    dir: Dir,
) -> Result<Option<SettledRuns>, NoMemory>
    requires edge { edge < length parts.now.graph.now.edges }
    requires arcs { (o : OrderValue) × AreEdgeArcs parts.now.network.now o
        parts.now.graph.now.edges parts.now.arcs.now }
    requires functions { length functions ≡ 2 * length parts.now.graph.now.edges }
{
    settling.find(parts.graph, edge)?;
    let shortcut = Shortcut { edge, dir };
    settling.settle(
        alloc,
        parts.network,
        parts.graph,
        parts.arcs,
        functions,
        shortcut,
    )
}

// So many lists without a function.
fn no_functions(alloc: Global, count: usize) -> Result<Vec<Option<DayFunction>>, NoMemory>
    ensures { IfOk result (λ functions. length functions.items ≡ count) }
{
    let mut functions = Vec::new(alloc);
    for _ in 0..count {
        functions.push(None)?;
    }
    Ok(functions)
}

// Is the list with this number, settled by words, the built one? Its function is among the functions then.
fn is_settled(
    alloc: Global,
    parts: &Parts<'_>,
    list: &WayList,
    number: usize,
    settling: &mut PackedSettling,
    functions: &mut [Option<DayFunction>],
) -> Result<bool, NoMemory>
    requires number { number < 2 * length parts.now.graph.now.edges }
    requires arcs { (o : OrderValue) × AreEdgeArcs parts.now.network.now o
        parts.now.graph.now.edges parts.now.arcs.now }
    requires functions { length functions.old ≡ 2 * length parts.now.graph.now.edges }
{
    let _edges = parts.graph.edges();
    let dir = if number % 2 == 0 { Dir::Up } else { Dir::Down };
    let older = LayeredFunctions::of(functions);
    let settled = settle(alloc, parts, settling, older, (number / 2) as u32, dir)?;
    let Some(settled) = settled else {
        return Ok(false);
    };
    let same = settled.ways.entries() == list.entries();
    functions[number] = settled.function;
    Ok(same)
}

// Are these the lists of all edges, settled by words one after the other?
fn are_settled(alloc: Global, parts: &Parts<'_>, lists: &[WayList]) -> Result<bool, NoMemory>
    requires lists { length lists.now ≡ 2 * length parts.now.graph.now.edges }
    requires arcs { (o : OrderValue) × AreEdgeArcs parts.now.network.now o
        parts.now.graph.now.edges parts.now.arcs.now }
{
    let mut settling = PackedSettling::new(alloc, parts.network)?;
    let mut functions = no_functions(alloc, lists.len())?;
    'lists: for number in 0..lists.len() {
        let list = &lists[number];
        if !is_settled(alloc, parts, list, number, &mut settling, &mut functions)? {
            return Ok(false);
        }
    }
    Ok(true)
}

// By words, from the functions of the lists before it, each list is the same.
fn settles_built(
    rt: &impl Abort,
    alloc: Global,
    ranked: &Ranked,
    graph: &Chordal,
) -> Result<(), Fail>
    requires same { length ranked.now.order.node_at ≡ ranked.now.network.nodes }
    requires closed { IsClosureOf ranked.now.network ranked.now.order graph.now }
{
    let arcs = EdgeArcs::of(alloc, &ranked.network, &ranked.order, graph)?;
    let lists = built_lists(alloc, &ranked.network, &ranked.order, graph)?;
    let parts = Parts {
        network: &ranked.network,
        graph,
        arcs: &arcs,
    };
    assert!(rt; graph.edges() == 3);
    assert!(rt; lists.len() == 6);
    assert!(rt; are_settled(alloc, &parts, &lists)?);
    Ok(())
}

#[test]
fn settles_by_words_what_is_built(rt: HostRuntime) -> Result<(), Fail> {
    let ranked = Ranked::of(rt.alloc(), RANKED)?;
    let graph = close(rt.alloc(), &ranked.network, &ranked.order)?;
    settles_built(&rt, rt.alloc(), &ranked, &graph)
}

// The ranked roads, which take as long all day.
const STEADY: Tables<'static> = Tables {
    profiles: b"profile,from,kind,value\n0,0,travel,60\n1,0,travel,100\n2,0,travel,250\n",
    ..RANKED
};

// Does the straight list take this way all day, settled over these functions?
fn takes_over(
    alloc: Global,
    parts: &Parts<'_>,
    settling: &mut PackedSettling,
    functions: LayeredFunctions<'_>,
    way: Way,
) -> Result<bool, NoMemory>
    requires edges { length parts.now.graph.now.edges ≡ 3 }
    requires arcs { (o : OrderValue) × AreEdgeArcs parts.now.network.now o
        parts.now.graph.now.edges parts.now.arcs.now }
    requires functions { length functions ≡ 6 }
{
    let settled = settle(alloc, parts, settling, functions, 2, Dir::Up)?;
    Ok(takes(settled, way))
}

// The first half of the way over the middle has an older function, of 300 seconds, and a newer one, of 60; the second takes 100, and
// the straight road 250. Is that road taken over the older ones, and the middle over the newer one?
fn is_newer_taken(alloc: Global, parts: &Parts<'_>) -> Result<bool, NoMemory>
    requires edges { length parts.now.graph.now.edges ≡ 3 }
    requires arcs { (o : OrderValue) × AreEdgeArcs parts.now.network.now o
        parts.now.graph.now.edges parts.now.arcs.now }
{
    let first = taking(alloc, 300)?;
    let second = taking(alloc, 100)?;
    let older = [None, Some(first), Some(second), None, None, None];
    let newer = [Some(taking(alloc, 60)?)];
    let mut settling = PackedSettling::new(alloc, parts.network)?;
    let all = LayeredFunctions::of(&older);
    let before = takes_over(alloc, parts, &mut settling, all, Way::Road(2))?;
    let all = LayeredFunctions::with_newer(&older, &[0, 1], &newer);
    let after = takes_over(alloc, parts, &mut settling, all, Way::Via(0))?;
    Ok(before && after)
}

#[test]
fn a_newer_function_stands_in_the_place_of_an_older_one(rt: HostRuntime) -> Result<(), Fail> {
    let alloc = rt.alloc();
    let ranked = Ranked::of(alloc, STEADY)?;
    let graph = close(alloc, &ranked.network, &ranked.order)?;
    let arcs = EdgeArcs::of(alloc, &ranked.network, &ranked.order, &graph)?;
    assert!(rt; graph.edges() == 3);
    let parts = Parts {
        network: &ranked.network,
        graph: &graph,
        arcs: &arcs,
    };
    assert!(rt; is_newer_taken(alloc, &parts)?);
    Ok(())
}

// Is this way taken all day?
fn takes(settled: Option<SettledRuns>, way: Way) -> bool {
    match settled {
        Some(settled) => settled.ways.entries() == [Entry { from: 0, way }].as_slice(),
        None => false,
    }
}
