//! Edits whose touched edges were found by hand.

ghost use Rattle.std.specs.Prelude.{◌≡◌, ◌<◌, IfOk, OnOk, length};
ghost use Rattle.cu_model.specs.Edits.{IsEditInRange};
ghost use Rattle.cu_interval.specs.EdgeArcs.{AreEdgeArcs};

use cu_edits::{
    EditGround, EditList, EditSettler, Keeping, plan, plan_all, recustomize, settle_each, touch,
    touch_over,
};
use cu_interval::{Dir, EdgeArcs, Entry, Hierarchy, TouchedEdge, Way, Ways};
use cu_links::RankBuckets;
use cu_model::{Edit, Piece, Profile, Roads, Rule};
use cu_progress::Silent;
use cu_samples::{RANKED, RANKS, ROW, Tables, hierarchy};
use std::alloc::Global;
use std::process::Abort;
use std::test::Fail;

// The profile of one rule all day.
fn always(alloc: Global, rule: Rule) -> Result<Profile, Fail> {
    let piece = Piece { from: 0, rule };
    Ok(Profile::of(vec![in alloc; piece]?)?)
}

// Three nodes with a road from each to each later one, the first with a profile of its own, and a loop with another. Each node is
// its own rank, and edges 0, 1 and 2 join ranks 0 and 1, 0 and 2, and 1 and 2.
const MINUTES: Tables<'static> = Tables {
    roads: b"arc,tail,head,profile\n0,0,1,0\n1,1,2,1\n2,0,2,1\n3,1,1,2\n",
    profiles: b"profile,from,kind,value\n0,0,travel,60\n1,0,travel,60\n2,0,travel,60\n",
    ..RANKED
};

// Does the edit touch exactly these edges?
fn touches(alloc: Global, hierarchy: &Hierarchy, edit: &Edit, wanted: &[u32]) -> Result<bool, Fail>
    requires { IsEditInRange hierarchy.now.network edit.now }
{
    let mut buckets = RankBuckets::new(alloc, hierarchy.nodes(), hierarchy.edges())?;
    let touched = plan(alloc, hierarchy, edit, hierarchy.graph(), &mut buckets)?;
    Ok(touched.as_slice() == wanted)
}

#[test]
fn assigning_touches_the_edge_of_the_road(rt: HostRuntime) -> Result<(), Fail> {
    let alloc = rt.alloc();
    let hierarchy = hierarchy(alloc, MINUTES)?;
    assert!(rt; hierarchy.arcs() == 4 && hierarchy.profiles() == 3);
    let edit = Edit::Assign { arc: 1, profile: 0 };
    assert!(rt; touches(alloc, &hierarchy, &edit, &[2])?);
    Ok(())
}

// Does giving a profile another rule touch exactly these edges?
fn setting_touches(
    alloc: Global,
    hierarchy: &Hierarchy,
    profile: u32,
    wanted: &[u32],
) -> Result<bool, Fail>
    requires { profile < length hierarchy.now.network.profiles }
{
    let pieces = always(alloc, Rule::Travel(60))?;
    touches(alloc, hierarchy, &Edit::Set { profile, pieces }, wanted)
}

// The edges that each profile's roads touch.
const PROFILE_EDGES: [&[u32]; 3] = [&[0, 2], &[1, 2], &[]];

#[test]
fn setting_touches_the_edges_of_roads_and_those_above(rt: HostRuntime) -> Result<(), Fail> {
    let alloc = rt.alloc();
    let hierarchy = hierarchy(alloc, MINUTES)?;
    assert!(rt; hierarchy.profiles() == 3);
    for profile in 0..3u32 {
        assert!(rt; setting_touches(alloc, &hierarchy, profile, PROFILE_EDGES[profile as usize])?);
    }
    Ok(())
}

// The same roads with node 1 below the others. Closing roads 1 and 2 empties the lists of edges 1 and 2.
const LOW_MIDDLE: Tables<'static> = Tables {
    ranks: RANKS,
    ..MINUTES
};

// Road 2 takes 250 seconds, and a minute each along roads 0 and 1 is less.
const SLOW_ROAD: Tables<'static> = Tables {
    roads: b"arc,tail,head,profile\n0,0,1,0\n1,1,2,1\n2,0,2,2\n3,1,1,2\n",
    profiles: b"profile,from,kind,value\n0,0,travel,60\n1,0,travel,60\n2,0,travel,250\n",
    ..LOW_MIDDLE
};

// The way from node 0 to node 2 at second 0: road 2, or over node 1, whose rank is 0, along roads 0 and 1.
fn way(hierarchy: &Hierarchy) -> Option<Way>
    requires { 1 < hierarchy.now.network.nodes }
{
    let edge = hierarchy.edge(1, 2)?;
    hierarchy.way(edge, Dir::Up, 0)
}

// An edge, and the ways that it takes upwards and downwards all day.
type AllDay = (u32, Option<Way>, Option<Way>);

// Is this all that the list says?
fn is_all_day(list: &[Entry], way: Option<Way>) -> bool {
    match way {
        Some(way) => list == [Entry { from: 0, way }].as_slice(),
        None => list.is_empty(),
    }
}

// Are these all the edges and their lists?
fn are_all(lists: &[TouchedEdge], wanted: &[AllDay]) -> bool {
    for (touched, (edge, up, down)) in lists.iter().zip(wanted) {
        if touched.edge != *edge
            || !is_all_day(touched.up.entries(), *up)
            || !is_all_day(touched.down.entries(), *down)
        {
            return false;
        }
    }
    lists.len() == wanted.len()
}

// An edit of a hierarchy, which gives a profile this rule all day, and the roads of the hierarchy's edges.
#[derive(Clone, Copy)]
struct Edited<'a> {
    hierarchy: &'a Hierarchy,
    arcs: &'a EdgeArcs,
    profile: u32,
    rule: Rule,
}

// The edit itself.
fn edit(alloc: Global, edited: Edited<'_>) -> Result<Edit, Fail>
    requires { edited.profile < length edited.hierarchy.now.network.profiles }
    ensures { IfOk result (IsEditInRange edited.entry.hierarchy.now.network) }
{
    let profile = edited.profile;
    let pieces = always(alloc, edited.rule)?;
    Ok(Edit::Set { profile, pieces })
}

// Does the edit settle these lists over functions of nothing?
fn settles_alone(
    alloc: Global,
    edited: Edited<'_>,
    buckets: &mut RankBuckets,
    wanted: &[AllDay],
) -> Result<bool, Fail>
    requires profile { edited.profile < length edited.hierarchy.now.network.profiles }
    requires arcs { AreEdgeArcs edited.hierarchy.now.network edited.hierarchy.now.order
        edited.hierarchy.now.edges edited.arcs.now }
    requires ranks { buckets.old.ranks ≡ edited.hierarchy.now.network.nodes }
    requires edges { length buckets.old.states ≡ length edited.hierarchy.now.edges }
    ensures ranks { OnOk result (buckets.new.ranks ≡ buckets.old.ranks) }
    ensures edges { OnOk result (length buckets.new.states ≡ length buckets.old.states) }
{
    let hierarchy = edited.hierarchy;
    let _edges = hierarchy.edges();
    let edit = edit(alloc, edited)?;
    let graph = hierarchy.graph();
    let touched = touch(alloc, hierarchy, edit, graph, edited.arcs, buckets)?;
    Ok(are_all(&touched.lists, wanted))
}

// Does it with what is learned on the way, and is something learned?
fn settles_and_learns(
    alloc: Global,
    edited: Edited<'_>,
    buckets: &mut RankBuckets,
    wanted: &[AllDay],
) -> Result<bool, Fail>
    requires profile { edited.profile < length edited.hierarchy.now.network.profiles }
    requires arcs { AreEdgeArcs edited.hierarchy.now.network edited.hierarchy.now.order
        edited.hierarchy.now.edges edited.arcs.now }
    requires ranks { buckets.old.ranks ≡ edited.hierarchy.now.network.nodes }
    requires edges { length buckets.old.states ≡ length edited.hierarchy.now.edges }
{
    let hierarchy = edited.hierarchy;
    let _edges = hierarchy.edges();
    let ground = EditGround::new(hierarchy.graph(), edited.arcs);
    let mut learned = None;
    let edit = edit(alloc, edited)?;
    let again = touch_over(alloc, hierarchy, edit, ground, buckets, &mut learned)?;
    Ok(learned.is_some() && are_all(&again.lists, wanted))
}

// Does a settler of its edges?
fn settles_by_settler(
    alloc: Global,
    edited: Edited<'_>,
    buckets: &mut RankBuckets,
    wanted: &[AllDay],
) -> Result<bool, Fail>
    requires profile { edited.profile < length edited.hierarchy.now.network.profiles }
    requires arcs { AreEdgeArcs edited.hierarchy.now.network edited.hierarchy.now.order
        edited.hierarchy.now.edges edited.arcs.now }
    requires ranks { buckets.old.ranks ≡ edited.hierarchy.now.network.nodes }
    requires edges { length buckets.old.states ≡ length edited.hierarchy.now.edges }
{
    let hierarchy = edited.hierarchy;
    let _edges = hierarchy.edges();
    let edit = edit(alloc, edited)?;
    let graph = hierarchy.graph();
    let mut settler = EditSettler::new(alloc, hierarchy, &edit, graph, edited.arcs)?;
    let lists = recustomize(alloc, hierarchy, &edit, graph, buckets, &mut settler)?;
    Ok(are_all(&lists, wanted))
}

// Does a settler for a list of it alone, which keeps these functions, without giving up?
fn settles_together(
    alloc: Global,
    edited: Edited<'_>,
    keeping: Keeping,
    wanted: &[AllDay],
) -> Result<bool, Fail>
    requires profile { edited.profile < length edited.hierarchy.now.network.profiles }
    requires arcs { AreEdgeArcs edited.hierarchy.now.network edited.hierarchy.now.order
        edited.hierarchy.now.edges edited.arcs.now }
{
    let hierarchy = edited.hierarchy;
    let _edges = hierarchy.edges();
    let graph = hierarchy.graph();
    let mut edits = EditList::new(alloc, hierarchy)?;
    let edit = edit(alloc, edited)?;
    plan_all(alloc, hierarchy, &mut edits, edit, graph)?;
    let edges = edits.touched(alloc, graph.edges())?;
    let ground = EditGround::new(graph, edited.arcs);
    let mut settler = EditSettler::over_all(alloc, hierarchy, &edits, ground, keeping);
    settle_each(alloc, &edges, &mut settler, &mut Silent)?;
    let gave_up = settler.gave_up();
    let lists = settler.into_settled();
    Ok(!gave_up && are_all(&lists, wanted))
}

// The roads of a hierarchy's edges.
fn edge_arcs(alloc: Global, hierarchy: &Hierarchy) -> Result<EdgeArcs, Fail>
    ensures { IfOk result (AreEdgeArcs hierarchy.now.network hierarchy.now.order
        hierarchy.now.edges) }
{
    let _edges = hierarchy.edges();
    let graph = hierarchy.graph();
    let arcs = EdgeArcs::of(alloc, hierarchy, hierarchy.order(), graph)?;
    Ok(arcs)
}

// Does an edit settle these lists, by itself and as one of several, one after the other with the same buckets?
fn settles_twice(
    alloc: Global,
    hierarchy: &Hierarchy,
    profile: u32,
    rule: Rule,
    wanted: &[AllDay],
) -> Result<bool, Fail>
    requires { profile < length hierarchy.now.network.profiles }
{
    let arcs = edge_arcs(alloc, hierarchy)?;
    let edited = Edited {
        hierarchy,
        arcs: &arcs,
        profile,
        rule,
    };
    let mut buckets = RankBuckets::new(alloc, hierarchy.nodes(), hierarchy.edges())?;
    let alone = settles_alone(alloc, edited, &mut buckets, wanted)?;
    let again = settles_and_learns(alloc, edited, &mut buckets, wanted)?;
    Ok(alone && again)
}

// Does a settler of the edges that it touches?
fn settles(
    alloc: Global,
    hierarchy: &Hierarchy,
    profile: u32,
    rule: Rule,
    wanted: &[AllDay],
) -> Result<bool, Fail>
    requires { profile < length hierarchy.now.network.profiles }
{
    let arcs = edge_arcs(alloc, hierarchy)?;
    let edited = Edited {
        hierarchy,
        arcs: &arcs,
        profile,
        rule,
    };
    let mut buckets = RankBuckets::new(alloc, hierarchy.nodes(), hierarchy.edges())?;
    settles_by_settler(alloc, edited, &mut buckets, wanted)
}

// The way from node 0 to node 2 before an edit, the edit's profile and rule, and the lists that it settles.
#[derive(Clone, Copy)]
struct Case<'a> {
    before: Way,
    profile: u32,
    rule: Rule,
    wanted: &'a [AllDay],
}

// Once road 0 takes 200 seconds, 260 along roads 0 and 1 is more than the 250 of road 2.
const SLOWER: Case<'static> = Case {
    before: Way::Via(0),
    profile: 0,
    rule: Rule::Travel(200),
    wanted: &[(0, None, Some(Way::Road(0))), (2, Some(Way::Road(2)), None)],
};

// Roads 1 and 2 are closed.
const CLOSED: Case<'static> = Case {
    before: Way::Road(2),
    profile: 1,
    rule: Rule::Closed(0),
    wanted: &[(1, None, None), (2, None, None)],
};

// Is a case as it says, over this hierarchy?
fn settles_touched(
    rt: &impl Abort,
    alloc: Global,
    hierarchy: &Hierarchy,
    case: Case<'_>,
) -> Result<(), Fail> {
    assert!(rt; hierarchy.nodes() == 3 && case.profile < hierarchy.profiles());
    assert_eq!(rt; way(hierarchy), Some(case.before));
    assert!(rt; settles_twice(alloc, hierarchy, case.profile, case.rule, case.wanted)?);
    assert!(rt; settles(alloc, hierarchy, case.profile, case.rule, case.wanted)?);
    Ok(())
}

// Over the hierarchy of these tables?
fn settles_over(
    rt: &impl Abort,
    alloc: Global,
    tables: Tables<'_>,
    case: Case<'_>,
) -> Result<(), Fail> {
    let hierarchy = hierarchy(alloc, tables)?;
    settles_touched(rt, alloc, &hierarchy, case)
}

#[test]
fn touching_settles_the_touched_edges(rt: HostRuntime) -> Result<(), Fail> {
    settles_over(&rt, rt.alloc(), SLOW_ROAD, SLOWER)?;
    settles_over(&rt, rt.alloc(), LOW_MIDDLE, CLOSED)
}

// The roads of a row of nine nodes stay the ways of their edges.
const ROW_LISTS: [AllDay; 8] = [
    (0, Some(Way::Road(0)), None),
    (1, Some(Way::Road(1)), None),
    (2, Some(Way::Road(2)), None),
    (3, Some(Way::Road(3)), None),
    (4, Some(Way::Road(4)), None),
    (5, Some(Way::Road(5)), None),
    (6, Some(Way::Road(6)), None),
    (7, Some(Way::Road(7)), None),
];

#[test]
fn settlers_that_let_go_settle_the_same(rt: HostRuntime) -> Result<(), Fail> {
    let alloc = rt.alloc();
    let hierarchy = hierarchy(alloc, ROW)?;
    assert!(rt; hierarchy.profiles() == 1);
    let arcs = edge_arcs(alloc, &hierarchy)?;
    let edited = Edited {
        hierarchy: &hierarchy,
        arcs: &arcs,
        profile: 0,
        rule: Rule::Travel(90),
    };
    assert!(rt; settles_together(alloc, edited, Keeping::All, &ROW_LISTS)?);
    assert!(rt; settles_together(alloc, edited, Keeping::Needed, &ROW_LISTS)?);
    Ok(())
}
