//! Queries that were worked by hand.

ghost use Rattle.std.specs.Prelude.{◌≡◌, ◌<◌, false, true, IfOk, IfSome, OnOk};
ghost use Rattle.cu_model.specs.declared.limits.TheConstants.{DAY};
ghost use Rattle.cu_elimtree.specs.SweepArcs.{parents_in};
ghost use Rattle.cu_interval.specs.Hierarchies.{IsHierarchyOf};
ghost use Rattle.cu_short.specs.Shortness.{NeverLong};
ghost use Rattle.cu_sweep.specs.Desks.{AreArriving, HoldsFound};

use cu_bounds::NearBounds;
use cu_chordal::Chordal;
use cu_elimtree::Tree;
use cu_interval::{Call, Dir, Ways};
use cu_io::MemorySink;
use cu_model::{DAY, Roads};
use cu_pack::{PackedView, chordal_of};
use cu_samples::{RUSH_HOUR, packed};
use cu_short::RoadCounts;
use cu_sweep::{Found, Ground, Outlook, Question, SweepDesk, led_query, query, route};
use cu_unpack::{Listed, Unpacker, Work};
use std::alloc::Global;
use std::process::Abort;
use std::test::Fail;

// A query between two ranks at a second, what it finds, its calls, the room for telling them, and the roads of its walk.
#[derive(Clone, Copy)]
struct Row<'a> {
    from: u32,
    to: u32,
    second: u32,
    found: Found,
    calls: &'a [(u32, Dir, u64)],
    room: u32,
    roads: &'a [u8],
}

// Are these the calls that were told? None are where they find no room.
fn are_told(calls: Option<&[Call]>, wanted: &[(u32, Dir, u64)], room: u32) -> bool {
    let Some(calls) = calls else {
        return wanted.len() > room as usize;
    };
    if calls.len() != wanted.len() {
        return false;
    }
    for (call, (edge, dir, second)) in calls.iter().zip(wanted) {
        if call.edge != *edge || call.dir != *dir || call.second != *second {
            return false;
        }
    }
    true
}

// A query between two ranks at a second.
#[derive(Clone, Copy)]
struct Asked {
    from: u32,
    to: u32,
    second: u32,
}

// The ways of a packed file with three nodes, their graph, and its tree.
#[derive(Clone, Copy)]
struct Swept<'a> {
    view: &'a PackedView<'a>,
    graph: &'a Chordal,
    tree: &'a Tree,
}

// What the query finds by all its calls; none where it tells others than the row.
fn ask_plainly(
    alloc: Global,
    swept: Swept<'_>,
    desk: &mut SweepDesk,
    asked: Asked,
    row: &Row<'_>,
) -> Result<Option<Found>, Fail>
    requires ranks { (asked.from < 3) × (asked.to < 3) }
    requires second { asked.second < DAY }
    requires nodes { swept.graph.now.ranks ≡ 3 }
    requires graph { IsHierarchyOf swept.graph.now swept.view.now }
    requires tree { swept.tree.now ≡ parents_in swept.graph.now }
    requires desk { desk.old.nodes ≡ 3 }
    ensures desk { OnOk result (desk.new.nodes ≡ 3) }
    ensures holds { IfOk result (λ found. IfSome found (λ some.
        HoldsFound swept.entry.view.now asked.from asked.to asked.second some desk.new)) }
{
    let Asked { from, to, second } = asked;
    let unpacker = Unpacker::new(swept.view, Work::new(alloc, 3)?);
    let mut listed = Listed::new(alloc, unpacker, row.room)?;
    let found = query(swept.tree, swept.graph, desk, &mut listed, from, to, second);
    if are_told(listed.calls(), row.calls, row.room) {
        return Ok(Some(found));
    }
    Ok(None)
}

// Is no walk too long, by the counts of the roads of all lists?
fn is_never_long(alloc: Global, view: &PackedView<'_>) -> Result<bool, Fail>
    ensures { IfOk result (λ never. never ≡ true → NeverLong view.now) }
{
    let mut finder = view.halves_in_turn(alloc)?;
    let roads = RoadCounts::of(alloc, view, &mut finder)?;
    Ok(roads.is_some())
}

// What the query finds where it is led to its end; none where a walk may be too long.
fn ask_led(
    alloc: Global,
    swept: Swept<'_>,
    desk: &mut SweepDesk,
    asked: Asked,
) -> Result<Option<Found>, Fail>
    requires ranks { (asked.from < 3) × (asked.to < 3) }
    requires second { asked.second < DAY }
    requires nodes { swept.graph.now.ranks ≡ 3 }
    requires graph { IsHierarchyOf swept.graph.now swept.view.now }
    requires tree { swept.tree.now ≡ parents_in swept.graph.now }
    requires desk { desk.old.nodes ≡ 3 }
    ensures desk { OnOk result (desk.new.nodes ≡ 3) }
    ensures holds { IfOk result (λ found. IfSome found (λ some.
        HoldsFound swept.entry.view.now asked.from asked.to asked.second some desk.new)) }
{
    let never_long = is_never_long(alloc, swept.view)?;
    if never_long {
        let Asked { from, to, second } = asked;
        let mut outlook = Outlook::new(alloc, 3)?;
        let mut unpacker = Unpacker::new(swept.view, Work::new(alloc, 3)?);
        let bounds = NearBounds::of(alloc, swept.view)?;
        let ground = Ground {
            tree: swept.tree,
            graph: swept.graph,
            bounds: &bounds,
        };
        let found = led_query(
            ground,
            desk,
            &mut outlook,
            &mut unpacker,
            Question { from, to, second },
        );
        return Ok(Some(found));
    }
    Ok(None)
}

// What the query finds, led to its end or by all its calls.
fn ask(
    alloc: Global,
    swept: Swept<'_>,
    desk: &mut SweepDesk,
    asked: Asked,
    row: &Row<'_>,
    is_led: bool,
) -> Result<Option<Found>, Fail>
    requires ranks { (asked.from < 3) × (asked.to < 3) }
    requires second { asked.second < DAY }
    requires nodes { swept.graph.now.ranks ≡ 3 }
    requires graph { IsHierarchyOf swept.graph.now swept.view.now }
    requires tree { swept.tree.now ≡ parents_in swept.graph.now }
    requires desk { desk.old.nodes ≡ 3 }
    ensures desk { OnOk result (desk.new.nodes ≡ 3) }
    ensures holds { IfOk result (λ found. IfSome found (λ some.
        HoldsFound swept.entry.view.now asked.from asked.to asked.second some desk.new)) }
{
    if is_led {
        return ask_led(alloc, swept, desk, asked);
    }
    ask_plainly(alloc, swept, desk, asked, row)
}

// Does the route write these roads?
fn writes(
    alloc: Global,
    view: &PackedView<'_>,
    desk: &mut SweepDesk,
    roads: &[u8],
) -> Result<bool, Fail>
    requires nodes { view.now.network.nodes ≡ 3 }
    requires unturned { desk.old.turned ≡ false }
    requires arriving { AreArriving view.now desk.old.calls }
    ensures desk { OnOk result (desk.new.nodes ≡ desk.old.nodes) }
{
    let work = Work::new(alloc, 3)?;
    let mut unpacker = Unpacker::new(view, work);
    let mut sink = MemorySink::new(alloc, 8, Vec::new(alloc))?;
    route(desk, &mut unpacker, &mut sink)?;
    Ok(sink.bytes() == roads)
}

// Does the query find what the row says, tell its calls where it isn't led, and write its roads?
fn is_right(
    alloc: Global,
    swept: Swept<'_>,
    desk: &mut SweepDesk,
    row: Row<'_>,
    is_led: bool,
) -> Result<bool, Fail>
    requires nodes { swept.graph.now.ranks ≡ 3 }
    requires graph { IsHierarchyOf swept.graph.now swept.view.now }
    requires tree { swept.tree.now ≡ parents_in swept.graph.now }
    requires desk { desk.old.nodes ≡ 3 }
    ensures desk { OnOk result (desk.new.nodes ≡ 3) }
{
    if row.from >= 3 || row.to >= 3 || row.second >= DAY {
        return Ok(false);
    }
    let query = Asked {
        from: row.from,
        to: row.to,
        second: row.second,
    };
    let asked = ask(alloc, swept, desk, query, &row, is_led)?;
    let Some(found) = asked else {
        return Ok(false);
    };
    if found != row.found {
        return Ok(false);
    }
    match found {
        Found::Arrive(_) => writes(alloc, swept.view, desk, row.roads),
        _ => Ok(row.roads.is_empty()),
    }
}

// Node 0 has rank 1 and node 2 rank 2, so one call upwards is all there is between them; at 35,850 both ways arrive at 36,100,
// and the road goes first. No road leads back. A query to its own start arrives at once, by no road. To node 1, at rank 0, the
// one call downwards comes from rank 1: those from rank 2, over edges without ways, are left out where the other end is reached
// before. In room for three they are told, and in room for one they aren't.
const ROWS: [Row<'static>; 7] = [
    Row {
        from: 1,
        to: 2,
        second: 0,
        found: Found::Arrive(160),
        calls: &[(2, Dir::Up, 0)],
        room: 4,
        roads: b"0 1",
    },
    Row {
        from: 1,
        to: 2,
        second: 28_800,
        found: Found::Arrive(29_050),
        calls: &[(2, Dir::Up, 28_800)],
        room: 4,
        roads: b"2",
    },
    Row {
        from: 1,
        to: 2,
        second: 35_850,
        found: Found::Arrive(36_100),
        calls: &[(2, Dir::Up, 35_850)],
        room: 4,
        roads: b"2",
    },
    Row {
        from: 2,
        to: 1,
        second: 7,
        found: Found::NoWalk,
        calls: &[(2, Dir::Down, 7)],
        room: 4,
        roads: b"",
    },
    Row {
        from: 1,
        to: 1,
        second: 5,
        found: Found::Arrive(5),
        calls: &[(2, Dir::Up, 5)],
        room: 4,
        roads: b"",
    },
    Row {
        from: 1,
        to: 0,
        second: 0,
        found: Found::Arrive(60),
        calls: &[(2, Dir::Up, 0), (0, Dir::Down, 0)],
        room: 3,
        roads: b"0",
    },
    Row {
        from: 1,
        to: 0,
        second: 0,
        found: Found::Arrive(60),
        calls: &[(2, Dir::Up, 0), (0, Dir::Down, 0)],
        room: 1,
        roads: b"0",
    },
];

// Is every row right, by all calls and led, at one desk?
fn all_right(rt: &impl Abort, alloc: Global, swept: Swept<'_>) -> Result<(), Fail>
    requires nodes { swept.graph.now.ranks ≡ 3 }
    requires graph { IsHierarchyOf swept.graph.now swept.view.now }
    requires tree { swept.tree.now ≡ parents_in swept.graph.now }
{
    let mut desk = SweepDesk::new(alloc, 3)?;
    'rows: for row in &ROWS {
        assert!(rt; is_right(alloc, swept, &mut desk, *row, false)?);
        assert!(rt; is_right(alloc, swept, &mut desk, *row, true)?);
    }
    Ok(())
}

// Is it over a packed file?
fn all_right_over(rt: &impl Abort, alloc: Global, view: &PackedView<'_>) -> Result<(), Fail> {
    assert!(rt; view.nodes() == 3);
    let _edges = view.edges();
    let graph = chordal_of(alloc, view)?;
    let tree = Tree::of(alloc, &graph)?;
    let swept = Swept {
        view,
        graph: &graph,
        tree: &tree,
    };
    all_right(rt, alloc, swept)
}

#[test]
fn finds_tells_and_writes(rt: HostRuntime) -> Result<(), Fail> {
    let alloc = rt.alloc();
    let bytes = packed(alloc, RUSH_HOUR)?;
    all_right_over(&rt, alloc, &PackedView::open(alloc, &bytes)?)
}
