//! Arrivals that were worked by hand, asked of one that knows nothing yet and of the same when it does.

ghost use Rattle.std.specs.Prelude.{◌≡◌, ◌<◌, IfOk, length};
ghost use Rattle.cu_interval.specs.Hierarchies.{IsHierarchyOf};
ghost use Rattle.cu_recall.specs.Rooms.{Fits};

use crate::stored::empty_store;
use cu_chordal::Chordal;
use cu_interval::{BoundedWays, Dir, Relaxed, Relaxer, Ways};
use cu_io::{MemorySink, SinkFailed};
use cu_model::{NoMemory, Roads};
use cu_pack::{PackedView, chordal_of};
use cu_recall::{Recall, RecalledWays, Room, SweepRecall};
use cu_samples::{Tables, packed};
use cu_sequences::Sequences;
use cu_unpack::{Unpacker, Work};
use std::alloc::Global;
use std::process::Abort;
use std::test::Fail;

/// Four nodes with the roads 2 -> 0, 0 -> 1, 1 -> 3 and 2 -> 3: a minute; 100 seconds, but 300 from 8:00 and closed from 9:56:40 to
/// 10:01:40; a minute; and 400 seconds. From node 2 to node 3 the way is by node 1, and from node 2 to node 1 by node 0.
pub(crate) const BESIDE: Tables<'static> = Tables {
    nodes: b"node,x,y\n0,0,0\n1,0,0\n2,0,0\n3,0,0\n",
    roads: b"arc,tail,head,profile\n0,2,0,0\n1,0,1,1\n2,1,3,0\n3,2,3,2\n",
    profiles: b"profile,from,kind,value\n0,0,travel,60\n1,0,travel,100\n1,28800,travel,300\n1,35800,until,36100\n1,36000,travel,100\n2,0,travel,400\n",
    ranks: b"0\n1\n2\n3\n",
};

// What is answered over an edge, if there is one with this number.
fn ask<R: Relaxer>(relaxer: &mut R, edges: u32, edge: u32, dir: Dir, second: u32) -> Option<Relaxed>
    requires { edges ≡ length (R.hierarchy relaxer.old).edges }
    ensures { R.hierarchy relaxer.new ≡ R.hierarchy relaxer.old }
{
    if edge < edges {
        Some(relaxer.relax(edge, dir, u64::from(second)))
    } else {
        None
    }
}

// The least bound of an edge, if there is one with this number.
fn least<R: Relaxer>(relaxer: &R, edges: u32, edge: u32, dir: Dir) -> Option<u64>
    requires { edges ≡ length (R.hierarchy relaxer.now).edges }
{
    if edge < edges {
        Some(relaxer.least(edge, dir))
    } else {
        None
    }
}

// Is this what is answered over each of these edges, asked twice?
fn answers<R: Relaxer>(
    rt: &impl Abort,
    relaxer: &mut R,
    edges: u32,
    rows: &[(u32, Dir, u32, Relaxed)],
)
    requires { edges ≡ length (R.hierarchy relaxer.old).edges }
    ensures { R.hierarchy relaxer.new ≡ R.hierarchy relaxer.old }
{
    'rows: for (edge, dir, second, answer) in rows {
        assert_eq!(rt; ask(relaxer, edges, *edge, *dir, *second), Some(*answer));
        assert_eq!(rt; ask(relaxer, edges, *edge, *dir, *second), Some(*answer));
    }
}

// Are these the least bounds of these edges?
fn bounds<R: Relaxer>(rt: &impl Abort, relaxer: &R, edges: u32, rows: &[(u32, Dir, u64)])
    requires { edges ≡ length (R.hierarchy relaxer.now).edges }
{
    for (edge, dir, bound) in rows {
        assert_eq!(rt;
            least(relaxer, edges, *edge, *dir),
            Some(*bound),
            "edge {edge}"
        );
    }
}

// Room that knows nothing, for a hierarchy of this size.
fn fresh(alloc: Global, view: &PackedView<'_>) -> Result<Room, NoMemory>
    ensures fits { IfOk result (λ room. Fits view.now room) }
{
    Room::new(alloc, view.nodes(), view.edges())
}

// The same room, when all is forgotten.
fn forgotten(view: &PackedView<'_>, room: Room) -> Room
    requires fits { Fits view.now room }
    ensures fits { Fits view.now result }
{
    let mut room = room;
    room.forget();
    room
}

// Relaxations that don't remember.
fn unpacker<'a>(
    alloc: Global,
    view: &'a PackedView<'a>,
) -> Result<Unpacker<'a, PackedView<'a>>, NoMemory>
    ensures view { IfOk result (λ unpacker. unpacker ≡ view.now) }
{
    Ok(Unpacker::new(view, Work::new(alloc, view.nodes())?))
}

const REMEMBERED: [(u32, Dir, u32, Relaxed); 12] = [
    (4, Dir::Up, 0, Relaxed::At(220)),
    (4, Dir::Up, 28_739, Relaxed::At(28_959)),
    // By the road beside the others, while the second one is slow.
    (4, Dir::Up, 28_740, Relaxed::At(29_140)),
    (4, Dir::Up, 35_739, Relaxed::At(36_139)),
    // The second road is closed until 36,100.
    (4, Dir::Up, 35_800, Relaxed::At(36_160)),
    (4, Dir::Up, 35_939, Relaxed::At(36_160)),
    (4, Dir::Up, 35_940, Relaxed::At(36_160)),
    // The second road is driven on the next day.
    (4, Dir::Up, 86_390, Relaxed::At(86_610)),
    (4, Dir::Up, 115_139, Relaxed::At(115_359)),
    (4, Dir::Up, 115_140, Relaxed::At(115_540)),
    (2, Dir::Down, 86_410, Relaxed::At(86_570)),
    (2, Dir::Up, 86_410, Relaxed::NoWay),
];

fn unpacks(rt: &impl Abort, alloc: Global, view: &PackedView<'_>) -> Result<(), Fail> {
    let mut unpacker = unpacker(alloc, view)?;
    answers(rt, &mut unpacker, view.edges(), &REMEMBERED);
    Ok(())
}

// Is this what is answered by what remembers in this room? The room with what it then knows.
fn recalled(
    rt: &impl Abort,
    alloc: Global,
    view: &PackedView<'_>,
    graph: &Chordal,
    room: Room,
    rows: &[(u32, Dir, u32, Relaxed)],
) -> Room
    requires graph { IsHierarchyOf graph.now view.now }
    requires fits { Fits view.now room }
    ensures fits { Fits view.now result }
{
    let edges = view.edges();
    let none = Sequences::none(alloc);
    let empty = empty_store(alloc, view);
    let mut recall = Recall::new(view, graph, &none, &empty, room);
    answers(rt, &mut recall, edges, rows);
    recall.into_room()
}

// The room that knows the answers forgets them.
fn remembers_in(
    rt: &impl Abort,
    alloc: Global,
    view: &PackedView<'_>,
    graph: &Chordal,
) -> Result<(), Fail>
    requires graph { IsHierarchyOf graph.now view.now }
{
    let room = recalled(rt, alloc, view, graph, fresh(alloc, view)?, &REMEMBERED);
    let room = forgotten(view, room);
    let last = [(4, Dir::Up, 28_740, Relaxed::At(29_140))];
    recalled(rt, alloc, view, graph, room, &last);
    Ok(())
}

fn remembers(rt: &impl Abort, alloc: Global, view: &PackedView<'_>) -> Result<(), Fail> {
    let graph = chordal_of(alloc, view)?;
    let _edges = view.edges();
    remembers_in(rt, alloc, view, &graph)
}

#[test]
fn remembers_what_is_so(rt: HostRuntime) -> Result<(), Fail> {
    let alloc = rt.alloc();
    let bytes = packed(alloc, BESIDE)?;
    let view = PackedView::open(alloc, &bytes)?;
    unpacks(&rt, alloc, &view)?;
    remembers(&rt, alloc, &view)
}

// The list from node 2 to 1 is edge 2 downwards: inside its latest span, at the end of it and behind it, and so on the next day.
const SPANS: [(u32, Dir, u32, Relaxed); 13] = [
    (2, Dir::Down, 0, Relaxed::At(160)),
    (2, Dir::Down, 28_739, Relaxed::At(28_899)),
    (2, Dir::Down, 28_740, Relaxed::At(29_100)),
    (2, Dir::Down, 35_739, Relaxed::At(36_099)),
    // The second road is closed until 36,100.
    (2, Dir::Down, 35_740, Relaxed::At(36_100)),
    (2, Dir::Down, 35_741, Relaxed::At(36_100)),
    (2, Dir::Down, 35_940, Relaxed::At(36_100)),
    (2, Dir::Down, 35_941, Relaxed::At(36_101)),
    // The second road is driven on the next day.
    (2, Dir::Down, 86_399, Relaxed::At(86_559)),
    (2, Dir::Down, 115_139, Relaxed::At(115_299)),
    (2, Dir::Down, 115_140, Relaxed::At(115_500)),
    (0, Dir::Down, 0, Relaxed::NoWay),
    (4, Dir::Up, 28_740, Relaxed::At(29_140)),
];

// Is this what a sweep in this room answers that leaves at this second? The room with what it then knows.
fn kept(
    rt: &impl Abort,
    view: &PackedView<'_>,
    graph: &Chordal,
    room: Room,
    second: u32,
    rows: &[(u32, Dir, u32, Relaxed)],
) -> Room
    requires graph { IsHierarchyOf graph.now view.now }
    requires fits { Fits view.now room }
    ensures fits { Fits view.now result }
{
    let edges = view.edges();
    let mut sweep = SweepRecall::new(view, graph, room, second);
    answers(rt, &mut sweep, edges, rows);
    sweep.into_room()
}

// The one of a sweep answers them also when it has forgotten all.
fn keeps_in_sweeps(rt: &impl Abort, view: &PackedView<'_>, graph: &Chordal, room: Room)
    requires graph { IsHierarchyOf graph.now view.now }
    requires fits { Fits view.now room }
{
    let room = kept(rt, view, graph, room, 0, &SPANS);
    let room = forgotten(view, room);
    let last = [(2, Dir::Down, 28_740, Relaxed::At(29_100))];
    kept(rt, view, graph, room, 28_740, &last);
}

// Both that remember answer them.
fn keeps_in_both(
    rt: &impl Abort,
    alloc: Global,
    view: &PackedView<'_>,
    graph: &Chordal,
) -> Result<(), Fail>
    requires graph { IsHierarchyOf graph.now view.now }
{
    recalled(rt, alloc, view, graph, fresh(alloc, view)?, &SPANS);
    keeps_in_sweeps(rt, view, graph, fresh(alloc, view)?);
    Ok(())
}

fn keeps_spans(rt: &impl Abort, alloc: Global, view: &PackedView<'_>) -> Result<(), Fail> {
    let graph = chordal_of(alloc, view)?;
    let _edges = view.edges();
    keeps_in_both(rt, alloc, view, &graph)
}

#[test]
fn keeps_the_latest_span(rt: HostRuntime) -> Result<(), Fail> {
    let alloc = rt.alloc();
    let bytes = packed(alloc, BESIDE)?;
    let view = PackedView::open(alloc, &bytes)?;
    keeps_spans(&rt, alloc, &view)
}

// Are these the least bound of the list from node 2 to 1 and its answers, before the slow hours and in them?
fn is_swept(sweep: &mut SweepRecall<'_>, edges: u32) -> bool
    requires { edges ≡ length sweep.old.edges }
    ensures { sweep.new ≡ sweep.old }
{
    let bound = least(sweep, edges, 2, Dir::Down);
    let early = ask(sweep, edges, 2, Dir::Down, 28_739);
    let late = ask(sweep, edges, 2, Dir::Down, 28_740);
    bound == Some(160) && early == Some(Relaxed::At(28_899)) && late == Some(Relaxed::At(29_100))
}

// What a sweep in this room answers over the list from node 2 to 1, that leaves at this second. The room that it leaves behind.
fn swept(rt: &impl Abort, view: &PackedView<'_>, graph: &Chordal, room: Room, second: u32) -> Room
    requires graph { IsHierarchyOf graph.now view.now }
    requires fits { Fits view.now room }
    ensures fits { Fits view.now result }
{
    let edges = view.edges();
    let mut sweep = SweepRecall::new(view, graph, room, second);
    assert!(rt; is_swept(&mut sweep, edges));
    sweep.into_room()
}

// The list is asked by sweeps that leave in each third of the day, one after another in the same room.
fn sweep_thirds(
    rt: &impl Abort,
    alloc: Global,
    view: &PackedView<'_>,
    graph: &Chordal,
) -> Result<(), Fail>
    requires graph { IsHierarchyOf graph.now view.now }
{
    let room = swept(rt, view, graph, fresh(alloc, view)?, 28_799);
    let room = swept(rt, view, graph, room, 28_800);
    swept(rt, view, graph, room, 57_600);
    Ok(())
}

fn answers_in_thirds(rt: &impl Abort, alloc: Global, view: &PackedView<'_>) -> Result<(), Fail> {
    let graph = chordal_of(alloc, view)?;
    let _edges = view.edges();
    sweep_thirds(rt, alloc, view, &graph)
}

#[test]
fn answers_the_same_in_each_third(rt: HostRuntime) -> Result<(), Fail> {
    let alloc = rt.alloc();
    let bytes = packed(alloc, BESIDE)?;
    let view = PackedView::open(alloc, &bytes)?;
    answers_in_thirds(&rt, alloc, &view)
}

// The lists from node 0 to 1, 2 to 0, 2 to 1, 1 to 3 and 2 to 3, and two without ways.
const LEAST: [(u32, Dir, u64); 7] = [
    (0, Dir::Up, 100),
    (1, Dir::Down, 60),
    (2, Dir::Down, 160),
    (3, Dir::Up, 60),
    (4, Dir::Up, 220),
    (2, Dir::Up, 1 << 60),
    (0, Dir::Down, 1 << 60),
];

fn unpacker_knows(rt: &impl Abort, alloc: Global, view: &PackedView<'_>) -> Result<(), Fail> {
    let unpacker = unpacker(alloc, view)?;
    bounds(rt, &unpacker, view.edges(), &LEAST);
    Ok(())
}

fn recall_knows(rt: &impl Abort, alloc: Global, view: &PackedView<'_>, graph: &Chordal, room: Room)
    requires graph { IsHierarchyOf graph.now view.now }
    requires fits { Fits view.now room }
{
    let edges = view.edges();
    let none = Sequences::none(alloc);
    let empty = empty_store(alloc, view);
    let recall = Recall::new(view, graph, &none, &empty, room);
    bounds(rt, &recall, edges, &LEAST);
}

fn sweep_knows(rt: &impl Abort, view: &PackedView<'_>, graph: &Chordal, room: Room)
    requires graph { IsHierarchyOf graph.now view.now }
    requires fits { Fits view.now room }
{
    let edges = view.edges();
    let sweep = SweepRecall::new(view, graph, room, 0);
    bounds(rt, &sweep, edges, &LEAST);
}

fn both_know(
    rt: &impl Abort,
    alloc: Global,
    view: &PackedView<'_>,
    graph: &Chordal,
) -> Result<(), Fail>
    requires graph { IsHierarchyOf graph.now view.now }
{
    recall_knows(rt, alloc, view, graph, fresh(alloc, view)?);
    sweep_knows(rt, view, graph, fresh(alloc, view)?);
    Ok(())
}

fn knows_bounds(rt: &impl Abort, alloc: Global, view: &PackedView<'_>) -> Result<(), Fail> {
    unpacker_knows(rt, alloc, view)?;
    let graph = chordal_of(alloc, view)?;
    let _edges = view.edges();
    both_know(rt, alloc, view, &graph)
}

#[test]
fn knows_the_least_bounds(rt: HostRuntime) -> Result<(), Fail> {
    let alloc = rt.alloc();
    let bytes = packed(alloc, BESIDE)?;
    let view = PackedView::open(alloc, &bytes)?;
    knows_bounds(&rt, alloc, &view)
}

// Room in which the way upwards over edge 4 at this second was met.
fn met(alloc: Global, view: &PackedView<'_>, graph: &Chordal, room: Room, second: u32) -> Room
    requires graph { IsHierarchyOf graph.now view.now }
    requires fits { Fits view.now room }
    requires edge { 4 < length view.now.edges }
    ensures fits { Fits view.now result }
{
    let none = Sequences::none(alloc);
    let empty = empty_store(alloc, view);
    let mut recall = Recall::new(view, graph, &none, &empty, room);
    recall.relax(4, Dir::Up, u64::from(second));
    recall.into_room()
}

// Writes the walk upwards over edge 4, if there is one.
fn write_walk<W: BoundedWays>(
    ways: &W,
    work: Work,
    second: u32,
    sink: &mut MemorySink,
) -> Result<(), SinkFailed>
    requires edge { 4 < length (W.Ways.hierarchy ways.now).edges }
    requires work { work ≡ (W.Ways.hierarchy ways.now).network.nodes }
{
    let mut unpacker = Unpacker::new(ways, work);
    if let Relaxed::At(_) = unpacker.relax(4, Dir::Up, u64::from(second)) {
        unpacker.walk(4, Dir::Up, u64::from(second), true, sink)?;
    }
    Ok(())
}

// Are these the roads that are written of it?
fn is_walk<W: BoundedWays>(alloc: Global, ways: &W, second: u32, roads: &[u8]) -> Result<bool, Fail>
    requires edge { 4 < length (W.Ways.hierarchy ways.now).edges }
{
    let mut sink = MemorySink::new(alloc, 8, Vec::new(alloc))?;
    let work = Work::new(alloc, ways.nodes())?;
    write_walk(ways, work, second, &mut sink)?;
    Ok(sink.bytes() == roads)
}

// Are they written so by what this room knows?
fn writes_in(
    alloc: Global,
    view: &PackedView<'_>,
    graph: &Chordal,
    room: &Room,
    second: u32,
    roads: &[u8],
) -> Result<bool, Fail>
    requires graph { IsHierarchyOf graph.now view.now }
    requires fits { Fits view.now room.now }
    requires edge { 4 < length view.now.edges }
{
    let ways = RecalledWays::new(view, graph, room.rows());
    is_walk(alloc, &ways, second, roads)
}

// Are they written so by room in which the way at another second was met?
fn writes_of(
    alloc: Global,
    view: &PackedView<'_>,
    graph: &Chordal,
    other: u32,
    second: u32,
    roads: &[u8],
) -> Result<bool, Fail>
    requires graph { IsHierarchyOf graph.now view.now }
    requires edge { 4 < length view.now.edges }
{
    let room = met(alloc, view, graph, fresh(alloc, view)?, other);
    writes_in(alloc, view, graph, &room, second, roads)
}

fn writes_as_met(
    alloc: Global,
    view: &PackedView<'_>,
    other: u32,
    second: u32,
    roads: &[u8],
) -> Result<bool, Fail>
    requires edge { 4 < length view.now.edges }
{
    let graph = chordal_of(alloc, view)?;
    let _edges = view.edges();
    writes_of(alloc, view, &graph, other, second, roads)
}

// And by the bytes alone?
fn writes(
    alloc: Global,
    view: &PackedView<'_>,
    other: u32,
    second: u32,
    roads: &[u8],
) -> Result<bool, Fail> {
    if view.edges() < 5 {
        return Ok(false);
    }
    Ok(writes_as_met(alloc, view, other, second, roads)? && is_walk(alloc, view, second, roads)?)
}

// The way that is met at midnight is in force until before 28,740.
fn writes_all(alloc: Global, view: &PackedView<'_>) -> Result<bool, Fail> {
    Ok(
        writes(alloc, view, 0, 28_739, b"0 1 2")?
            && writes(alloc, view, 0, 28_740, b"3")?
            && writes(alloc, view, 28_740, 28_741, b"3")?,
    )
}

#[test]
fn writes_what_was_met(rt: HostRuntime) -> Result<(), Fail> {
    let alloc = rt.alloc();
    let bytes = packed(alloc, BESIDE)?;
    let view = PackedView::open(alloc, &bytes)?;
    assert!(rt; writes_all(alloc, &view)?);
    Ok(())
}
