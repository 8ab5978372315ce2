//! Functions of lists that are made from those of their halves and kept in a store: beside values that were worked by hand, and beside
//! relaxations without it.

ghost use Rattle.std.specs.Prelude.{◌≡◌, ◌<◌, ◌*◌, IfOk, OnOk, length, true};
ghost use Rattle.cu_interval.specs.Hierarchies.{IsHierarchy};
ghost use Rattle.cu_short.specs.Shortness.{NeverLong};
ghost use Rattle.cu_store.specs.Known.{Knows};

use crate::recalls::BESIDE;
use cu_brief::brief_of;
use cu_filling::{Made, Scratch, make_list};
use cu_interval::{Dir, Relaxed, Relaxer, Shortcut, Ways};
use cu_model::{DAY, NoMemory, Roads};
use cu_pack::PackedView;
use cu_runs::PackedRun;
use cu_samples::{BUILT, ROW, RUSH_HOUR, Tables, later, packed};
use cu_short::RoadCounts;
use cu_store::{Found, Store};
use cu_stored::Stored;
use cu_unpack::{Unpacker, Work};
use std::alloc::Global;
use std::test::Fail;

// Is no walk too long, by the counts of the roads of all lists?
fn is_never_long(alloc: Global, view: &PackedView<'_>) -> Result<bool, Fail>
    ensures { IfOk result (λ never. never ≡ true → NeverLong view.now) }
{
    let mut finder = view.halves_in_turn(alloc)?;
    let roads = RoadCounts::of(alloc, view, &mut finder)?;
    Ok(roads.is_some())
}

// Makes both lists of an edge, as far as they can be made, and adds what that came to.
fn make_both(
    view: &PackedView<'_>,
    store: &mut Store,
    scratch: &mut Scratch,
    made: &mut Vec<Made>,
    edge: u32,
) -> Result<(), NoMemory>
    requires sound { IsHierarchy view.now }
    requires never { NeverLong view.now }
    requires edge { edge < length view.now.edges }
    requires size { length store.old.known ≡ 2 * length view.now.edges }
    requires knows { Knows view.now store.old.known }
    requires room { 0 < store.old.room }
    ensures size { OnOk result (length store.new.known ≡ 2 * length view.now.edges) }
    ensures knows { OnOk result (Knows view.now store.new.known) }
    ensures room { OnOk result (0 < store.new.room) }
{
    let (up, down) = (Dir::Up, Dir::Down);
    made.push(make_list(view, store, scratch, Shortcut { edge, dir: up })?)?;
    made.push(make_list(view, store, scratch, Shortcut { edge, dir: down })?)?;
    Ok(())
}

// Makes all lists so, by rising number.
fn make_all(
    view: &PackedView<'_>,
    store: &mut Store,
    scratch: &mut Scratch,
    made: &mut Vec<Made>,
    edges: u32,
) -> Result<(), NoMemory>
    requires known { edges ≡ length view.now.edges }
    requires sound { IsHierarchy view.now }
    requires never { NeverLong view.now }
    requires size { length store.old.known ≡ 2 * length view.now.edges }
    requires knows { Knows view.now store.old.known }
    requires room { 0 < store.old.room }
    ensures size { OnOk result (length store.new.known ≡ 2 * length view.now.edges) }
    ensures knows { OnOk result (Knows view.now store.new.known) }
{
    'edges: for edge in 0..edges {
        make_both(view, store, scratch, made, edge)?;
    }
    Ok(())
}

/// A store that knows nothing of a file's lists.
pub(crate) fn empty_store(alloc: Global, view: &PackedView<'_>) -> Store
    ensures size { length result.known ≡ 2 * length view.now.edges }
    ensures knows { Knows view.now result.known }
{
    Store::without_room(alloc, 2 * view.edges() as usize)
}

// Makes all lists of a file in a store that knows nothing.
fn filled_store(alloc: Global, view: &PackedView<'_>, edges: u32) -> Result<Store, NoMemory>
    requires known { edges ≡ length view.now.edges }
    requires sound { IsHierarchy view.now }
    requires never { NeverLong view.now }
    ensures size { IfOk result (λ store. length store.known ≡ 2 * length view.now.edges) }
    ensures knows { IfOk result (λ store. Knows view.now store.known) }
{
    let mut scratch = Scratch::new(alloc)?;
    let mut made = Vec::new(alloc);
    let mut store = Store::new(alloc, 2 * edges as usize, 1_000)?;
    make_all(view, &mut store, &mut scratch, &mut made, edges)?;
    Ok(store)
}

/// A store that knows the functions of a file's lists, or nothing of them where a walk may be too long.
pub(crate) fn made_store(alloc: Global, view: &PackedView<'_>) -> Result<Store, Fail>
    ensures size { IfOk result (λ store. length store.known ≡ 2 * length view.now.edges) }
    ensures knows { IfOk result (λ store. Knows view.now store.known) }
{
    if !is_never_long(alloc, view)? {
        return Ok(empty_store(alloc, view));
    }
    let edges = view.edges();
    Ok(filled_store(alloc, view, edges)?)
}

// What is found of a list at a second of the day, if there is one with this number.
fn found(store: &Store, lists: usize, list: usize, second: u32) -> Option<Found>
    requires { lists ≡ length store.now.known }
{
    if list < lists && second < DAY {
        Some(store.value(list, second))
    } else {
        None
    }
}

// A list, a second, and what is found of it then.
type Value = (usize, u32, Found);

// Are these found?
fn are_found(store: &Store, lists: usize, rows: &[Value]) -> bool
    requires { lists ≡ length store.now.known }
{
    for (list, second, wanted) in rows {
        if found(store, lists, *list, *second) != Some(*wanted) {
            return false;
        }
    }
    true
}

// Is this a run in four bytes, above a base?
fn is_brief(run: PackedRun, base: u32, bits: u32) -> bool {
    run.from() < u64::from(DAY) && brief_of(run, base) == Some(bits)
}

// Are these, and the end, the runs that are known of a list?
fn has_runs(store: &Store, lists: usize, list: usize, runs: &[PackedRun]) -> bool
    requires { lists ≡ length store.now.known }
{
    if list >= lists {
        return false;
    }
    let Some(brief) = store.brief(list) else {
        return false;
    };
    let count = brief.runs.len();
    let mut same = count < runs.len() && runs[count..] == [PackedRun::end()];
    'runs: for index in 0..count.min(runs.len()) {
        same &= is_brief(runs[index], brief.base, brief.runs[index]);
    }
    same
}

// Does a store answer as another relaxer does?
fn is_same(
    plain: &mut Unpacker<'_, PackedView<'_>>,
    stored: &mut Stored<'_, Unpacker<'_, PackedView<'_>>>,
    edge: u32,
    dir: Dir,
    at: u64,
) -> bool
    requires same { stored.old ≡ plain.old }
    requires edge { edge < length plain.old.edges }
    ensures plain { plain.new ≡ plain.old }
    ensures stored { stored.new ≡ stored.old }
{
    if at >= 1 << 60 {
        return false;
    }
    let answer = plain.relax(edge, dir, at);
    stored.relax(edge, dir, at) == answer && answer != Relaxed::Long
}

// On both sides of midnight, of where profiles and ways change, and of the day after.
const SECONDS: [u64; 16] = [
    0,
    1,
    1_999,
    28_739,
    28_740,
    28_800,
    35_800,
    35_851,
    35_941,
    36_000,
    51_800,
    70_015,
    86_399,
    86_400,
    115_140,
    1_000_000_007,
];

// Does it at each of the seconds?
fn are_same(
    plain: &mut Unpacker<'_, PackedView<'_>>,
    stored: &mut Stored<'_, Unpacker<'_, PackedView<'_>>>,
    edge: u32,
    dir: Dir,
) -> bool
    requires same { stored.old ≡ plain.old }
    requires edge { edge < length plain.old.edges }
    ensures plain { plain.new ≡ plain.old }
    ensures stored { stored.new ≡ stored.old }
{
    let mut same = true;
    'seconds: for at in &SECONDS {
        same &= is_same(plain, stored, edge, dir, *at);
    }
    same
}

// Over each edge, in both directions?
fn same_over_edges(
    plain: &mut Unpacker<'_, PackedView<'_>>,
    stored: &mut Stored<'_, Unpacker<'_, PackedView<'_>>>,
    edges: u32,
) -> bool
    requires same { stored.old ≡ plain.old }
    requires known { edges ≡ length plain.old.edges }
{
    let mut same = true;
    'edges: for edge in 0..edges {
        same &= are_same(plain, stored, edge, Dir::Up);
        same &= are_same(plain, stored, edge, Dir::Down);
    }
    same
}

// Relaxations that know nothing.
fn unpacker<'a>(
    alloc: Global,
    view: &'a PackedView<'a>,
) -> Result<Unpacker<'a, PackedView<'a>>, NoMemory>
    ensures view { IfOk result (λ unpacker. unpacker ≡ view.now) }
{
    Ok(Unpacker::new(view, Work::new(alloc, view.nodes())?))
}

// Are the answers by what a store knows those without it, and is each asked once?
fn answers_alike(alloc: Global, view: &PackedView<'_>, store: &Store) -> Result<bool, NoMemory>
    requires sound { IsHierarchy view.now }
    requires size { length store.now.known ≡ 2 * length view.now.edges }
    requires knows { Knows view.now store.now.known }
{
    let edges = view.edges();
    let mut plain = unpacker(alloc, view)?;
    let other = unpacker(alloc, view)?;
    let mut stored = Stored::new(store, other);
    let same = same_over_edges(&mut plain, &mut stored, edges);
    Ok(same && u64::from(stored.asked()) == 32 * u64::from(edges))
}

// What is wanted of the lists of a file, with room for so many runs.
#[derive(Clone, Copy)]
struct Case<'a> {
    room: u32,
    made: &'a [Made],
    values: &'a [Value],
    list: usize,
    runs: &'a [PackedRun],
}

// Is it so of a store in which all were made?
fn is_as_wanted(
    alloc: Global,
    view: &PackedView<'_>,
    store: &Store,
    edges: u32,
    case: Case<'_>,
) -> Result<bool, NoMemory>
    requires known { edges ≡ length view.now.edges }
    requires sound { IsHierarchy view.now }
    requires size { length store.now.known ≡ 2 * length view.now.edges }
    requires knows { Knows view.now store.now.known }
{
    let lists = 2 * edges as usize;
    Ok(
        are_found(store, lists, case.values)
            && (case.runs.is_empty() || has_runs(store, lists, case.list, case.runs))
            && answers_alike(alloc, view, store)?,
    )
}

// Makes all lists of a file in a new store. Is it so?
fn makes_in(
    alloc: Global,
    view: &PackedView<'_>,
    edges: u32,
    case: Case<'_>,
) -> Result<bool, NoMemory>
    requires known { edges ≡ length view.now.edges }
    requires sound { IsHierarchy view.now }
    requires never { NeverLong view.now }
    requires room { 0 < case.room }
{
    let mut scratch = Scratch::new(alloc)?;
    let mut made = Vec::new(alloc);
    let mut store = Store::new(alloc, 2 * edges as usize, case.room)?;
    make_all(view, &mut store, &mut scratch, &mut made, edges)?;
    Ok(case.made == made.as_slice() && is_as_wanted(alloc, view, &store, edges, case)?)
}

// Is it so of a file with these bytes?
fn makes(alloc: Global, file: &[u8], case: Case<'_>) -> Result<bool, Fail> {
    let view = PackedView::open(alloc, file)?;
    if case.room == 0 || !is_never_long(alloc, &view)? {
        return Ok(false);
    }
    let edges = view.edges();
    Ok(makes_in(alloc, &view, edges, case)?)
}

const KNOWN: Made = Made::Known;

const RUSH_VALUES: [Value; 20] = [
    (0, 0, Found::NoWay),
    (1, 0, Found::At(60)),
    (1, 86_399, Found::At(86_459)),
    (2, 0, Found::At(100)),
    (2, 28_799, Found::At(28_899)),
    (2, 28_800, Found::At(29_100)),
    // Closed until 36,100.
    (2, 35_799, Found::At(36_099)),
    (2, 35_800, Found::At(36_100)),
    (2, 35_999, Found::At(36_100)),
    (2, 36_000, Found::At(36_100)),
    (2, 86_399, Found::At(86_499)),
    // By node 1, by the road beside it, and by node 1 again.
    (4, 0, Found::At(160)),
    (4, 28_739, Found::At(28_899)),
    (4, 28_740, Found::At(28_990)),
    (4, 35_850, Found::At(36_100)),
    (4, 35_851, Found::At(36_100)),
    (4, 35_940, Found::At(36_100)),
    (4, 35_941, Found::At(36_101)),
    (4, 86_399, Found::At(86_559)),
    (5, 86_399, Found::NoWay),
];

// The six lists' functions have one run, four and four, each with one that ends it as it is put.
#[test]
fn functions_are_made_of_their_halves(rt: HostRuntime) -> Result<(), Fail> {
    let alloc = rt.alloc();
    let runs = [
        PackedRun::of(0, false, 160),
        PackedRun::of(28_740, false, 250),
        PackedRun::of(35_851, true, 36_100),
        PackedRun::of(35_940, false, 160),
        PackedRun::end(),
    ];
    let case = Case {
        room: 10,
        made: &[KNOWN; 6],
        values: &RUSH_VALUES,
        list: 4,
        runs: &runs,
    };
    assert!(rt; makes(alloc, &BUILT, case)?);
    let runs = [
        PackedRun::of(0, false, 100),
        PackedRun::of(28_800, false, 300),
        PackedRun::of(35_800, true, 36_100),
        PackedRun::of(36_000, false, 100),
        PackedRun::end(),
    ];
    let road = Case {
        list: 2,
        runs: &runs,
        ..case
    };
    assert!(rt; makes(alloc, &BUILT, road)?);
    Ok(())
}

// With less room the last of them isn't known, or none that has to be made of one that isn't.
#[test]
fn what_has_no_room_is_not_known(rt: HostRuntime) -> Result<(), Fail> {
    let alloc = rt.alloc();
    let nine = Case {
        room: 9,
        made: &[KNOWN, KNOWN, KNOWN, KNOWN, Made::NoRoom, KNOWN],
        values: &[
            (2, 86_399, Found::At(86_499)),
            (4, 0, Found::Unknown),
            (5, 0, Found::NoWay),
        ],
        list: 0,
        runs: &[],
    };
    assert!(rt; makes(alloc, &BUILT, nine)?);
    let three = Case {
        room: 3,
        made: &[KNOWN, KNOWN, Made::NoRoom, KNOWN, Made::NoHalf, KNOWN],
        values: &[
            (1, 0, Found::At(60)),
            (2, 0, Found::Unknown),
            (4, 28_740, Found::Unknown),
            (5, 0, Found::NoWay),
        ],
        ..nine
    };
    assert!(rt; makes(alloc, &BUILT, three)?);
    // Along the forged way a later departure arrives earlier.
    let late = Case {
        room: 100,
        made: &[KNOWN, KNOWN, KNOWN, KNOWN, Made::OutOfOrder, KNOWN],
        ..nine
    };
    assert!(rt; makes(alloc, &later(), late)?);
    Ok(())
}

// A road that is driven at the end of the day alone; one that waits for 16,383 seconds longer than the least, as far as a run of four
// bytes says; and one that waits for a second more.
const WAITS: Tables<'static> = Tables {
    profiles: b"profile,from,kind,value\n0,0,until,86400\n1,0,travel,1\n1,70015,until,86399\n1,86398,travel,1\n2,0,travel,1\n2,70014,until,86399\n2,86398,travel,1\n",
    ..RUSH_HOUR
};

// The first road is closed all day.
const CLOSED: Tables<'static> = Tables {
    profiles: b"profile,from,kind,value\n0,0,closed,0\n1,0,travel,100\n2,0,travel,250\n",
    ..RUSH_HOUR
};

#[test]
fn long_waits_are_not_known(rt: HostRuntime) -> Result<(), Fail> {
    let alloc = rt.alloc();
    let waits = Case {
        room: 100,
        made: &[KNOWN, Made::NoRoom, KNOWN, KNOWN, Made::NoRoom, KNOWN],
        values: &[
            (1, 0, Found::Unknown),
            (2, 0, Found::At(1)),
            (2, 70_014, Found::At(70_015)),
            (2, 70_015, Found::At(86_399)),
            (2, 86_397, Found::At(86_399)),
            (2, 86_398, Found::At(86_399)),
            (2, 86_399, Found::At(86_400)),
            (4, 86_399, Found::Unknown),
        ],
        list: 0,
        runs: &[],
    };
    assert!(rt; makes(alloc, &packed(alloc, WAITS)?, waits)?);
    let closed = Case {
        made: &[KNOWN; 6],
        values: &[
            (1, 0, Found::NoWay),
            (1, 86_399, Found::NoWay),
            (2, 0, Found::At(100)),
            (4, 0, Found::At(250)),
            (4, 86_399, Found::At(86_649)),
        ],
        ..waits
    };
    assert!(rt; makes(alloc, &packed(alloc, CLOSED)?, closed)?);
    Ok(())
}

// Over nine nodes in a row, and over four of which two are joined by ways that change: the last list's is the road from 28,740 on.
#[test]
fn answers_are_those_without_a_store(rt: HostRuntime) -> Result<(), Fail> {
    let alloc = rt.alloc();
    let row = Case {
        room: 100,
        made: &[KNOWN; 16],
        values: &[(0, 86_399, Found::At(86_459)), (15, 0, Found::NoWay)],
        list: 0,
        runs: &[PackedRun::of(0, false, 60), PackedRun::end()],
    };
    assert!(rt; makes(alloc, &packed(alloc, ROW)?, row)?);
    let beside = Case {
        made: &[KNOWN; 10],
        values: &[
            (5, 35_740, Found::At(36_100)),
            (8, 28_739, Found::At(28_959)),
            (8, 28_740, Found::At(29_140)),
            (8, 35_940, Found::At(36_160)),
            (8, 86_390, Found::At(86_610)),
            (9, 0, Found::NoWay),
        ],
        runs: &[],
        ..row
    };
    assert!(rt; makes(alloc, &packed(alloc, BESIDE)?, beside)?);
    Ok(())
}
