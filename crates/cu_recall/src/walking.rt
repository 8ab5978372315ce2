//! Writing the walk of a list: it is parted at its middles until its next part is found, a road or a list that has the same roads at
//! every second, which is written, and so on.

ghost use Rattle.std.specs.Prelude.{◌≡◌, ◌≤◌, ◌<◌, ◌+◌, ◌*◌, ◌%◌, ◌^◌, ℕ, All, Bool, IfOk, IfSome, List, length};
ghost use Rattle.cu_model.specs.declared.limits.TheConstants.{MAX_UNTIL};
ghost use Rattle.cu_model.specs.Days.{day};
ghost use Rattle.cu_model.specs.Networks.{NetworkValue};
ghost use Rattle.cu_model.specs.Roads.{drive};
ghost use Rattle.cu_io.specs.Sinks.{Wrote};
ghost use Rattle.cu_interval.specs.declared.shortcuts.Leg.{Leg};
ghost use Rattle.cu_interval.specs.Hierarchies.{HierarchyValue, IsHierarchy, graph_of};
ghost use Rattle.cu_interval.specs.Unpacking.{unpacked_walk};
ghost use Rattle.cu_drive.specs.RoadTexts.{driven_text};
ghost use Rattle.cu_recall.specs.declared.spans.Parts.TheVariants as part;
ghost use Rattle.cu_recall.specs.Spans.{IsListFrom, Knows, low_of_list};
ghost use Rattle.cu_recall.specs.Steps.Looks.{IsAsked, IsMetAt};
ghost use Rattle.cu_recall.specs.Steps.Walks.{DrivesPart, FindsPart, HoldsGlance, HoldsTravel, IsAt, IsGround, IsNext, IsOpenRoad, IsShortWalk, IsSomewhere, Resumes, Waits, next_asked, roads_of};

use crate::kept::Kept;
use crate::looking::{drive_met, known, met_at};
use crate::pending::Asked;
use crate::spans::{Met, Parts, Row};
use cu_chordal::Chordal;
use cu_drive::WalkForm;
use cu_io::{Sink, SinkFailed};
use cu_model::{DAY, Roads};
use cu_pack::PackedView;
use cu_sequences::Sequences;
use cu_store::{Found, Store};

/// What walks are written over: a file, whose graph this is, and what is known of its lists beside it: the roads of those that have
/// the same ones at every second, and when lists arrive.
#[derive(Clone, Copy)]
pub struct Ground<'a> {
    pub view: &'a PackedView<'a>,
    pub graph: &'a Chordal,
    pub sequences: &'a Sequences,
    pub store: &'a Store,
}

/// A list, with the entry that its row met last, and a list below it with what its row met. When a list is parted the rows of both
/// halves are read, and the row of the second half's own first half, so that the processor fetches all three at once.
#[derive(Clone, Copy)]
pub struct Glance {
    pub list: u32,
    pub met: Kept,
    pub below: u32,
    pub below_met: Kept,
}

/// Where a walk begins: its list, asked at the second of the day of an absolute second, and whether its first road is the first of
/// all.
#[derive(Clone, Copy)]
pub struct WalkStart {
    pub asked: Asked,
    pub at: u64,
    pub first: bool,
}

/// Where a walk stands: the list that is next, the second of the day at which it is asked, and how many wait behind it.
#[derive(Clone, Copy)]
pub struct WalkSpot {
    pub next: Glance,
    pub second: u32,
    pub waiting: usize,
}

/// A part of a walk: one road and how long it takes; or the roads of a list that has the same ones at every second, and how long they
/// take, where that was asked for and is known.
#[derive(Clone, Copy)]
pub enum WalkPart<'a> {
    Road {
        road: u32,
        travel: u64,
    },
    Sequence {
        roads: &'a [u32],
        travel: Option<u64>,
    },
}

/// The next part of a walk, and how many lists wait behind it.
#[derive(Clone, Copy)]
pub struct NextPart<'a> {
    pub part: WalkPart<'a>,
    pub waiting: usize,
}

impl Glance {
    /// Nothing is known of the first list.
    pub const NOTHING: Glance = Glance {
        list: 0,
        met: Kept::NOTHING,
        below: 0,
        below_met: Kept::NOTHING,
    };
}

/// Writes the roads of the walk of a list, each as the form says of it and of the absolute second at which it is entered. The walk
/// has fewer roads than there are nodes.
pub fn write_walk<P: WalkForm, K: Sink>(
    ground: &Ground<'_>,
    rows: &mut [Row],
    waiting: &mut [Glance],
    start: WalkStart,
    form: &P,
    sink: &mut K,
) -> Result<(), SinkFailed>
    requires ground { IsGround ground.now }
    requires short { IsShortWalk ground.now.view.now start.asked }
    requires at { start.at % day ≡ start.asked.second }
    requires time { start.at < 2 ^ 61 }
    requires size { length rows.old ≡ 2 * length ground.now.view.now.edges }
    requires room { length waiting.old ≡ ground.now.view.now.network.nodes }
    requires knows { Knows ground.now.view.now rows.old }
    ensures wrote { (u v : ℕ) → IsListFrom ground.now.view.now start.asked.list u v
        → Wrote (K.state sink.old) (K.state sink.new) result
        (driven_text (P.text form.now) ground.now.view.now.network start.first
        (unpacked_walk ground.now.view.now u v start.asked.second) start.at) }
    ensures knows { Knows ground.now.view.now rows.new }
{
    let alike = !form.tells_seconds();
    let mut spot = begin(ground.sequences, rows, start.asked);
    let mut first = start.first;
    let mut entered = start.at;
    'parts: for _number in 1..ground.view.nodes() {
        let found = next_part(ground, rows, waiting, spot, alike);
        entered = put_part(ground.view, found, entered, first, form, sink)?;
        first = false;
        let second = second_of(entered);
        let Some(next) = resume(waiting, found.waiting, second) else {
            return Ok(());
        };
        spot = next;
    }
    unreachable!()
}

// The second of the day of an absolute second.
#[inline(always)]
fn second_of(at: u64) -> u32
    ensures { result ≡ at % day }
{
    (at % u64::from(DAY)) as u32
}

// Writes the roads of a part of a walk, each as the form says of it and of the absolute second at which it is entered, and answers
// when the last one arrives, where a list waits behind them: else nobody asks for it.
#[inline(always)]
fn put_part<P: WalkForm, K: Sink>(
    view: &PackedView<'_>,
    found: NextPart<'_>,
    at: u64,
    first: bool,
    form: &P,
    sink: &mut K,
) -> Result<u64, SinkFailed>
    requires drives { DrivesPart view.now (at % day) found.part }
    requires time { at + MAX_UNTIL * length (roads_of found.part) ≤ 2 ^ 62 }
    requires sound { IsHierarchy view.now }
    ensures wrote { Wrote (K.state sink.old) (K.state sink.new) result
        (driven_text (P.text form.now) view.now.network first (roads_of found.entry.part) at) }
    ensures arrival { IfOk result (λ arrival. 0 < found.entry.waiting → arrival
        ≡ drive view.now.network (roads_of found.entry.part) at) }
{
    match found.part {
        WalkPart::Road { road, travel } => {
            form.put(road, at, first, sink)?;
            Ok(at + travel)
        }
        WalkPart::Sequence { roads, travel } => {
            if form.tells_seconds() {
                return put_roads(view, roads, at, first, form, sink);
            }
            put_alike(roads, at, first, form, sink)?;
            Ok(arrival_of(view, roads, at, travel, found.waiting))
        }
    }
}

// Writes roads of which the form says the same whenever they are entered.
fn put_alike<P: WalkForm, K: Sink>(
    roads: &[u32],
    at: u64,
    first: bool,
    form: &P,
    sink: &mut K,
) -> Result<(), SinkFailed>
    requires alike { (begins : Bool) (road s t : ℕ)
        → P.text form.now begins road s ≡ P.text form.now begins road t }
    requires time { at ≤ 2 ^ 62 }
    ensures wrote { (g : NetworkValue) → Wrote (K.state sink.old) (K.state sink.new) result
        (driven_text (P.text form.now) g first roads.now at) }
{
    let mut first = first;
    'roads: for road in roads {
        form.put(*road, at, first, sink)?;
        first = false;
    }
    Ok(())
}

// When roads arrive that are entered at an absolute second, where a list waits behind them: after so long, if that is known, or else by
// driving one after the other.
fn arrival_of(
    view: &PackedView<'_>,
    roads: &[u32],
    at: u64,
    travel: Option<u64>,
    waiting: usize,
) -> u64
    requires open { All (IsOpenRoad view.now.network) roads.now }
    requires travel { IfSome travel (λ seconds. drive view.now.network roads.now at ≡ at + seconds) }
    requires time { at + MAX_UNTIL * length roads.now ≤ 2 ^ 62 }
    requires near { drive view.now.network roads.now at ≤ 2 ^ 62 }
    requires sound { IsHierarchy view.now }
    ensures { 0 < waiting → result ≡ drive view.now.network roads.now at }
{
    if waiting == 0 {
        return at;
    }
    match travel {
        Some(seconds) => at + seconds,
        None => drive_roads(view, roads, at),
    }
}

// The same by driving alone.
fn drive_roads(view: &PackedView<'_>, roads: &[u32], at: u64) -> u64
    requires open { All (IsOpenRoad view.now.network) roads.now }
    requires time { at + MAX_UNTIL * length roads.now ≤ 2 ^ 62 }
    requires sound { IsHierarchy view.now }
    ensures { result ≡ drive view.now.network roads.now at }
{
    let mut entered = at;
    'roads: for road in roads {
        entered = view.drive(*road, entered);
    }
    entered
}

// Writes roads that are driven one after the other, each as the form says of it and of the absolute second at which it is entered, and
// answers when the last one arrives.
fn put_roads<P: WalkForm, K: Sink>(
    view: &PackedView<'_>,
    roads: &[u32],
    at: u64,
    first: bool,
    form: &P,
    sink: &mut K,
) -> Result<u64, SinkFailed>
    requires open { All (IsOpenRoad view.now.network) roads.now }
    requires time { at + MAX_UNTIL * length roads.now ≤ 2 ^ 62 }
    requires sound { IsHierarchy view.now }
    ensures wrote { Wrote (K.state sink.old) (K.state sink.new) result
        (driven_text (P.text form.now) view.now.network first roads.now at) }
    ensures arrival { IfOk result (λ arrival. arrival ≡ drive view.now.network roads.now at) }
{
    let mut first = first;
    let mut entered = at;
    'roads: for road in roads {
        form.put(*road, entered, first, sink)?;
        first = false;
        entered = view.drive(*road, entered);
    }
    Ok(entered)
}

// Where a walk begins.
fn begin(sequences: &Sequences, rows: &[Row], asked: Asked) -> WalkSpot
    requires list { asked.list < length rows.now }
    ensures next { IsNext asked.list asked.second 0 result }
    ensures holds { (h : HierarchyValue) → Knows h rows.now → HoldsGlance h result.next }
{
    WalkSpot {
        next: read_list(sequences, rows, asked.list),
        second: asked.second,
        waiting: 0,
    }
}

// A list and what its row met last: nothing where its walk is written without, so that the row isn't fetched.
#[inline(always)]
fn read_list(sequences: &Sequences, rows: &[Row], list: u32) -> Glance
    requires list { list < length rows.now }
    ensures list { result.list ≡ list }
    ensures holds { (h : HierarchyValue) → Knows h rows.now → HoldsGlance h result }
{
    if sequences.has(list) {
        return alone(list, Kept::NOTHING);
    }
    alone(list, rows[list as usize].met)
}

// A list and what its row met last, and the same of the first of the halves that this names.
#[inline(always)]
fn read_ahead(sequences: &Sequences, rows: &[Row], list: u32) -> Glance
    requires list { list < length rows.now }
    ensures list { result.list ≡ list }
    ensures holds { (h : HierarchyValue) → Knows h rows.now → HoldsGlance h result }
{
    let glance = read_list(sequences, rows, list);
    let Kept::Halves { first, .. } = glance.met else {
        return glance;
    };
    if first as usize >= rows.len() {
        return glance;
    }
    let below = read_list(sequences, rows, first);
    Glance {
        list,
        met: glance.met,
        below: first,
        below_met: below.met,
    }
}

// The first half of a list, and what its row met last: as it was read with the list, or else by the rows.
#[inline(always)]
fn first_of(sequences: &Sequences, rows: &[Row], glance: Glance, first: u32) -> Glance
    requires first { first < length rows.now }
    ensures list { result.list ≡ first }
    ensures holds { (h : HierarchyValue) → Knows h rows.now → HoldsGlance h glance
        → HoldsGlance h result }
{
    if glance.below == first {
        return alone(first, glance.below_met);
    }
    read_list(sequences, rows, first)
}

// A list and what its row met last, and nothing of another list.
#[inline(always)]
fn alone(list: u32, met: Kept) -> Glance
    ensures { result ≡ record { list = list; met = met; below = list; below_met = met } }
{
    Glance {
        list,
        met,
        below: list,
        below_met: met,
    }
}

// Parts the list that is next at its middle, and its first half, and so on, until one has a sequence or its way is a road.
fn next_part<'s>(
    ground: &Ground<'s>,
    rows: &mut [Row],
    waiting: &mut [Glance],
    spot: WalkSpot,
    alike: bool,
) -> NextPart<'s>
    requires ground { IsGround ground.now }
    requires somewhere { IsSomewhere ground.now.view.now waiting.old spot }
    requires size { length rows.old ≡ 2 * length ground.now.view.now.edges }
    requires room { length waiting.old ≡ ground.now.view.now.network.nodes }
    requires knows { Knows ground.now.view.now rows.old }
    ensures finds { (leg : Leg) (legs : List Leg)
        → IsAt ground.now.view.now waiting.old spot leg legs
        → FindsPart ground.now.view.now leg legs spot.second waiting.new result }
    ensures drives { DrivesPart ground.now.view.now spot.second result.part }
    ensures knows { Knows ground.now.view.now rows.new }
{
    let mut spot = spot;
    'parts: loop {
        if let Some(roads) = ground.sequences.of_list(spot.next.list) {
            let travel = travel_known(ground, spot, alike);
            return NextPart {
                part: WalkPart::Sequence { roads, travel },
                waiting: spot.waiting,
            };
        }
        let met = entry_at(ground.view, ground.graph, rows, spot);
        match met.parts {
            Parts::Road(road) => {
                let travel = travel_of(ground.view, rows, spot, met, road);
                return NextPart {
                    part: WalkPart::Road { road, travel },
                    waiting: spot.waiting,
                };
            }
            Parts::Halves { first, second } => {
                spot = part(ground.sequences, rows, waiting, spot, first, second);
            }
        }
    }
}

// How long the walk of the list that is next takes, as far as the store knows: asked for where the form says the same of roads whenever
// they are entered, and a list waits behind.
#[inline(always)]
fn travel_known(ground: &Ground<'_>, spot: WalkSpot, alike: bool) -> Option<u64>
    requires ground { IsGround ground.now }
    requires asked { IsAsked ground.now.view.now (next_asked spot) }
    ensures { IfSome result (λ travel.
        HoldsTravel ground.now.view.now spot.next.list spot.second travel) }
{
    if !alike || spot.waiting == 0 {
        return None;
    }
    match ground.store.value(spot.next.list as usize, spot.second) {
        Found::At(arrival) => Some(arrival - u64::from(spot.second)),
        Found::NoWay => None,
        Found::Unknown => None,
    }
}

// The entry of the list that is next in force at the second: the one that its row had when it was read, or the one met last, or by
// the bytes.
fn entry_at(view: &PackedView<'_>, graph: &Chordal, rows: &mut [Row], spot: WalkSpot) -> Met
    requires graph { graph.now ≡ graph_of view.now }
    requires asked { IsAsked view.now (next_asked spot) }
    requires holds { HoldsGlance view.now spot.next }
    requires size { length rows.old ≡ 2 * length view.now.edges }
    requires knows { Knows view.now rows.old }
    ensures met { IsMetAt view.now (next_asked spot) result }
    ensures knows { Knows view.now rows.new }
{
    if let Some(met) = spot.next.met.at(spot.second) {
        return met;
    }
    met_at(view, graph, rows, asked_next(spot))
}

// How long driving the road of the list that is next takes: as a span says, or else by the bytes, and then it is known.
fn travel_of(view: &PackedView<'_>, rows: &mut [Row], spot: WalkSpot, met: Met, road: u32) -> u64
    requires asked { IsAsked view.now (next_asked spot) }
    requires size { length rows.old ≡ 2 * length view.now.edges }
    requires knows { Knows view.now rows.old }
    requires met { IsMetAt view.now (next_asked spot) met }
    requires road { met.parts ≡ part.Road road }
    requires sound { IsHierarchy view.now }
    ensures travel { HoldsTravel view.now spot.next.list spot.second result }
    ensures knows { Knows view.now rows.new }
{
    let asked = asked_next(spot);
    if let Some(driven) = known(rows, asked) {
        return driven.travel;
    }
    drive_met(view, rows, asked, met, road).travel
}

// The list that is next, asked at the second.
fn asked_next(spot: WalkSpot) -> Asked
    ensures { result ≡ next_asked spot }
{
    Asked {
        list: spot.next.list,
        second: spot.second,
    }
}

// Parts the list that is next: its second half waits, and its first half is next.
fn part(
    sequences: &Sequences,
    rows: &[Row],
    waiting: &mut [Glance],
    spot: WalkSpot,
    first: u32,
    second: u32,
) -> WalkSpot
    requires room { spot.waiting < length waiting.old }
    requires first { first < length rows.now }
    requires second { second < length rows.now }
    ensures next { IsNext first spot.second (spot.waiting + 1) result }
    ensures holds { (h : HierarchyValue) → Knows h rows.now → HoldsGlance h spot.next
        → HoldsGlance h result.next }
    ensures waits { Waits rows.now second spot.waiting waiting.old waiting.new }
{
    let next = first_of(sequences, rows, spot.next, first);
    waiting[spot.waiting] = read_ahead(sequences, rows, second);
    WalkSpot {
        next,
        second: spot.second,
        waiting: spot.waiting + 1,
    }
}

// Goes on with the list that waits and is next, at the second of the day at which the one before arrived. None where none waits.
fn resume(waiting: &[Glance], count: usize, second: u32) -> Option<WalkSpot>
    requires { count ≤ length waiting.now }
    ensures { Resumes waiting.now count second result }
{
    if count == 0 {
        return None;
    }
    Some(WalkSpot {
        next: waiting[count - 1],
        second,
        waiting: count - 1,
    })
}
