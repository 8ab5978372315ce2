//! The unpacking itself: a shortcut is parted at its middles until its next road is found, and driven road by road.

ghost use Rattle.std.specs.Prelude.{◌≡◌, ◌≤◌, ◌<◌, ◌+◌, ◌^◌, ℕ, List, IfOk, length};
ghost use Rattle.cu_io.specs.Sinks.{Wrote};
ghost use Rattle.cu_interval.specs.declared.relaxing.Relaxed.TheVariants.{At};
ghost use Rattle.cu_interval.specs.declared.shortcuts.Leg.{Leg};
ghost use Rattle.cu_interval.specs.Calls.{IfAt};
ghost use Rattle.cu_interval.specs.Hierarchies.{IsHierarchy};
ghost use Rattle.cu_interval.specs.Shortcuts.{IsMiddle};
ghost use Rattle.cu_interval.specs.Unpacking.{relaxed};
ghost use Rattle.cu_unpack.specs.Answers.{IsArriving, walk_over};
ghost use Rattle.cu_unpack.specs.Counts.{Takes};
ghost use Rattle.cu_drive.specs.RoadTexts.{driven_text};
ghost use Rattle.cu_unpack.specs.Steps.Legs.{DrivesOn, FindsRoad, IsAt, IsSomewhere, Parts, Resumes};

use crate::counted::CountedWays;
use crate::work::Work;
use cu_drive::WalkForm;
use cu_interval::{Call, Dir, Relaxed, Way, leg_of};
use cu_io::{Sink, SinkFailed};

// Where an unpacking stands: the shortcut that is next, the second at which it is asked, and how many wait behind it, all of
// which lead upwards.
#[derive(Clone, Copy)]
struct Spot {
    edge: u32,
    dir: Dir,
    second: u64,
    waiting: usize,
}

// A road that was driven, when it arrived, and where the unpacking stands then. None where it is over.
#[derive(Clone, Copy)]
struct Driven {
    road: u32,
    arrival: u64,
    rest: Option<Spot>,
}

/// The answer of a relaxation over ways whose look-ups are counted: two for each road of the walk, less one; one where there
/// is no way; at most three for each node where the walk is long. The edge's number is below the number of edges, the second
/// below 2^61, the work made for as many nodes, and at most 2^62 look-ups were counted before. Takes no memory.
pub fn relax_counted<C: CountedWays>(
    ways: &mut C,
    work: &mut Work,
    edge: u32,
    dir: Dir,
    at: u64,
) -> Relaxed
    requires edge { edge < length (C.hierarchy ways.old).edges }
    requires time { at < 2 ^ 61 }
    requires room { work.old ≡ (C.hierarchy ways.old).network.nodes }
    requires few { C.steps ways.old ≤ 2 ^ 62 }
    ensures answer { result ≡ relaxed (C.hierarchy ways.old) edge dir at }
    ensures near { IfAt result (λ (arrival : ℕ). (at ≤ arrival) × (arrival ≤ at + 2 ^ 38)) }
    ensures steps { Takes (C.hierarchy ways.old).network.nodes
        (walk_over (C.hierarchy ways.old) edge dir at)
        result (C.steps ways.old) (C.steps ways.new) }
    ensures sound { IsHierarchy (C.hierarchy ways.old) }
    ensures stays { C.hierarchy ways.new ≡ C.hierarchy ways.old }
    ensures work { work.new ≡ work.old }
{
    relax_in(ways, &mut work.pending, edge, dir, at)
}

// The same, in places for the shortcuts that wait.
fn relax_in<C: CountedWays>(
    ways: &mut C,
    pending: &mut [u32],
    edge: u32,
    dir: Dir,
    at: u64,
) -> Relaxed
    requires edge { edge < length (C.hierarchy ways.old).edges }
    requires time { at < 2 ^ 61 }
    requires room { length pending.old ≡ (C.hierarchy ways.old).network.nodes }
    requires few { C.steps ways.old ≤ 2 ^ 62 }
    ensures answer { result ≡ relaxed (C.hierarchy ways.old) edge dir at }
    ensures near { IfAt result (λ (arrival : ℕ). (at ≤ arrival) × (arrival ≤ at + 2 ^ 38)) }
    ensures steps { Takes (C.hierarchy ways.old).network.nodes
        (walk_over (C.hierarchy ways.old) edge dir at)
        result (C.steps ways.old) (C.steps ways.new) }
    ensures sound { IsHierarchy (C.hierarchy ways.old) }
    ensures stays { C.hierarchy ways.new ≡ C.hierarchy ways.old }
{
    let mut spot = start(edge, dir, at);
    'roads: for _number in 1..ways.nodes() {
        let Some(driven) = drive_on(ways, pending, spot) else {
            return Relaxed::NoWay;
        };
        let Some(next) = driven.rest else {
            return Relaxed::At(driven.arrival);
        };
        spot = next;
    }
    Relaxed::Long
}

/// Writes the roads of the walk of a call that arrives, each as the form says of it and of the second at which it is entered; and
/// answers when the walk arrives. The edge's number is below the number of edges, the second below 2^61, the work made for as
/// many nodes, and at most 2^62 look-ups were counted before. Takes no memory.
///
/// Refused only where a write is: the sink's count of faults rose, and some first bytes were written.
pub(crate) fn write_walk<C: CountedWays, P: WalkForm, K: Sink>(
    ways: &mut C,
    work: &mut Work,
    call: Call,
    first: bool,
    form: &P,
    sink: &mut K,
) -> Result<u64, SinkFailed>
    requires edge { call.edge < length (C.hierarchy ways.old).edges }
    requires time { call.second < 2 ^ 61 }
    requires room { work.old ≡ (C.hierarchy ways.old).network.nodes }
    requires few { C.steps ways.old ≤ 2 ^ 62 }
    requires answers { IsArriving (C.hierarchy ways.old) call.edge call.dir call.second }
    ensures wrote { Wrote (K.state sink.old) (K.state sink.new) result
        (driven_text (P.text form.now) (C.hierarchy ways.old).network first
        (walk_over (C.hierarchy ways.old) call.edge call.dir call.second) call.second) }
    ensures arrival { IfOk result (λ arrival.
        relaxed (C.hierarchy ways.old) call.edge call.dir call.second ≡ At arrival) }
    ensures sound { IsHierarchy (C.hierarchy ways.old) }
    ensures work { work.new ≡ work.old }
{
    write_in(ways, &mut work.pending, call, first, form, sink)
}

// The same, in places for the shortcuts that wait.
fn write_in<C: CountedWays, P: WalkForm, K: Sink>(
    ways: &mut C,
    pending: &mut [u32],
    call: Call,
    first: bool,
    form: &P,
    sink: &mut K,
) -> Result<u64, SinkFailed>
    requires edge { call.edge < length (C.hierarchy ways.old).edges }
    requires time { call.second < 2 ^ 61 }
    requires room { length pending.old ≡ (C.hierarchy ways.old).network.nodes }
    requires few { C.steps ways.old ≤ 2 ^ 62 }
    requires answers { IsArriving (C.hierarchy ways.old) call.edge call.dir call.second }
    ensures wrote { Wrote (K.state sink.old) (K.state sink.new) result
        (driven_text (P.text form.now) (C.hierarchy ways.old).network first
        (walk_over (C.hierarchy ways.old) call.edge call.dir call.second) call.second) }
    ensures arrival { IfOk result (λ arrival.
        relaxed (C.hierarchy ways.old) call.edge call.dir call.second ≡ At arrival) }
    ensures sound { IsHierarchy (C.hierarchy ways.old) }
{
    let mut spot = start(call.edge, call.dir, call.second);
    let mut first = first;
    'roads: for _number in 1..ways.nodes() {
        let Some(driven) = drive_on(ways, pending, spot) else {
            unreachable!()
        };
        form.put(driven.road, spot.second, first, sink)?;
        first = false;
        let Some(next) = driven.rest else {
            return Ok(driven.arrival);
        };
        spot = next;
    }
    unreachable!()
}

// Where an unpacking begins.
fn start(edge: u32, dir: Dir, second: u64) -> Spot
    ensures { result ≡ record { edge = edge; dir = dir; second = second; waiting = 0 } }
{
    Spot {
        edge,
        dir,
        second,
        waiting: 0,
    }
}

// Finds the next road and drives it. None where the shortcut that is next has no way.
fn drive_on<C: CountedWays>(ways: &mut C, pending: &mut [u32], spot: Spot) -> Option<Driven>
    requires sound { IsHierarchy (C.hierarchy ways.old) }
    requires room { length pending.old ≡ (C.hierarchy ways.old).network.nodes }
    requires somewhere { IsSomewhere (C.hierarchy ways.old) pending.old spot }
    requires time { spot.second ≤ 2 ^ 62 }
    requires few { C.steps ways.old + (C.hierarchy ways.old).network.nodes < 2 ^ 63 }
    ensures drives { (leg : Leg) (legs : List Leg)
        → IsAt (C.hierarchy ways.old) pending.old spot leg legs
        → DrivesOn (C.hierarchy ways.old) leg legs spot.second pending.new
        (C.steps ways.old) (C.steps ways.new) result }
    ensures stays { C.hierarchy ways.new ≡ C.hierarchy ways.old }
{
    let (spot, road) = next_road(ways, pending, spot)?;
    let arrival = ways.drive(road, spot.second);
    Some(Driven {
        road,
        arrival,
        rest: resume(pending, spot.waiting, arrival),
    })
}

// Goes on with the shortcut that waits and is next, at the second at which the one before arrived. None where none waits.
fn resume(pending: &[u32], waiting: usize, second: u64) -> Option<Spot>
    requires { waiting ≤ length pending.now }
    ensures { Resumes pending.now waiting second result }
{
    if waiting == 0 {
        return None;
    }
    Some(Spot {
        edge: pending[waiting - 1],
        dir: Dir::Up,
        second,
        waiting: waiting - 1,
    })
}

// Parts the shortcut that is next at its middle, and its first half, and so on, until one's way is a road. None where the
// shortcut has no way.
fn next_road<C: CountedWays>(ways: &mut C, pending: &mut [u32], spot: Spot) -> Option<(Spot, u32)>
    requires sound { IsHierarchy (C.hierarchy ways.old) }
    requires room { length pending.old ≡ (C.hierarchy ways.old).network.nodes }
    requires somewhere { IsSomewhere (C.hierarchy ways.old) pending.old spot }
    requires few { C.steps ways.old + (C.hierarchy ways.old).network.nodes < 2 ^ 63 }
    ensures finds { (leg : Leg) (legs : List Leg)
        → IsAt (C.hierarchy ways.old) pending.old spot leg legs
        → FindsRoad (C.hierarchy ways.old) leg legs spot.second pending.new
        (C.steps ways.old) (C.steps ways.new) result }
    ensures stays { C.hierarchy ways.new ≡ C.hierarchy ways.old }
{
    let mut spot = spot;
    'parts: loop {
        match ways.counted_way(spot.edge, spot.dir, spot.second)? {
            Way::Road(road) => return Some((spot, road)),
            Way::Via(middle) => spot = part(ways, pending, spot, middle),
        }
    }
}

// Parts a shortcut at its middle: its second half waits, and its first half is next.
fn part<C: CountedWays>(ways: &C, pending: &mut [u32], spot: Spot, middle: u32) -> Spot
    requires sound { IsHierarchy (C.hierarchy ways.now) }
    requires middle { IsMiddle (C.hierarchy ways.now) spot.edge spot.dir middle }
    requires room { spot.waiting < length pending.old }
    ensures parts { Parts (C.hierarchy ways.now) spot middle pending.old pending.new result }
{
    let leg = leg_of(ways.ends(spot.edge), spot.dir);
    let Some(first) = ways.edge(middle, leg.from) else {
        unreachable!()
    };
    let Some(second) = ways.edge(middle, leg.to) else {
        unreachable!()
    };
    pending[spot.waiting] = second;
    Spot {
        edge: first,
        dir: Dir::Down,
        second: spot.second,
        waiting: spot.waiting + 1,
    }
}
