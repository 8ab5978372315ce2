//! Driving the chain that is shortest by least bounds, for a function by which the end is reached.

ghost use Rattle.std.specs.Prelude.{◌≡◌, ◌≤◌, ◌<◌, ◌^◌, ◌++◌, ◌∷◌, [], ℕ, IfOk, IfSome, length};
ghost use Rattle.cu_elimtree.specs.SweepArcs.{ancestors_in};
ghost use Rattle.cu_interval.specs.declared.ways.Dir.TheVariants.{Up, Down};
ghost use Rattle.cu_interval.specs.Hierarchies.{IsHierarchyOf};
ghost use Rattle.cu_day.specs.Steps.InTime.{IsEarly};
ghost use Rattle.cu_day.specs.Steps.LedSteps.{AddsLegs, AddsLegsOn, AddsWay};

use crate::days::staying;
use crate::functions::DayFunctions;
use cu_arrival::{Arrival, compose, slack_of};
use cu_chordal::Chordal;
use cu_interval::{Dir, Leg, Shortcut};
use cu_model::NoMemory;
use cu_sweep::{Outlook, led_to, place_on};
use std::alloc::Global;

// No chain that is driven takes so long.
const LATE: u64 = 1 << 60;

// A rank, and the function by which it is reached.
#[derive(Drop)]
struct Spot {
    rank: u32,
    by: Arrival,
}

/// The function of the chain over which the least is still to go, up from the start of a leg and then down to its end. None where
/// it doesn't lead there, or takes too long. The path is that of the end's ancestors: the chain is left where it leads down to
/// another rank. Nothing else is promised of the function, which is but a limit.
pub fn drive_chain<F: DayFunctions>(
    alloc: Global,
    graph: &Chordal,
    functions: &mut F,
    outlook: &Outlook,
    path: &[u32],
    leg: Leg,
) -> Result<Option<Arrival>, NoMemory>
    requires from { leg.from < graph.now.ranks }
    requires outlook { outlook.now.nodes ≡ graph.now.ranks }
    requires path { path.now ≡ ancestors_in graph.now leg.to }
    requires graph { IsHierarchyOf graph.now (F.hierarchy functions.old) }
    ensures early { IfOk result (λ by. IfSome by IsEarly) }
    ensures told { IfOk result (λ _. AddsWay (F.hierarchy functions.old) leg.from leg.to
        (F.calls functions.old) (F.calls functions.new)) }
    ensures stays { F.hierarchy functions.new ≡ F.hierarchy functions.old }
{
    let start = Spot {
        rank: leg.from,
        by: staying(alloc)?,
    };
    let Some(top) = drive_up(alloc, graph, functions, outlook.up_next(), start)? else {
        return Ok(None);
    };
    let downs = Downs {
        next: outlook.down_next(),
        path,
        to: leg.to,
    };
    let Some(end) = drive_down(alloc, graph, functions, downs, top)? else {
        return Ok(None);
    };
    early_or_none(alloc, end.by)
}

// A function that isn't late at any second of the day.
fn early_or_none(alloc: Global, by: Arrival) -> Result<Option<Arrival>, NoMemory>
    ensures { IfOk result (λ by. IfSome by IsEarly) }
{
    let stays = staying(alloc)?;
    if slack_of(&by, &stays, LATE) > LATE {
        return Ok(None);
    }
    Ok(Some(by))
}

// Drives the edges up, as far as they lead.
fn drive_up<F: DayFunctions>(
    alloc: Global,
    graph: &Chordal,
    functions: &mut F,
    next: &[Option<u32>],
    start: Spot,
) -> Result<Option<Spot>, NoMemory>
    requires rank { start.rank < graph.now.ranks }
    requires nexts { length next.now ≡ graph.now.ranks }
    requires graph { IsHierarchyOf graph.now (F.hierarchy functions.old) }
    ensures rank { IfOk result (λ spot. IfSome spot (λ end. end.rank < graph.now.ranks)) }
    ensures told { IfOk result (λ _. AddsLegsOn (F.hierarchy functions.old) start.rank Up start.rank
        (F.calls functions.old) (F.calls functions.new)) }
    ensures reached { IfOk result (λ spot. IfSome spot (λ end. AddsLegs (F.hierarchy functions.old)
        start.rank Up start.rank end.rank (F.calls functions.old) (F.calls functions.new))) }
    ensures stays { F.hierarchy functions.new ≡ F.hierarchy functions.old }
{
    let mut spot = start;
    'steps: while let Some(edge) = next[spot.rank as usize] {
        let Some(rank) = led_to(graph, edge, Dir::Up, spot.rank) else {
            return Ok(None);
        };
        let shortcut = Shortcut { edge, dir: Dir::Up };
        let Some(by) = drive_edge(alloc, functions, shortcut, &spot.by)? else {
            return Ok(None);
        };
        spot = Spot { rank, by };
    }
    Ok(Some(spot))
}

// The edges down over which the least is still to go to a rank, and its ancestors.
#[derive(Clone, Copy)]
struct Downs<'a> {
    next: &'a [Option<u32>],
    path: &'a [u32],
    to: u32,
}

// Drives the edges down to a rank, over its ancestors.
fn drive_down<F: DayFunctions>(
    alloc: Global,
    graph: &Chordal,
    functions: &mut F,
    downs: Downs<'_>,
    top: Spot,
) -> Result<Option<Spot>, NoMemory>
    requires rank { top.rank < graph.now.ranks }
    requires nexts { length downs.next.now ≡ graph.now.ranks }
    requires path { downs.path.now ≡ ancestors_in graph.now downs.to }
    requires graph { IsHierarchyOf graph.now (F.hierarchy functions.old) }
    ensures told { IfOk result (λ _. AddsLegsOn (F.hierarchy functions.old) downs.entry.to Down top.rank
        (F.calls functions.old) (F.calls functions.new)) }
    ensures stays { F.hierarchy functions.new ≡ F.hierarchy functions.old }
{
    let mut spot = top;
    let mut count = downs.path.len();
    'steps: while spot.rank != downs.to {
        let Some(edge) = downs.next[spot.rank as usize] else {
            return Ok(None);
        };
        let Some(rank) = led_to(graph, edge, Dir::Down, spot.rank) else {
            return Ok(None);
        };
        let Some(place) = place_on(downs.path, count, rank) else {
            return Ok(None);
        };
        let shortcut = Shortcut {
            edge,
            dir: Dir::Down,
        };
        let Some(by) = drive_edge(alloc, functions, shortcut, &spot.by)? else {
            return Ok(None);
        };
        spot = Spot { rank, by };
        count = place;
    }
    Ok(Some(spot))
}

// Drives a shortcut behind a function.
fn drive_edge<F: DayFunctions>(
    alloc: Global,
    functions: &mut F,
    shortcut: Shortcut,
    before: &Arrival,
) -> Result<Option<Arrival>, NoMemory>
    requires edge { shortcut.edge < length (F.hierarchy functions.old).edges }
    ensures told { IfOk result (λ _.
        F.calls functions.new ≡ F.calls functions.old ++ shortcut ∷ []) }
    ensures stays { F.hierarchy functions.new ≡ F.hierarchy functions.old }
{
    let Some(function) = functions.function(alloc, shortcut.edge, shortcut.dir)? else {
        return Ok(None);
    };
    let by = compose(alloc, before, &function)?;
    Ok(Some(by))
}
