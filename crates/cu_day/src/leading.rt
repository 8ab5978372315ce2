//! The day function between two ranks, led to its end.

ghost use Rattle.std.specs.Prelude.{◌≡◌, ◌<◌, Some, IfOk, IfSome};
ghost use Rattle.cu_elimtree.specs.SweepArcs.{parents_in};
ghost use Rattle.cu_interval.specs.Hierarchies.{IsHierarchyOf};
ghost use Rattle.cu_sweep.specs.Outlooks.{IsAhead};
ghost use Rattle.cu_day.specs.DayAnswers.{IsLeastWhereBuilt};
ghost use Rattle.cu_day.specs.DayCalls.{AddsLedArcs};
ghost use Rattle.cu_day.specs.DayChains.{IsDayFunction};
ghost use Rattle.cu_day.specs.Steps.InTime.{IsEarly};
ghost use Rattle.cu_day.specs.Steps.LedSteps.{AddsInSweeps, AddsLimited};

use crate::days::{day, list_ancestors};
use crate::driving::drive_chain;
use crate::functions::DayFunctions;
use crate::timing::{Limits, sweep_in_time};
use cu_arrival::{Arrival, slack_of};
use cu_chordal::Chordal;
use cu_elimtree::Tree;
use cu_interval::{Leg, Relaxer};
use cu_model::NoMemory;
use cu_sweep::{Outlook, Question};
use std::alloc::Global;

/// [`day`](crate::day) from the start of a leg to its end, which asks for the functions of those arcs alone that may be in time at
/// some second of the day, as long as a chain that is driven first is met; else it is [`day`](crate::day). Whoever relaxes knows
/// the least bounds of the same hierarchy; no relaxation is asked for. All that it asks for are functions of sweep arcs, upwards of
/// the start and downwards of the end: along the chain, and then of each sweep in its order.
///
/// Refused only for want of memory; some calls were made then, and the hierarchy is as it was.
pub fn led_day<F: DayFunctions, R: Relaxer>(
    alloc: Global,
    tree: &Tree,
    graph: &Chordal,
    functions: &mut F,
    relaxer: &R,
    leg: Leg,
) -> Result<Option<Arrival>, NoMemory>
    requires ranks { (leg.from < graph.now.ranks) × (leg.to < graph.now.ranks) }
    requires tree { tree.now ≡ parents_in graph.now }
    requires graph { IsHierarchyOf graph.now (F.hierarchy functions.old) }
    requires same { R.hierarchy relaxer.now ≡ F.hierarchy functions.old }
    ensures function { IfOk result (IsDayFunction (F.hierarchy functions.old) leg.from leg.to) }
    ensures least { IfOk result (IsLeastWhereBuilt (F.hierarchy functions.old) leg.from leg.to) }
    ensures told { IfOk result (λ _. AddsLedArcs (F.hierarchy functions.old) leg.from leg.to
        (F.calls functions.old) (F.calls functions.new)) }
    ensures stays { F.hierarchy functions.new ≡ F.hierarchy functions.old }
{
    let outlook = look(alloc, tree, graph, relaxer, leg)?;
    let path = list_ancestors(alloc, tree, leg.to)?;
    let Some(by) = drive_chain(alloc, graph, functions, &outlook, &path, leg)? else {
        return day(alloc, tree, graph, functions, leg.from, leg.to);
    };
    let limits = Limits {
        by: &by,
        outlook: &outlook,
        relaxer,
    };
    day_until(alloc, tree, graph, functions, &limits, leg)
}

// What is at least still to go to the end of a leg.
fn look<R: Relaxer>(
    alloc: Global,
    tree: &Tree,
    graph: &Chordal,
    relaxer: &R,
    leg: Leg,
) -> Result<Outlook, NoMemory>
    requires ranks { (leg.from < graph.now.ranks) × (leg.to < graph.now.ranks) }
    requires tree { tree.now ≡ parents_in graph.now }
    requires graph { IsHierarchyOf graph.now (R.hierarchy relaxer.now) }
    ensures nodes { IfOk result (λ outlook. outlook.nodes ≡ graph.now.ranks) }
    ensures ahead { IfOk result (λ outlook. IsAhead (R.hierarchy relaxer.now) leg.from leg.to
        outlook.up outlook.down) }
{
    let mut outlook = Outlook::new(alloc, graph.ranks())?;
    let mut path = vec![in alloc; 0u32; graph.ranks() as usize]?;
    let question = Question {
        from: leg.from,
        to: leg.to,
        second: 0,
    };
    outlook.look(tree, graph, &mut path, relaxer, question);
    Ok(outlook)
}

// The same where there is a limit.
fn day_until<F: DayFunctions, R: Relaxer>(
    alloc: Global,
    tree: &Tree,
    graph: &Chordal,
    functions: &mut F,
    limits: &Limits<'_, R>,
    leg: Leg,
) -> Result<Option<Arrival>, NoMemory>
    requires ranks { (leg.from < graph.now.ranks) × (leg.to < graph.now.ranks) }
    requires tree { tree.now ≡ parents_in graph.now }
    requires graph { IsHierarchyOf graph.now (F.hierarchy functions.old) }
    requires same { R.hierarchy limits.now.relaxer.now ≡ F.hierarchy functions.old }
    requires outlook { limits.now.outlook.now.nodes ≡ graph.now.ranks }
    requires ahead { IsAhead (F.hierarchy functions.old) leg.from leg.to
        limits.now.outlook.now.up limits.now.outlook.now.down }
    requires early { IsEarly limits.now.by.now }
    ensures function { IfOk result (IsDayFunction (F.hierarchy functions.old) leg.from leg.to) }
    ensures least { IfOk result (IsLeastWhereBuilt (F.hierarchy functions.old) leg.from leg.to) }
    ensures told { IfOk result (λ _. AddsLimited (F.hierarchy functions.old) leg.from leg.to
        (F.calls functions.old) (F.calls functions.new)) }
    ensures stays { F.hierarchy functions.new ≡ F.hierarchy functions.old }
{
    let Some(function) = day_in_time(alloc, tree, graph, functions, limits, leg)? else {
        return day(alloc, tree, graph, functions, leg.from, leg.to);
    };
    Ok(Some(function))
}

// The day function by the arcs that may be in time, where it is at no second of the day later than the limit.
fn day_in_time<F: DayFunctions, R: Relaxer>(
    alloc: Global,
    tree: &Tree,
    graph: &Chordal,
    functions: &mut F,
    limits: &Limits<'_, R>,
    leg: Leg,
) -> Result<Option<Arrival>, NoMemory>
    requires ranks { (leg.from < graph.now.ranks) × (leg.to < graph.now.ranks) }
    requires tree { tree.now ≡ parents_in graph.now }
    requires graph { IsHierarchyOf graph.now (F.hierarchy functions.old) }
    requires same { R.hierarchy limits.now.relaxer.now ≡ F.hierarchy functions.old }
    requires outlook { limits.now.outlook.now.nodes ≡ graph.now.ranks }
    requires ahead { IsAhead (F.hierarchy functions.old) leg.from leg.to
        limits.now.outlook.now.up limits.now.outlook.now.down }
    requires early { IsEarly limits.now.by.now }
    ensures function { IfOk result (λ found. IfSome found
        (λ function. IsDayFunction (F.hierarchy functions.old) leg.from leg.to (Some function))) }
    ensures least { IfOk result (λ found. IfSome found
        (λ function. IsLeastWhereBuilt (F.hierarchy functions.old) leg.from leg.to (Some function))) }
    ensures told { IfOk result (λ _. AddsInSweeps (F.hierarchy functions.old) leg.from leg.to
        (F.calls functions.old) (F.calls functions.new)) }
    ensures stays { F.hierarchy functions.new ≡ F.hierarchy functions.old }
{
    let mut labels = sweep_in_time(alloc, tree, graph, functions, limits, leg)?;
    let Some(function) = labels[leg.to as usize].take() else {
        return Ok(None);
    };
    if slack_of(&function, limits.by, 1) > 1 {
        return Ok(None);
    }
    Ok(Some(function))
}
