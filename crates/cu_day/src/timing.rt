//! Sweeps over functions that leave out the arcs which can't be in time for the end at any second of the day.

ghost use Rattle.std.specs.Prelude.{◌≡◌, ◌≢◌, ◌≤◌, ◌<◌, ◌+◌, ◌∷◌, [], ℕ, Some, IfOk, OnOk, All, length, reverse, slice_get, true};
ghost use Rattle.std.specs.List.{AllPairs};
ghost use Rattle.cu_model.specs.declared.limits.TheConstants.{DAY};
ghost use Rattle.cu_arrival.specs.Runs.{arrival_value};
ghost use Rattle.cu_chordal.specs.declared.graph.Ends.{Ends};
ghost use Rattle.cu_chordal.specs.Graphs.{up_of};
ghost use Rattle.cu_elimtree.specs.SweepArcs.{parents_in};
ghost use Rattle.cu_interval.specs.declared.ways.Dir.TheVariants.{Up, Down};
ghost use Rattle.cu_interval.specs.Hierarchies.{IsHierarchy, IsHierarchyOf, start_of, end_of};
ghost use Rattle.cu_interval.specs.LeastBounds.{far, least_bound};
ghost use Rattle.cu_day.specs.Steps.InTime.{AreSlacks, InTime, IsEarly, IsNoEarlier, LeavesArc, ahead_in};
ghost use Rattle.cu_sweep.specs.LedCalls.{arcs_of_rank, arcs_of_ranks};
ghost use Rattle.cu_day.specs.Steps.LedSteps.{AddsInSweeps, AddsSomeOf};
ghost use Rattle.cu_day.specs.Steps.Ranks.{GathersFrom, HasSwept, HasSweptDown, HasSweptUp, SpreadsTo};
ghost use Rattle.cu_day.specs.Steps.Sweeping.{TakesList, value_at};

use crate::days::{begun_labels, list_ancestors, take_list};
use crate::functions::DayFunctions;
use cu_arrival::{Arrival, slack_of};
use cu_chordal::Chordal;
use cu_elimtree::Tree;
use cu_interval::{Dir, Leg, Relaxer, Shortcut};
use cu_model::NoMemory;
use cu_sweep::Outlook;
use std::alloc::Global;

/// A function by which the end is to be reached, what is at least still to go to it, and who knows the least bounds of lists.
#[derive(Drop)]
pub struct Limits<'a, R> {
    pub by: &'a Arrival,
    pub outlook: &'a Outlook,
    pub relaxer: &'a R,
}

// The labels of a sweep, and for each rank a number of seconds by which the limit is later than its label by less.
#[derive(Drop)]
struct Reached {
    labels: Vec<Option<Arrival>>,
    slacks: Vec<u64>,
}

/// The labels that both sweeps leave from the start of a leg to its end, as far as they are in time.
pub fn sweep_in_time<F: DayFunctions, R: Relaxer>(
    alloc: Global,
    tree: &Tree,
    graph: &Chordal,
    functions: &mut F,
    limits: &Limits<'_, R>,
    leg: Leg,
) -> Result<Vec<Option<Arrival>>, NoMemory>
    requires ranks { (leg.from < graph.now.ranks) × (leg.to < graph.now.ranks) }
    requires tree { tree.now ≡ parents_in graph.now }
    requires graph { IsHierarchyOf graph.now (F.hierarchy functions.old) }
    requires same { R.hierarchy limits.now.relaxer.now ≡ F.hierarchy functions.old }
    requires outlook { limits.now.outlook.now.nodes ≡ graph.now.ranks }
    requires early { IsEarly limits.now.by.now }
    ensures long { IfOk result (λ labels. length labels.items ≡ graph.now.ranks) }
    ensures swept { IfOk result (λ labels. HasSwept
        (InTime limits.now.by.now limits.now.outlook.now.up)
        (InTime limits.now.by.now limits.now.outlook.now.down)
        (F.hierarchy functions.old) leg.from leg.to labels.items) }
    ensures told { IfOk result (λ _. AddsInSweeps (F.hierarchy functions.old) leg.from leg.to
        (F.calls functions.old) (F.calls functions.new)) }
    ensures stays { F.hierarchy functions.new ≡ F.hierarchy functions.old }
{
    let labels = begun_labels(alloc, graph.ranks(), leg.from)?;
    let slacks = vec![in alloc; u64::MAX; graph.ranks() as usize]?;
    let mut reached = Reached { labels, slacks };
    let ups = list_ancestors(alloc, tree, leg.from)?;
    rise(alloc, graph, &mut reached, functions, limits, &ups)?;
    let downs = list_ancestors(alloc, tree, leg.to)?;
    fall(alloc, graph, &mut reached, functions, limits, &downs)?;
    Ok(reached.labels)
}

// The upward sweep over ranks, from the first to the last.
fn rise<F: DayFunctions, R: Relaxer>(
    alloc: Global,
    graph: &Chordal,
    reached: &mut Reached,
    functions: &mut F,
    limits: &Limits<'_, R>,
    path: &[u32],
) -> Result<(), NoMemory>
    requires path { All (λ rank. rank < graph.now.ranks) path.now }
    requires rising { AllPairs (λ a b. a < b) path.now }
    requires graph { IsHierarchyOf graph.now (F.hierarchy functions.old) }
    requires same { R.hierarchy limits.now.relaxer.now ≡ F.hierarchy functions.old }
    requires outlook { limits.now.outlook.now.nodes ≡ graph.now.ranks }
    requires early { IsEarly limits.now.by.now }
    requires long { length reached.old.labels.items ≡ graph.now.ranks }
    requires places { length reached.old.slacks.items ≡ graph.now.ranks }
    requires slacks { AreSlacks limits.now.by.now reached.old.labels.items reached.old.slacks.items }
    ensures swept { OnOk result (HasSweptUp (InTime limits.now.by.now limits.now.outlook.now.up)
        (F.hierarchy functions.old) path.now reached.old.labels.items reached.new.labels.items) }
    ensures places { OnOk result (length reached.new.slacks.items ≡ graph.now.ranks) }
    ensures slacks { OnOk result (AreSlacks limits.now.by.now
        reached.new.labels.items reached.new.slacks.items) }
    ensures told { OnOk result (AddsSomeOf (arcs_of_ranks (F.hierarchy functions.old) Up path.now)
        (F.calls functions.old) (F.calls functions.new)) }
    ensures stays { F.hierarchy functions.new ≡ F.hierarchy functions.old }
{
    let mut done = 0;
    'ranks: while done < path.len() {
        spread_in_time(alloc, graph, reached, functions, limits, path[done])?;
        done += 1;
    }
    Ok(())
}

// The downward sweep over ranks, from the last to the first.
fn fall<F: DayFunctions, R: Relaxer>(
    alloc: Global,
    graph: &Chordal,
    reached: &mut Reached,
    functions: &mut F,
    limits: &Limits<'_, R>,
    path: &[u32],
) -> Result<(), NoMemory>
    requires path { All (λ rank. rank < graph.now.ranks) path.now }
    requires rising { AllPairs (λ a b. a < b) path.now }
    requires graph { IsHierarchyOf graph.now (F.hierarchy functions.old) }
    requires same { R.hierarchy limits.now.relaxer.now ≡ F.hierarchy functions.old }
    requires outlook { limits.now.outlook.now.nodes ≡ graph.now.ranks }
    requires early { IsEarly limits.now.by.now }
    requires long { length reached.old.labels.items ≡ graph.now.ranks }
    requires places { length reached.old.slacks.items ≡ graph.now.ranks }
    requires slacks { AreSlacks limits.now.by.now reached.old.labels.items reached.old.slacks.items }
    ensures swept { OnOk result (HasSweptDown (InTime limits.now.by.now limits.now.outlook.now.down)
        (F.hierarchy functions.old) path.now reached.old.labels.items reached.new.labels.items) }
    ensures told { OnOk result
        (AddsSomeOf (arcs_of_ranks (F.hierarchy functions.old) Down (reverse path.now))
        (F.calls functions.old) (F.calls functions.new)) }
    ensures stays { F.hierarchy functions.new ≡ F.hierarchy functions.old }
{
    let mut left = path.len();
    'ranks: while left > 0 {
        left -= 1;
        gather_in_time(alloc, graph, reached, functions, limits, path[left])?;
    }
    Ok(())
}

// Takes the arcs from a rank up to its higher neighbours that may be in time.
fn spread_in_time<F: DayFunctions, R: Relaxer>(
    alloc: Global,
    graph: &Chordal,
    reached: &mut Reached,
    functions: &mut F,
    limits: &Limits<'_, R>,
    rank: u32,
) -> Result<(), NoMemory>
    requires rank { rank < graph.now.ranks }
    requires graph { IsHierarchyOf graph.now (F.hierarchy functions.old) }
    requires same { R.hierarchy limits.now.relaxer.now ≡ F.hierarchy functions.old }
    requires outlook { limits.now.outlook.now.nodes ≡ graph.now.ranks }
    requires early { IsEarly limits.now.by.now }
    requires long { length reached.old.labels.items ≡ graph.now.ranks }
    requires places { length reached.old.slacks.items ≡ graph.now.ranks }
    requires slacks { AreSlacks limits.now.by.now reached.old.labels.items reached.old.slacks.items }
    ensures spreads { OnOk result (SpreadsTo (InTime limits.now.by.now limits.now.outlook.now.up)
        (F.hierarchy functions.old) rank (up_of (F.hierarchy functions.old).edges rank)
        reached.old.labels.items reached.new.labels.items) }
    ensures places { OnOk result (length reached.new.slacks.items ≡ graph.now.ranks) }
    ensures slacks { OnOk result (AreSlacks limits.now.by.now
        reached.new.labels.items reached.new.slacks.items) }
    ensures told { OnOk result (AddsSomeOf (arcs_of_rank (F.hierarchy functions.old) Up rank)
        (F.calls functions.old) (F.calls functions.new)) }
    ensures stays { F.hierarchy functions.new ≡ F.hierarchy functions.old }
{
    settle(reached, limits.by, rank);
    let mut edge = graph.first_edge(rank);
    let highers = graph.up(rank);
    'edges: for higher in highers {
        let shortcut = Shortcut { edge, dir: Dir::Up };
        let leg = Leg {
            from: rank,
            to: *higher,
        };
        take_in_time(alloc, reached, functions, limits, shortcut, leg)?;
        edge += 1;
    }
    Ok(())
}

// Takes the arcs down to a rank from its higher neighbours that may be in time.
fn gather_in_time<F: DayFunctions, R: Relaxer>(
    alloc: Global,
    graph: &Chordal,
    reached: &mut Reached,
    functions: &mut F,
    limits: &Limits<'_, R>,
    rank: u32,
) -> Result<(), NoMemory>
    requires rank { rank < graph.now.ranks }
    requires graph { IsHierarchyOf graph.now (F.hierarchy functions.old) }
    requires same { R.hierarchy limits.now.relaxer.now ≡ F.hierarchy functions.old }
    requires outlook { limits.now.outlook.now.nodes ≡ graph.now.ranks }
    requires early { IsEarly limits.now.by.now }
    requires long { length reached.old.labels.items ≡ graph.now.ranks }
    requires places { length reached.old.slacks.items ≡ graph.now.ranks }
    requires slacks { AreSlacks limits.now.by.now reached.old.labels.items reached.old.slacks.items }
    ensures gathers { OnOk result (GathersFrom (InTime limits.now.by.now limits.now.outlook.now.down)
        (F.hierarchy functions.old) rank (up_of (F.hierarchy functions.old).edges rank)
        reached.old.labels.items reached.new.labels.items) }
    ensures places { OnOk result (length reached.new.slacks.items ≡ graph.now.ranks) }
    ensures slacks { OnOk result (AreSlacks limits.now.by.now
        reached.new.labels.items reached.new.slacks.items) }
    ensures told { OnOk result (AddsSomeOf (arcs_of_rank (F.hierarchy functions.old) Down rank)
        (F.calls functions.old) (F.calls functions.new)) }
    ensures stays { F.hierarchy functions.new ≡ F.hierarchy functions.old }
{
    let mut edge = graph.first_edge(rank);
    let highers = graph.up(rank);
    'edges: for higher in highers {
        let shortcut = Shortcut {
            edge,
            dir: Dir::Down,
        };
        let leg = Leg {
            from: *higher,
            to: rank,
        };
        take_in_time(alloc, reached, functions, limits, shortcut, leg)?;
        edge += 1;
    }
    settle(reached, limits.by, rank);
    Ok(())
}

// Keeps by how much the limit is later than the label of a rank, which is final.
fn settle(reached: &mut Reached, by: &Arrival, rank: u32)
    requires rank { rank < length reached.old.labels.items }
    requires place { rank < length reached.old.slacks.items }
    requires slacks { AreSlacks by.now reached.old.labels.items reached.old.slacks.items }
    ensures labels { reached.new.labels.items ≡ reached.old.labels.items }
    ensures places { length reached.new.slacks.items ≡ length reached.old.slacks.items }
    ensures slacks { AreSlacks by.now reached.new.labels.items reached.new.slacks.items }
{
    let slack = slack_at(by, &reached.labels[rank as usize]);
    reached.slacks[rank as usize] = slack;
}

// A number of seconds by which a limit is later than a label by less, if there is one.
fn slack_at(limit: &Arrival, label: &Option<Arrival>) -> u64
    ensures { (t b : ℕ) → t < DAY → value_at (Some label.now) t ≡ Some b
        → arrival_value limit.now t < b + result }
{
    match label {
        Some(function) => slack_of(limit, function, u64::MAX),
        None => 0,
    }
}

// Takes the arc of a shortcut, which leads from one rank to another, unless its list is empty or it can't be in time.
fn take_in_time<F: DayFunctions, R: Relaxer>(
    alloc: Global,
    reached: &mut Reached,
    functions: &mut F,
    limits: &Limits<'_, R>,
    shortcut: Shortcut,
    leg: Leg,
) -> Result<(), NoMemory>
    requires apart { leg.from ≢ leg.to }
    requires start { leg.from < length reached.old.labels.items }
    requires end { leg.to < length reached.old.labels.items }
    requires edge { (ends : Ends)
        × (slice_get (F.hierarchy functions.old).edges shortcut.edge ≡ Some ends)
        × (start_of ends shortcut.dir ≡ leg.from) × (end_of ends shortcut.dir ≡ leg.to) }
    requires same { R.hierarchy limits.now.relaxer.now ≡ F.hierarchy functions.old }
    requires sound { IsHierarchy (F.hierarchy functions.old) }
    requires outlook { limits.now.outlook.now.nodes ≡ length reached.old.labels.items }
    requires early { IsEarly limits.now.by.now }
    requires places { length reached.old.slacks.items ≡ length reached.old.labels.items }
    requires slacks { AreSlacks limits.now.by.now reached.old.labels.items reached.old.slacks.items }
    ensures takes { OnOk result (TakesList
        (InTime limits.now.by.now (ahead_in limits.now.outlook.now shortcut.dir))
        (F.hierarchy functions.old) leg.from leg.to
        reached.old.labels.items reached.new.labels.items) }
    ensures places { OnOk result (length reached.new.slacks.items ≡ length reached.old.slacks.items) }
    ensures slacks { OnOk result (AreSlacks limits.now.by.now
        reached.new.labels.items reached.new.slacks.items) }
    ensures told { OnOk result
        (AddsSomeOf (shortcut ∷ []) (F.calls functions.old) (F.calls functions.new)) }
    ensures stays { F.hierarchy functions.new ≡ F.hierarchy functions.old }
{
    if is_left_out(reached, limits, shortcut, leg) {
        return Ok(());
    }
    take_list(alloc, &mut reached.labels, functions, shortcut, leg)?;
    reached.slacks[leg.to as usize] = u64::MAX;
    Ok(())
}

// Whether the arc of a shortcut can be left out: at no second of the day is it in time for the end and earlier than what stands.
fn is_left_out<R: Relaxer>(
    reached: &Reached,
    limits: &Limits<'_, R>,
    shortcut: Shortcut,
    leg: Leg,
) -> bool
    requires start { leg.from < length reached.now.labels.items }
    requires end { leg.to < length reached.now.labels.items }
    requires edge { shortcut.edge < length (R.hierarchy limits.now.relaxer.now).edges }
    requires outlook { limits.now.outlook.now.nodes ≡ length reached.now.labels.items }
    requires places { length reached.now.slacks.items ≡ length reached.now.labels.items }
    requires slacks { AreSlacks limits.now.by.now reached.now.labels.items reached.now.slacks.items }
    ensures { result ≡ true → LeavesArc limits.now.by.now
        (ahead_in limits.now.outlook.now shortcut.dir)
        (least_bound (R.hierarchy limits.now.relaxer.now) shortcut.edge shortcut.dir)
        leg.from leg.to reached.now.labels.items }
{
    let Some(label) = &reached.labels[leg.from as usize] else {
        return true;
    };
    let bound = limits.relaxer.least(shortcut.edge, shortcut.dir);
    let ahead = ahead_of(limits.outlook, shortcut.dir)[leg.to as usize];
    if reached.slacks[leg.from as usize].saturating_sub(bound) <= ahead {
        return true;
    }
    is_no_earlier(label, bound, &reached.labels[leg.to as usize])
}

// What is at least still to go from each rank, where it is reached in a direction.
fn ahead_of(outlook: &Outlook, dir: Dir) -> &[u64]
    ensures all { result.now ≡ ahead_in outlook.now dir }
    ensures places { length result.now ≡ outlook.now.nodes }
{
    match dir {
        Dir::Up => outlook.up(),
        Dir::Down => outlook.down(),
    }
}

// Whether an arc that takes at least so long behind a label is at no second of the day earlier than what stands.
fn is_no_earlier(label: &Arrival, bound: u64, standing: &Option<Arrival>) -> bool
    requires { bound ≤ far }
    ensures { result ≡ true → IsNoEarlier label.now bound standing.now }
{
    match standing {
        Some(function) => slack_of(function, label, bound + 1) <= bound + 1,
        None => false,
    }
}
