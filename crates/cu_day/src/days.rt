//! The day function between two ranks, by two sweeps.

ghost use Rattle.std.specs.Prelude.{◌≡◌, ◌≢◌, ◌≤◌, ◌<◌, ◌+◌, ◌++◌, ◌∷◌, [], ◌^◌, ℕ, List, Some, None, IfOk, IfSome, OnOk, All, length, min, reverse, slice_get};
ghost use Rattle.cu_model.specs.declared.limits.TheConstants.{DAY, MAX_NODES};
ghost use Rattle.cu_model.specs.Days.{day};
ghost use Rattle.cu_arrival.specs.Runs.{IsArrivalFunction, arrival_value};
ghost use Rattle.cu_chordal.specs.declared.graph.Ends.{Ends};
ghost use Rattle.cu_chordal.specs.Graphs.{up_of};
ghost use Rattle.cu_interval.specs.Hierarchies.{IsHierarchyOf, list_from, start_of, end_of};
ghost use Rattle.std.specs.List.{AllPairs};
ghost use Rattle.cu_elimtree.specs.SweepArcs.{parents_in};
ghost use Rattle.cu_elimtree.specs.Trees.{ancestors_of};
ghost use Rattle.cu_interval.specs.declared.ways.Dir.TheVariants.{Up, Down};
ghost use Rattle.cu_day.specs.DayAnswers.{IsLeastWhereBuilt};
ghost use Rattle.cu_day.specs.DayCalls.{AddsSweepArcs};
ghost use Rattle.cu_sweep.specs.LedCalls.{arcs_of_rank, arcs_of_ranks};
ghost use Rattle.cu_day.specs.DayChains.{IsDayFunction};
ghost use Rattle.cu_day.specs.Steps.Ranks.{AreBegun, GathersFrom, HasSwept, HasSweptDown, HasSweptUp, SpreadsTo};
ghost use Rattle.cu_day.specs.Steps.Sweeping.{Always, TakesList};
ghost use Rattle.cu_day.specs.Steps.Taking.{HasEarlier, IsEarlier, TakesArc};

use crate::functions::DayFunctions;
use cu_arrival::{Arrival, Run, RunRule, compose, least};
use cu_chordal::Chordal;
use cu_elimtree::Tree;
use cu_interval::{Dir, Leg, Shortcut};
use cu_model::NoMemory;
use std::alloc::Global;

/// The day function from one rank to another: by the upward sweep over the ancestors of the first and the downward sweep over
/// those of the second. None exactly where there is no day chain; over a built hierarchy, where there is no walk. Both ranks are
/// below the number of ranks, the tree is that of the graph, and the functions are those of a hierarchy with this graph. The calls
/// that it adds are over sweep arcs of the one rank upwards and then of the other downwards, each at most once a sweep.
///
/// Refused only for want of memory; some of these calls were made then, and the hierarchy is as it was.
pub fn day<F: DayFunctions>(
    alloc: Global,
    tree: &Tree,
    graph: &Chordal,
    functions: &mut F,
    from: u32,
    to: u32,
) -> Result<Option<Arrival>, NoMemory>
    requires ranks { (from < graph.now.ranks) × (to < graph.now.ranks) }
    requires tree { tree.now ≡ parents_in graph.now }
    requires graph { IsHierarchyOf graph.now (F.hierarchy functions.old) }
    ensures function { IfOk result (IsDayFunction (F.hierarchy functions.old) from to) }
    ensures least { IfOk result (IsLeastWhereBuilt (F.hierarchy functions.old) from to) }
    ensures told { IfOk result (λ _. AddsSweepArcs graph.now from to
        (F.calls functions.old) (F.calls functions.new)) }
    ensures stays { F.hierarchy functions.new ≡ F.hierarchy functions.old }
{
    let mut labels = sweep(alloc, tree, graph, functions, from, to)?;
    Ok(labels[to as usize].take())
}

// The labels that both sweeps leave.
fn sweep<F: DayFunctions>(
    alloc: Global,
    tree: &Tree,
    graph: &Chordal,
    functions: &mut F,
    from: u32,
    to: u32,
) -> Result<Vec<Option<Arrival>>, NoMemory>
    requires ranks { (from < graph.now.ranks) × (to < graph.now.ranks) }
    requires tree { tree.now ≡ parents_in graph.now }
    requires graph { IsHierarchyOf graph.now (F.hierarchy functions.old) }
    ensures long { IfOk result (λ labels. length labels.items ≡ graph.now.ranks) }
    ensures swept { IfOk result
        (λ labels. HasSwept Always Always (F.hierarchy functions.old) from to labels.items) }
    ensures told { IfOk result (λ _. AddsSweepArcs graph.now from to
        (F.calls functions.old) (F.calls functions.new)) }
    ensures stays { F.hierarchy functions.new ≡ F.hierarchy functions.old }
{
    let mut labels = begun_labels(alloc, graph.ranks(), from)?;
    let ups = list_ancestors(alloc, tree, from)?;
    sweep_up(alloc, graph, &mut labels, functions, &ups)?;
    let downs = list_ancestors(alloc, tree, to)?;
    sweep_down(alloc, graph, &mut labels, functions, &downs)?;
    Ok(labels)
}

/// A label for each rank: at the start staying there, and none elsewhere.
pub fn begun_labels(alloc: Global, ranks: u32, from: u32) -> Result<Vec<Option<Arrival>>, NoMemory>
    requires { from < ranks }
    ensures { IfOk result (λ labels. AreBegun ranks from labels.items) }
{
    let mut labels = no_labels(alloc, ranks)?;
    labels[from as usize] = Some(staying(alloc)?);
    Ok(labels)
}

// A place for the label of each rank.
fn no_labels(alloc: Global, ranks: u32) -> Result<Vec<Option<Arrival>>, NoMemory>
    ensures long { IfOk result (λ labels. length labels.items ≡ ranks) }
    ensures none { IfOk result (λ labels. All (λ label. label ≡ None) labels.items) }
{
    let mut labels = Vec::with_capacity(alloc, ranks as usize)?;
    'ranks: for _rank in 0..ranks {
        labels.push(None)?;
    }
    Ok(labels)
}

/// The function that arrives as it leaves.
pub fn staying(alloc: Global) -> Result<Arrival, NoMemory>
    ensures sound { IfOk result IsArrivalFunction }
    ensures stays { IfOk result (λ f. (t : ℕ) → t < DAY → arrival_value f t ≡ t) }
{
    let run = Run {
        from: 0,
        rule: RunRule::Shift(0),
    };
    Arrival::from_runs(alloc, &[run])
}

/// The ancestors of a rank, rising.
pub fn list_ancestors(alloc: Global, tree: &Tree, rank: u32) -> Result<Vec<u32>, NoMemory>
    requires { rank < length tree.now }
    ensures path { IfOk result (λ path. path.items ≡ ancestors_of tree.now rank) }
    ensures rising { IfOk result (λ path. AllPairs (λ a b. a < b) path.items) }
    ensures below { IfOk result (λ path. All (λ rank. rank < length tree.now) path.items) }
{
    let mut path = Vec::new(alloc);
    'ranks: for ancestor in tree.ancestors(rank) {
        path.push(ancestor)?;
    }
    Ok(path)
}

// The upward sweep over ranks, from the first to the last.
fn sweep_up<F: DayFunctions>(
    alloc: Global,
    graph: &Chordal,
    labels: &mut Vec<Option<Arrival>>,
    functions: &mut F,
    path: &[u32],
) -> Result<(), NoMemory>
    requires path { All (λ rank. rank < graph.now.ranks) path.now }
    requires rising { AllPairs (λ a b. a < b) path.now }
    requires graph { IsHierarchyOf graph.now (F.hierarchy functions.old) }
    requires long { length labels.old.items ≡ graph.now.ranks }
    ensures swept { OnOk result
        (HasSweptUp Always (F.hierarchy functions.old) path.now labels.old.items labels.new.items) }
    ensures told { OnOk result (F.calls functions.new
        ≡ F.calls functions.old ++ arcs_of_ranks (F.hierarchy functions.old) Up path.now) }
    ensures stays { F.hierarchy functions.new ≡ F.hierarchy functions.old }
{
    let mut done = 0;
    'ranks: while done < path.len() {
        spread(alloc, graph, labels, functions, path[done])?;
        done += 1;
    }
    Ok(())
}

// The downward sweep over ranks, from the last to the first.
fn sweep_down<F: DayFunctions>(
    alloc: Global,
    graph: &Chordal,
    labels: &mut Vec<Option<Arrival>>,
    functions: &mut F,
    path: &[u32],
) -> Result<(), NoMemory>
    requires path { All (λ rank. rank < graph.now.ranks) path.now }
    requires rising { AllPairs (λ a b. a < b) path.now }
    requires graph { IsHierarchyOf graph.now (F.hierarchy functions.old) }
    requires long { length labels.old.items ≡ graph.now.ranks }
    ensures swept { OnOk result
        (HasSweptDown Always (F.hierarchy functions.old) path.now labels.old.items labels.new.items) }
    ensures told { OnOk result (F.calls functions.new ≡ F.calls functions.old
        ++ arcs_of_ranks (F.hierarchy functions.old) Down (reverse path.now)) }
    ensures stays { F.hierarchy functions.new ≡ F.hierarchy functions.old }
{
    let mut left = path.len();
    'ranks: while left > 0 {
        left -= 1;
        gather(alloc, graph, labels, functions, path[left])?;
    }
    Ok(())
}

// Takes the arcs from a rank up to its higher neighbours.
fn spread<F: DayFunctions>(
    alloc: Global,
    graph: &Chordal,
    labels: &mut Vec<Option<Arrival>>,
    functions: &mut F,
    rank: u32,
) -> Result<(), NoMemory>
    requires rank { rank < graph.now.ranks }
    requires graph { IsHierarchyOf graph.now (F.hierarchy functions.old) }
    requires long { length labels.old.items ≡ graph.now.ranks }
    ensures spreads { OnOk result (SpreadsTo Always (F.hierarchy functions.old) rank
        (up_of (F.hierarchy functions.old).edges rank) labels.old.items labels.new.items) }
    ensures told { OnOk result (F.calls functions.new
        ≡ F.calls functions.old ++ arcs_of_rank (F.hierarchy functions.old) Up rank) }
    ensures stays { F.hierarchy functions.new ≡ F.hierarchy functions.old }
{
    let mut edge = graph.first_edge(rank);
    let highers = graph.up(rank);
    'edges: for higher in highers {
        let shortcut = Shortcut { edge, dir: Dir::Up };
        let leg = Leg {
            from: rank,
            to: *higher,
        };
        take_list(alloc, labels, functions, shortcut, leg)?;
        edge += 1;
    }
    Ok(())
}

// Takes the arcs down to a rank from its higher neighbours.
fn gather<F: DayFunctions>(
    alloc: Global,
    graph: &Chordal,
    labels: &mut Vec<Option<Arrival>>,
    functions: &mut F,
    rank: u32,
) -> Result<(), NoMemory>
    requires rank { rank < graph.now.ranks }
    requires graph { IsHierarchyOf graph.now (F.hierarchy functions.old) }
    requires long { length labels.old.items ≡ graph.now.ranks }
    ensures gathers { OnOk result (GathersFrom Always (F.hierarchy functions.old) rank
        (up_of (F.hierarchy functions.old).edges rank) labels.old.items labels.new.items) }
    ensures told { OnOk result (F.calls functions.new
        ≡ F.calls functions.old ++ arcs_of_rank (F.hierarchy functions.old) Down rank) }
    ensures stays { F.hierarchy functions.new ≡ F.hierarchy functions.old }
{
    let mut edge = graph.first_edge(rank);
    let highers = graph.up(rank);
    'edges: for higher in highers {
        let shortcut = Shortcut {
            edge,
            dir: Dir::Down,
        };
        let leg = Leg {
            from: *higher,
            to: rank,
        };
        take_list(alloc, labels, functions, shortcut, leg)?;
        edge += 1;
    }
    Ok(())
}

/// Takes the arc of a shortcut, which leads from one rank to another, unless its list is empty.
pub fn take_list<F: DayFunctions>(
    alloc: Global,
    labels: &mut Vec<Option<Arrival>>,
    functions: &mut F,
    shortcut: Shortcut,
    leg: Leg,
) -> Result<(), NoMemory>
    requires apart { leg.from ≢ leg.to }
    requires start { leg.from < length labels.old.items }
    requires end { leg.to < length labels.old.items }
    requires edge { (ends : Ends)
        × (slice_get (F.hierarchy functions.old).edges shortcut.edge ≡ Some ends)
        × (start_of ends shortcut.dir ≡ leg.from) × (end_of ends shortcut.dir ≡ leg.to) }
    ensures takes { OnOk result (TakesList Always (F.hierarchy functions.old) leg.from leg.to
        labels.old.items labels.new.items) }
    ensures told { OnOk result
        (F.calls functions.new ≡ F.calls functions.old ++ shortcut ∷ []) }
    ensures stays { F.hierarchy functions.new ≡ F.hierarchy functions.old }
{
    let Some(function) = functions.function(alloc, shortcut.edge, shortcut.dir)? else {
        return Ok(());
    };
    take_arc(alloc, labels, &function, leg)
}

// Takes the arc of this function from one rank to another.
fn take_arc(
    alloc: Global,
    labels: &mut Vec<Option<Arrival>>,
    function: &Arrival,
    leg: Leg,
) -> Result<(), NoMemory>
    requires apart { leg.from ≢ leg.to }
    requires start { leg.from < length labels.old.items }
    requires end { leg.to < length labels.old.items }
    ensures { OnOk result (TakesArc function.now leg.from leg.to labels.old.items labels.new.items) }
{
    let Some(label) = &labels[leg.from as usize] else {
        return Ok(());
    };
    let candidate = compose(alloc, label, function)?;
    put_earlier(alloc, &mut labels[leg.to as usize], candidate)
}

// Puts the earlier of a label and a candidate in the label's place.
fn put_earlier(
    alloc: Global,
    place: &mut Option<Arrival>,
    candidate: Arrival,
) -> Result<(), NoMemory>
    requires { IsArrivalFunction candidate }
    ensures { OnOk result (HasEarlier place.old candidate place.new) }
{
    let standing = place.take();
    let least = earlier(alloc, standing, candidate)?;
    *place = Some(least);
    Ok(())
}

// The earlier of two functions at each second, or the second alone.
fn earlier(alloc: Global, first: Option<Arrival>, second: Arrival) -> Result<Arrival, NoMemory>
    requires { IsArrivalFunction second }
    ensures { IfOk result (IsEarlier first second) }
{
    let Some(first) = first else {
        return Ok(second);
    };
    let function = least(alloc, &first, &second)?;
    Ok(function)
}
