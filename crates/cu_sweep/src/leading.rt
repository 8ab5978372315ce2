//! Queries that are led to their end: what is ahead, a way driven as a limit, and sweeps by the calls that may be in time.

ghost use Rattle.std.specs.Prelude.{◌≡◌, ◌≤◌, ◌<◌, ◌+◌, IfSome, Some, length};
ghost use Rattle.cu_model.specs.declared.limits.TheConstants.{DAY};
ghost use Rattle.cu_elimtree.specs.SweepArcs.{ancestors_in, parents_in};
ghost use Rattle.cu_interval.specs.Hierarchies.{IsHierarchyOf};
ghost use Rattle.cu_bounds.specs.Near.{AreNear};
ghost use Rattle.cu_short.specs.Shortness.{NeverLong};
ghost use Rattle.cu_sweep.specs.declared.finding.Found.TheVariants.{Arrive};
ghost use Rattle.cu_sweep.specs.Answers.{IsLeastWhereBuilt, IsReal};
ghost use Rattle.cu_sweep.specs.Desks.{HoldsFound};
ghost use Rattle.cu_sweep.specs.LedCalls.{AddsLed, AddsSome};
ghost use Rattle.cu_sweep.specs.Outlooks.{IsAhead};
ghost use Rattle.cu_sweep.specs.Sweeps.{found};
ghost use Rattle.cu_sweep.specs.Swept.{desk_of};
ghost use Rattle.cu_sweep.specs.Steps.Driving.{AddsLimited};

use crate::desk::SweepDesk;
use crate::driving::drive_way;
use crate::finding::Found;
use crate::labels::Labels;
use crate::outlook::Outlook;
use crate::querying::{Question, climb, query};
use crate::timing::InTime;
use cu_bounds::NearBounds;
use cu_chordal::Chordal;
use cu_elimtree::Tree;
use cu_interval::Relaxer;
use cu_links::Chain;

/// The graph of a hierarchy, its tree, and the least bounds of its lists.
#[derive(Clone, Copy)]
pub struct Ground<'a> {
    pub tree: &'a Tree,
    pub graph: &'a Chordal,
    pub bounds: &'a NearBounds,
}

/// [`query`] over a hierarchy none of whose walks is too long: it finds the same, and leaves the same walk on the desk, but makes
/// only calls that may still be in time for the end, as long as a way that is driven first is met; else it is [`query`]. All of
/// its calls are over sweep arcs, upwards of the start and downwards of the end: along the way, and then of each sweep in its
/// order. The outlook was made for as many nodes as the desk. Takes no memory.
pub fn led_query<R: Relaxer>(
    ground: Ground<'_>,
    desk: &mut SweepDesk,
    outlook: &mut Outlook,
    relaxer: &mut R,
    question: Question,
) -> Found
    requires ranks { (question.from < ground.graph.now.ranks) × (question.to < ground.graph.now.ranks) }
    requires second { question.second < DAY }
    requires tree { ground.tree.now ≡ parents_in ground.graph.now }
    requires desk { desk.old.nodes ≡ ground.graph.now.ranks }
    requires outlook { outlook.old.nodes ≡ ground.graph.now.ranks }
    requires graph { IsHierarchyOf ground.graph.now (R.hierarchy relaxer.old) }
    requires bounds { AreNear (R.hierarchy relaxer.old) ground.bounds.now }
    requires short { NeverLong (R.hierarchy relaxer.old) }
    ensures found { result ≡ found (R.hierarchy relaxer.old)
        question.from question.to question.second }
    ensures told { AddsLed (R.hierarchy relaxer.old)
        question.from question.to question.second (R.calls relaxer.old) (R.calls relaxer.new) }
    ensures stays { R.hierarchy relaxer.new ≡ R.hierarchy relaxer.old }
    ensures nodes { desk.new.nodes ≡ desk.old.nodes }
    ensures outlook { outlook.new.nodes ≡ outlook.old.nodes }
    ensures holds { HoldsFound (R.hierarchy relaxer.old)
        question.from question.to question.second result desk.new }
    ensures least { IsLeastWhereBuilt (R.hierarchy relaxer.old)
        question.from question.to question.second result }
    ensures real { IsReal (R.hierarchy relaxer.old)
        question.from question.to question.second desk.new.calls result }
{
    let Ground {
        tree,
        graph,
        bounds,
    } = ground;
    outlook.look_near(tree, graph, &mut desk.path, bounds, question);
    query_along(ground, desk, outlook, relaxer, question)
}

// The same where what is ahead was found.
fn query_along<R: Relaxer>(
    ground: Ground<'_>,
    desk: &mut SweepDesk,
    outlook: &Outlook,
    relaxer: &mut R,
    question: Question,
) -> Found
    requires ranks { (question.from < ground.graph.now.ranks) × (question.to < ground.graph.now.ranks) }
    requires second { question.second < DAY }
    requires tree { ground.tree.now ≡ parents_in ground.graph.now }
    requires desk { desk.old.nodes ≡ ground.graph.now.ranks }
    requires outlook { outlook.now.nodes ≡ ground.graph.now.ranks }
    requires ahead { IsAhead (R.hierarchy relaxer.old) question.from question.to
        outlook.now.up outlook.now.down }
    requires graph { IsHierarchyOf ground.graph.now (R.hierarchy relaxer.old) }
    requires bounds { AreNear (R.hierarchy relaxer.old) ground.bounds.now }
    requires short { NeverLong (R.hierarchy relaxer.old) }
    ensures found { result ≡ found (R.hierarchy relaxer.old)
        question.from question.to question.second }
    ensures told { AddsLed (R.hierarchy relaxer.old)
        question.from question.to question.second (R.calls relaxer.old) (R.calls relaxer.new) }
    ensures stays { R.hierarchy relaxer.new ≡ R.hierarchy relaxer.old }
    ensures nodes { desk.new.nodes ≡ desk.old.nodes }
    ensures holds { HoldsFound (R.hierarchy relaxer.old)
        question.from question.to question.second result desk.new }
    ensures least { IsLeastWhereBuilt (R.hierarchy relaxer.old)
        question.from question.to question.second result }
    ensures real { IsReal (R.hierarchy relaxer.old)
        question.from question.to question.second desk.new.calls result }
{
    let Ground {
        tree,
        graph,
        bounds,
    } = ground;
    let count = climb(tree, question.to, &mut desk.path);
    let path = &desk.path[..count];
    let Some(by) = drive_way(graph, outlook, path, relaxer, question) else {
        return query(
            tree,
            graph,
            desk,
            relaxer,
            question.from,
            question.to,
            question.second,
        );
    };
    let limits = outlook.within(bounds, by);
    query_until(tree, graph, desk, relaxer, limits, question)
}

// The same where there is a limit.
fn query_until<R: Relaxer>(
    tree: &Tree,
    graph: &Chordal,
    desk: &mut SweepDesk,
    relaxer: &mut R,
    limits: InTime<'_>,
    question: Question,
) -> Found
    requires ranks { (question.from < graph.now.ranks) × (question.to < graph.now.ranks) }
    requires second { question.second < DAY }
    requires tree { tree.now ≡ parents_in graph.now }
    requires desk { desk.old.nodes ≡ graph.now.ranks }
    requires graph { IsHierarchyOf graph.now (R.hierarchy relaxer.old) }
    requires places { length limits.up.now ≡ graph.now.ranks }
    requires bounds { AreNear (R.hierarchy relaxer.old) limits.bounds.now }
    requires ahead { IsAhead (R.hierarchy relaxer.old) question.from question.to
        limits.up.now limits.down.now }
    requires short { NeverLong (R.hierarchy relaxer.old) }
    ensures found { result ≡ found (R.hierarchy relaxer.old)
        question.from question.to question.second }
    ensures told { AddsLimited (R.hierarchy relaxer.old)
        question.from question.to question.second (R.calls relaxer.old) (R.calls relaxer.new) }
    ensures stays { R.hierarchy relaxer.new ≡ R.hierarchy relaxer.old }
    ensures nodes { desk.new.nodes ≡ desk.old.nodes }
    ensures holds { HoldsFound (R.hierarchy relaxer.old)
        question.from question.to question.second result desk.new }
    ensures least { IsLeastWhereBuilt (R.hierarchy relaxer.old)
        question.from question.to question.second result }
    ensures real { IsReal (R.hierarchy relaxer.old)
        question.from question.to question.second desk.new.calls result }
{
    match query_in_time(tree, graph, desk, relaxer, limits, question) {
        Some(arrival) => Found::Arrive(arrival),
        None => query(
            tree,
            graph,
            desk,
            relaxer,
            question.from,
            question.to,
            question.second,
        ),
    }
}

// When the end is reached by the calls that may be in time, where that is in time.
fn query_in_time<R: Relaxer>(
    tree: &Tree,
    graph: &Chordal,
    desk: &mut SweepDesk,
    relaxer: &mut R,
    limits: InTime<'_>,
    question: Question,
) -> Option<u64>
    requires ranks { (question.from < graph.now.ranks) × (question.to < graph.now.ranks) }
    requires second { question.second < DAY }
    requires tree { tree.now ≡ parents_in graph.now }
    requires desk { desk.old.nodes ≡ graph.now.ranks }
    requires graph { IsHierarchyOf graph.now (R.hierarchy relaxer.old) }
    requires places { length limits.up.now ≡ graph.now.ranks }
    requires bounds { AreNear (R.hierarchy relaxer.old) limits.bounds.now }
    requires ahead { IsAhead (R.hierarchy relaxer.old) question.from question.to
        limits.up.now limits.down.now }
    requires short { NeverLong (R.hierarchy relaxer.old) }
    ensures told { AddsSome (R.hierarchy relaxer.old) question.from question.to
        (R.calls relaxer.old) (R.calls relaxer.new) }
    ensures stays { R.hierarchy relaxer.new ≡ R.hierarchy relaxer.old }
    ensures nodes { desk.new.nodes ≡ desk.old.nodes }
    ensures found { IfSome result (λ arrival. Arrive arrival
        ≡ found (R.hierarchy relaxer.old) question.from question.to question.second) }
    ensures holds { IfSome result (λ arrival. HoldsFound (R.hierarchy relaxer.old)
        question.from question.to question.second (Arrive arrival) desk.new) }
{
    let count = climb(tree, question.to, &mut desk.path);
    let goal = Goal { question, limits };
    let path = &desk.path[..count];
    let arrival = sweep_in_time(tree, graph, &mut desk.labels, path, relaxer, goal);
    desk.end = desk.labels.nodes() + question.to;
    arrival
}

// A query, and the calls that may be in time for it.
#[derive(Clone, Copy)]
struct Goal<'a> {
    question: Question,
    limits: InTime<'a>,
}

// The same in the places of a desk, the downward sweep over the ancestors of the end.
fn sweep_in_time<R: Relaxer>(
    tree: &Tree,
    graph: &Chordal,
    labels: &mut Labels<Chain>,
    path: &[u32],
    relaxer: &mut R,
    goal: Goal<'_>,
) -> Option<u64>
    requires from { goal.question.from < graph.now.ranks }
    requires to { goal.question.to < graph.now.ranks }
    requires second { goal.question.second < DAY }
    requires tree { tree.now ≡ parents_in graph.now }
    requires graph { IsHierarchyOf graph.now (R.hierarchy relaxer.old) }
    requires labels { labels.old.nodes ≡ graph.now.ranks }
    requires path { path.now ≡ ancestors_in graph.now goal.question.to }
    requires places { length goal.limits.up.now ≡ graph.now.ranks }
    requires bounds { AreNear (R.hierarchy relaxer.old) goal.limits.bounds.now }
    requires ahead { IsAhead (R.hierarchy relaxer.old) goal.question.from goal.question.to
        goal.limits.up.now goal.limits.down.now }
    requires short { NeverLong (R.hierarchy relaxer.old) }
    ensures told { AddsSome (R.hierarchy relaxer.old)
        goal.entry.question.from goal.entry.question.to (R.calls relaxer.old) (R.calls relaxer.new) }
    ensures stays { R.hierarchy relaxer.new ≡ R.hierarchy relaxer.old }
    ensures nodes { labels.new.nodes ≡ labels.old.nodes }
    ensures found { IfSome result (λ arrival. Arrive arrival ≡ found (R.hierarchy relaxer.old)
        goal.entry.question.from goal.entry.question.to goal.entry.question.second) }
    ensures holds { IfSome result (λ arrival. HoldsFound (R.hierarchy relaxer.old)
        goal.entry.question.from goal.entry.question.to goal.entry.question.second (Arrive arrival)
        (desk_of labels.new (labels.new.nodes + goal.entry.question.to))) }
{
    let question = goal.question;
    let limits = goal.limits;
    labels.begin(tree, question.from, question.second, path);
    if labels
        .rise(tree, graph, relaxer, &limits, question.from)
        .is_some()
    {
        return None;
    }
    if labels.fall(graph, relaxer, &limits, path).is_some() {
        return None;
    }
    in_time(labels.second(question.to), limits.by)
}

// A second that is in time.
fn in_time(second: Option<u64>, by: u64) -> Option<u64>
    ensures { IfSome result (λ arrival. (second ≡ Some arrival) × (arrival ≤ by)) }
{
    let arrival = second?;
    if arrival <= by { Some(arrival) } else { None }
}
