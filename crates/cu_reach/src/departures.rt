//! Latest departures.

ghost use Rattle.std.specs.Prelude.{◌≡◌, ◌≤◌, ◌<◌, ◌+◌, ◌-◌, ◌^◌};
ghost use Rattle.cu_elimtree.specs.SweepArcs.{parents_in};
ghost use Rattle.cu_interval.specs.Hierarchies.{IsHierarchyOf};
ghost use Rattle.cu_model.specs.declared.limits.TheConstants.{DAY};
ghost use Rattle.cu_reach.specs.Departures.{AddsQueries, HoldsDeparture, IsDeparture, IsLatestWhereBuilt, IsRealDeparture, departure_of, latest_by, next_second, searched};
ghost use Rattle.cu_reach.specs.Steps.Searching.{IsInTime};

use cu_chordal::Chordal;
use cu_elimtree::Tree;
use cu_interval::{Dir, Relaxer};
use cu_model::DAY;
use cu_sweep::{Found, SweepDesk, query};

/// How many queries a latest departure takes at most.
pub const MOST_QUERIES: u32 = 20;

/// The greatest second of the day from which a query arrives in time, with its arrival; that second 0 is too late; that there
/// is no walk; or a relaxation whose walk was too long.
#[derive(Clone, Copy, PartialEq, Eq)]
pub enum Departure {
    Depart { second: u64, arrive: u64 },
    TooLate,
    NoWalk,
    Long { edge: u32, dir: Dir, second: u64 },
}

// Two ranks, and the second by which to come from the one to the other.
#[derive(Clone, Copy)]
struct Journey {
    from: u32,
    to: u32,
    by: u64,
}

/// The latest departure from one rank that arrives at another by a second of at most 2^40. Where it departs, the last query on
/// the desk left then, so its route may be written. Both ranks are below the number of ranks, the tree is that of the graph,
/// the desk was made for as many nodes, and the relaxer stands for a hierarchy with this graph. Takes no memory.
pub fn latest<R: Relaxer>(
    tree: &Tree,
    graph: &Chordal,
    desk: &mut SweepDesk,
    relaxer: &mut R,
    from: u32,
    to: u32,
    by: u64,
) -> Departure
    requires ranks { (from < graph.now.ranks) × (to < graph.now.ranks) }
    requires by { by ≤ latest_by }
    requires tree { tree.now ≡ parents_in graph.now }
    requires desk { desk.old.nodes ≡ graph.now.ranks }
    requires graph { IsHierarchyOf graph.now (R.hierarchy relaxer.old) }
    ensures departure { IsDeparture (R.hierarchy relaxer.old) from to by result }
    ensures search { result ≡ departure_of (R.hierarchy relaxer.old) from to by }
    ensures latest { IsLatestWhereBuilt (R.hierarchy relaxer.old) from to by result }
    ensures told { AddsQueries (R.hierarchy relaxer.old) from to MOST_QUERIES
        (R.calls relaxer.old) (R.calls relaxer.new) }
    ensures holds { HoldsDeparture (R.hierarchy relaxer.old) from to result desk.new }
    ensures real { IsRealDeparture (R.hierarchy relaxer.old) from to desk.new.calls result }
    ensures nodes { desk.new.nodes ≡ desk.old.nodes }
    ensures stays { R.hierarchy relaxer.new ≡ R.hierarchy relaxer.old }
{
    let arrival = match query(tree, graph, desk, relaxer, from, to, 0) {
        Found::Arrive(arrival) => arrival,
        Found::NoWalk => return Departure::NoWalk,
        Found::Long { edge, dir, second } => return Departure::Long { edge, dir, second },
    };
    if arrival > by {
        return Departure::TooLate;
    }
    let journey = Journey { from, to, by };
    let departure = search(tree, graph, desk, relaxer, journey, arrival);
    leave(tree, graph, desk, relaxer, journey, departure);
    departure
}

// The latest departure of a journey that arrives in time from second 0 on.
fn search<R: Relaxer>(
    tree: &Tree,
    graph: &Chordal,
    desk: &mut SweepDesk,
    relaxer: &mut R,
    journey: Journey,
    at_nought: u64,
) -> Departure
    requires ranks { (journey.from < graph.now.ranks) × (journey.to < graph.now.ranks) }
    requires by { journey.by ≤ latest_by }
    requires tree { tree.now ≡ parents_in graph.now }
    requires desk { desk.old.nodes ≡ graph.now.ranks }
    requires graph { IsHierarchyOf graph.now (R.hierarchy relaxer.old) }
    requires in_time { IsInTime (R.hierarchy relaxer.old) journey 0 at_nought }
    ensures departure { IsDeparture (R.hierarchy relaxer.old)
        journey.from journey.to journey.by result }
    ensures search { result
        ≡ searched (R.hierarchy relaxer.old) journey.from journey.to journey.by 18 0 at_nought DAY }
    ensures latest { IsLatestWhereBuilt (R.hierarchy relaxer.old)
        journey.from journey.to journey.by result }
    ensures told { AddsQueries (R.hierarchy relaxer.old) journey.from journey.to 18
        (R.calls relaxer.old) (R.calls relaxer.new) }
    ensures nodes { desk.new.nodes ≡ desk.old.nodes }
    ensures stays { R.hierarchy relaxer.new ≡ R.hierarchy relaxer.old }
{
    let Journey { from, to, by } = journey;
    let mut early = 0;
    let mut arrival = at_nought;
    let mut late = u64::from(DAY);
    let mut left = 18;
    'seconds: while late - early > 1 {
        let second = next_second(early, by - arrival, late, left);
        match query(tree, graph, desk, relaxer, from, to, second as u32) {
            Found::Long { edge, dir, second } => return Departure::Long { edge, dir, second },
            Found::NoWalk => late = second,
            Found::Arrive(answer) => {
                if answer <= by {
                    early = second;
                    arrival = answer;
                } else {
                    late = second;
                }
            }
        }
        left -= 1;
    }
    Departure::Depart {
        second: early,
        arrive: arrival,
    }
}

// The second to be asked next, between one that is in time by so many seconds and one that is too late: where the walk of the
// first would leave if it took as long then, moved so that what is left on either side can be searched by the queries left.
fn next_second(early: u64, spare: u64, late: u64, left: u32) -> u64
    requires between { early + 2 ≤ late }
    requires day { late ≤ DAY }
    requires left { (left ≤ 18) × (late ≤ early + 2 ^ left) }
    ensures next { result ≡ next_second early spare late (2 ^ (left - 1)) }
    ensures after { early < result }
    ensures before { result < late }
    ensures low { result ≤ early + 2 ^ (left - 1) }
    ensures high { late ≤ result + 2 ^ (left - 1) }
    ensures some { 0 < left }
{
    let half = half_of(left);
    let guess = early.saturating_add(spare).max(early + 1).min(late - 1);
    guess.max(late.saturating_sub(half)).min(early + half)
}

// Half as many as so many queries can tell apart.
fn half_of(left: u32) -> u64
    requires left { left ≤ 18 }
    requires some { 0 < left }
    ensures half { result ≡ 2 ^ (left - 1) }
    ensures twice { result + result ≡ 2 ^ left }
    ensures few { result ≤ 2 ^ 17 }
{
    1 << (left - 1)
}

// Asks once more at the second of a departure, so that the desk holds its walk.
fn leave<R: Relaxer>(
    tree: &Tree,
    graph: &Chordal,
    desk: &mut SweepDesk,
    relaxer: &mut R,
    journey: Journey,
    departure: Departure,
)
    requires ranks { (journey.from < graph.now.ranks) × (journey.to < graph.now.ranks) }
    requires tree { tree.now ≡ parents_in graph.now }
    requires desk { desk.old.nodes ≡ graph.now.ranks }
    requires graph { IsHierarchyOf graph.now (R.hierarchy relaxer.old) }
    requires departure { IsDeparture (R.hierarchy relaxer.old)
        journey.from journey.to journey.by departure }
    ensures told { AddsQueries (R.hierarchy relaxer.old) journey.from journey.to 1
        (R.calls relaxer.old) (R.calls relaxer.new) }
    ensures holds { HoldsDeparture (R.hierarchy relaxer.old)
        journey.from journey.to departure desk.new }
    ensures real { IsRealDeparture (R.hierarchy relaxer.old)
        journey.from journey.to desk.new.calls departure }
    ensures nodes { desk.new.nodes ≡ desk.old.nodes }
    ensures stays { R.hierarchy relaxer.new ≡ R.hierarchy relaxer.old }
{
    if let Departure::Depart { second, .. } = departure {
        query(
            tree,
            graph,
            desk,
            relaxer,
            journey.from,
            journey.to,
            second as u32,
        );
    }
}
