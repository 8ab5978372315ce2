//! Driving the way that is shortest by least bounds, for a second by which the end is reached.

ghost use Rattle.std.specs.Prelude.{◌≡◌, ◌≤◌, ◌<◌, ◌∷◌, [], IfSome, Some, length, slice_get};
ghost use Rattle.cu_elimtree.specs.SweepArcs.{ancestors_in};
ghost use Rattle.cu_interval.specs.declared.ways.Dir.TheVariants.{Up, Down};
ghost use Rattle.cu_interval.specs.Hierarchies.{IsHierarchyOf};
ghost use Rattle.cu_sweep.specs.LedCalls.{AddsWay, LeadsFrom};
ghost use Rattle.cu_sweep.specs.Sweeps.{AddsAll};
ghost use Rattle.cu_sweep.specs.Steps.Driving.{AddsLegs, AddsLegsOn, Tries};

use crate::outlook::Outlook;
use crate::querying::Question;
use cu_chordal::Chordal;
use cu_interval::{Dir, Relaxed, Relaxer, leg_of};

// No way that is driven takes so long.
const LATE: u64 = 1 << 60;

/// When the way over which the least is still to go, up from a query's start and then down to its end, is driven to its end. None
/// where it doesn't lead there. The path is that of the end's ancestors: the way is left where it leads down to another rank.
/// Nothing is promised of the second, which is but a limit.
pub fn drive_way<R: Relaxer>(
    graph: &Chordal,
    outlook: &Outlook,
    path: &[u32],
    relaxer: &mut R,
    question: Question,
) -> Option<u64>
    requires from { question.from < graph.now.ranks }
    requires outlook { outlook.now.nodes ≡ graph.now.ranks }
    requires path { path.now ≡ ancestors_in graph.now question.to }
    requires graph { IsHierarchyOf graph.now (R.hierarchy relaxer.old) }
    ensures told { AddsWay (R.hierarchy relaxer.old) question.from question.to
        (R.calls relaxer.old) (R.calls relaxer.new) }
    ensures stays { R.hierarchy relaxer.new ≡ R.hierarchy relaxer.old }
{
    let start = Spot {
        rank: question.from,
        at: u64::from(question.second),
    };
    let top = drive_up(graph, outlook.up_next(), relaxer, start)?;
    drive_down(graph, outlook.down_next(), path, relaxer, top, question.to)
}

// A rank, and when it is reached.
#[derive(Clone, Copy)]
struct Spot {
    rank: u32,
    at: u64,
}

// Drives the edges up, as far as they lead.
fn drive_up<R: Relaxer>(
    graph: &Chordal,
    next: &[Option<u32>],
    relaxer: &mut R,
    start: Spot,
) -> Option<Spot>
    requires rank { start.rank < graph.now.ranks }
    requires nexts { length next.now ≡ graph.now.ranks }
    requires graph { IsHierarchyOf graph.now (R.hierarchy relaxer.old) }
    ensures told { AddsLegsOn (R.hierarchy relaxer.old) start.rank Up start.rank
        (R.calls relaxer.old) (R.calls relaxer.new) }
    ensures reached { IfSome result (λ top. AddsLegs (R.hierarchy relaxer.old)
        start.rank Up start.rank top.rank (R.calls relaxer.old) (R.calls relaxer.new)) }
    ensures rank { IfSome result (λ top. top.rank < graph.now.ranks) }
    ensures stays { R.hierarchy relaxer.new ≡ R.hierarchy relaxer.old }
{
    let mut rank = start.rank;
    let mut at = start.at;
    'steps: while let Some(edge) = next[rank as usize] {
        let other = led_to(graph, edge, Dir::Up, rank)?;
        at = drive_edge(relaxer, edge, Dir::Up, at)?;
        rank = other;
    }
    Some(Spot { rank, at })
}

// Drives the edges down to a rank, over its ancestors, which are the path.
fn drive_down<R: Relaxer>(
    graph: &Chordal,
    next: &[Option<u32>],
    path: &[u32],
    relaxer: &mut R,
    top: Spot,
    to: u32,
) -> Option<u64>
    requires rank { top.rank < graph.now.ranks }
    requires nexts { length next.now ≡ graph.now.ranks }
    requires path { path.now ≡ ancestors_in graph.now to }
    requires graph { IsHierarchyOf graph.now (R.hierarchy relaxer.old) }
    ensures told { AddsLegsOn (R.hierarchy relaxer.old) to Down top.rank
        (R.calls relaxer.old) (R.calls relaxer.new) }
    ensures stays { R.hierarchy relaxer.new ≡ R.hierarchy relaxer.old }
{
    let mut rank = top.rank;
    let mut at = top.at;
    let mut count = path.len();
    'steps: while rank != to {
        let edge = next[rank as usize]?;
        let other = led_to(graph, edge, Dir::Down, rank)?;
        count = place_on(path, count, other)?;
        at = drive_edge(relaxer, edge, Dir::Down, at)?;
        rank = other;
    }
    Some(at)
}

/// The place of a rank among the first so many of a path, which is looked through from the last on, as long as its ranks are
/// higher: where the path rises, none only if the rank isn't there.
pub fn place_on(path: &[u32], count: usize, rank: u32) -> Option<usize>
    requires { count ≤ length path.now }
    ensures { IfSome result (λ place. (place < count) × (slice_get path.now place ≡ Some rank)) }
{
    let mut left = count;
    'ranks: while left > 0 {
        left -= 1;
        if path[left] == rank {
            return Some(left);
        }
        if path[left] < rank {
            return None;
        }
    }
    None
}

// When an edge is driven to its end.
fn drive_edge<R: Relaxer>(relaxer: &mut R, edge: u32, dir: Dir, at: u64) -> Option<u64>
    requires edge { edge < length (R.hierarchy relaxer.old).edges }
    ensures tried { Tries (R.calls relaxer.old) (R.calls relaxer.new)
        (record { edge = edge; dir = dir; second = at }) }
    ensures made { IfSome result (λ _. AddsAll (R.calls relaxer.old) (R.calls relaxer.new)
        (record { edge = edge; dir = dir; second = at } ∷ [])) }
    ensures stays { R.hierarchy relaxer.new ≡ R.hierarchy relaxer.old }
{
    if at >= LATE {
        return None;
    }
    match relaxer.relax(edge, dir, at) {
        Relaxed::At(arrival) => Some(arrival),
        _ => None,
    }
}

/// Where an edge leads from a rank in a direction, if there is such an edge and it leads from there.
pub fn led_to(graph: &Chordal, edge: u32, dir: Dir, rank: u32) -> Option<u32>
    ensures { IfSome result (λ other. LeadsFrom graph.now edge dir rank other) }
{
    if edge >= graph.edges() {
        return None;
    }
    other_end(graph, edge, dir, rank)
}

// The same where there is such an edge.
fn other_end(graph: &Chordal, edge: u32, dir: Dir, rank: u32) -> Option<u32>
    requires { edge < length graph.now.edges }
    ensures { IfSome result (λ other. LeadsFrom graph.now edge dir rank other) }
{
    let leg = leg_of(graph.ends(edge), dir);
    if leg.from != rank {
        return None;
    }
    Some(leg.to)
}
