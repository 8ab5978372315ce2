//! What is at least still to go to a rank, by the least bounds of lists.

ghost use Rattle.std.specs.Prelude.{◌≡◌, ◌≤◌, ◌<◌, ◌+◌, ◌⊎◌, ℕ, Some, All, length, min, slice_index_or};
ghost use Rattle.std.specs.List.{AllPairs, Contains};
ghost use Rattle.cu_chordal.specs.declared.graph.TheConstants.{MAX_EDGES};
ghost use Rattle.cu_chordal.specs.Graphs.{IsChordal};
ghost use Rattle.cu_elimtree.specs.SweepArcs.{ancestors_in, parents_in};
ghost use Rattle.cu_elimtree.specs.Trees.{ancestors_of};
ghost use Rattle.cu_interval.specs.declared.ways.Dir.TheVariants.{Up, Down};
ghost use Rattle.cu_interval.specs.Hierarchies.{number_from};
ghost use Rattle.cu_interval.specs.LeastBounds.{far};
ghost use Rattle.cu_sweep.specs.Outlooks.{IsAhead, IsNear, ahead_at};

use crate::bounding::Bounds;
use crate::querying::Question;
use cu_chordal::Chordal;
use cu_elimtree::Tree;
use cu_interval::Dir;

// Further than any travel.
const FAR: u64 = 1 << 60;

// What is still to go from a rank: no more than is said of it, and than over each edge and from where it leads.
fn least_ahead<B: Bounds>(
    graph: &Chordal,
    ahead: &[u64],
    bounds: &B,
    rank: u32,
) -> (u64, Option<u32>)
    requires rank { rank < graph.now.ranks }
    requires graph { IsChordal graph.now }
    requires edges { B.count bounds.now ≡ length graph.now.edges }
    requires places { length ahead.now ≡ graph.now.ranks }
    requires near { IsNear ahead.now }
    ensures less { result.0 ≤ ahead_at ahead.now rank }
    ensures each { (y edge : ℕ) → number_from 0 graph.now.edges rank y ≡ Some edge
        → result.0 ≤ B.bounds bounds.now edge Up + ahead_at ahead.now y }
{
    let own = ahead[rank as usize];
    let mut best = (own, 0);
    let mut edge = graph.first_edge(rank);
    let highers = graph.up(rank);
    'edges: for higher in highers {
        let over = bounds.bound(edge, Dir::Up) + ahead[*higher as usize];
        best = lesser_of(best, over, edge);
        edge += 1;
    }
    (best.0, kept_edge(best.1, best.0 < own))
}

// The lesser of both, and the edge with it.
fn lesser_of(best: (u64, u32), over: u64, edge: u32) -> (u64, u32)
    ensures least { result.0 ≡ min best.0 over }
{
    if over < best.0 { (over, edge) } else { best }
}

// An edge, where it is better than none.
fn kept_edge(edge: u32, better: bool) -> Option<u32> {
    if better { Some(edge) } else { None }
}

// The place of the first neighbour, from a place on, of which more is said than what is still to go over its edge, by its
// least bound, and from where that leads; how many neighbours there are, where none is left.
fn next_nearer<B: Bounds>(
    ahead: &[u64],
    bounds: &B,
    highers: &[u32],
    first: u32,
    own: u64,
    start: usize,
) -> usize
    requires edges { (k : ℕ) → k < length highers.now → first + k < B.count bounds.now }
    requires few { first + length highers.now ≤ MAX_EDGES }
    requires places { All (λ higher. higher < length ahead.now) highers.now }
    requires own { own ≤ far }
    requires start { start ≤ length highers.now }
    ensures onward { start ≤ result }
    ensures within { result ≤ length highers.now }
    ensures passed { (k : ℕ) → start ≤ k → k < result → ahead_at ahead.now (slice_index_or highers.now k 0)
        ≤ own + B.bounds bounds.now (first + k) Down }
    ensures nearer { result < length highers.now
        → own + B.bounds bounds.now (first + result) Down
        < ahead_at ahead.now (slice_index_or highers.now result 0) }
{
    let mut place = start;
    'edges: while place < highers.len() {
        let over = own + bounds.bound(first + place as u32, Dir::Down);
        if over < ahead[highers[place] as usize] {
            return place;
        }
        place += 1;
    }
    place
}

// Says of each higher neighbour of a rank that no more is still to go from it than over the edge and from the rank.
fn lead_up<B: Bounds>(
    graph: &Chordal,
    ahead: &mut [u64],
    next: &mut [Option<u32>],
    bounds: &B,
    rank: u32,
)
    requires rank { rank < graph.now.ranks }
    requires graph { IsChordal graph.now }
    requires edges { B.count bounds.now ≡ length graph.now.edges }
    requires places { length ahead.old ≡ graph.now.ranks }
    requires near { IsNear ahead.old }
    requires nexts { length next.old ≡ graph.now.ranks }
    ensures places { length ahead.new ≡ length ahead.old }
    ensures nexts { length next.new ≡ length next.old }
    ensures near { IsNear ahead.new }
    ensures less { (y : ℕ) → ahead_at ahead.new y ≤ ahead_at ahead.old y }
    ensures kept { (y : ℕ) → y ≤ rank → ahead_at ahead.new y ≡ ahead_at ahead.old y }
    ensures each { (y edge : ℕ) → number_from 0 graph.now.edges rank y ≡ Some edge
        → ahead_at ahead.new y ≤ B.bounds bounds.now edge Down + ahead_at ahead.new rank }
{
    let own = ahead[rank as usize];
    let first = graph.first_edge(rank);
    let highers = graph.up(rank);
    let mut place = next_nearer(ahead, bounds, highers, first, own, 0);
    'edges: while place < highers.len() {
        let edge = first + place as u32;
        let higher = highers[place] as usize;
        ahead[higher] = own + bounds.bound(edge, Dir::Down);
        next[higher] = Some(edge);
        place = next_nearer(ahead, bounds, highers, first, own, place + 1);
    }
}

// The downward pass: over the ancestors of a rank, rising, what is still to go down to it.
fn look_down<B: Bounds>(
    tree: &Tree,
    graph: &Chordal,
    ahead: &mut [u64],
    next: &mut [Option<u32>],
    bounds: &B,
    to: u32,
)
    requires to { to < graph.now.ranks }
    requires tree { tree.now ≡ parents_in graph.now }
    requires graph { IsChordal graph.now }
    requires edges { B.count bounds.now ≡ length graph.now.edges }
    requires places { length ahead.old ≡ graph.now.ranks }
    requires near { IsNear ahead.old }
    requires nexts { length next.old ≡ graph.now.ranks }
    ensures places { length ahead.new ≡ length ahead.old }
    ensures nexts { length next.new ≡ length next.old }
    ensures near { IsNear ahead.new }
    ensures end { ahead_at ahead.new to ≡ 0 }
    ensures fall { (x y edge : ℕ) → Contains (ancestors_in graph.now to) x
        → number_from 0 graph.now.edges x y ≡ Some edge
        → ahead_at ahead.new y ≤ B.bounds bounds.now edge Down + ahead_at ahead.new x }
{
    ahead[to as usize] = 0;
    'ranks: for rank in tree.ancestors(to) {
        lead_up(graph, ahead, next, bounds, rank);
    }
}

/// The upward pass: over ranks, from the last to the first, what is still to go from each.
pub fn look_up<B: Bounds>(
    graph: &Chordal,
    ahead: &mut [u64],
    next: &mut [Option<u32>],
    bounds: &B,
    path: &[u32],
)
    requires path { All (λ rank. rank < graph.now.ranks) path.now }
    requires rising { AllPairs (λ a b. a < b) path.now }
    requires graph { IsChordal graph.now }
    requires edges { B.count bounds.now ≡ length graph.now.edges }
    requires places { length ahead.old ≡ graph.now.ranks }
    requires near { IsNear ahead.old }
    requires nexts { length next.old ≡ graph.now.ranks }
    ensures places { length ahead.new ≡ length ahead.old }
    ensures nexts { length next.new ≡ length next.old }
    ensures near { IsNear ahead.new }
    ensures less { (y : ℕ) → ahead_at ahead.new y ≤ ahead_at ahead.old y }
    ensures climb { (x y edge : ℕ) → Contains path.now x
        → number_from 0 graph.now.edges x y ≡ Some edge
        → ahead_at ahead.new x ≤ B.bounds bounds.now edge Up + ahead_at ahead.new y }
{
    let mut left = path.len();
    'ranks: while left > 0 {
        left -= 1;
        let (least, edge) = least_ahead(graph, ahead, bounds, path[left]);
        ahead[path[left] as usize] = least;
        next[path[left] as usize] = edge;
    }
}

/// What is at least still to go downwards to the end of a query, from its ancestors and from those of the start.
pub fn look_back<B: Bounds>(
    tree: &Tree,
    graph: &Chordal,
    ahead: &mut [u64],
    next: &mut [Option<u32>],
    bounds: &B,
    question: Question,
)
    requires ranks { (question.from < graph.now.ranks) × (question.to < graph.now.ranks) }
    requires tree { tree.now ≡ parents_in graph.now }
    requires graph { IsChordal graph.now }
    requires edges { B.count bounds.now ≡ length graph.now.edges }
    requires places { length ahead.old ≡ graph.now.ranks }
    requires near { IsNear ahead.old }
    requires nexts { length next.old ≡ graph.now.ranks }
    ensures places { length ahead.new ≡ length ahead.old }
    ensures nexts { length next.new ≡ length next.old }
    ensures near { IsNear ahead.new }
    ensures end { ahead_at ahead.new question.to ≡ 0 }
    ensures fall { (x y edge : ℕ) → Contains (ancestors_in graph.now question.to) x
        → number_from 0 graph.now.edges x y ≡ Some edge
        → ahead_at ahead.new y ≤ B.bounds bounds.now edge Down + ahead_at ahead.new x }
{
    set_far(tree, ahead, question.from);
    set_far(tree, ahead, question.to);
    look_down(tree, graph, ahead, next, bounds, question.to);
}

/// Says of the ancestors of a query's start and end that as much is still to go upwards as downwards.
pub fn start_up(tree: &Tree, down: &[u64], up: &mut [u64], question: Question)
    requires ranks { (question.from < length tree.now) × (question.to < length tree.now) }
    requires places { (length down.now ≡ length tree.now) × (length up.old ≡ length tree.now) }
    requires near { IsNear down.now × IsNear up.old }
    ensures places { length up.new ≡ length up.old }
    ensures near { IsNear up.new }
    ensures turn { (x : ℕ) → Contains (ancestors_of tree.now question.to) x
        → ahead_at up.new x ≡ ahead_at down.now x }
{
    copy_above(tree, down, up, question.from);
    copy_above(tree, down, up, question.to);
}

// Takes away what was said of a rank and its ancestors.
fn set_far(tree: &Tree, ahead: &mut [u64], rank: u32)
    requires rank { rank < length tree.now }
    requires places { length ahead.old ≡ length tree.now }
    requires near { IsNear ahead.old }
    ensures places { length ahead.new ≡ length ahead.old }
    ensures near { IsNear ahead.new }
{
    'ranks: for ancestor in tree.ancestors(rank) {
        ahead[ancestor as usize] = FAR;
    }
}

// Says of a rank and its ancestors what is said elsewhere.
fn copy_above(tree: &Tree, from: &[u64], into: &mut [u64], rank: u32)
    requires rank { rank < length tree.now }
    requires places { (length from.now ≡ length tree.now) × (length into.old ≡ length tree.now) }
    requires near { IsNear from.now × IsNear into.old }
    ensures places { length into.new ≡ length into.old }
    ensures near { IsNear into.new }
    ensures copied { (x : ℕ) → Contains (ancestors_of tree.now rank) x
        → ahead_at into.new x ≡ ahead_at from.now x }
{
    'ranks: for ancestor in tree.ancestors(rank) {
        into[ancestor as usize] = from[ancestor as usize];
    }
}
