//! The edges that one edge leads to, rank after rank.

ghost use Rattle.std.specs.Prelude.{◌≡◌, ◌≢◌, ◌<◌, ◌⊎◌, ◌∷◌, [], ℕ, IfOk, OnOk, Some, false, length, slice_get, true};
ghost use Rattle.cu_chordal.specs.Graphs.{IsChordal};
ghost use Rattle.cu_edits.specs.Steps.Climbing.{HasMarked, IsClimbed, IsHead, IsTo, heads_behind};
ghost use Rattle.cu_edits.specs.Steps.Found.{AddsFound};

use cu_chordal::Chordal;
use cu_model::NoMemory;

/// How many edges there are that one leads to, itself among them; and adds those of them to which no marked one leads. The edges that
/// have a mark lead to such alone. It takes the time of the ranks on the way up and of the edges added.
pub(crate) fn climb(
    graph: &Chordal,
    edge: u32,
    marks: &[bool],
    edges: &mut Vec<u32>,
) -> Result<u32, NoMemory>
    requires edge { edge < length graph.now.edges }
    requires marks { length marks.now ≡ length graph.now.edges }
    requires none { edges.old.items ≡ [] }
    ensures { IfOk result
        (IsClimbed graph.now.edges edge marks.now edges.new.items) }
{
    let ends = graph.ends(edge);
    let only = [ends.high];
    climb_from(graph, edge, ends.low, &only, marks, edges)
}

// The same for the edge from a rank to this one higher neighbour.
fn climb_from<'a>(
    graph: &'a Chordal,
    edge: u32,
    low: u32,
    only: &'a [u32],
    marks: &[bool],
    edges: &mut Vec<u32>,
) -> Result<u32, NoMemory>
    requires sound { IsChordal graph.now }
    requires low { low < graph.now.ranks }
    requires edge { (high : ℕ) × (only.now ≡ high ∷ []) × IsTo graph.now.edges low high edge }
    requires marks { length marks.now ≡ length graph.now.edges }
    requires none { edges.old.items ≡ [] }
    ensures { IfOk result
        (IsClimbed graph.now.edges edge marks.now edges.new.items) }
{
    let mut heads = only;
    let mut rank = low;
    let mut count = 0;
    let mut is_known = false;
    'ranks: while !heads.is_empty() {
        let ups = graph.up(rank);
        is_known = add_unless(graph, rank, heads, is_known, marks, edges)?;
        count += heads.len() as u32;
        heads = behind(ups, heads);
        rank = ups[0];
    }
    Ok(count)
}

// Of the higher neighbours of a rank, and of some of them, those to which edges lead from the lowest: from the edge to the lowest
// neighbour they lead to all others.
fn behind<'a>(ups: &'a [u32], heads: &'a [u32]) -> &'a [u32]
    requires some { ups.now ≢ [] }
    requires heads { heads.now ≢ [] }
    ensures { result.now ≡ heads_behind ups.now heads.now }
{
    if ups[0] == heads[0] {
        return &ups[1..];
    }
    heads
}

// Adds the edges from a rank to some of its higher neighbours, unless these are known to be marked. Answers whether those that they
// lead to are.
fn add_unless(
    graph: &Chordal,
    rank: u32,
    heads: &[u32],
    is_known: bool,
    marks: &[bool],
    edges: &mut Vec<u32>,
) -> Result<bool, NoMemory>
    requires rank { rank < graph.now.ranks }
    requires some { heads.now ≢ [] }
    requires marks { length marks.now ≡ length graph.now.edges }
    ensures added { OnOk result (AddsFound
        (λ edge. (is_known ≡ false) × IsHead graph.now.edges rank heads.now edge)
        edges.old.items edges.new.items) }
    ensures known { IfOk result (λ known. known ≡ true → (is_known ≡ true)
        ⊎ ((first : ℕ) × (slice_get heads.now 0 ≡ Some first)
        × HasMarked graph.now.edges rank first marks.now)) }
{
    if is_known {
        return Ok(true);
    }
    add_heads(graph, rank, heads, edges)?;
    Ok(is_marked(graph, rank, heads[0], marks))
}

// Adds the edges from a rank to some of its higher neighbours.
fn add_heads(
    graph: &Chordal,
    rank: u32,
    heads: &[u32],
    edges: &mut Vec<u32>,
) -> Result<(), NoMemory>
    requires rank { rank < graph.now.ranks }
    ensures { OnOk result (AddsFound (IsHead graph.now.edges rank heads.now)
        edges.old.items edges.new.items) }
{
    for head in heads {
        add_head(graph, rank, *head, edges)?;
    }
    Ok(())
}

// Adds the edge from a rank to this one, if there is one.
fn add_head(graph: &Chordal, rank: u32, head: u32, edges: &mut Vec<u32>) -> Result<(), NoMemory>
    requires rank { rank < graph.now.ranks }
    ensures { OnOk result (AddsFound (IsTo graph.now.edges rank head)
        edges.old.items edges.new.items) }
{
    let Some(edge) = graph.edge(rank, head) else {
        return Ok(());
    };
    edges.push(edge)?;
    Ok(())
}

// Is the edge from a rank to its lowest higher neighbour, if this is it, marked?
fn is_marked(graph: &Chordal, rank: u32, head: u32, marks: &[bool]) -> bool
    requires rank { rank < graph.now.ranks }
    requires marks { length marks.now ≡ length graph.now.edges }
    ensures { result ≡ true → HasMarked graph.now.edges rank head marks.now }
{
    let Some(edge) = graph.edge(rank, head) else {
        return false;
    };
    if !is_first(graph.up(rank), head) {
        return false;
    }
    has_mark(marks, edge)
}

// Is this the first of these ranks?
fn is_first(ranks: &[u32], rank: u32) -> bool
    ensures { result ≡ true → slice_get ranks.now 0 ≡ Some rank }
{
    match ranks {
        [first, ..] => *first == rank,
        [] => false,
    }
}

// Is the edge with this number marked?
fn has_mark(marks: &[bool], edge: u32) -> bool
    requires { edge < length marks.now }
    ensures { result ≡ true → slice_get marks.now edge ≡ Some true }
{
    marks[edge as usize]
}
