//! Learning functions of lists of the hierarchy before an edit, as packed runs.

ghost use Rattle.std.specs.Prelude.{◌≡◌, ◌<◌, ◌*◌, ◌⊎◌, All, Some, length, slice_get, true};
ghost use Rattle.cu_chordal.specs.declared.graph.Ends.{Ends};
ghost use Rattle.cu_interval.specs.declared.ways.Entry.{Entry};
ghost use Rattle.cu_interval.specs.Hierarchies.{IsWellFormed, end_of, list_number, list_of, start_of};
ghost use Rattle.cu_edits.specs.Learned.{ArePackedOf};
ghost use Rattle.cu_edits.specs.Steps.Packed.{IfNear, IsAtHand, IsWayAtHand, LearnsPacked};
ghost use Rattle.cu_edits.specs.Steps.Bounds.{ArePlaced, TakeMoreThan, TakeNoMoreThan, no_limit};
ghost use Rattle.cu_edits.specs.Steps.Moving.{BothAre, HalvesAre, TellsBoth};
ghost use Rattle.cu_edits.specs.Steps.Parts.{TellsLists};
ghost use Rattle.cu_edits.specs.Steps.Triangles.{AreLearned, AreLeftOut, HasPlaces, IsLimit, TellsSides};

use crate::edit_parts::EditParts;
use crate::moved_lists::MovedLists;
use crate::triangle_halves::{are_both_unmoved, half_edges};
use cu_chordal::Ends;
use cu_customize::Triangle;
use cu_interval::{Dir, Shortcut, Way, Ways};
use cu_model::NoMemory;
use cu_runs::LayeredFunctions;
use cu_unpack::PackedFunctions;
use std::alloc::Global;

/// Of which middles halves are learned: of those of which a half was moved; and, in the first case, also of those whose halves may
/// take no longer than this together.
#[derive(Clone, Copy)]
pub enum Middles {
    Within(u64),
    Moved,
}

// Longer than any travel: the least bound of a list without ways.
const FAR: u64 = 1_152_921_504_606_846_976;

/// A list whose candidates are learned: of an edge in a direction. The triangles are the edge's lower ones.
#[derive(Clone, Copy)]
pub struct Asked<'a> {
    pub edge: u32,
    pub dir: Dir,
    pub triangles: &'a [Triangle],
    pub moved: &'a MovedLists,
}

/// Makes sure that both halves of each way by such a middle of a triangle of a list are known, but for halves that were moved; those
/// that aren't are learned. False where a way takes longer than packed runs can say. What was learned stays after a refusal too.
pub fn learn_middles<W: Ways>(
    alloc: Global,
    parts: &EditParts<'_, W>,
    asked: &Asked<'_>,
    which: Middles,
    packed: &mut PackedFunctions,
) -> Result<bool, NoMemory>
    requires moved { TellsLists parts.now asked.now.moved.now }
    requires sides { All (TellsSides asked.now.moved.now) asked.now.triangles.now }
    requires packed { ArePackedOf parts.now.before packed.old }
    ensures learns { LearnsPacked parts.now.before packed.old packed.new }
    ensures known { IfNear result (All (AreLearned parts.now.before which asked.now.moved.now
        packed.new asked.now.dir) asked.now.triangles.now) }
{
    for triangle in asked.triangles {
        if !learn_triangle(alloc, parts, asked, which, *triangle, packed)? {
            return Ok(false);
        }
    }
    Ok(true)
}

// The same of one triangle.
fn learn_triangle<W: Ways>(
    alloc: Global,
    parts: &EditParts<'_, W>,
    asked: &Asked<'_>,
    which: Middles,
    triangle: Triangle,
    packed: &mut PackedFunctions,
) -> Result<bool, NoMemory>
    requires moved { TellsLists parts.now asked.now.moved.now }
    requires sides { TellsSides asked.now.moved.now triangle }
    requires packed { ArePackedOf parts.now.before packed.old }
    ensures learns { LearnsPacked parts.now.before packed.old packed.new }
    ensures known { IfNear result (AreLearned parts.now.before which asked.now.moved.now
        packed.new asked.now.dir triangle) }
{
    let edges = half_edges(triangle, asked.dir);
    if is_left_out(parts, asked.moved, which, edges) {
        return Ok(true);
    }
    learn_halves(alloc, parts, asked.moved, edges, packed)
}

// Need the halves that these edges have not be learned, since none of them was moved, and, in the first case, they take too long?
fn is_left_out<W: Ways>(
    parts: &EditParts<'_, W>,
    moved: &MovedLists,
    which: Middles,
    edges: (u32, u32),
) -> bool
    requires { TellsBoth moved.now edges }
    ensures { result ≡ true → AreLeftOut parts.now.before which moved.now edges }
{
    if !are_both_unmoved(moved, edges) {
        return false;
    }
    match which {
        Middles::Within(limit) => take_more(parts, edges, limit),
        Middles::Moved => true,
    }
}

// Do the halves that these edges have take longer than this together, by how long travels over them take at least before the edits?
fn take_more<W: Ways>(parts: &EditParts<'_, W>, edges: (u32, u32), limit: u64) -> bool
    ensures { result ≡ true → TakeMoreThan parts.now.before limit edges }
{
    let first = parts.least(edges.0, Dir::Down);
    let second = parts.least(edges.1, Dir::Up);
    limit < FAR && limit < first.saturating_add(second)
}

/// How long some way by the middle of one of these triangles takes at most, by these functions, where both of its halves have one; the
/// greatest number where there is no such way.
pub fn limit_of(triangles: &[Triangle], dir: Dir, functions: &LayeredFunctions<'_>) -> u64
    requires { All (HasPlaces functions.now dir) triangles.now }
    ensures { IsLimit functions.now dir triangles.now result }
{
    let mut limit = u64::MAX;
    for triangle in triangles {
        let edges = half_edges(*triangle, dir);
        let most = most_by(functions, edges);
        limit = limit.min(most);
    }
    limit
}

// How long the way by the halves that these edges have takes at most, where both have a function.
fn most_by(functions: &LayeredFunctions<'_>, edges: (u32, u32)) -> u64
    requires { ArePlaced functions.now edges }
    ensures { (result ≡ no_limit) ⊎ TakeNoMoreThan functions.now result edges }
{
    let first = Shortcut {
        edge: edges.0,
        dir: Dir::Down,
    };
    let second = Shortcut {
        edge: edges.1,
        dir: Dir::Up,
    };
    let Some(first) = functions.get(first.list()) else {
        return u64::MAX;
    };
    let Some(second) = functions.get(second.list()) else {
        return u64::MAX;
    };
    first.most().saturating_add(second.most())
}

/// The same of the halves by the middles of the list before the edit.
pub fn learn_ways<W: Ways>(
    alloc: Global,
    parts: &EditParts<'_, W>,
    asked: &Asked<'_>,
    packed: &mut PackedFunctions,
) -> Result<bool, NoMemory>
    requires edge { asked.now.edge < length parts.now.graph.edges }
    requires moved { TellsLists parts.now asked.now.moved.now }
    requires packed { ArePackedOf parts.now.before packed.old }
    ensures learns { LearnsPacked parts.now.before packed.old packed.new }
    ensures known { IfNear result ((ends : Ends) → slice_get parts.now.graph.edges asked.now.edge ≡ Some ends
        → All (λ (entry : Entry). IsWayAtHand asked.now.moved.now packed.new parts.now.graph.edges
        ends asked.now.dir entry.way) (list_of parts.now.before asked.now.edge asked.now.dir)) }
{
    let ends = parts.ends(asked.edge);
    for index in 0..parts.entries(asked.edge, asked.dir) {
        let entry = parts.entry(asked.edge, asked.dir, index);
        if !learn_way(alloc, parts, asked, ends, entry.way, packed)? {
            return Ok(false);
        }
    }
    Ok(true)
}

// The same of one way between these ends.
fn learn_way<W: Ways>(
    alloc: Global,
    parts: &EditParts<'_, W>,
    asked: &Asked<'_>,
    ends: Ends,
    way: Way,
    packed: &mut PackedFunctions,
) -> Result<bool, NoMemory>
    requires formed { IsWellFormed parts.now.before
        (start_of ends asked.now.dir) (end_of ends asked.now.dir) way }
    requires ranks { (ends.low < parts.now.graph.ranks)
        × (ends.high < parts.now.graph.ranks) }
    requires moved { TellsLists parts.now asked.now.moved.now }
    requires packed { ArePackedOf parts.now.before packed.old }
    ensures learns { LearnsPacked parts.now.before packed.old packed.new }
    ensures known { IfNear result (IsWayAtHand asked.now.moved.now packed.new
        parts.now.graph.edges ends asked.now.dir way) }
{
    match way {
        Way::Road(_) => Ok(true),
        Way::Via(middle) => learn_both(alloc, parts, asked, ends, middle, packed),
    }
}

// The same of the halves by one middle, if there are such.
fn learn_both<W: Ways>(
    alloc: Global,
    parts: &EditParts<'_, W>,
    asked: &Asked<'_>,
    ends: Ends,
    middle: u32,
    packed: &mut PackedFunctions,
) -> Result<bool, NoMemory>
    requires middle { middle < parts.now.graph.ranks }
    requires moved { TellsLists parts.now asked.now.moved.now }
    requires packed { ArePackedOf parts.now.before packed.old }
    ensures learns { LearnsPacked parts.now.before packed.old packed.new }
    ensures known { IfNear result (HalvesAre (IsAtHand asked.now.moved.now packed.new)
        parts.now.graph.edges ends asked.now.dir middle) }
{
    let Some((first, second)) = parts.find_halves(ends, asked.dir, middle) else {
        return Ok(true);
    };
    learn_halves(alloc, parts, asked.moved, (first, second), packed)
}

// The same of the halves that these edges have.
fn learn_halves<W: Ways>(
    alloc: Global,
    parts: &EditParts<'_, W>,
    moved: &MovedLists,
    edges: (u32, u32),
    packed: &mut PackedFunctions,
) -> Result<bool, NoMemory>
    requires moved { TellsLists parts.now moved.now }
    requires edges { TellsBoth moved.now edges }
    requires packed { ArePackedOf parts.now.before packed.old }
    ensures learns { LearnsPacked parts.now.before packed.old packed.new }
    ensures known { IfNear result (BothAre (IsAtHand moved.now packed.new) edges) }
{
    if !learn_list(alloc, parts, moved, edges.0, Dir::Down, packed)? {
        return Ok(false);
    }
    learn_list(alloc, parts, moved, edges.1, Dir::Up, packed)
}

// The same of one list.
fn learn_list<W: Ways>(
    alloc: Global,
    parts: &EditParts<'_, W>,
    moved: &MovedLists,
    edge: u32,
    dir: Dir,
    packed: &mut PackedFunctions,
) -> Result<bool, NoMemory>
    requires edge { edge < length parts.now.graph.edges }
    requires moved { list_number edge dir < length moved.now.places }
    requires packed { ArePackedOf parts.now.before packed.old }
    ensures learns { LearnsPacked parts.now.before packed.old packed.new }
    ensures known { IfNear result (IsAtHand moved.now packed.new edge dir) }
{
    if !moved.is_unmoved(edge, dir) {
        return Ok(true);
    }
    parts.learn(alloc, packed, edge, dir)
}
