//! Settling the touched edges of an edit by packed runs.

ghost use Rattle.std.specs.Prelude.{◌≡◌, ◌≤◌, ◌<◌, ◌*◌, ◌++◌, ◌∷◌, [], All, IfNone, IfOk, IfSome, OnErr, OnOk, Some, length, true};
ghost use Rattle.cu_resettled.specs.ResettlingAll.{edited_all};
ghost use Rattle.cu_interval.specs.declared.ways.Dir.TheVariants.{Up, Down};
ghost use Rattle.cu_interval.specs.Hierarchies.{HierarchyValue, list_number, list_of};
ghost use Rattle.cu_customize.specs.Functions.{kept_state};
ghost use Rattle.cu_customize.specs.Triangles.{AreTrianglesOf};
ghost use Rattle.cu_unpack.specs.RebuiltRuns.{IsRebuiltRuns};
ghost use Rattle.cu_edits.specs.declared.new_list.Outcome.TheVariants.{Stands};
ghost use Rattle.cu_edits.specs.Settling.{IsResettledEdge, settled_so_far};
ghost use Rattle.cu_edits.specs.Learned.{ArePackedOf};
ghost use Rattle.cu_edits.specs.Steps.Packed.{AreCandidatesAtHand, IfNear, IsPackedList, LearnsPacked};
ghost use Rattle.cu_edits.specs.Steps.SettlerStates.{HoldsPacked, SettlesList};
ghost use Rattle.cu_edits.specs.Steps.Holding.{IsNext};
ghost use Rattle.cu_edits.specs.Steps.Moving.{AreWaysUnmoved, IsOutcomeOf, IsNewList, KeepsBoth, KeepsHalves, KeepsMore, KeepsWays, MayStand, PlacesBoth};
ghost use Rattle.cu_edits.specs.Steps.Parts.{FitTogether, TellsLists, settling_over};

use crate::copied_lists::copy_touched;
use crate::edit_parts::EditParts;
use crate::learning_packed::{Asked, Middles, learn_middles, learn_ways, limit_of};
use crate::moved_lists::MovedLists;
use crate::new_list::{NewList, Outcome};
use crate::settler_state::PackedState;
use crate::triangle_halves::are_halves_unmoved;
use crate::unchanged_lists::{
    are_old_entries, are_roads_unchanged, are_ways_unmoved, copy_old_list,
};
use cu_customize::{PackedSettling, SettledRuns};
use cu_interval::{Dir, Entry, Shortcut, TouchedEdge, Ways};
use cu_model::NoMemory;
use cu_runs::{DayFunction, LayeredFunctions};
use cu_unpack::PackedFunctions;
use std::alloc::Global;

/// Settles one edge more by packed runs: each of its lists stands, or is settled by the functions of its halves, which are learned
/// as they are needed; where functions take much room some are forgotten first. None where a way takes longer than packed runs can
/// say, and where functions were let go of that the lists may be made of; nothing is settled then. What was learned stays after a
/// refusal too.
pub fn settle_packed<W: Ways>(
    alloc: Global,
    parts: &EditParts<'_, W>,
    state: &mut PackedState,
    settled: &mut Vec<TouchedEdge>,
    edge: u32,
) -> Result<Option<TouchedEdge>, NoMemory>
    requires holds { HoldsPacked parts.now settled.old.items state.old }
    requires asked { IsNext (settling_over parts.now settled.old.items) edge }
    ensures edge { IfOk result (λ found. IfSome found (λ touched. touched.edge ≡ edge)) }
    ensures settled { IfOk result (λ found. IfSome found
        (λ touched. settled.new.items ≡ settled.old.items ++ touched ∷ [])) }
    ensures resettled { IfOk result (λ found. IfSome found (IsResettledEdge (settled_so_far
        (settling_over parts.now settled.new.items)))) }
    ensures far { IfOk result (λ found. IfNone found (settled.new.items ≡ settled.old.items)) }
    ensures kept { OnErr result (settled.new.items ≡ settled.old.items) }
    ensures holds { HoldsPacked parts.now settled.new.items state.new }
{
    state.functions.spare();
    if !keeps_halves(parts, &state.moved, edge) {
        return Ok(None);
    }
    let Some(next) = next_lists(alloc, parts, state, settled, edge)? else {
        return Ok(None);
    };
    let lists = keep_lists(alloc, parts, state, settled, edge, next)?;
    Ok(Some(lists))
}

// Are all functions kept that the lists of an edge may be made of?
fn keeps_halves<W: Ways>(parts: &EditParts<'_, W>, moved: &MovedLists, edge: u32) -> bool
    requires edge { edge < length parts.now.graph.edges }
    ensures { result ≡ true → KeepsHalves parts.now.graph.edges moved.now edge }
{
    moved.low() <= parts.ends(edge).low
}

// Both lists of the edge that is settled next, upwards and downwards. None where a way takes longer than packed runs can say.
fn next_lists<W: Ways>(
    alloc: Global,
    parts: &EditParts<'_, W>,
    state: &mut PackedState,
    settled: &[TouchedEdge],
    edge: u32,
) -> Result<Option<(NewList, NewList)>, NoMemory>
    requires holds { HoldsPacked parts.now settled.now state.old }
    requires asked { IsNext (settling_over parts.now settled.now) edge }
    requires halves { KeepsHalves parts.now.graph.edges state.old.moved edge }
    ensures up { IfOk result (λ found. IfSome found (λ lists. IsNewList (settling_over parts.now settled.now)
        state.new.moved edge Up lists.0)) }
    ensures down { IfOk result (λ found. IfSome found (λ lists. IsNewList (settling_over parts.now settled.now)
        state.new.moved edge Down lists.1)) }
    ensures holds { HoldsPacked parts.now settled.now state.new }
{
    state.settling.find(parts.graph(), edge)?;
    let Some(up) = next_list(alloc, parts, state, edge, Dir::Up)? else {
        return Ok(None);
    };
    let Some(down) = next_list(alloc, parts, state, edge, Dir::Down)? else {
        return Ok(None);
    };
    Ok(Some((up, down)))
}

// Both lists of an edge are settled: keeps what became of them.
fn keep_lists<W: Ways>(
    alloc: Global,
    parts: &EditParts<'_, W>,
    state: &mut PackedState,
    settled: &mut Vec<TouchedEdge>,
    edge: u32,
    next: (NewList, NewList),
) -> Result<TouchedEdge, NoMemory>
    requires holds { HoldsPacked parts.now settled.old.items state.old }
    requires asked { IsNext (settling_over parts.now settled.old.items) edge }
    requires up { IsNewList (settling_over parts.now settled.old.items)
        state.old.moved edge Up next.0 }
    requires down { IsNewList (settling_over parts.now settled.old.items)
        state.old.moved edge Down next.1 }
    ensures edge { IfOk result (λ touched. touched.edge ≡ edge) }
    ensures settled { IfOk result
        (λ touched. settled.new.items ≡ settled.old.items ++ touched ∷ []) }
    ensures resettled { IfOk result (IsResettledEdge (settled_so_far
        (settling_over parts.now settled.new.items))) }
    ensures kept { OnErr result (settled.new.items ≡ settled.old.items) }
    ensures holds { HoldsPacked parts.now settled.new.items state.new }
{
    let (up, down) = next;
    let lists = TouchedEdge {
        edge,
        up: up.ways,
        down: down.ways,
    };
    let (moved, functions) = (&mut state.moved, &mut state.functions);
    keep_settled(alloc, moved, settled, &lists, up.outcome, down.outcome)?;
    keep_standing(functions, edge, Dir::Up, up.standing);
    keep_standing(functions, edge, Dir::Down, down.standing);
    Ok(lists)
}

// Keeps the function of a list that stands, if there is one, since higher lists may be made of it. Where memory runs out it isn't
// kept, and is learned once it is needed.
fn keep_standing(
    functions: &mut PackedFunctions,
    edge: u32,
    dir: Dir,
    standing: Option<DayFunction>,
)
    requires known { list_number edge dir < length functions.old.known }
    requires functions { list_number edge dir < length functions.old.functions }
    ensures packed { (h : HierarchyValue) → ArePackedOf h functions.old
        → IfSome standing (λ function. IsRebuiltRuns h edge dir (Some function))
        → ArePackedOf h functions.new }
    ensures known { length functions.new.known ≡ length functions.old.known }
    ensures functions { length functions.new.functions ≡ length functions.old.functions }
{
    let Some(function) = standing else {
        return;
    };
    let _ = functions.put(edge, dir, Some(function));
}

// Keeps both lists of an edge, and what became of them.
fn keep_settled(
    alloc: Global,
    moved: &mut MovedLists,
    settled: &mut Vec<TouchedEdge>,
    lists: &TouchedEdge,
    up: Outcome,
    down: Outcome,
) -> Result<(), NoMemory>
    requires edge { list_number lists.now.edge Down < length moved.old.places }
    requires inside { All (λ place. place ≤ length moved.old.functions) moved.old.places }
    ensures settled { OnOk result (settled.new.items ≡ settled.old.items ++ lists.now ∷ []) }
    ensures kept { OnErr result (settled.new.items ≡ settled.old.items) }
    ensures places { OnOk result (PlacesBoth moved.old moved.new lists.now.edge up down) }
    ensures more { OnErr result (KeepsMore moved.old moved.new) }
{
    let copy = copy_touched(alloc, lists)?;
    let (upwards, downwards) = keep_both(moved, up, down)?;
    settled.push(copy)?;
    moved.place(lists.edge, upwards, downwards);
    Ok(())
}

// Keeps what became of both lists of an edge. Answers where.
fn keep_both(moved: &mut MovedLists, up: Outcome, down: Outcome) -> Result<(u32, u32), NoMemory>
    ensures kept { IfOk result (λ (upwards, downwards).
        KeepsBoth moved.old moved.new up down upwards downwards) }
    ensures more { OnErr result (KeepsMore moved.old moved.new) }
{
    let upwards = moved.keep(up)?;
    let downwards = moved.keep(down)?;
    Ok((upwards, downwards))
}

// The list of the edge that is settled next in a direction. None where a way takes longer than packed runs can say.
fn next_list<W: Ways>(
    alloc: Global,
    parts: &EditParts<'_, W>,
    state: &mut PackedState,
    edge: u32,
    dir: Dir,
) -> Result<Option<NewList>, NoMemory>
    requires packed { ArePackedOf parts.now.before state.old.functions }
    requires moved { TellsLists parts.now state.old.moved }
    requires edge { edge < length parts.now.graph.edges }
    requires triangles { AreTrianglesOf parts.now.graph.edges edge state.old.settling }
    requires halves { KeepsHalves parts.now.graph.edges state.old.moved edge }
    ensures list { IfOk result (SettlesList parts.now state.old edge dir) }
    ensures learns { LearnsPacked parts.now.before
        state.old.functions state.new.functions }
    ensures moved { state.new.moved ≡ state.old.moved }
    ensures triangles { state.new.settling ≡ state.old.settling }
{
    if may_stand(parts, state, edge, dir) {
        let ways = copy_old_list(alloc, parts, edge, dir)?;
        return Ok(Some(NewList {
            ways,
            outcome: Outcome::Stands,
            standing: None,
        }));
    }
    settle_list(alloc, parts, state, edge, dir)
}

// Does the list of an edge in a direction stand, since it is known to be what customization makes of the lists below it, and
// nothing that it may be made of has changed?
fn may_stand<W: Ways>(parts: &EditParts<'_, W>, state: &PackedState, edge: u32, dir: Dir) -> bool
    requires moved { TellsLists parts.now state.now.moved }
    requires edge { edge < length parts.now.graph.edges }
    requires triangles { AreTrianglesOf parts.now.graph.edges edge state.now.settling }
    ensures stands { result ≡ true → MayStand parts.now.before parts.now.edit
        parts.now.arcs parts.now.customized state.now.moved edge dir }
    ensures fit { FitTogether parts.now }
{
    if !parts.is_marked(edge) {
        return false;
    }
    if !are_roads_unchanged(parts, edge, dir) {
        return false;
    }
    are_halves_unmoved(&state.moved, state.settling.triangles(), dir)
}

// Settles the list of an edge in a direction by packed runs. None where a way takes longer than they can say.
fn settle_list<W: Ways>(
    alloc: Global,
    parts: &EditParts<'_, W>,
    state: &mut PackedState,
    edge: u32,
    dir: Dir,
) -> Result<Option<NewList>, NoMemory>
    requires packed { ArePackedOf parts.now.before state.old.functions }
    requires moved { TellsLists parts.now state.old.moved }
    requires edge { edge < length parts.now.graph.edges }
    requires triangles { AreTrianglesOf parts.now.graph.edges edge state.old.settling }
    requires halves { KeepsHalves parts.now.graph.edges state.old.moved edge }
    ensures list { IfOk result (SettlesList parts.now state.old edge dir) }
    ensures learns { LearnsPacked parts.now.before
        state.old.functions state.new.functions }
    ensures moved { state.new.moved ≡ state.old.moved }
    ensures triangles { state.new.settling ≡ state.old.settling }
{
    let moved = &state.moved;
    let asked = Asked {
        edge,
        dir,
        triangles: state.settling.triangles(),
        moved,
    };
    if !learn_candidates(alloc, parts, &asked, &mut state.functions)? {
        return Ok(None);
    }
    let functions = moved.over(state.functions.functions());
    match settle_runs(alloc, parts, functions, &mut state.settling, edge, dir)? {
        None => Ok(None),
        Some(found) => Ok(Some(new_list(parts, moved, edge, dir, found))),
    }
}

// Settles the list of an edge in a direction by these functions. None where a way takes longer than packed runs can say.
fn settle_runs<W: Ways>(
    alloc: Global,
    parts: &EditParts<'_, W>,
    functions: LayeredFunctions<'_>,
    settling: &mut PackedSettling,
    edge: u32,
    dir: Dir,
) -> Result<Option<SettledRuns>, NoMemory>
    requires edge { edge < length parts.now.graph.edges }
    requires functions { length functions ≡ 2 * length parts.now.graph.edges }
    requires triangles { AreTrianglesOf parts.now.graph.edges edge settling.old }
    ensures found { IfOk result (λ found. IfSome found (IsPackedList parts.now.before.edges
        parts.now.arcs (kept_state (edited_all parts.now.before.network parts.now.edit)
        functions.entry) edge dir)) }
    ensures triangles { settling.new ≡ settling.old }
{
    let roads = parts.edited_roads();
    let graph = parts.graph();
    let arcs = parts.edge_arcs();
    let shortcut = Shortcut { edge, dir };
    let found = settling.settle(alloc, &roads, graph, arcs, functions, shortcut)?;
    Ok(found)
}

// Learns the halves of the candidates that a list may be made of after the edit: of all, or, where its ways are as they were and
// it was the best that could be made, of these ways and of those by a middle of which a half was moved.
fn learn_candidates<W: Ways>(
    alloc: Global,
    parts: &EditParts<'_, W>,
    asked: &Asked<'_>,
    packed: &mut PackedFunctions,
) -> Result<bool, NoMemory>
    requires packed { ArePackedOf parts.now.before packed.old }
    requires moved { TellsLists parts.now asked.now.moved.now }
    requires edge { asked.now.edge < length parts.now.graph.edges }
    requires triangles { AreTrianglesOf parts.now.graph.edges asked.now.edge
        asked.now.triangles.now }
    ensures learns { LearnsPacked parts.now.before packed.old packed.new }
    ensures known { IfNear result (AreCandidatesAtHand parts.now.before parts.now.edit
        parts.now.customized asked.now.moved.now packed.new asked.now.edge asked.now.dir) }
    ensures fit { FitTogether parts.now }
{
    if !keeps_its_ways(parts, asked.moved, asked.edge, asked.dir) {
        return learn_rivals(alloc, parts, asked, packed);
    }
    if !learn_ways(alloc, parts, asked, packed)? {
        return Ok(false);
    }
    learn_middles(alloc, parts, asked, Middles::Moved, packed)
}

// Learns the halves of a list's ways before the edit, and those of all candidates but these that take longer than some way by a middle
// of which both halves are known then.
fn learn_rivals<W: Ways>(
    alloc: Global,
    parts: &EditParts<'_, W>,
    asked: &Asked<'_>,
    packed: &mut PackedFunctions,
) -> Result<bool, NoMemory>
    requires packed { ArePackedOf parts.now.before packed.old }
    requires moved { TellsLists parts.now asked.now.moved.now }
    requires edge { asked.now.edge < length parts.now.graph.edges }
    requires triangles { AreTrianglesOf parts.now.graph.edges asked.now.edge
        asked.now.triangles.now }
    requires fit { FitTogether parts.now }
    ensures learns { LearnsPacked parts.now.before packed.old packed.new }
    ensures known { IfNear result (AreCandidatesAtHand parts.now.before parts.now.edit
        parts.now.customized asked.now.moved.now packed.new asked.now.edge asked.now.dir) }
{
    if !learn_ways(alloc, parts, asked, packed)? {
        return Ok(false);
    }
    let limit = limit_of(
        asked.triangles,
        asked.dir,
        &asked.moved.over(packed.functions()),
    );
    learn_middles(alloc, parts, asked, Middles::Within(limit), packed)
}

// Is the list of an edge in a direction known to be what customization makes of the lists below it, and are its ways as they
// were?
fn keeps_its_ways<W: Ways>(
    parts: &EditParts<'_, W>,
    moved: &MovedLists,
    edge: u32,
    dir: Dir,
) -> bool
    requires moved { TellsLists parts.now moved.now }
    requires edge { edge < length parts.now.graph.edges }
    ensures keeps { result ≡ true → KeepsWays parts.now.before parts.now.edit
        parts.now.customized moved.now edge dir }
    ensures fit { FitTogether parts.now }
{
    if !parts.is_marked(edge) {
        return false;
    }
    are_ways_unmoved(parts, moved, edge, dir)
}

// What became of the list of an edge in a direction that was settled so.
fn new_list<W: Ways>(
    parts: &EditParts<'_, W>,
    moved: &MovedLists,
    edge: u32,
    dir: Dir,
    found: SettledRuns,
) -> NewList
    requires moved { TellsLists parts.now moved.now }
    requires edge { edge < length parts.now.graph.edges }
    ensures ways { result.ways ≡ found.ways }
    ensures outcome { IsOutcomeOf parts.now.before parts.now.edit moved.now edge dir
        found result.outcome }
    ensures standing { IfSome result.standing
        (λ function. (result.outcome ≡ Stands) × (found.function ≡ Some function)) }
{
    let SettledRuns { ways, function } = found;
    if is_as_before(parts, moved, edge, dir, ways.entries()) {
        return NewList {
            ways,
            outcome: Outcome::Stands,
            standing: function,
        };
    }
    NewList {
        ways,
        outcome: Outcome::Moves(function),
        standing: None,
    }
}

// Are these the entries of the list of an edge in a direction before the edit, and its ways as they were?
fn is_as_before<W: Ways>(
    parts: &EditParts<'_, W>,
    moved: &MovedLists,
    edge: u32,
    dir: Dir,
    entries: &[Entry],
) -> bool
    requires moved { TellsLists parts.now moved.now }
    requires edge { edge < length parts.now.graph.edges }
    ensures same { result ≡ true
        → entries.now ≡ list_of parts.now.before edge dir }
    ensures ways { result ≡ true
        → AreWaysUnmoved parts.now.before parts.now.edit moved.now edge dir }
{
    if !are_old_entries(parts, edge, dir, entries) {
        return false;
    }
    are_ways_unmoved(parts, moved, edge, dir)
}
