//! The settler of an edit: it settles an edge by the functions of the edges settled before it and of those that stay.

ghost use Rattle.std.specs.Prelude.{◌≡◌, ◌<◌, ◌*◌, ◌++◌, ◌∷◌, [], ℕ, List, All, IfNone, IfOk, IfSome, OnErr, OnOk, false, length};
ghost use Rattle.cu_resettled.specs.ResettlingAll.{IsTouchedEdgeBySome, edited_all};
ghost use Rattle.cu_model.specs.Edits.{IsEditInRange};
ghost use Rattle.cu_interval.specs.declared.ways.TouchedEdge.{TouchedEdge};
ghost use Rattle.cu_interval.specs.EdgeArcs.{AreEdgeArcs};
ghost use Rattle.cu_interval.specs.Hierarchies.{HierarchyValue, IsHierarchyOf};
ghost use Rattle.cu_bounds.specs.Near.{AreNear};
ghost use Rattle.cu_unpack.specs.RebuiltRuns.{IsSized};
ghost use Rattle.cu_edits.specs.Customized.{AreCustomized};
ghost use Rattle.cu_edits.specs.EditLists.{FitsNetwork};
ghost use Rattle.cu_edits.specs.Learned.{ArePackedOf};
ghost use Rattle.cu_edits.specs.Paused.{FitsPaused};
ghost use Rattle.cu_edits.specs.Settling.{IsLowerSide, IsResettledEdge, IsSettled, settled_so_far};
ghost use Rattle.cu_edits.specs.Steps.SettlerStates.{HoldsOver, HoldsPacked, IsBegun, IsPlain, KeepsAll};
ghost use Rattle.cu_edits.specs.Steps.Holding.{IsNext, IsSettledEdge, IsSettling};
ghost use Rattle.cu_edits.specs.Steps.Known.{HasFunctions, functions_of};
ghost use Rattle.cu_edits.specs.Steps.Taking.{HasTaken};
ghost use Rattle.cu_edits.specs.Steps.Parts.{FitTogether, settling_over};

use crate::copied_lists::push_copy;
use crate::edge_functions::{EdgeFunctions, KnownFunctions, know};
use crate::edit_ground::EditGround;
use crate::edit_list::EditList;
use crate::edit_parts::EditParts;
use crate::edits::Edits;
use crate::keeping::Keeping;
use crate::learned::Learned;
use crate::learning::learn_sides;
use crate::letting_go::let_go_below;
use crate::moved_lists::MovedLists;
use crate::paused::PausedSettler;
use crate::plain_functions::plain_of_packed;
use crate::settler::Settler;
use crate::settler_state::{PackedState, SettlerState};
use crate::settling_packed::settle_packed;
use cu_chordal::Chordal;
use cu_customize::settle;
use cu_interval::{Dir, EdgeArcs, TouchedEdge, Ways};
use cu_model::{Edit, NoMemory};
use cu_unpack::Rebuilt;
use std::alloc::Global;
use std::marker::Model;
use std::mem;

/// Settles the edges that an edit touches, by the roads of the edited network and by the functions of lower edges: of those
/// that it settled, and of those whose lists stand, whose functions it rebuilds from their ways as they are needed. They
/// are kept as packed runs until a way takes longer than packed runs can say. Where it is known that a list is what customization makes
/// of the lists below it, and nothing of these has changed, the list stands and isn't settled anew. Room is made once an
/// edge is settled. Contracts see the hierarchy before the edit, the edit, and the edges settled so far.
#[derive(Drop)]
pub struct EditSettler<'a, W: Ways> {
    parts: EditParts<'a, W>,
    settled: Vec<TouchedEdge>,
    // The functions of edges whose lists won't change any more, as far as they are known.
    state: SettlerState,
    keeping: Keeping,
    gave_up: bool,
}

impl<'a, W: Ways> Model for EditSettler<'a, W> {
    ghost use Rattle.cu_edits.specs.Settling.{SettlingValue};
    ghost use Rattle.cu_edits.specs.Steps.SettlerStates.{HoldsOver};
    ghost use Rattle.cu_edits.specs.Steps.Parts.{FitTogether, settling_over};

    ghost Value = { SettlingValue };

    ghost view = { λ settler. settling_over settler.parts settler.settled.items };

    ghost invariant = { λ settler. HoldsOver settler.parts settler.settled.items settler.state };
}

impl<'a, W: Ways> EditSettler<'a, W> {
    /// A settler that settled none yet, for an edit of the hierarchy of these ways. The edit's numbers are in range, and graph
    /// and roads are those of the hierarchy.
    pub fn new(
        alloc: Global,
        ways: &'a W,
        edit: &'a Edit,
        graph: &'a Chordal,
        arcs: &'a EdgeArcs,
    ) -> Result<EditSettler<'a, W>, NoMemory>
        requires edit { IsEditInRange (W.hierarchy ways.now).network edit.now }
        requires graph { IsHierarchyOf graph.now (W.hierarchy ways.now) }
        requires arcs { AreEdgeArcs (W.hierarchy ways.now).network (W.hierarchy ways.now).order
            graph.now.edges arcs.now }
        ensures { IfOk result (λ settler. settler
            ≡ record { before = W.hierarchy ways.now; edit = edit.now ∷ []; settled = [] }) }
    {
        let ground = EditGround::new(graph, arcs);
        EditSettler::over(alloc, ways, edit, ground, None)
    }

    /// The same, where edges with a mark are known to have the lists that customization makes of the lists below them, and functions of
    /// lists are known. Where the least bounds of lists are known too, ways by a middle are left aside whose halves the edit left as they
    /// are, where these alone take longer than another way does at most: what it settles is the same.
    pub fn over(
        alloc: Global,
        ways: &'a W,
        edit: &'a Edit,
        ground: EditGround<'a>,
        learned: Option<Learned>,
    ) -> Result<EditSettler<'a, W>, NoMemory>
        requires edit { IsEditInRange (W.hierarchy ways.now).network edit.now }
        requires graph { IsHierarchyOf ground.graph.now (W.hierarchy ways.now) }
        requires arcs { AreEdgeArcs (W.hierarchy ways.now).network (W.hierarchy ways.now).order
            ground.graph.now.edges ground.arcs.now }
        requires customized { AreCustomized (W.hierarchy ways.now) ground.customized.now }
        requires bounds { IfSome ground.bounds
            (λ bounds. AreNear (W.hierarchy ways.now) bounds.now) }
        requires learned { IfSome learned (ArePackedOf (W.hierarchy ways.now)) }
        ensures { IfOk result (λ settler. settler
            ≡ record { before = W.hierarchy ways.now; edit = edit.now ∷ []; settled = [] }) }
    {
        let parts = EditParts::of(ways, Edits::One(edit), ground);
        Ok(EditSettler::of_parts(alloc, parts, learned, Keeping::All))
    }

    /// A settler that settled none yet, for all edits of a list, where edges with a mark are known to be customized, and maybe the least
    /// bounds of lists. It keeps all functions, or those alone that it may need.
    pub fn over_all(
        alloc: Global,
        ways: &'a W,
        edits: &'a EditList,
        ground: EditGround<'a>,
        keeping: Keeping,
    ) -> EditSettler<'a, W>
        requires edits { FitsNetwork (W.hierarchy ways.now).network edits.now }
        requires graph { IsHierarchyOf ground.graph.now (W.hierarchy ways.now) }
        requires arcs { AreEdgeArcs (W.hierarchy ways.now).network (W.hierarchy ways.now).order
            ground.graph.now.edges ground.arcs.now }
        requires customized { AreCustomized (W.hierarchy ways.now) ground.customized.now }
        requires bounds { IfSome ground.bounds
            (λ bounds. AreNear (W.hierarchy ways.now) bounds.now) }
        ensures { result
            ≡ record { before = W.hierarchy ways.now; edit = edits.now.edits; settled = [] } }
    {
        let parts = EditParts::of(ways, Edits::All(edits), ground);
        EditSettler::of_parts(alloc, parts, None, keeping)
    }

    // A settler over these parts that settled none yet.
    fn of_parts(
        alloc: Global,
        parts: EditParts<'a, W>,
        learned: Option<Learned>,
        keeping: Keeping,
    ) -> EditSettler<'a, W>
        requires fit { FitTogether parts }
        requires learned { IfSome learned (ArePackedOf parts.before) }
        ensures { result ≡ settling_over parts.entry [] }
    {
        let settled = Vec::new(alloc);
        EditSettler {
            parts,
            settled,
            state: SettlerState::Nothing(learned),
            keeping,
            gave_up: false,
        }
    }

    /// Did it refuse an edge for want of functions that it let go of, and not of memory? Another that keeps all may settle the edges.
    pub fn gave_up(&self) -> bool {
        self.gave_up
    }

    /// Makes the room that it takes for all edges of the hierarchy together, so that settling an edge takes none but for what it
    /// learns.
    pub fn make_room(&mut self, alloc: Global) -> Result<(), NoMemory>
        ensures same { self.new ≡ self.old }
    {
        hold_packed(alloc, &self.parts, &mut self.state)
    }

    /// Goes on from where a settler of this edit of this hierarchy was put aside. Takes no memory.
    pub fn resume(
        ways: &'a W,
        edit: &'a Edit,
        ground: EditGround<'a>,
        paused: PausedSettler,
    ) -> EditSettler<'a, W>
        requires edit { IsEditInRange (W.hierarchy ways.now).network edit.now }
        requires graph { IsHierarchyOf ground.graph.now (W.hierarchy ways.now) }
        requires arcs { AreEdgeArcs (W.hierarchy ways.now).network (W.hierarchy ways.now).order
            ground.graph.now.edges ground.arcs.now }
        requires customized { AreCustomized (W.hierarchy ways.now) ground.customized.now }
        requires bounds { IfSome ground.bounds
            (λ bounds. AreNear (W.hierarchy ways.now) bounds.now) }
        requires fits { FitsPaused (W.hierarchy ways.now) (edit.now ∷ []) paused }
        ensures { result ≡ record {
          before = W.hierarchy ways.now;
          edit = edit.now ∷ [];
          settled = paused.settled;
        } }
    {
        let parts = EditParts::of(ways, Edits::One(edit), ground);
        let PausedSettler { settled, state } = paused;
        EditSettler {
            parts,
            settled,
            state,
            keeping: Keeping::All,
            gave_up: false,
        }
    }

    /// Puts it aside, for a later step. Takes no memory.
    pub fn pause(self) -> PausedSettler
        ensures settled { result.settled ≡ self.entry.settled }
        ensures fits { FitsPaused self.entry.before self.entry.edit result }
    {
        let EditSettler { settled, state, .. } = self;
        PausedSettler { settled, state }
    }

    /// The edges settled, with their lists, in the order in which they were. Takes no memory.
    pub fn into_settled(self) -> Vec<TouchedEdge>
        ensures { result.items ≡ self.entry.settled }
    {
        let EditSettler { settled, .. } = self;
        settled
    }

    /// What is known of lists once all touched edges are settled. None where nothing is, since a way takes longer than packed runs
    /// can say, memory ran out, or functions were let go of.
    pub fn into_learned(self, alloc: Global) -> Option<Learned>
        requires all { (edge : ℕ) → IsTouchedEdgeBySome self.before self.edit edge → IsSettled self edge }
        ensures { IfSome result (ArePackedOf (settled_so_far self.entry)) }
    {
        let EditSettler { parts, state, .. } = self;
        let edges = parts.edges();
        match state {
            SettlerState::Nothing(learned) => learned,
            SettlerState::Packed(packed) => learned_after(alloc, packed, edges),
            SettlerState::Plain(_plain) => None,
        }
    }
}

impl<'a, W: Ways> Settler for EditSettler<'a, W> {
    ghost state = { λ settler. settler };

    fn settle(&mut self, alloc: Global, edge: u32) -> Result<TouchedEdge, NoMemory> {
        let (parts, state) = (&self.parts, &mut self.state);
        let_go_below(parts, state, edge, self.keeping);
        let (settled, gave_up) = (&mut self.settled, &mut self.gave_up);
        settle_by_state(alloc, parts, state, settled, edge, gave_up)
    }
}

// What is known after an edit of so many edges. None where memory runs out, and where functions were let go of.
fn learned_after(alloc: Global, packed: PackedState, edges: u32) -> Option<Learned>
    requires places { length packed.moved.places ≡ 2 * edges }
    requires size { IsSized edges packed.functions }
    ensures { IfSome result (λ learned. (packed.moved.low ≡ 0)
        × HasTaken packed.moved packed.functions learned edges) }
{
    if packed.moved.low() > 0 {
        drop(packed);
        return None;
    }
    Learned::after(alloc, packed, edges).ok()
}

// Settles one edge more by what is state: by packed runs as long as they can say how long ways take, and then plainly. Gives up where
// functions were let go of that it needs then.
fn settle_by_state<W: Ways>(
    alloc: Global,
    parts: &EditParts<'_, W>,
    state: &mut SettlerState,
    settled: &mut Vec<TouchedEdge>,
    edge: u32,
    gave_up: &mut bool,
) -> Result<TouchedEdge, NoMemory>
    requires holds { HoldsOver parts.now settled.old.items state.old }
    requires asked { IsNext (settling_over parts.now settled.old.items) edge }
    ensures edge { IfOk result (λ touched. touched.edge ≡ edge) }
    ensures settled { IfOk result
        (λ touched. settled.new.items ≡ settled.old.items ++ touched ∷ []) }
    ensures resettled { IfOk result (IsResettledEdge (settled_so_far
        (settling_over parts.now settled.new.items))) }
    ensures kept { OnErr result (settled.new.items ≡ settled.old.items) }
    ensures holds { HoldsOver parts.now settled.new.items state.new }
{
    hold_packed(alloc, parts, state)?;
    if let Some(touched) = settle_in_packed(alloc, parts, state, settled, edge)? {
        return Ok(touched);
    }
    if has_let_go(state) {
        *gave_up = true;
        return Err(NoMemory);
    }
    turn_plain(alloc, parts, settled, state)?;
    settle_plainly(alloc, parts, state, settled, edge)
}

// Makes room for packed runs where nothing is state yet.
fn hold_packed<W: Ways>(
    alloc: Global,
    parts: &EditParts<'_, W>,
    state: &mut SettlerState,
) -> Result<(), NoMemory>
    ensures begun { OnOk result (IsBegun state.new) }
    ensures holds { (settled : List TouchedEdge)
        → HoldsOver parts.now settled state.old → HoldsOver parts.now settled state.new }
{
    if let SettlerState::Nothing(learned) = state {
        let packed = begin_packed(alloc, parts, learned.take())?;
        set_state(state, SettlerState::Packed(packed));
    }
    Ok(())
}

// Puts what is state next in the place of what was.
fn set_state(state: &mut SettlerState, next: SettlerState)
    ensures { state.new ≡ next }
{
    drop(mem::replace(state, next));
}

// Packed runs by what was learned earlier, or else room for what will be; none was moved yet.
fn begin_packed<W: Ways>(
    alloc: Global,
    parts: &EditParts<'_, W>,
    earlier: Option<Learned>,
) -> Result<PackedState, NoMemory>
    ensures functions { IfOk result (λ packed. (h : HierarchyValue)
        → length h.edges ≡ length parts.now.graph.edges
        → IfSome earlier (ArePackedOf h) → ArePackedOf h packed.functions) }
    ensures long { IfOk result (λ packed.
        length packed.moved.places ≡ 2 * length parts.now.graph.edges) }
    ensures none { IfOk result (λ packed. All (λ place. place ≡ 0) packed.moved.places) }
{
    let learned = begin(alloc, parts, earlier)?;
    match MovedLists::new(alloc, parts.edges()) {
        Ok(moved) => Ok(learned.packed_with(moved)),
        Err(refused) => {
            drop(learned);
            Err(refused)
        }
    }
}

// What was learned earlier, or else room for what will be.
fn begin<W: Ways>(
    alloc: Global,
    parts: &EditParts<'_, W>,
    earlier: Option<Learned>,
) -> Result<Learned, NoMemory>
    ensures { IfOk result (λ learned. (h : HierarchyValue)
        → length h.edges ≡ length parts.now.graph.edges
        → IfSome earlier (ArePackedOf h) → ArePackedOf h learned) }
{
    if let Some(learned) = earlier {
        return Ok(learned);
    }
    Learned::nothing(alloc, parts.ways(), parts.edges())
}

// Settles one edge more by packed runs where they are state. None where they aren't, and where a way takes longer than they can say.
fn settle_in_packed<W: Ways>(
    alloc: Global,
    parts: &EditParts<'_, W>,
    state: &mut SettlerState,
    settled: &mut Vec<TouchedEdge>,
    edge: u32,
) -> Result<Option<TouchedEdge>, NoMemory>
    requires begun { IsBegun state.old }
    requires holds { HoldsOver parts.now settled.old.items state.old }
    requires asked { IsNext (settling_over parts.now settled.old.items) edge }
    ensures edge { IfOk result (λ found. IfSome found (λ touched. touched.edge ≡ edge)) }
    ensures settled { IfOk result (λ found. IfSome found
        (λ touched. settled.new.items ≡ settled.old.items ++ touched ∷ [])) }
    ensures resettled { IfOk result (λ found. IfSome found (IsResettledEdge (settled_so_far
        (settling_over parts.now settled.new.items)))) }
    ensures far { IfOk result (λ found. IfNone found (settled.new.items ≡ settled.old.items)) }
    ensures kept { OnErr result (settled.new.items ≡ settled.old.items) }
    ensures begun { IsBegun state.new }
    ensures holds { HoldsOver parts.now settled.new.items state.new }
{
    let SettlerState::Packed(packed) = state else {
        return Ok(None);
    };
    settle_packed(alloc, parts, packed, settled, edge)
}

// Were functions let go of?
fn has_let_go(state: &SettlerState) -> bool
    ensures { result ≡ false → KeepsAll state.now }
{
    match state {
        SettlerState::Packed(packed) => packed.moved.low() > 0,
        _ => false,
    }
}

// Goes over from packed runs to plain functions, if it isn't done yet.
fn turn_plain<W: Ways>(
    alloc: Global,
    parts: &EditParts<'_, W>,
    settled: &[TouchedEdge],
    state: &mut SettlerState,
) -> Result<(), NoMemory>
    requires begun { IsBegun state.old }
    requires keeps { KeepsAll state.old }
    requires holds { HoldsOver parts.now settled.now state.old }
    ensures plain { OnOk result (IsPlain state.new) }
    ensures holds { HoldsOver parts.now settled.now state.new }
{
    let SettlerState::Packed(packed) = state else {
        return Ok(());
    };
    let plain = plain_of_packed(alloc, parts, settled, &packed.moved)?;
    set_state(state, SettlerState::Plain(plain));
    Ok(())
}

// Settles one edge more by plain functions, which are state.
fn settle_plainly<W: Ways>(
    alloc: Global,
    parts: &EditParts<'_, W>,
    state: &mut SettlerState,
    settled: &mut Vec<TouchedEdge>,
    edge: u32,
) -> Result<TouchedEdge, NoMemory>
    requires plain { IsPlain state.old }
    requires holds { HoldsOver parts.now settled.old.items state.old }
    requires asked { IsNext (settling_over parts.now settled.old.items) edge }
    ensures edge { IfOk result (λ touched. touched.edge ≡ edge) }
    ensures settled { IfOk result
        (λ touched. settled.new.items ≡ settled.old.items ++ touched ∷ []) }
    ensures resettled { IfOk result (IsResettledEdge (settled_so_far
        (settling_over parts.now settled.new.items))) }
    ensures kept { OnErr result (settled.new.items ≡ settled.old.items) }
    ensures holds { HoldsOver parts.now settled.new.items state.new }
{
    let SettlerState::Plain(plain) = state else {
        unreachable!()
    };
    let (rebuilt, known) = (&mut plain.rebuilt, &mut plain.known);
    settle_next(alloc, parts, rebuilt, known, settled, edge)
}

// Settles one edge more: learns the functions of its lower sides, and settles it by them. What was learnt stays after a refusal,
// too.
fn settle_next<W: Ways>(
    alloc: Global,
    parts: &EditParts<'_, W>,
    rebuilt: &mut Rebuilt,
    known: &mut [Option<EdgeFunctions>],
    settled: &mut Vec<TouchedEdge>,
    edge: u32,
) -> Result<TouchedEdge, NoMemory>
    requires holds { IsSettling (settling_over parts.now settled.old.items)
        parts.now.graph parts.now.arcs rebuilt.old known.old }
    requires asked { IsNext (settling_over parts.now settled.old.items) edge }
    ensures edge { IfOk result (λ touched. touched.edge ≡ edge) }
    ensures settled { IfOk result
        (λ touched. settled.new.items ≡ settled.old.items ++ touched ∷ []) }
    ensures resettled { IfOk result (IsResettledEdge
        (settled_so_far (settling_over parts.now settled.new.items))) }
    ensures kept { OnErr result (settled.new.items ≡ settled.old.items) }
    ensures holds { IsSettling (settling_over parts.now settled.new.items)
        parts.now.graph parts.now.arcs rebuilt.new known.new }
{
    let ends = parts.ends(edge);
    learn_sides(alloc, parts, ends, rebuilt, known)?;
    let (lists, functions) = settle_edge(alloc, parts, known, edge)?;
    push_copy(alloc, settled, &lists)?;
    know(known, edge, functions);
    Ok(lists)
}

// Settles an edge in both directions by what is known, which has both sides of each of its lower triangles.
fn settle_edge<W: Ways>(
    alloc: Global,
    parts: &EditParts<'_, W>,
    known: &[Option<EdgeFunctions>],
    edge: u32,
) -> Result<(TouchedEdge, EdgeFunctions), NoMemory>
    requires edge { edge < length parts.now.graph.edges }
    requires sides { (side : ℕ) → IsLowerSide parts.now.graph.edges edge side
        → HasFunctions known.now side }
    ensures { IfOk result (λ (lists, functions).
        IsSettledEdge parts.now.graph.edges parts.now.arcs
        (functions_of (record {
          network = edited_all parts.now.before.network parts.now.edit;
          known = known.now;
        }))
        edge lists functions) }
{
    let graph = parts.graph();
    let arcs = parts.edge_arcs();
    let roads = parts.edited_roads();
    let mut functions = KnownFunctions::of(&roads, known);
    let up = settle(alloc, graph, arcs, edge, Dir::Up, &mut functions)?;
    let down = settle(alloc, graph, arcs, edge, Dir::Down, &mut functions)?;
    let lists = TouchedEdge {
        edge,
        up: up.ways,
        down: down.ways,
    };
    let functions = EdgeFunctions {
        up: up.function,
        down: down.function,
    };
    Ok((lists, functions))
}
