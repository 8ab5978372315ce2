//! What edits need beside a held file.

ghost use Rattle.std.specs.Prelude.{◌≡◌, ◌∷◌, ◌++◌, [], IfOk, IfSome, IsSome, OnErr, OnOk};
ghost use Rattle.cu_model.specs.Edits.{IsEditInRange};
ghost use Rattle.cu_model.specs.Networks.{IsNetwork};
ghost use Rattle.cu_edits.specs.Customized.{AreCustomized};
ghost use Rattle.cu_edits.specs.EditLists.{CountsTouched, FitsList};
ghost use Rattle.cu_edits.specs.Settling.{numbers_of};
ghost use Rattle.cu_interval.specs.EdgeArcs.{AreEdgeArcs};
ghost use Rattle.cu_interval.specs.Hierarchies.{IsHierarchy, graph_of};
ghost use Rattle.cu_interval.specs.Replacing.{hierarchy_with};
ghost use Rattle.cu_interval.specs.Resettling.{IsResettled};
ghost use Rattle.cu_interval.specs.Touching.{NumbersTouched};
ghost use Rattle.cu_bounds.specs.Near.{AreNear};
ghost use Rattle.cu_resettled.specs.ResettlingAll.{IsResettledAll, NumbersTouchedBySome, edited_all, hierarchy_with_all};
ghost use Rattle.cu_pack.specs.Checks.{Spells, sealed};
ghost use Rattle.cu_recall.specs.Spans.{Knows};
ghost use Rattle.cu_router.specs.Steps.Rooms.{FitsEdits, HasEditRoom};

use crate::held_file::HeldFile;
use crate::settling_all::settle_all;
use cu_chordal::Chordal;
use cu_edits::{EditGround, EditList, Edits, Learned, Touched, plan_all, touch_over};
use cu_interval::{EdgeArcs, TouchedEdge, Ways};
use cu_links::RankBuckets;
use cu_model::{Edit, NoMemory, Roads};
use cu_pack::{PackedView, order_of};
use cu_progress::{Progress, Stage, begin};
use cu_recall::{RecalledWays, Row};
use std::alloc::Global;

/// What an edit needs beside a hierarchy: the roads of each edge, and buckets for the edges that it touches; and what earlier
/// edits learned of the functions of lists.
#[derive(Drop)]
pub(crate) struct EditRoom {
    pub(crate) arcs: EdgeArcs,
    pub(crate) buckets: RankBuckets,
    pub(crate) learned: Option<Learned>,
}

/// Makes the room for the edits of a hierarchy, unless it is there.
pub(crate) fn fill_edit_room(
    alloc: Global,
    held: &HeldFile,
    editing: &mut Option<EditRoom>,
) -> Result<(), NoMemory>
    requires fits { FitsEdits held.now editing.old }
    ensures there { OnOk result (IsSome editing.new) }
    ensures fits { FitsEdits held.now editing.new }
{
    if editing.is_none() {
        *editing = Some(make_edit_room(alloc, held)?);
    }
    Ok(())
}

// Room for the edits of a hierarchy, which knows no functions of lists.
fn make_edit_room(alloc: Global, held: &HeldFile) -> Result<EditRoom, NoMemory>
    ensures room { IfOk result (HasEditRoom held.now) }
{
    let view = held.view();
    let arcs = arcs_of(alloc, &view, held.graph())?;
    let buckets = RankBuckets::new(alloc, view.nodes(), view.edges())?;
    Ok(EditRoom {
        arcs,
        buckets,
        learned: None,
    })
}

// The roads of each edge of a hierarchy, whose graph this is.
fn arcs_of(alloc: Global, view: &PackedView<'_>, graph: &Chordal) -> Result<EdgeArcs, NoMemory>
    requires graph { graph.now ≡ graph_of view.now }
    requires sound { IsHierarchy view.now }
    ensures listed { IfOk result
        (AreEdgeArcs view.now.network view.now.order view.now.edges) }
{
    let order = order_of(alloc, view)?;
    EdgeArcs::of(alloc, view, &order, graph)
}

/// What edits of a held file need beside its ways, by the roads of its edges. Takes no memory.
pub(crate) fn ground_of<'a>(held: &'a HeldFile, arcs: &'a EdgeArcs) -> EditGround<'a>
    ensures graph { result.graph.now ≡ graph_of held.now }
    ensures arcs { result.arcs.now ≡ arcs.now }
    ensures customized { AreCustomized held.now result.customized.now }
    ensures bounds { IfSome result.bounds (λ bounds. AreNear held.now bounds.now) }
{
    EditGround {
        graph: held.graph(),
        arcs,
        customized: held.customized().marks(),
        bounds: Some(held.bounds()),
    }
}

/// The edges that an edit touches, whose numbers are in range, with their lists after it, and the packed bytes, but for their digest,
/// of the hierarchy after it; these rows say what is so of the one before. The room for edits fits the hierarchy after the edit, and
/// is made if there is none; where memory runs out it is let go of.
pub(crate) fn edit_held(
    alloc: Global,
    held: &HeldFile,
    rows: &[Row],
    edit: Edit,
    editing: &mut Option<EditRoom>,
) -> Result<(Vec<u8>, Touched), NoMemory>
    requires range { IsEditInRange held.now.network edit }
    requires knows { Knows held.now rows.now }
    requires editing { FitsEdits held.now editing.old }
    ensures held { IfOk result (λ _. IsHierarchy held.now) }
    ensures touched { IfOk result
        (λ made. NumbersTouched held.now edit (numbers_of made.1.lists.items)) }
    ensures resettled { IfOk result (λ made. IsResettled held.now edit
        (hierarchy_with held.now edit made.1.lists.items)) }
    ensures sound { IfOk result
        (λ made. IsHierarchy (hierarchy_with held.now edit made.1.lists.items)) }
    ensures spelled { IfOk result (λ made. Spells (sealed made.0.items)
        (hierarchy_with held.now edit made.1.lists.items)) }
    ensures editing { IfOk result
        (λ made. FitsEdits (hierarchy_with held.now edit made.1.lists.items) editing.new) }
    ensures kept { OnErr result (FitsEdits held.now editing.new) }
{
    fill_edit_room(alloc, held, editing)?;
    let Some(room) = editing else { unreachable!() };
    let Ok(made) = repack_held(alloc, held, rows, edit, room) else {
        drop(editing.take());
        return Err(NoMemory);
    };
    Ok(made)
}

// The same in room that is there.
fn repack_held(
    alloc: Global,
    held: &HeldFile,
    rows: &[Row],
    edit: Edit,
    room: &mut EditRoom,
) -> Result<(Vec<u8>, Touched), NoMemory>
    requires range { IsEditInRange held.now.network edit }
    requires knows { Knows held.now rows.now }
    requires room { HasEditRoom held.now room.old }
    ensures held { IfOk result (λ _. IsHierarchy held.now) }
    ensures touched { IfOk result
        (λ made. NumbersTouched held.now edit (numbers_of made.1.lists.items)) }
    ensures resettled { IfOk result (λ made. IsResettled held.now edit
        (hierarchy_with held.now edit made.1.lists.items)) }
    ensures sound { IfOk result
        (λ made. IsHierarchy (hierarchy_with held.now edit made.1.lists.items)) }
    ensures spelled { IfOk result (λ made. Spells (sealed made.0.items)
        (hierarchy_with held.now edit made.1.lists.items)) }
    ensures room { IfOk result
        (λ made. HasEditRoom (hierarchy_with held.now edit made.1.lists.items) room.new) }
{
    let touched = touch_held(alloc, held, rows, edit, room)?;
    let bytes = held.repacked(alloc, Edits::One(&touched.edit), touched.lists.as_slice())?;
    Ok((bytes, touched))
}

// The edges that an edit touches, whose numbers are in range, with their lists after it; these rows say what is so of the
// hierarchy. The room fits the hierarchy after the edit.
fn touch_held(
    alloc: Global,
    held: &HeldFile,
    rows: &[Row],
    edit: Edit,
    room: &mut EditRoom,
) -> Result<Touched, NoMemory>
    requires range { IsEditInRange held.now.network edit }
    requires knows { Knows held.now rows.now }
    requires room { HasEditRoom held.now room.old }
    ensures held { IsHierarchy held.now }
    ensures edit { IfOk result (λ touched. touched.edit ≡ edit) }
    ensures touched { IfOk result
        (λ touched. NumbersTouched held.now edit (numbers_of touched.lists.items)) }
    ensures resettled { IfOk result (λ touched. IsResettled held.now edit
        (hierarchy_with held.now edit touched.lists.items)) }
    ensures sound { IfOk result
        (λ touched. IsHierarchy (hierarchy_with held.now edit touched.lists.items)) }
    ensures room { IfOk result
        (λ touched. HasEditRoom (hierarchy_with held.now edit touched.lists.items) room.new) }
{
    let view = held.view();
    let graph = held.graph();
    let ways = RecalledWays::new(&view, graph, rows);
    touch_over(
        alloc,
        &ways,
        edit,
        ground_of(held, &room.arcs),
        &mut room.buckets,
        &mut room.learned,
    )
}

/// Adds an edit to a list of edits of a held file, behind the others, and answers how many edges it touches over the network as
/// they leave it.
pub(crate) fn add_held(
    alloc: Global,
    held: &HeldFile,
    edits: &mut EditList,
    edit: Edit,
) -> Result<u32, NoMemory>
    requires edits { FitsList held.now edits.old }
    requires range { IsEditInRange (edited_all held.now.network edits.old.edits) edit }
    ensures fits { FitsList held.now edits.new }
    ensures made { IfOk result (λ count. edits.new.edits ≡ edits.old.edits ++ edit ∷ []) }
    ensures count { IfOk result
        (CountsTouched held.now (edited_all held.now.network edits.old.edits) edit) }
    ensures sound { IfOk result
        (λ count. IsNetwork (edited_all held.now.network edits.new.edits)) }
    ensures kept { OnErr result (edits.new ≡ edits.old) }
{
    let view = held.view();
    plan_all(alloc, &view, edits, edit, held.graph())
}

/// The edges that some edits of a list touch, each settled once, with their lists after all of them, and the packed bytes, but for
/// their digest, of the hierarchy after them; these rows say what is so of the one before. The room for edits fits the hierarchy
/// after them, and is made if there is none; where memory runs out it is let go of.
pub(crate) fn edit_all_held<P: Progress>(
    alloc: Global,
    held: &HeldFile,
    rows: &[Row],
    edits: &EditList,
    editing: &mut Option<EditRoom>,
    progress: &mut P,
) -> Result<(Vec<u8>, Vec<TouchedEdge>), NoMemory>
    requires edits { FitsList held.now edits.now }
    requires knows { Knows held.now rows.now }
    requires editing { FitsEdits held.now editing.old }
    ensures held { IfOk result (λ _. IsHierarchy held.now) }
    ensures touched { IfOk result (λ made. NumbersTouchedBySome held.now edits.now.edits
        (numbers_of made.1.items)) }
    ensures resettled { IfOk result (λ made. IsResettledAll held.now edits.now.edits
        (hierarchy_with_all held.now edits.now.edits made.1.items)) }
    ensures sound { IfOk result
        (λ made. IsHierarchy (hierarchy_with_all held.now edits.now.edits made.1.items)) }
    ensures spelled { IfOk result (λ made. Spells (sealed made.0.items)
        (hierarchy_with_all held.now edits.now.edits made.1.items)) }
    ensures editing { IfOk result (λ made. FitsEdits
        (hierarchy_with_all held.now edits.now.edits made.1.items) editing.new) }
    ensures kept { OnErr result (FitsEdits held.now editing.new) }
{
    fill_edit_room(alloc, held, editing)?;
    let Some(room) = editing else { unreachable!() };
    let Ok(made) = repack_all_held(alloc, held, rows, edits, room, progress) else {
        drop(editing.take());
        return Err(NoMemory);
    };
    Ok(made)
}

// The same in room that is there.
fn repack_all_held<P: Progress>(
    alloc: Global,
    held: &HeldFile,
    rows: &[Row],
    edits: &EditList,
    room: &mut EditRoom,
    progress: &mut P,
) -> Result<(Vec<u8>, Vec<TouchedEdge>), NoMemory>
    requires edits { FitsList held.now edits.now }
    requires knows { Knows held.now rows.now }
    requires room { HasEditRoom held.now room.old }
    ensures held { IfOk result (λ _. IsHierarchy held.now) }
    ensures touched { IfOk result (λ made. NumbersTouchedBySome held.now edits.now.edits
        (numbers_of made.1.items)) }
    ensures resettled { IfOk result (λ made. IsResettledAll held.now edits.now.edits
        (hierarchy_with_all held.now edits.now.edits made.1.items)) }
    ensures sound { IfOk result
        (λ made. IsHierarchy (hierarchy_with_all held.now edits.now.edits made.1.items)) }
    ensures spelled { IfOk result (λ made. Spells (sealed made.0.items)
        (hierarchy_with_all held.now edits.now.edits made.1.items)) }
    ensures room { IfOk result (λ made. HasEditRoom
        (hierarchy_with_all held.now edits.now.edits made.1.items) room.new) }
{
    let lists = touch_all_held(alloc, held, rows, edits, room, progress)?;
    begin(progress, Stage::Packing);
    let bytes = held.repacked(alloc, Edits::All(edits), lists.as_slice())?;
    Ok((bytes, lists))
}

/// The edges that some edits of a list touch, each settled once, with their lists after all of them. The room for edits is made, and let
/// go of again.
pub(crate) fn settle_all_held<P: Progress>(
    alloc: Global,
    held: &HeldFile,
    edits: &EditList,
    progress: &mut P,
) -> Result<Vec<TouchedEdge>, NoMemory>
    requires edits { FitsList held.now edits.now }
    ensures held { IfOk result (λ _. IsHierarchy held.now) }
    ensures touched { IfOk result
        (λ lists. NumbersTouchedBySome held.now edits.now.edits (numbers_of lists.items)) }
    ensures resettled { IfOk result (λ lists. IsResettledAll held.now edits.now.edits
        (hierarchy_with_all held.now edits.now.edits lists.items)) }
    ensures sound { IfOk result
        (λ lists. IsHierarchy (hierarchy_with_all held.now edits.now.edits lists.items)) }
{
    let mut room = make_edit_room(alloc, held)?;
    let lists = touch_all_held(alloc, held, &[], edits, &mut room, progress)?;
    Ok(lists)
}

// The edges that some edits of a list touch, with their lists after all of them; these rows say what is so of the hierarchy. The
// room fits the hierarchy after them. What edits learned is let go of, so that there is room to pack.
fn touch_all_held<P: Progress>(
    alloc: Global,
    held: &HeldFile,
    rows: &[Row],
    edits: &EditList,
    room: &mut EditRoom,
    progress: &mut P,
) -> Result<Vec<TouchedEdge>, NoMemory>
    requires edits { FitsList held.now edits.now }
    requires knows { Knows held.now rows.now }
    requires room { HasEditRoom held.now room.old }
    ensures held { IsHierarchy held.now }
    ensures touched { IfOk result
        (λ lists. NumbersTouchedBySome held.now edits.now.edits (numbers_of lists.items)) }
    ensures resettled { IfOk result (λ lists. IsResettledAll held.now edits.now.edits
        (hierarchy_with_all held.now edits.now.edits lists.items)) }
    ensures sound { IfOk result
        (λ lists. IsHierarchy (hierarchy_with_all held.now edits.now.edits lists.items)) }
    ensures room { IfOk result (λ lists. HasEditRoom
        (hierarchy_with_all held.now edits.now.edits lists.items) room.new) }
{
    drop(room.learned.take());
    let view = held.view();
    let graph = held.graph();
    let ways = RecalledWays::new(&view, graph, rows);
    settle_all(alloc, &ways, edits, ground_of(held, &room.arcs), progress)
}
