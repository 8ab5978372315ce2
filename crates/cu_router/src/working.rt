//! The steps of an edit in work over a held file.

ghost use Rattle.std.specs.Prelude.{◌≡◌, ◌≤◌, ◌-◌, [], List, IfOk, IfSome, OnErr, length};
ghost use Rattle.cu_model.specs.declared.roads.Edit.{Edit};
ghost use Rattle.cu_model.specs.Edits.{IsEditInRange};
ghost use Rattle.cu_chordal.specs.declared.graph.TheConstants.{MAX_EDGES};
ghost use Rattle.cu_edits.specs.InWork.{left_of};
ghost use Rattle.cu_edits.specs.Paused.{FitsPaused};
ghost use Rattle.cu_interval.specs.Hierarchies.{HierarchyValue};
ghost use Rattle.cu_interval.specs.Replacing.{hierarchy_with};
ghost use Rattle.cu_interval.specs.Touching.{NumbersTouched};
ghost use Rattle.cu_recall.specs.Spans.{Knows};
ghost use Rattle.cu_router.specs.Steps.Rooms.{FitsEdits, HasEditRoom};
ghost use Rattle.cu_router.specs.Working.{FitsBusy, edges_left};

use crate::busy::Busy;
use crate::edit_room::{EditRoom, ground_of};
use crate::held_file::HeldFile;
use cu_edits::{EditSettler, InWork, PausedSettler, Settler, WorkPapers, plan};
use cu_model::{Edit, NoMemory};
use cu_recall::{RecalledWays, Row};
use std::alloc::Global;

/// The edges that an edit touches, whose numbers are in range, by rising number.
pub(crate) fn plan_held(
    alloc: Global,
    held: &HeldFile,
    edit: &Edit,
    room: &mut EditRoom,
) -> Result<Vec<u32>, NoMemory>
    requires range { IsEditInRange held.now.network edit.now }
    requires room { HasEditRoom held.now room.old }
    ensures touched { IfOk result (λ edges. NumbersTouched held.now edit.now edges.items) }
    ensures few { IfOk result (λ edges. length edges.items ≤ MAX_EDGES) }
    ensures room { HasEditRoom held.now room.new }
{
    let view = held.view();
    plan(alloc, &view, edit, held.graph(), &mut room.buckets)
}

/// Begins an edit of a client, whose numbers are in range and which touches these edges. All room that is made for all edges of the
/// hierarchy together is made here. What edits learned goes into it.
pub(crate) fn begin_held(
    alloc: Global,
    held: &HeldFile,
    room: &mut EditRoom,
    client: u32,
    edges: Vec<u32>,
    edit: Edit,
) -> Result<Busy, NoMemory>
    requires range { IsEditInRange held.now.network edit }
    requires touched { NumbersTouched held.now edit edges.items }
    requires room { HasEditRoom held.now room.old }
    ensures fits { IfOk result (FitsBusy held.now) }
    ensures edit { IfOk result (λ busy. busy.edit ≡ edit) }
    ensures papers { IfOk result (λ busy. busy.papers
        ≡ record { client = client; edges = edges.items; lists = [] }) }
    ensures room { HasEditRoom held.now room.new }
{
    let learned = room.learned.take();
    let view = held.view();
    let ground = ground_of(held, &room.arcs);
    let mut settler = EditSettler::over(alloc, &view, &edit, ground, learned)?;
    settler.make_room(alloc)?;
    let work = InWork::begin(alloc, client, edges, settler)?;
    let (papers, settler) = work.into_parts();
    let settler = settler.pause();
    Ok(Busy {
        edit,
        papers,
        settler,
    })
}

/// Settles the next edge of an edit in work, if one is left, and answers how many are left then; these rows say what is so of the
/// hierarchy.
pub(crate) fn settle_next(
    alloc: Global,
    held: &HeldFile,
    rows: &[Row],
    room: &EditRoom,
    busy: Busy,
) -> (Busy, Result<u32, NoMemory>)
    requires knows { Knows held.now rows.now }
    requires room { HasEditRoom held.now room.now }
    requires fits { FitsBusy held.now busy }
    ensures fits { FitsBusy held.now result.0 }
    ensures edit { result.0.edit ≡ busy.edit }
    ensures client { result.0.papers.client ≡ busy.papers.client }
    ensures edges { result.0.papers.edges ≡ busy.papers.edges }
    ensures left { IfOk result.1 (λ left. (left ≡ edges_left result.0)
        × (left ≡ edges_left busy - 1)) }
    ensures kept { OnErr result.1 (result.0.papers.lists ≡ busy.papers.lists) }
{
    let Busy {
        edit,
        papers,
        settler,
    } = busy;
    let view = held.view();
    let ways = RecalledWays::new(&view, held.graph(), rows);
    let ground = ground_of(held, &room.arcs);
    let settler = EditSettler::resume(&ways, &edit, ground, settler);
    let mut work = InWork::resume(papers, settler);
    let left = step_if_left(alloc, &mut work);
    let (papers, settler) = work.into_parts();
    let settler = settler.pause();
    let busy = Busy {
        edit,
        papers,
        settler,
    };
    (busy, left)
}

// Settles the next edge, if one is left, and answers how many are left then.
fn step_if_left<S: Settler + Drop>(alloc: Global, work: &mut InWork<S>) -> Result<u32, NoMemory>
    ensures left { IfOk result (λ left. (left ≡ left_of work.new)
        × (left ≡ left_of work.old - 1)) }
    ensures client { work.new.client ≡ work.old.client }
    ensures edges { work.new.edges ≡ work.old.edges }
    ensures before { work.new.state.before ≡ work.old.state.before }
    ensures edit { work.new.state.edit ≡ work.old.state.edit }
    ensures kept { OnErr result (work.new ≡ work.old) }
{
    if work.left() == 0 {
        return Ok(0);
    }
    work.step(alloc)
}

/// The lists of an edit in work, none of whose edges is left; the room for edits is made to fit the hierarchy after it. These rows
/// say what is so of the one before.
pub(crate) fn finish(
    alloc: Global,
    held: &HeldFile,
    rows: &[Row],
    room: &mut EditRoom,
    busy: Busy,
) -> WorkPapers
    requires knows { Knows held.now rows.now }
    requires room { HasEditRoom held.now room.old }
    requires fits { FitsBusy held.now busy }
    requires none { edges_left busy ≡ 0 }
    ensures papers { result ≡ busy.papers }
    ensures room { HasEditRoom (hierarchy_with held.now busy.edit busy.papers.lists) room.new }
{
    let Busy {
        edit,
        papers,
        settler,
    } = busy;
    let view = held.view();
    let ways = RecalledWays::new(&view, held.graph(), rows);
    let ground = ground_of(held, &room.arcs);
    let settler = EditSettler::resume(&ways, &edit, ground, settler);
    room.learned = settler.into_learned(alloc);
    papers
}

/// Gives what is known of the hierarchy before an edit that isn't made back to the room for edits, if there is one. Takes no memory.
pub(crate) fn give_back(editing: &mut Option<EditRoom>, settler: PausedSettler)
    ensures { (h : HierarchyValue) (edits : List Edit) → FitsPaused h edits settler
        → FitsEdits h editing.old → FitsEdits h editing.new }
{
    if let Some(room) = editing {
        room.learned = settler.into_earlier();
    }
}
