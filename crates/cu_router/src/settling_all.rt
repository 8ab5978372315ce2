//! Settling the edges that edits touch together.

ghost use Rattle.std.specs.Prelude.{◌≡◌, [], IfOk, IfSome, IsOk};
ghost use Rattle.cu_bounds.specs.Near.{AreNear};
ghost use Rattle.cu_edits.specs.Customized.{AreCustomized};
ghost use Rattle.cu_edits.specs.EditLists.{FitsList};
ghost use Rattle.cu_edits.specs.Lists.{AreInRange, AreSound};
ghost use Rattle.cu_edits.specs.Settling.{numbers_of};
ghost use Rattle.cu_interval.specs.EdgeArcs.{AreEdgeArcs};
ghost use Rattle.cu_interval.specs.Hierarchies.{IsHierarchy, IsHierarchyOf};
ghost use Rattle.cu_resettled.specs.ResettlingAll.{IsResettledAll, NumbersTouchedBySome, hierarchy_with_all};

use cu_edits::{EditGround, EditList, EditSettler, Keeping, settle_each};
use cu_interval::{TouchedEdge, Ways};
use cu_model::NoMemory;
use cu_progress::Progress;
use std::alloc::Global;

/// The edges that some edits of a list touch, each settled once, with their lists after all of them. Functions that no later edge
/// needs are let go of on the way; only a file that isn't built may need them again, and is settled anew with all of them.
pub(crate) fn settle_all<W: Ways, P: Progress>(
    alloc: Global,
    ways: &W,
    edits: &EditList,
    ground: EditGround<'_>,
    progress: &mut P,
) -> Result<Vec<TouchedEdge>, NoMemory>
    requires edits { FitsList (W.hierarchy ways.now) edits.now }
    requires graph { IsHierarchyOf ground.graph.now (W.hierarchy ways.now) }
    requires arcs { AreEdgeArcs (W.hierarchy ways.now).network (W.hierarchy ways.now).order
        ground.graph.now.edges ground.arcs.now }
    requires customized { AreCustomized (W.hierarchy ways.now) ground.customized.now }
    requires bounds { IfSome ground.bounds (λ bounds. AreNear (W.hierarchy ways.now) bounds.now) }
    ensures touched { IfOk result (λ lists. NumbersTouchedBySome (W.hierarchy ways.now)
        edits.now.edits (numbers_of lists.items)) }
    ensures resettled { IfOk result (λ lists. IsResettledAll (W.hierarchy ways.now)
        edits.now.edits (hierarchy_with_all (W.hierarchy ways.now) edits.now.edits lists.items)) }
    ensures sound { IfOk result (λ lists. IsHierarchy
        (hierarchy_with_all (W.hierarchy ways.now) edits.now.edits lists.items)) }
{
    let edges = edits.touched(alloc, ground.graph.edges())?;
    let settler = EditSettler::over_all(alloc, ways, edits, ground, Keeping::Needed);
    if let Some(lists) = settle_or_give_up(alloc, &edges, settler, progress)? {
        return Ok(lists);
    }
    let mut settler = EditSettler::over_all(alloc, ways, edits, ground, Keeping::All);
    let done = settle_each(alloc, &edges, &mut settler, progress);
    lists_of(settler, done)
}

// These edges, which the edits of a settler touch, with their lists after them. None where the settler gives up.
fn settle_or_give_up<W: Ways, P: Progress>(
    alloc: Global,
    edges: &[u32],
    settler: EditSettler<'_, W>,
    progress: &mut P,
) -> Result<Option<Vec<TouchedEdge>>, NoMemory>
    requires none { settler.settled ≡ [] }
    requires edges { NumbersTouchedBySome settler.before settler.edit edges.now }
    requires sound { IsHierarchy settler.before }
    requires range { AreInRange settler.before.network settler.edit }
    requires pieces { AreSound settler.edit }
    ensures touched { IfOk result
        (λ found. IfSome found (λ lists. numbers_of lists.items ≡ edges.now)) }
    ensures resettled { IfOk result (λ found. IfSome found (λ lists. IsResettledAll
        settler.entry.before settler.entry.edit
        (hierarchy_with_all settler.entry.before settler.entry.edit lists.items))) }
    ensures sound { IfOk result (λ found. IfSome found (λ lists. IsHierarchy
        (hierarchy_with_all settler.entry.before settler.entry.edit lists.items))) }
{
    let mut settler = settler;
    let done = settle_each(alloc, edges, &mut settler, progress);
    if settler.gave_up() {
        drop(settler);
        return Ok(None);
    }
    let lists = lists_of(settler, done)?;
    Ok(Some(lists))
}

// The lists of the edges that a settler settled, unless it refused one.
fn lists_of<W: Ways>(
    settler: EditSettler<'_, W>,
    done: Result<(), NoMemory>,
) -> Result<Vec<TouchedEdge>, NoMemory>
    ensures lists { IfOk result (λ lists. lists.items ≡ settler.entry.settled) }
    ensures done { IfOk result (λ lists. IsOk done) }
{
    if let Err(refused) = done {
        drop(settler);
        return Err(refused);
    }
    Ok(settler.into_settled())
}
