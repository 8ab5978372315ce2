//! Edits added to a list, each planned over the network as those before it left it.

ghost use Rattle.std.specs.Prelude.{◌≡◌, ◌≤◌, ◌∷◌, ◌++◌, [], IfOk, OnErr, length};
ghost use Rattle.cu_model.specs.Edits.{IsEditInRange};
ghost use Rattle.cu_model.specs.Networks.{IsNetwork};
ghost use Rattle.cu_chordal.specs.declared.graph.TheConstants.{MAX_EDGES};
ghost use Rattle.cu_interval.specs.Hierarchies.{IsHierarchyOf};
ghost use Rattle.cu_interval.specs.Touching.{NumbersTouched};
ghost use Rattle.cu_resettled.specs.ResettlingAll.{edited_all};
ghost use Rattle.cu_edits.specs.EditLists.{AreChanged, CountsTouched, FitsList, over_network};

use crate::edit_list::EditList;
use crate::edited_roads::EditedRoads;
use crate::edits::Edits;
use crate::reading::read_edit;
use cu_chordal::Chordal;
use cu_interval::Ways;
use cu_model::{Edit, NoMemory};
use std::alloc::Global;

/// Adds an edit to a list of edits of a hierarchy, behind the others, and answers how many edges it touches over the network as
/// they leave it. Its numbers are in range, and the graph is that of the hierarchy. Where memory runs out the list is as before.
pub fn plan_all<W: Ways>(
    alloc: Global,
    ways: &W,
    edits: &mut EditList,
    edit: Edit,
    graph: &Chordal,
) -> Result<u32, NoMemory>
    requires edits { FitsList (W.hierarchy ways.now) edits.old }
    requires range { IsEditInRange
        (edited_all (W.hierarchy ways.now).network edits.old.edits) edit }
    requires graph { IsHierarchyOf graph.now (W.hierarchy ways.now) }
    ensures fits { FitsList (W.hierarchy ways.now) edits.new }
    ensures made { IfOk result (λ count. edits.new.edits ≡ edits.old.edits ++ edit ∷ []) }
    ensures count { IfOk result (CountsTouched (W.hierarchy ways.now)
        (edited_all (W.hierarchy ways.now).network edits.old.edits) edit) }
    ensures sound { IfOk result (λ count. IsNetwork
        (edited_all (W.hierarchy ways.now).network edits.new.edits)) }
    ensures kept { OnErr result (edits.new ≡ edits.old) }
{
    read_edit(&edit);
    let arcs = changed_behind(alloc, ways, edits, &edit)?;
    let planned = edits.touched_from(alloc, ways, &arcs, graph)?;
    edits.add(edit, &arcs, &planned.edges)?;
    Ok(planned.count)
}

// The roads that an edit changes behind all of a list.
fn changed_behind<W: Ways>(
    alloc: Global,
    ways: &W,
    edits: &EditList,
    edit: &Edit,
) -> Result<Vec<u32>, NoMemory>
    requires edits { FitsList (W.hierarchy ways.now) edits.now }
    requires sound { IsNetwork (W.hierarchy ways.now).network }
    requires range { IsEditInRange
        (edited_all (W.hierarchy ways.now).network edits.now.edits) edit.now }
    ensures { IfOk result (λ arcs. AreChanged
        (edited_all (W.hierarchy ways.now).network edits.now.edits) edit.now arcs.items) }
{
    let roads = EditedRoads::of(ways, Edits::All(edits));
    edits.changed_by(alloc, &roads, edit)
}
