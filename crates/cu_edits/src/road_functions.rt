//! The functions of roads, and which roads an edit changes.

ghost use Rattle.std.specs.Prelude.{◌<◌, ◌↔◌, IfOk, IsTrue, length};
ghost use Rattle.cu_customize.specs.Functions.{IsFunction};
ghost use Rattle.cu_interval.specs.Touching.{IsChanged};
ghost use Rattle.cu_edits.specs.Steps.Known.{road_in};

use cu_arrival::Arrival;
use cu_model::{Edit, NoMemory, Roads};
use std::alloc::Global;

/// The function of a road, below the number of roads. None exactly where it is closed.
pub fn road_function<R: Roads>(
    alloc: Global,
    roads: &R,
    arc: u32,
) -> Result<Option<Arrival>, NoMemory>
    requires { arc < length (R.network roads.now).arcs }
    ensures { IfOk result
        (λ function. IsFunction function (road_in (R.network roads.now) arc)) }
{
    if roads.closed(arc) {
        return Ok(None);
    }
    Ok(Some(Arrival::of_arc(alloc, roads, arc)?))
}

/// Whether an edit changes a road, below the number of roads.
pub fn is_changed<R: Roads>(roads: &R, edit: &Edit, arc: u32) -> bool
    requires { arc < length (R.network roads.now).arcs }
    ensures { IsTrue result ↔ IsChanged (R.network roads.now) edit.now arc }
{
    match edit {
        Edit::Set { profile, .. } => roads.arc(arc).profile == *profile,
        Edit::Assign { arc: changed, .. } => arc == *changed,
    }
}
