//! Touched edges copied with their lists.

ghost use Rattle.std.specs.Prelude.{◌≡◌, ◌++◌, ◌∷◌, [], IfOk, OnErr, OnOk};

use cu_interval::{Entry, TouchedEdge, WayList};
use cu_model::NoMemory;
use std::alloc::Global;

/// A copy of an edge and its lists.
pub fn copy_touched(alloc: Global, touched: &TouchedEdge) -> Result<TouchedEdge, NoMemory>
    ensures { IfOk result (λ copy. copy ≡ touched.now) }
{
    Ok(TouchedEdge {
        edge: touched.edge,
        up: copy_list(alloc, &touched.up)?,
        down: copy_list(alloc, &touched.down)?,
    })
}

/// Adds a copy of an edge and its lists.
pub fn push_copy(
    alloc: Global,
    settled: &mut Vec<TouchedEdge>,
    touched: &TouchedEdge,
) -> Result<(), NoMemory>
    ensures added { OnOk result (settled.new.items ≡ settled.old.items ++ touched.now ∷ []) }
    ensures kept { OnErr result (settled.new.items ≡ settled.old.items) }
{
    let copy = copy_touched(alloc, touched)?;
    settled.push(copy)?;
    Ok(())
}

fn copy_list(alloc: Global, list: &WayList) -> Result<WayList, NoMemory>
    ensures { IfOk result (λ copy. copy ≡ list.now) }
{
    let mut entries: Vec<Entry> = Vec::with_capacity(alloc, list.entries().len())?;
    entries.extend_from_slice(list.entries())?;
    let Some(copy) = WayList::of(entries) else {
        unreachable!()
    };
    Ok(copy)
}
