//! The bytes of a hierarchy.

ghost use Rattle.std.specs.Prelude.{◌≡◌, ◌++◌, IfOk, OnOk};
ghost use Rattle.cu_pack.specs.Spelling.{arcs_section, edges_section, order_section, profiles_section, spelling, ways_section};

use crate::bounding::put_least_bounds;
use crate::counting::count;
use crate::layout::Layout;
use crate::sealing::seal;
use crate::sections::{put_arcs, put_edges, put_header, put_order, put_profiles, put_ways};
use cu_interval::Hierarchy;
use cu_model::NoMemory;
use cu_progress::{Progress, Silent, Stage};
use std::alloc::Global;

// In how many steps a file is packed, as they are told.
const STEPS: u64 = 3;

/// The bytes of a hierarchy's packed file, its digest included.
pub fn pack(alloc: Global, hierarchy: &Hierarchy) -> Result<Vec<u8>, NoMemory>
    ensures spelled { IfOk result (λ bytes. bytes.items ≡ spelling hierarchy.now) }
{
    pack_telling(alloc, hierarchy, &mut Silent)
}

/// [`pack`], which tells that the sections are put, and then the least bounds, and then the digest.
pub fn pack_telling<P: Progress>(
    alloc: Global,
    hierarchy: &Hierarchy,
    progress: &mut P,
) -> Result<Vec<u8>, NoMemory>
    ensures spelled { IfOk result (λ bytes. bytes.items ≡ spelling hierarchy.now) }
{
    progress.tell(Stage::Packing, 0, STEPS);
    let counts = count(hierarchy);
    let layout = Layout::of(&counts);
    let mut bytes = Vec::with_capacity(alloc, layout.length as usize)?;
    put_header(&mut bytes, &counts, layout.length)?;
    put_parts(&mut bytes, hierarchy)?;
    progress.tell(Stage::Packing, 1, STEPS);
    put_least_bounds(alloc, &mut bytes, hierarchy)?;
    progress.tell(Stage::Packing, 2, STEPS);
    bytes.extend_from_slice(&[0; 32])?;
    seal(bytes.as_mut_slice());
    Ok(bytes)
}

// All sections between the header and the bounds.
fn put_parts(bytes: &mut Vec<u8>, hierarchy: &Hierarchy) -> Result<(), NoMemory>
    ensures { OnOk result (bytes.new.items ≡ bytes.old.items ++ (order_section hierarchy.now
        ++ (arcs_section hierarchy.now ++ (profiles_section hierarchy.now
        ++ (edges_section hierarchy.now ++ ways_section hierarchy.now))))) }
{
    let network = hierarchy.network();
    put_order(bytes, hierarchy.order())?;
    put_arcs(bytes, network)?;
    put_profiles(bytes, network)?;
    put_edges(bytes, hierarchy.graph())?;
    put_ways(bytes, hierarchy)
}
