//! The section of a packed file's least bounds.

ghost use Rattle.std.specs.Prelude.{◌≡◌, ◌≤◌, ◌+◌, ◌*◌, ◌++◌, IfOk, OnOk, length, take};
ghost use Rattle.std.specs.List.{flat_map};
ghost use Rattle.cu_interval.specs.Hierarchies.{HierarchyValue};
ghost use Rattle.cu_bounds.specs.KeptBounds.{bounds_of};
ghost use Rattle.cu_pack.specs.Checks.{sealed};
ghost use Rattle.cu_pack.specs.Spelling.{long, spelling};
ghost use Rattle.cu_pack.specs.Steps.Fronts.{IsFrontOf, SpellsSections, front};

use crate::cutting::Sections;
use crate::numbers::put_long;
use crate::targets::Target;
use crate::ways_in_file::WaysInFile;
use cu_bounds::least_bounds;
use cu_interval::Ways;
use cu_model::NoMemory;
use std::alloc::Global;

// Appends the least bound of each list.
pub fn put_least_bounds<W: Ways>(
    alloc: Global,
    bytes: &mut Vec<u8>,
    ways: &W,
) -> Result<(), NoMemory>
    ensures { OnOk result (bytes.new.items
        ≡ bytes.old.items ++ flat_map long (bounds_of (W.hierarchy ways.now))) }
{
    let bounds = least_bounds(alloc, ways)?;
    put_bounds(bytes, &bounds)
}

// Appends these bounds.
pub fn put_bounds<T: Target>(bytes: &mut T, bounds: &[u64]) -> Result<(), T::Failed>
    ensures { OnOk result (T.grows bytes.old bytes.new (flat_map long bounds.now)) }
{
    for bound in bounds {
        put_long(bytes, *bound)?;
    }
    Ok(())
}

// Appends these bounds and room for a digest to all that is before them in a file of version 2.
pub fn with_bounds(bytes: Vec<u8>, bounds: &[u64]) -> Result<Vec<u8>, NoMemory>
    ensures spelled { (h : HierarchyValue) → bytes.items ≡ front 2 h → bounds.now ≡ bounds_of h
        → IfOk result (λ file. sealed file.items ≡ spelling h) }
    ensures long { IfOk result (λ file. 32 ≤ length file.items) }
{
    let mut bytes = bytes;
    put_bounds(&mut bytes, bounds)?;
    bytes.extend_from_slice(&[0; 32])?;
    Ok(bytes)
}

// The least bound of each list of the hierarchy with so many edges whose file of version 2 these bytes are, up to the
// bounds. What is put behind them meanwhile is taken away.
pub fn bounds_behind(alloc: Global, bytes: &mut Vec<u8>, edges: u32) -> Result<Vec<u64>, NoMemory>
    requires front { (h : HierarchyValue) × IsFrontOf bytes.old.items edges h }
    ensures bounds { (h : HierarchyValue) → IsFrontOf bytes.old.items edges h
        → IfOk result (λ bounds. bounds.items ≡ bounds_of h) }
    ensures same { OnOk result (bytes.new.items ≡ bytes.old.items) }
{
    let end = bytes.len();
    put_room(bytes, edges)?;
    let bounds = bounds_before(alloc, bytes.as_slice())?;
    bytes.truncate(end);
    Ok(bounds)
}

// Appends as many bytes as the bounds of so many edges have, and a digest.
fn put_room(bytes: &mut Vec<u8>, edges: u32) -> Result<(), NoMemory>
    ensures before { OnOk result (take (length bytes.old.items) bytes.new.items ≡ bytes.old.items) }
    ensures room { OnOk result
        (length bytes.new.items ≡ length bytes.old.items + (16 * edges + 32)) }
{
    for _ in 0..edges {
        bytes.extend_from_slice(&[0; 16])?;
    }
    bytes.extend_from_slice(&[0; 32])?;
    Ok(())
}

// The least bound of each list of a hierarchy whose file these bytes are, but for the bounds and the digest.
fn bounds_before(alloc: Global, bytes: &[u8]) -> Result<Vec<u64>, NoMemory>
    requires spelled { (h : HierarchyValue) × SpellsSections (sealed bytes.now) h }
    ensures bounds { (h : HierarchyValue) → SpellsSections (sealed bytes.now) h
        → IfOk result (λ bounds. bounds.items ≡ bounds_of h) }
{
    let sections = Sections::unsealed(bytes);
    least_bounds(alloc, &WaysInFile::of(&sections))
}
