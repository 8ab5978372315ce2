//! A packed file of version 1, made one of version 2.

ghost use Rattle.std.specs.Prelude.{◌≡◌, IfErr, IfOk};
ghost use Rattle.cu_interval.specs.Hierarchies.{HierarchyValue};
ghost use Rattle.cu_pack.specs.Checks.{IsRefusedIn, Spells, SpellsIn};
ghost use Rattle.cu_pack.specs.Reading.{decoded};
ghost use Rattle.cu_pack.specs.Spelling.{spelling};
ghost use Rattle.cu_pack.specs.Steps.Fronts.{SpellsSections};

use crate::bounding::put_least_bounds;
use crate::cutting::Sections;
use crate::layout::{Counts, Layout};
use crate::opening::check_file;
use crate::refusals::PackRefusal;
use crate::sealing::seal;
use crate::sections::put_header;
use crate::ways_in_file::WaysInFile;
use cu_model::NoMemory;
use cu_progress::{Progress, Silent};
use std::alloc::Global;

/// The packed file, of version 2, of the hierarchy whose packed file of version 1 these bytes are. Takes the memory of
/// the new file, beside what the checks take.
///
/// Refused by the first check of version 1 that fails, in the order of [`PackRefusal`]; no bounds are checked. Want of
/// memory may come in place of any answer.
pub fn migrate(alloc: Global, bytes: &[u8]) -> Result<Vec<u8>, PackRefusal>
    ensures migrated { IfOk result
        (λ file. (h : HierarchyValue) × SpellsIn 1 bytes.now h × Spells file.items h) }
    ensures refused { IfErr result (λ refusal. IsRefusedIn 1 bytes.now refusal) }
{
    migrate_telling(alloc, bytes, &mut Silent)
}

/// [`migrate`], which tells how far the checks are.
pub fn migrate_telling<P: Progress>(
    alloc: Global,
    bytes: &[u8],
    progress: &mut P,
) -> Result<Vec<u8>, PackRefusal>
    ensures migrated { IfOk result
        (λ file. (h : HierarchyValue) × SpellsIn 1 bytes.now h × Spells file.items h) }
    ensures refused { IfErr result (λ refusal. IsRefusedIn 1 bytes.now refusal) }
{
    let sections = check_file(alloc, bytes, 1, progress)?;
    let Ok(file) = file_with_bounds(alloc, &sections) else {
        return Err(PackRefusal::NoMemory);
    };
    Ok(file)
}

// The file of version 2 with these sections.
fn file_with_bounds(alloc: Global, sections: &Sections<'_>) -> Result<Vec<u8>, NoMemory>
    requires told { SpellsSections sections.now (decoded sections.now) }
    ensures spelled { IfOk result (λ file. file.items ≡ spelling (decoded sections.now)) }
{
    let counts = Counts {
        version: 2,
        ..sections.counts()
    };
    let layout = Layout::of(&counts);
    let mut bytes = Vec::with_capacity(alloc, layout.length as usize)?;
    put_header(&mut bytes, &counts, layout.length)?;
    bytes.extend_from_slice(sections.between(layout.node_at, layout.bounds))?;
    put_least_bounds(alloc, &mut bytes, &WaysInFile::of(sections))?;
    bytes.extend_from_slice(&[0; 32])?;
    seal(bytes.as_mut_slice());
    Ok(bytes)
}
