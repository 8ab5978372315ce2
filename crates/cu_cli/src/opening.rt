//! Packed files, loaded and checked. Whatever is refused stops the run.

ghost use Rattle.std.specs.Prelude.{◌≡◌, ◌∷◌, [], IfErr, IfOk};
ghost use Rattle.cu_interval.specs.Hierarchies.{HierarchyValue};
ghost use Rattle.cu_pack.specs.Checks.{Spells};
ghost use Rattle.cu_cli.specs.Opening.{IsFileOf, Opens, StopsChecks, StopsOpening};
ghost use Rattle.cu_cli.specs.Steps.Loading.{OnlyLoads};
ghost use Rattle.cu_cli.specs.Steps.Opening.{FailsFirst, names_version_1};
ghost use Rattle.cu_cli.specs.Steps.Outcomes.{IsBeforeScript, IsRefusal, stop_of};
ghost use Rattle.cu_cli.specs.Words.{editing_files, hierarchy_file};

use crate::preparing::load_file;
use crate::stops::{Role, Stop};
use cu_io::Shelf;
use cu_pack::{PackRefusal, PackedView, migrate_telling};
use cu_progress::{Progress, Stage, begin};
use std::alloc::Global;

/// A packed file, and the text of its edits.
#[derive(Drop)]
pub struct EditedFile {
    pub hierarchy: Vec<u8>,
    pub edits: Vec<u8>,
}

/// The packed file, in version 2, of the hierarchy whose packed file the bytes of a file are, in either version.
pub fn open_file<H: Shelf, P: Progress>(
    alloc: Global,
    name: &str,
    shelf: &mut H,
    progress: &mut P,
) -> Result<Vec<u8>, Stop>
    ensures ok { IfOk result (λ bytes. (h : HierarchyValue)
        × Opens (H.state shelf.old) (hierarchy_file name.now ∷ []) h [] × Spells bytes.items h) }
    ensures err { IfErr result (StopsOpening (H.state shelf.old) (H.state shelf.new)
        (hierarchy_file name.now ∷ [])) }
    ensures before { IfErr result IsBeforeScript }
    ensures loads { OnlyLoads (stop_of result) (H.state shelf.old) (H.state shelf.new) }
{
    begin(progress, Stage::Reading);
    let bytes = load_file(alloc, Role::Hierarchy, name, shelf)?;
    checked_file(alloc, bytes, progress)
}

/// The packed file, in version 2, of the hierarchy whose packed file the bytes of a file are, in either version, and the
/// bytes of its edits. Both are loaded before the first is checked.
pub fn open_edited<H: Shelf, P: Progress>(
    alloc: Global,
    hierarchy: &str,
    edits: &str,
    shelf: &mut H,
    progress: &mut P,
) -> Result<EditedFile, Stop>
    ensures ok { IfOk result (λ file. (h : HierarchyValue)
        × Opens (H.state shelf.old) (editing_files hierarchy.now edits.now) h (file.edits.items ∷ [])
        × Spells file.hierarchy.items h) }
    ensures err { IfErr result (StopsOpening (H.state shelf.old) (H.state shelf.new)
        (editing_files hierarchy.now edits.now)) }
    ensures before { IfErr result IsBeforeScript }
    ensures loads { OnlyLoads (stop_of result) (H.state shelf.old) (H.state shelf.new) }
{
    progress.tell(Stage::Reading, 0, 2);
    let hierarchy = load_file(alloc, Role::Hierarchy, hierarchy, shelf)?;
    progress.tell(Stage::Reading, 1, 2);
    let edits = load_file(alloc, Role::Edits, edits, shelf)?;
    let hierarchy = checked_file(alloc, hierarchy, progress)?;
    Ok(EditedFile { hierarchy, edits })
}

// The packed file, in version 2, of the hierarchy whose packed file these bytes are, in either version; or the first check
// that they fail.
fn checked_file<P: Progress>(
    alloc: Global,
    bytes: Vec<u8>,
    progress: &mut P,
) -> Result<Vec<u8>, Stop>
    ensures spelled { IfOk result
        (λ file. (h : HierarchyValue) × IsFileOf bytes.items h × Spells file.items h) }
    ensures refused { IfErr result (StopsChecks bytes.items) }
    ensures before { IfErr result IsRefusal }
{
    let Some(refusal) = first_failed(alloc, &bytes, progress) else {
        return Ok(bytes);
    };
    if names_version_1(refusal) {
        return Ok(migrate_telling(alloc, &bytes, progress)?);
    }
    Err(Stop::from(refusal))
}

// Whether a file is refused for being of version 1.
fn names_version_1(refusal: PackRefusal) -> bool
    ensures { result ≡ names_version_1 refusal }
{
    match refusal {
        PackRefusal::Version { found } => found == 1,
        _ => false,
    }
}

// The first check of version 2 that bytes fail.
fn first_failed<P: Progress>(alloc: Global, bytes: &[u8], progress: &mut P) -> Option<PackRefusal>
    ensures { FailsFirst bytes.now result }
{
    PackedView::open_telling(alloc, bytes, progress).err()
}
