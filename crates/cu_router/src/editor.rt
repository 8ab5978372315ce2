//! What a file of edits is made in: the packed bytes of a hierarchy.

ghost use Rattle.std.specs.Prelude.{IfOk, ◌≡◌};
ghost use Rattle.cu_interval.specs.Hierarchies.{HierarchyValue};
ghost use Rattle.cu_edits.specs.EditLists.{FitsList};
ghost use Rattle.cu_pack.specs.Checks.{Spells};
ghost use Rattle.cu_router.specs.Edited.{IsEditedAll};

use crate::edit_room::settle_all_held;
use crate::edited_file::EditedFile;
use crate::held_file::HeldFile;
use cu_edits::EditList;
use cu_model::NoMemory;
use cu_progress::{Progress, Stage, begin};
use std::alloc::Global;
use std::marker::Model;

/// The packed bytes of a hierarchy, built or not, for edits after which its file is asked for: no room for queries is made beside
/// them. Contracts see the hierarchy.
#[derive(Drop)]
pub struct Editor {
    held: HeldFile,
}

impl Model for Editor {
    ghost use Rattle.cu_interval.specs.Hierarchies.{HierarchyValue};

    ghost Value = { HierarchyValue };

    ghost view = { λ editor. editor.held };
}

impl Editor {
    /// Holds the hierarchy whose packed file these bytes are. It doesn't find out whether walks are too long to lead queries to
    /// their end.
    pub fn new(alloc: Global, bytes: Vec<u8>) -> Result<Editor, NoMemory>
        requires spelled { (h : HierarchyValue) × Spells bytes.items h }
        ensures held { IfOk result (λ editor. Spells bytes.items editor) }
    {
        Ok(Editor {
            held: HeldFile::unasked(alloc, bytes)?,
        })
    }

    /// What it holds. Takes no memory.
    pub fn held(&self) -> &HeldFile
        ensures { result.now ≡ self.now }
    {
        &self.held
    }

    /// The file after all edits of a list: each edge that some of them touches is settled once. How many of the edges are settled is
    /// told as it goes. What is held stays.
    pub fn edit_all<P: Progress>(
        &self,
        alloc: Global,
        edits: EditList,
        progress: &mut P,
    ) -> Result<EditedFile<'_>, NoMemory>
        requires edits { FitsList self.now edits }
        ensures edited { IfOk result (λ file. IsEditedAll self.now edits.edits file) }
    {
        let lists = settle_all_held(alloc, &self.held, &edits, progress)?;
        begin(progress, Stage::Packing);
        EditedFile::of(alloc, &self.held, edits, lists)
    }
}
