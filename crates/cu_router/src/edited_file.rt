//! The packed file that edits of a held file leave.

ghost use Rattle.std.specs.Prelude.{IfOk, length, ◌≡◌};
ghost use Rattle.cu_bounds.specs.KeptBounds.{bounds_of};
ghost use Rattle.cu_edits.specs.EditLists.{FitsList};
ghost use Rattle.cu_edits.specs.Settling.{numbers_of};
ghost use Rattle.cu_edits.specs.Together.{FitEdits, edits_of};
ghost use Rattle.cu_interval.specs.Hierarchies.{IsHierarchy};
ghost use Rattle.cu_pack.specs.Spelling.{spelling};
ghost use Rattle.cu_resettled.specs.ResettlingAll.{NumbersTouchedBySome, hierarchy_with_all};

use crate::held_file::HeldFile;
use cu_edits::{EditList, EditedRoads, Edits};
use cu_interval::TouchedEdge;
use cu_io::Content;
use cu_model::NoMemory;
use cu_pack::{Repacked, bounds_after};
use std::alloc::Global;
use std::io;
use std::io::Write;
use std::marker::Model;

/// The packed file of a held hierarchy after edits, which is packed as it is written: beside what is held it keeps the edits, the new
/// lists and the least bounds. Contracts see the hierarchy after the edits.
#[derive(Drop)]
pub struct EditedFile<'a> {
    held: &'a HeldFile,
    edits: EditList,
    lists: Vec<TouchedEdge>,
    bounds: Vec<u64>,
    length: u64,
}

impl<'a> Model for EditedFile<'a> {
    ghost use Rattle.cu_interval.specs.Hierarchies.{HierarchyValue};
    ghost use Rattle.cu_resettled.specs.ResettlingAll.{hierarchy_with_all};
    ghost use Rattle.cu_router.specs.Steps.Edits.{IsEditedFile};

    ghost Value = { HierarchyValue };

    ghost view = { λ file. hierarchy_with_all file.held.now file.edits.edits file.lists.items };

    ghost invariant = { λ file. IsEditedFile file.held.now file.edits file.lists.items
        file.bounds.items file.length };
}

impl<'a> EditedFile<'a> {
    /// The file after edits which together resettle the lists of these edges. Takes eight bytes for each list.
    pub(crate) fn of(
        alloc: Global,
        held: &'a HeldFile,
        edits: EditList,
        lists: Vec<TouchedEdge>,
    ) -> Result<EditedFile<'a>, NoMemory>
        requires edits { FitsList held.now edits }
        requires touched { NumbersTouchedBySome held.now edits.edits (numbers_of lists.items) }
        requires sound { IsHierarchy (hierarchy_with_all held.now edits.edits lists.items) }
        ensures { IfOk result
            (λ file. file ≡ hierarchy_with_all held.now edits.edits lists.items) }
    {
        let all = Edits::All(&edits);
        let (bounds, length) = bounds_and_length(alloc, held, all, lists.as_slice())?;
        Ok(EditedFile {
            held,
            edits,
            lists,
            bounds,
            length,
        })
    }

    /// How many bytes it has. Takes no memory.
    pub fn length(&self) -> u64
        ensures { result ≡ length (spelling self.now) }
    {
        self.length
    }
}

impl<'a> Content for EditedFile<'a> {
    ghost bytes = { spelling };

    fn put_in<W: Write>(&self, alloc: Global, writer: &mut W) -> io::Result<()> {
        let view = self.held.view();
        let roads = EditedRoads::of(&view, Edits::All(&self.edits));
        let file = Repacked::of(&view, &roads, self.lists.as_slice(), &self.bounds);
        file.put_in(alloc, writer)
    }
}

// The least bounds after edits that resettle the lists of these edges, and how many bytes the packed file has then.
fn bounds_and_length(
    alloc: Global,
    held: &HeldFile,
    edits: Edits<'_>,
    lists: &[TouchedEdge],
) -> Result<(Vec<u64>, u64), NoMemory>
    requires edits { FitEdits held.now.network edits }
    requires touched { NumbersTouchedBySome held.now (edits_of edits) (numbers_of lists.now) }
    requires sound { IsHierarchy (hierarchy_with_all held.now (edits_of edits) lists.now) }
    ensures bounds { IfOk result (λ made. made.0.items
        ≡ bounds_of (hierarchy_with_all held.now (edits_of edits.entry) lists.now)) }
    ensures length { IfOk result (λ made. made.1
        ≡ length (spelling (hierarchy_with_all held.now (edits_of edits.entry) lists.now))) }
{
    let view = held.view();
    let roads = EditedRoads::of(&view, edits);
    let bounds = bounds_after(alloc, &view, &roads, lists)?;
    let length = Repacked::of(&view, &roads, lists, &bounds).length();
    Ok((bounds, length))
}
