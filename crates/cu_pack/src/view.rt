//! A hierarchy over the bytes of its packed file.

ghost use Rattle.std.specs.Prelude.{◌≡◌};
ghost use Rattle.cu_interval.specs.Hierarchies.{HierarchyValue};
ghost use Rattle.cu_pack.specs.Checks.{Spells, sealed};
ghost use Rattle.cu_pack.specs.Reading.{decoded};

use crate::cutting::Sections;
use crate::ways_in_file::WaysInFile;
use std::marker::Model;

pub mod copies;
mod halves;
mod hierarchy;
mod in_force;
mod parts;
mod roads;

/// The hierarchy whose packed file some borrowed bytes are. Contracts see the hierarchy.
#[derive(Drop)]
pub struct PackedView<'a> {
    sections: Sections<'a>,
}

impl<'a> Model for PackedView<'a> {
    ghost use Rattle.cu_interval.specs.Hierarchies.{HierarchyValue};
    ghost use Rattle.cu_pack.specs.Checks.{Spells};
    ghost use Rattle.cu_pack.specs.Reading.{decoded};

    ghost Value = { HierarchyValue };

    ghost view = { λ view. decoded view.sections };

    ghost invariant = { λ view. Spells view.sections (decoded view.sections) };
}

impl<'a> PackedView<'a> {
    /// The view of bytes that are a hierarchy's packed file. They are borrowed, and nothing of them is checked. Takes
    /// no memory.
    pub fn adopt(bytes: &'a [u8]) -> PackedView<'a>
        requires spelled { (h : HierarchyValue) × Spells bytes.now h }
        ensures spells { Spells bytes.now result }
    {
        PackedView::adopt_unsealed(bytes)
    }

    /// The view of bytes that are a hierarchy's packed file but for the last 32, which needn't be its digest. They are
    /// borrowed, and nothing of them is checked. Takes no memory.
    pub fn adopt_unsealed(bytes: &'a [u8]) -> PackedView<'a>
        requires spelled { (h : HierarchyValue) × Spells (sealed bytes.now) h }
        ensures spells { Spells (sealed bytes.now) result }
    {
        PackedView {
            sections: Sections::unsealed(bytes),
        }
    }

    /// The view of the sections of a hierarchy's packed file.
    pub(crate) fn of(sections: Sections<'a>) -> PackedView<'a>
        requires spelled { Spells sections (decoded sections) }
        ensures said { result ≡ decoded sections.entry }
    {
        PackedView { sections }
    }

    // The hierarchy of its sections alone.
    fn ways_in_file(&self) -> WaysInFile<'_, 'a>
        ensures same { result ≡ self.now }
    {
        WaysInFile::of(&self.sections)
    }
}
