//! A hierarchy over the sections of a packed file, whatever its version and whatever stands in the bounds' place.

ghost use Rattle.std.specs.Prelude.{◌≡◌};
ghost use Rattle.cu_pack.specs.Reading.{decoded};
ghost use Rattle.cu_pack.specs.Steps.Fronts.{SpellsSections};

use crate::cutting::Sections;
use std::marker::Model;

mod hierarchy;
mod roads;

/// The hierarchy that the sections of a file say. Contracts see the hierarchy.
#[derive(Drop)]
pub struct WaysInFile<'a, 'b> {
    sections: &'a Sections<'b>,
}

impl<'a, 'b> Model for WaysInFile<'a, 'b> {
    ghost use Rattle.cu_interval.specs.Hierarchies.{HierarchyValue};
    ghost use Rattle.cu_pack.specs.Reading.{decoded};
    ghost use Rattle.cu_pack.specs.Steps.Fronts.{SpellsSections};

    ghost Value = { HierarchyValue };

    ghost view = { λ ways. decoded ways.sections.now };

    ghost invariant = { λ ways. SpellsSections ways.sections.now (decoded ways.sections.now) };
}

impl<'a, 'b> WaysInFile<'a, 'b> {
    /// The hierarchy of these sections.
    pub fn of(sections: &'a Sections<'b>) -> WaysInFile<'a, 'b>
        requires spelled { SpellsSections sections.now (decoded sections.now) }
        ensures said { result ≡ decoded sections.now }
    {
        WaysInFile { sections }
    }
}
