//! The least bounds of a packed file: each that is kept is its list's.

ghost use Rattle.std.specs.Prelude.{◌*◌, IfOk};
ghost use Rattle.std.specs.Option.{option_map};
ghost use Rattle.cu_interval.specs.Shortcuts.{number_of};
ghost use Rattle.cu_pack.specs.Checks.{FindsFirst, IsWrongBound};
ghost use Rattle.cu_pack.specs.Reading.{counts_in};
ghost use Rattle.cu_pack.specs.Steps.Fronts.{PassesIn};

use crate::bounds_in_file::BoundsInFile;
use crate::cutting::Sections;
use crate::halving::HalvesInFile;
use crate::ways_in_file::WaysInFile;
use cu_bounds::first_wrong_bound_by;
use cu_interval::Shortcut;
use cu_model::NoMemory;
use std::alloc::Global;

/// The least list whose kept number isn't its least bound. Takes 4 bytes for each node and each profile.
pub fn wrong_bound(alloc: Global, sections: &Sections<'_>) -> Result<Option<Shortcut>, NoMemory>
    requires passes { PassesIn 2 sections.now }
    ensures first { IfOk result (λ found. FindsFirst (IsWrongBound sections.now)
        (2 * (counts_in sections.now).edges) (option_map number_of found)) }
{
    let ways = WaysInFile::of(sections);
    let kept = BoundsInFile::of(sections);
    let mut finder = HalvesInFile::of(alloc, sections)?;
    first_wrong_bound_by(alloc, &ways, &kept, &mut finder)
}
