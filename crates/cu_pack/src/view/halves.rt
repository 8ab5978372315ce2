//! The halves of a packed file's shortcuts, by rising edge.

ghost use Rattle.std.specs.Prelude.{◌≡◌, IfOk};
ghost use Rattle.cu_interval.specs.Hierarchies.{IsHierarchy};
ghost use Rattle.cu_pack.specs.Reading.{decoded, edge_start};

use crate::halving::HalvesInFile;
use crate::view::PackedView;
use cu_model::NoMemory;
use std::alloc::Global;

impl<'a> PackedView<'a> {
    /// A finder of this hierarchy's halves by rising edge, which has come to no edge yet. Takes 4 bytes for each node.
    pub fn halves_in_turn(&self, alloc: Global) -> Result<HalvesInFile<'_, 'a>, NoMemory>
        ensures same { IfOk result (λ finder. decoded finder.bytes ≡ self.now) }
        ensures begins { IfOk result (λ finder. edge_start finder.bytes finder.low ≡ 0) }
        ensures sound { IsHierarchy self.now }
    {
        HalvesInFile::of(alloc, &self.sections)
    }
}
