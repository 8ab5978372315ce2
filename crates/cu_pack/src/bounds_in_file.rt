//! The least bounds that a packed file of version 2 keeps.

ghost use Rattle.std.specs.Prelude.{◌≡◌, ◌*◌};
ghost use Rattle.cu_pack.specs.Checks.{IsIn};
ghost use Rattle.cu_pack.specs.Reading.{bound_in, counts_in};

use crate::cutting::Sections;
use cu_bounds::KeptBounds;
use std::marker::Model;

/// The numbers that a file of version 2 keeps of its lists. Contracts see the bytes.
#[derive(Drop)]
pub struct BoundsInFile<'a, 'b> {
    sections: &'a Sections<'b>,
}

impl<'a, 'b> Model for BoundsInFile<'a, 'b> {
    ghost use Rattle.std.specs.Prelude.{ℕ, List};
    ghost use Rattle.cu_pack.specs.Checks.{IsIn};

    ghost Value = { List ℕ };

    ghost view = { λ bounds. bounds.sections.now };

    ghost invariant = { λ bounds. IsIn 2 bounds.sections.now };
}

impl<'a, 'b> BoundsInFile<'a, 'b> {
    /// The bounds of these sections.
    pub fn of(sections: &'a Sections<'b>) -> BoundsInFile<'a, 'b>
        requires version { IsIn 2 sections.now }
        ensures same { result ≡ sections.now }
    {
        BoundsInFile { sections }
    }
}

impl<'a, 'b> KeptBounds for BoundsInFile<'a, 'b> {
    ghost kept = { λ bytes list. bound_in bytes list };

    ghost lists = { λ bytes. 2 * (counts_in bytes).edges };

    fn kept(&self, list: u32) -> u64 {
        self.sections.bound(list)
    }
}
