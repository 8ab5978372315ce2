//! Shelves of named files.
ghost use Rattle.std.specs.Prelude.{◌≡◌, ℕ, ◌≤◌, List, [], length, is_some, OnOk, OnErr};
ghost use Rattle.cu_io.specs.Counts.{Rose};
ghost use Rattle.cu_io.specs.declared.shelf.LoadFailed.TheVariants as load;
ghost use Rattle.cu_io.specs.declared.shelf.StoreFailed.TheVariants as store;
ghost use Rattle.cu_io.specs.Holdings.{Holds, HoldsMore, KeepsOthers, OnLoadFault, OnTooLong, OnStoreFault, UnlessLoadFault, UnlessStoreFault};
ghost use Rattle.cu_io.specs.Shelves.{ShelfState};

use crate::content::Content;
use cu_model::NoMemory;
use std::alloc::{AllocError, AllocFailed, Global};
use thiserror::Error;

/// Why a file was not loaded.
#[derive(Clone, Copy, Debug, PartialEq, Eq, Error)]
pub enum LoadFailed {
    /// There is no such file, or it could not be read.
    #[error("the file could not be read")]
    Fault,
    /// The file has more bytes than the shelf's limit.
    #[error("the file is too long")]
    TooLong,
    /// Memory ran out.
    #[error("out of memory")]
    NoMemory,
}

/// Why a file was not stored.
#[derive(Clone, Copy, Debug, PartialEq, Eq, Error)]
pub enum StoreFailed {
    /// The file could not be written.
    #[error("the file could not be written")]
    Fault,
    /// Memory ran out.
    #[error("out of memory")]
    NoMemory,
}

/// Where files lie, each a list of bytes under a name.
pub trait Shelf {
    /// What each name holds, where the shelf tells it, the most bytes of a file that can be loaded, and how many loads
    /// and how many stores of each name met a fault. Each count stops at 2^64 - 1.
    ghost state: { Self → ShelfState };

    /// The most bytes of a file that can be loaded. It never changes.
    fn limit(&self) -> u64
        ensures { result ≡ (state self.now).most };

    /// Replaces `into` by the bytes of the file. The files stay as they are.
    ///
    /// Refused as a `Fault` where there is no such file or it can't be read, which the name's count of loads shows;
    /// then as `TooLong` exactly where the file has more bytes than the limit. `into` is empty after a refusal.
    fn load(&mut self, alloc: Global, name: &str, into: &mut Vec<u8>) -> Result<(), LoadFailed>
        ensures limit { (state self.new).most ≡ (state self.old).most }
        ensures files { (state self.new).held ≡ (state self.old).held }
        ensures stores { (state self.new).store_faults ≡ (state self.old).store_faults }
        ensures ok { OnOk result (Holds (state self.old).held name.now into.new.items) }
        ensures short { OnOk result (length into.new.items ≤ (state self.old).most) }
        ensures long { OnTooLong result (HoldsMore (state self.old).held name.now
            (state self.old).most) }
        ensures empty { OnErr result (into.new.items ≡ []) }
        ensures later { (other : List ℕ) → (state self.old).load_faults other
            ≤ (state self.new).load_faults other }
        ensures counts { UnlessLoadFault result
            ((state self.new).load_faults ≡ (state self.old).load_faults) }
        ensures cause { OnLoadFault result
            (Rose ((state self.old).load_faults name.now)
            ((state self.new).load_faults name.now)) };

    /// Sets the bytes of one file. Every other file stays as it is, after a refusal too.
    ///
    /// Refused as a `Fault` only where the name's count of stores shows it. After a refusal nothing is known of what
    /// the name holds.
    fn store(&mut self, alloc: Global, name: &str, bytes: &[u8]) -> Result<(), StoreFailed>
        ensures limit { (state self.new).most ≡ (state self.old).most }
        ensures loads { (state self.new).load_faults ≡ (state self.old).load_faults }
        ensures tells { is_some (state self.new).held ≡ is_some (state self.old).held }
        ensures ok { OnOk result (Holds (state self.new).held name.now bytes.now) }
        ensures others { KeepsOthers (state self.old).held (state self.new).held name.now }
        ensures later { (other : List ℕ) → (state self.old).store_faults other
            ≤ (state self.new).store_faults other }
        ensures counts { UnlessStoreFault result
            ((state self.new).store_faults ≡ (state self.old).store_faults) }
        ensures cause { OnStoreFault result
            (Rose ((state self.old).store_faults name.now)
            ((state self.new).store_faults name.now)) }
    {
        self.store_content(alloc, name, &bytes)
    }

    /// [`Shelf::store`] of bytes that needn't be in memory all at once.
    fn store_content<C: Content>(
        &mut self,
        alloc: Global,
        name: &str,
        content: &C,
    ) -> Result<(), StoreFailed>
        ensures limit { (state self.new).most ≡ (state self.old).most }
        ensures loads { (state self.new).load_faults ≡ (state self.old).load_faults }
        ensures tells { is_some (state self.new).held ≡ is_some (state self.old).held }
        ensures ok { OnOk result (Holds (state self.new).held name.now (C.bytes content.now)) }
        ensures others { KeepsOthers (state self.old).held (state self.new).held name.now }
        ensures later { (other : List ℕ) → (state self.old).store_faults other
            ≤ (state self.new).store_faults other }
        ensures counts { UnlessStoreFault result
            ((state self.new).store_faults ≡ (state self.old).store_faults) }
        ensures cause { OnStoreFault result
            (Rose ((state self.old).store_faults name.now)
            ((state self.new).store_faults name.now)) };
}

impl From<AllocError> for LoadFailed {
    ghost from_gives = { λ _ e. e ≡ load.NoMemory };

    fn from(_error: AllocError) -> LoadFailed {
        LoadFailed::NoMemory
    }
}

impl From<AllocError> for StoreFailed {
    ghost from_gives = { λ _ e. e ≡ store.NoMemory };

    fn from(_error: AllocError) -> StoreFailed {
        StoreFailed::NoMemory
    }
}

impl From<NoMemory> for StoreFailed {
    ghost from_gives = { λ _ e. e ≡ store.NoMemory };

    fn from(_error: NoMemory) -> StoreFailed {
        StoreFailed::NoMemory
    }
}

impl<T: Drop> From<AllocFailed<T>> for StoreFailed {
    ghost from_gives = { λ _ e. e ≡ store.NoMemory };

    fn from(_error: AllocFailed<T>) -> StoreFailed {
        StoreFailed::NoMemory
    }
}
