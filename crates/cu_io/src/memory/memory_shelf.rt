//! A shelf in memory.
ghost use Rattle.std.specs.Prelude.{◌≡◌, ◌≢◌, ℕ, ◌+◌, ◌≤◌, List, [], length, None, Some, true, false, ◌||◌, is_none, is_some, OnOk, OnErr};
ghost use Rattle.cu_io.specs.Counts.{Rose};
ghost use Rattle.cu_io.specs.Holdings.{Holds, HoldsMore, KeepsOthers, OnLoadFault, OnTooLong, OnStoreFault, UnlessLoadFault, UnlessStoreFault};
ghost use Rattle.cu_io.specs.Memory.{is_failing, after_call};
ghost use Rattle.cu_io.specs.MemoryShelves.{file_under, times_named, shelf_limit, failed_loads_of, failed_stores_of, shelf_calls};

use super::calls::Calls;
use crate::content::{Content, gather};
use crate::shelf::{LoadFailed, Shelf, StoreFailed};
use std::alloc::{AllocError, Global};
use std::collections::BTreeMap;

/// A shelf of files in memory. It tells its names and bytes, and its loads and stores fail exactly where they are told
/// to, or where a load names a file that isn't there. A name's two counts are how many of its loads and of its stores
/// met a fault; where memory for this is wanting, the call answers that memory ran out.
#[derive(Drop)]
pub struct MemoryShelf {
    files: BTreeMap<String, Vec<u8>>,
    limit: u64,
    failed_loads: Vec<String>,
    failed_stores: Vec<String>,
    calls: Calls,
}

impl MemoryShelf {
    /// A shelf with no files, of which none with more than `limit` bytes will be loaded. Its loads and stores are
    /// numbered together from 0, and those named in `fails` fail. Takes no memory.
    pub fn new(alloc: Global, limit: u64, fails: Vec<u64>) -> MemoryShelf
        ensures files { (name : List ℕ) → file_under result name ≡ None }
        ensures limit { shelf_limit result ≡ limit }
        ensures loads { (name : List ℕ) → failed_loads_of result name ≡ 0 }
        ensures stores { (name : List ℕ) → failed_stores_of result name ≡ 0 }
        ensures calls { shelf_calls result ≡ record { fails = fails.items; next = 0 } }
    {
        MemoryShelf {
            files: BTreeMap::new(alloc),
            limit,
            failed_loads: Vec::new(alloc),
            failed_stores: Vec::new(alloc),
            calls: Calls::of(fails),
        }
    }
}

// Adds a name to a list.
fn note(alloc: Global, names: &mut Vec<String>, name: &str) -> Result<(), AllocError>
    ensures later { (other : List ℕ) → times_named names.old.items other
        ≤ times_named names.new.items other }
    ensures others { (other : List ℕ) → other ≢ name.now → times_named names.new.items other
        ≡ times_named names.old.items other }
    ensures added { OnOk result (times_named names.new.items name.now
        ≡ times_named names.old.items name.now + 1) }
    ensures same { OnErr result (names.new.items ≡ names.old.items) }
{
    let name = String::from_str(alloc, name)?;
    names.push(name)?;
    Ok(())
}

impl Shelf for MemoryShelf {
    ghost state = { λ s. record {
      held = Some (file_under s);
      most = shelf_limit s;
      load_faults = failed_loads_of s;
      store_faults = failed_stores_of s;
    } };

    fn limit(&self) -> u64
        ensures { result ≡ shelf_limit self.now }
    {
        self.limit
    }

    fn load(&mut self, alloc: Global, name: &str, into: &mut Vec<u8>) -> Result<(), LoadFailed>
        ensures limit { shelf_limit self.new ≡ shelf_limit self.old }
        ensures files { Some (file_under self.new) ≡ Some (file_under self.old) }
        ensures stores { failed_stores_of self.new ≡ failed_stores_of self.old }
        ensures ok { OnOk result (Holds (Some (file_under self.old)) name.now into.new.items) }
        ensures short { OnOk result (length into.new.items ≤ shelf_limit self.old) }
        ensures long { OnTooLong result (HoldsMore (Some (file_under self.old)) name.now
            (shelf_limit self.old)) }
        ensures empty { OnErr result (into.new.items ≡ []) }
        ensures later { (other : List ℕ) → failed_loads_of self.old other
            ≤ failed_loads_of self.new other }
        ensures counts { UnlessLoadFault result
            (failed_loads_of self.new ≡ failed_loads_of self.old) }
        ensures cause { OnLoadFault result
            (Rose (failed_loads_of self.old name.now) (failed_loads_of self.new name.now)) }
        ensures once { OnLoadFault result
            (failed_loads_of self.new name.now ≡ failed_loads_of self.old name.now + 1) }
        ensures others { (other : List ℕ) → other ≢ name.now → failed_loads_of self.new other
            ≡ failed_loads_of self.old other }
        ensures due { OnLoadFault result ((is_failing (shelf_calls self.old) || is_none
            (file_under self.old name.now)) ≡ true) }
        ensures named { OnOk result (is_failing (shelf_calls self.old) ≡ false) }
        ensures named_long { OnTooLong result (is_failing (shelf_calls self.old) ≡ false) }
        ensures calls { shelf_calls self.new ≡ after_call (shelf_calls self.old) }
    {
        into.clear();
        let file = if self.calls.take() {
            None
        } else {
            self.files.get(name)
        };
        let Some(file) = file else {
            note(alloc, &mut self.failed_loads, name)?;
            return Err(LoadFailed::Fault);
        };
        if file.len() as u64 > self.limit {
            return Err(LoadFailed::TooLong);
        }
        into.extend_from_slice(file.as_slice())?;
        Ok(())
    }

    fn store(&mut self, alloc: Global, name: &str, bytes: &[u8]) -> Result<(), StoreFailed>
        ensures limit { shelf_limit self.new ≡ shelf_limit self.old }
        ensures loads { failed_loads_of self.new ≡ failed_loads_of self.old }
        ensures tells { is_some (Some (file_under self.new))
            ≡ is_some (Some (file_under self.old)) }
        ensures ok { OnOk result (Holds (Some (file_under self.new)) name.now bytes.now) }
        ensures others { KeepsOthers (Some (file_under self.old))
            (Some (file_under self.new)) name.now }
        ensures later { (other : List ℕ) → failed_stores_of self.old other
            ≤ failed_stores_of self.new other }
        ensures counts { UnlessStoreFault result
            (failed_stores_of self.new ≡ failed_stores_of self.old) }
        ensures cause { OnStoreFault result
            (Rose (failed_stores_of self.old name.now) (failed_stores_of self.new name.now)) }
        ensures once { OnStoreFault result
            (failed_stores_of self.new name.now ≡ failed_stores_of self.old name.now + 1) }
        ensures kept { (other : List ℕ) → other ≢ name.now → failed_stores_of self.new other
            ≡ failed_stores_of self.old other }
        ensures due { OnStoreFault result (is_failing (shelf_calls self.old) ≡ true) }
        ensures named { OnOk result (is_failing (shelf_calls self.old) ≡ false) }
        ensures calls { shelf_calls self.new ≡ after_call (shelf_calls self.old) }
    {
        self.store_content(alloc, name, &bytes)
    }

    fn store_content<C: Content>(
        &mut self,
        alloc: Global,
        name: &str,
        content: &C,
    ) -> Result<(), StoreFailed>
        ensures limit { shelf_limit self.new ≡ shelf_limit self.old }
        ensures loads { failed_loads_of self.new ≡ failed_loads_of self.old }
        ensures tells { is_some (Some (file_under self.new))
            ≡ is_some (Some (file_under self.old)) }
        ensures ok { OnOk result (Holds (Some (file_under self.new)) name.now (C.bytes content.now)) }
        ensures others { KeepsOthers (Some (file_under self.old))
            (Some (file_under self.new)) name.now }
        ensures later { (other : List ℕ) → failed_stores_of self.old other
            ≤ failed_stores_of self.new other }
        ensures counts { UnlessStoreFault result
            (failed_stores_of self.new ≡ failed_stores_of self.old) }
        ensures cause { OnStoreFault result
            (Rose (failed_stores_of self.old name.now) (failed_stores_of self.new name.now)) }
        ensures once { OnStoreFault result
            (failed_stores_of self.new name.now ≡ failed_stores_of self.old name.now + 1) }
        ensures kept { (other : List ℕ) → other ≢ name.now → failed_stores_of self.new other
            ≡ failed_stores_of self.old other }
        ensures due { OnStoreFault result (is_failing (shelf_calls self.old) ≡ true) }
        ensures named { OnOk result (is_failing (shelf_calls self.old) ≡ false) }
        ensures calls { shelf_calls self.new ≡ after_call (shelf_calls self.old) }
    {
        if self.calls.take() {
            note(alloc, &mut self.failed_stores, name)?;
            return Err(StoreFailed::Fault);
        }
        let key = String::from_str(alloc, name)?;
        let file = gather(alloc, content)?;
        self.files.insert(key, file)?;
        Ok(())
    }
}
