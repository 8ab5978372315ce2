//! A source, a sink and a shelf that never fail: what a program answers over them has no fault for its cause.
ghost use Rattle.std.specs.Prelude.{◌≡◌, ◌<◌, ◌≤◌, ℕ, List, [], None, Some, IfOk, IfSome, OnOk, OnErr, is_some, length, min, take};
ghost use Rattle.cu_io.specs.Counts.{Rose};
ghost use Rattle.cu_io.specs.Transfers.{Appends, Moves};
ghost use Rattle.cu_io.specs.Sure.{file_or_empty, sure_limit, sure_sink, sure_source};

use crate::content::{Content, gather};
use crate::memory::copy_front;
use crate::shelf::{LoadFailed, Shelf, StoreFailed};
use crate::sink::{Sink, SinkFailed};
use crate::source::{Source, SourceFailed};
use std::alloc::Global;
use std::collections::BTreeMap;
use std::marker::Model;

/// A source of the bytes of a list. It tells them, no read fails, and a read gives all that there is room for. Contracts
/// see the bytes left.
#[derive(Drop)]
pub struct SureSource {
    bytes: Vec<u8>,
    taken: usize,
}

impl Model for SureSource {
    ghost use Rattle.std.specs.Prelude.{ℕ, ◌≤◌, List, drop, length};

    ghost Value = { List ℕ };

    ghost view = { λ s. drop s.taken s.bytes.items };

    ghost invariant = { λ s. s.taken ≤ length s.bytes.items };
}

impl SureSource {
    /// A source of these bytes. Takes no memory.
    pub fn of(bytes: Vec<u8>) -> SureSource
        ensures { result ≡ bytes.items }
    {
        SureSource { bytes, taken: 0 }
    }
}

impl Source for SureSource {
    ghost state = { sure_source };

    fn read(&mut self, into: &mut [u8]) -> Result<usize, SourceFailed>
        requires { 0 < length into.old }
        ensures within { IfOk result (λ n. n ≤ length into.new) }
        ensures moves { IfOk result (Moves (sure_source self.old).left
            (sure_source self.new).left into.new) }
        ensures err { OnErr result ((sure_source self.new).left ≡ (sure_source self.old).left) }
        ensures tells { is_some (sure_source self.new).left ≡ is_some (sure_source self.old).left }
        ensures later { (sure_source self.old).faults ≤ (sure_source self.new).faults }
        ensures cause { OnErr result (Rose (sure_source self.old).faults
            (sure_source self.new).faults) }
        ensures quiet { OnOk result ((sure_source self.new).faults
            ≡ (sure_source self.old).faults) }
        ensures whole { IfOk result (λ n. n ≡ min (length self.old) (length into.new)) }
    {
        let room = into.len();
        let count = copy_front(&self.bytes[self.taken..], into, room);
        self.taken += count;
        Ok(count)
    }
}

/// A sink that takes every piece whole and keeps nothing. It tells no bytes, and no write or flush fails.
#[derive(Drop)]
pub struct SureSink {}

impl SureSink {
    /// A sink. Takes no memory.
    pub fn new() -> SureSink {
        SureSink {}
    }
}

impl Sink for SureSink {
    ghost state = { λ _. sure_sink };

    fn write(&mut self, piece: &[u8]) -> Result<usize, SinkFailed>
        ensures some { IfOk result (λ n. 0 < length piece.now → 0 < n) }
        ensures within { IfOk result (λ n. n ≤ length piece.now) }
        ensures appends { IfOk result (λ n. Appends sure_sink.written sure_sink.written (take n piece.now)) }
        ensures err { OnErr result (sure_sink.written ≡ sure_sink.written) }
        ensures tells { is_some sure_sink.written ≡ is_some sure_sink.written }
        ensures rises { sure_sink.flushed ≤ sure_sink.flushed }
        ensures bounded { IfSome sure_sink.written (λ bytes. sure_sink.flushed ≤ length bytes) }
        ensures later { sure_sink.faults ≤ sure_sink.faults }
        ensures cause { OnErr result (Rose sure_sink.faults sure_sink.faults) }
        ensures quiet { OnOk result (sure_sink.faults ≡ sure_sink.faults) }
        ensures whole { IfOk result (λ n. n ≡ length piece.now) }
    {
        Ok(piece.len())
    }

    fn flush(&mut self) -> Result<(), SinkFailed> {
        Ok(())
    }
}

/// A shelf of files in memory. It tells them, and no load or store meets a fault: a name that nobody stored holds the
/// empty file.
#[derive(Drop)]
pub struct SureShelf {
    files: BTreeMap<String, Vec<u8>>,
    limit: u64,
}

impl SureShelf {
    /// A shelf whose files are all empty, of which none with more than `limit` bytes will be loaded. Takes no memory.
    pub fn new(alloc: Global, limit: u64) -> SureShelf
        ensures files { (name : List ℕ) → file_or_empty result name ≡ [] }
        ensures limit { sure_limit result ≡ limit }
    {
        SureShelf {
            files: BTreeMap::new(alloc),
            limit,
        }
    }
}

impl Shelf for SureShelf {
    ghost state = { λ s. record {
      held = Some (λ name. Some (file_or_empty s name));
      most = sure_limit s;
      load_faults = λ _. 0;
      store_faults = λ _. 0;
    } };

    fn limit(&self) -> u64 {
        self.limit
    }

    fn load(&mut self, _alloc: Global, name: &str, into: &mut Vec<u8>) -> Result<(), LoadFailed> {
        into.clear();
        let Some(file) = self.files.get(name) else {
            return Ok(());
        };
        if file.len() as u64 > self.limit {
            return Err(LoadFailed::TooLong);
        }
        into.extend_from_slice(file.as_slice())?;
        Ok(())
    }

    fn store_content<C: Content>(
        &mut self,
        alloc: Global,
        name: &str,
        content: &C,
    ) -> Result<(), StoreFailed> {
        let key = String::from_str(alloc, name)?;
        let file = gather(alloc, content)?;
        self.files.insert(key, file)?;
        Ok(())
    }
}
