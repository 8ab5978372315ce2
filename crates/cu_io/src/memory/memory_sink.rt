//! A sink in memory.
ghost use Rattle.std.specs.Prelude.{◌≡◌, ◌<◌, ◌≤◌, [], min, length, take, Some, is_some, is_err, IfOk, OnOk, OnErr, IfSome, if◌then◌else◌};
ghost use Rattle.cu_io.specs.Counts.{Rose, one_more};
ghost use Rattle.cu_io.specs.Memory.{is_failing, is_refusing, after_call, space};
ghost use Rattle.cu_io.specs.Transfers.{Appends};

use super::calls::Calls;
use crate::sink::{Sink, SinkFailed};
use cu_model::NoMemory;
use std::alloc::Global;
use std::marker::Model;

/// A sink with room for so many bytes. It tells what was written and flushed, and its writes and flushes fail exactly
/// where they are told to, or where a piece finds no room.
#[derive(Drop)]
pub struct MemorySink {
    bytes: Vec<u8>,
    flushed: usize,
    room: usize,
    faults: u64,
    calls: Calls,
}

impl Model for MemorySink {
    ghost use Rattle.std.specs.Prelude.{◌≤◌, vec_len, vec_capacity};
    ghost use Rattle.cu_io.specs.Memory.{MemorySinkState};

    ghost Value = { MemorySinkState };

    ghost view = { λ s. record {
      written = s.bytes.items;
      flushed = s.flushed;
      room = s.room;
      faults = s.faults;
      calls = s.calls;
    } };

    ghost invariant = { λ s. (vec_len s.bytes ≤ s.room) × (s.room ≤ vec_capacity s.bytes)
        × (s.flushed ≤ vec_len s.bytes) };
}

impl MemorySink {
    /// A sink with room for `room` bytes. Its writes and flushes are numbered together from 0, and those named in
    /// `fails` fail. A write takes what finds room.
    pub fn new(alloc: Global, room: usize, fails: Vec<u64>) -> Result<MemorySink, NoMemory>
        ensures written { IfOk result (λ s. s.written ≡ []) }
        ensures flushed { IfOk result (λ s. s.flushed ≡ 0) }
        ensures room { IfOk result (λ s. s.room ≡ room) }
        ensures faults { IfOk result (λ s. s.faults ≡ 0) }
        ensures calls { IfOk result (λ s. s.calls ≡ record { fails = fails.items; next = 0 }) }
    {
        let bytes = Vec::with_capacity(alloc, room)?;
        Ok(MemorySink {
            bytes,
            flushed: 0,
            room,
            faults: 0,
            calls: Calls::of(fails),
        })
    }

    /// The bytes written. Takes no memory.
    pub fn bytes(&self) -> &[u8]
        ensures { result.now ≡ self.now.written }
    {
        self.bytes.as_slice()
    }
}

impl Sink for MemorySink {
    ghost state = { λ s. record {
      written = Some s.written;
      flushed = s.flushed;
      faults = s.faults;
    } };

    fn write(&mut self, piece: &[u8]) -> Result<usize, SinkFailed>
        ensures some { IfOk result (λ n. 0 < length piece.now → 0 < n) }
        ensures within { IfOk result (λ n. n ≤ length piece.now) }
        ensures appends { IfOk result (λ n. Appends (Some self.old.written) (Some self.new.written)
            (take n piece.now)) }
        ensures err { OnErr result (Some self.new.written ≡ Some self.old.written) }
        ensures tells { is_some (Some self.new.written) ≡ is_some (Some self.old.written) }
        ensures rises { self.old.flushed ≤ self.new.flushed }
        ensures bounded { IfSome (Some self.new.written)
            (λ bytes. self.new.flushed ≤ length bytes) }
        ensures later { self.old.faults ≤ self.new.faults }
        ensures cause { OnErr result (Rose self.old.faults self.new.faults) }
        ensures quiet { OnOk result (self.new.faults ≡ self.old.faults) }
        ensures fails { is_err result ≡ is_refusing self.old (length piece.now) }
        ensures most { IfOk result (λ n. n ≡ min (length piece.now) (space self.old)) }
        ensures faults { self.new.faults ≡
            (if is_err result then one_more self.old.faults else self.old.faults) }
        ensures same { self.new.flushed ≡ self.old.flushed }
        ensures room { self.new.room ≡ self.old.room }
        ensures calls { self.new.calls ≡ after_call self.old.calls }
    {
        let fails = self.calls.take();
        let count = piece.len().min(self.room - self.bytes.len());
        if fails || (count == 0 && !piece.is_empty()) {
            self.faults = self.faults.saturating_add(1);
            return Err(SinkFailed);
        }
        match self.bytes.extend_from_slice(&piece[..count]) {
            Ok(()) => Ok(count),
            Err(_) => unreachable!(),
        }
    }

    fn flush(&mut self) -> Result<(), SinkFailed>
        ensures all { OnOk result (IfSome (Some self.new.written)
            (λ bytes. length bytes ≤ self.new.flushed)) }
        ensures same { Some self.new.written ≡ Some self.old.written }
        ensures rises { self.old.flushed ≤ self.new.flushed }
        ensures bounded { IfSome (Some self.new.written)
            (λ bytes. self.new.flushed ≤ length bytes) }
        ensures later { self.old.faults ≤ self.new.faults }
        ensures cause { OnErr result (Rose self.old.faults self.new.faults) }
        ensures quiet { OnOk result (self.new.faults ≡ self.old.faults) }
        ensures failed { OnErr result (self.new.flushed ≡ self.old.flushed) }
        ensures fails { is_err result ≡ is_failing self.old.calls }
        ensures faults { self.new.faults ≡
            (if is_err result then one_more self.old.faults else self.old.faults) }
        ensures room { self.new.room ≡ self.old.room }
        ensures calls { self.new.calls ≡ after_call self.old.calls }
    {
        if self.calls.take() {
            self.faults = self.faults.saturating_add(1);
            return Err(SinkFailed);
        }
        self.flushed = self.bytes.len();
        Ok(())
    }
}
