//! A source in memory.
ghost use Rattle.std.specs.Prelude.{◌≡◌, ◌-◌, ◌^◌, ◌<◌, ◌≤◌, min, length, take, Some, is_some, is_err, IfOk, OnOk, OnErr, if◌then◌else◌};
ghost use Rattle.cu_io.specs.Counts.{Rose, one_more};
ghost use Rattle.cu_io.specs.Memory.{is_failing, after_call};
ghost use Rattle.cu_io.specs.Transfers.{Moves};

use super::calls::Calls;
use crate::source::{Source, SourceFailed};
use std::marker::Model;

/// A source of the bytes of a list. It tells them, and its reads fail exactly where they are told to.
#[derive(Drop)]
pub struct MemorySource {
    bytes: Vec<u8>,
    taken: usize,
    most: usize,
    faults: u64,
    calls: Calls,
}

impl Model for MemorySource {
    ghost use Rattle.std.specs.Prelude.{◌<◌, ◌≤◌, length, drop};
    ghost use Rattle.cu_io.specs.Memory.{MemorySourceState};

    ghost Value = { MemorySourceState };

    ghost view = { λ s. record {
      left = drop s.taken s.bytes.items;
      most = s.most;
      faults = s.faults;
      calls = s.calls;
    } };

    ghost invariant = { λ s. (s.taken ≤ length s.bytes.items) × (0 < s.most) };
}

impl MemorySource {
    /// A source of these bytes. Its reads are numbered from 0, and those named in `fails` fail. Takes no memory.
    pub fn of(bytes: Vec<u8>, fails: Vec<u64>) -> MemorySource
        ensures left { result.left ≡ bytes.items }
        ensures most { result.most ≡ 2 ^ 64 - 1 }
        ensures faults { result.faults ≡ 0 }
        ensures calls { result.calls ≡ record { fails = fails.items; next = 0 } }
    {
        MemorySource {
            bytes,
            taken: 0,
            most: usize::MAX,
            faults: 0,
            calls: Calls::of(fails),
        }
    }

    /// The same source, of which each read gives at most this many bytes. Takes no memory.
    pub fn cut(self, most: usize) -> MemorySource
        requires { 0 < most }
        ensures { result ≡ record self { most = most } }
    {
        MemorySource { most, ..self }
    }
}

impl Source for MemorySource {
    ghost state = { λ s. record { left = Some s.left; faults = s.faults } };

    fn read(&mut self, into: &mut [u8]) -> Result<usize, SourceFailed>
        requires { 0 < length into.old }
        ensures within { IfOk result (λ n. n ≤ length into.new) }
        ensures moves { IfOk result (Moves (Some self.old.left) (Some self.new.left) into.new) }
        ensures err { OnErr result (Some self.new.left ≡ Some self.old.left) }
        ensures tells { is_some (Some self.new.left) ≡ is_some (Some self.old.left) }
        ensures later { self.old.faults ≤ self.new.faults }
        ensures cause { OnErr result (Rose self.old.faults self.new.faults) }
        ensures quiet { OnOk result (self.new.faults ≡ self.old.faults) }
        ensures fails { is_err result ≡ is_failing self.old.calls }
        ensures most { IfOk result (λ n. n
            ≡ min (length self.old.left) (min (length into.new) self.old.most)) }
        ensures faults { self.new.faults ≡
            (if is_failing self.old.calls then one_more self.old.faults else self.old.faults) }
        ensures cut { self.new.most ≡ self.old.most }
        ensures calls { self.new.calls ≡ after_call self.old.calls }
    {
        if self.calls.take() {
            self.faults = self.faults.saturating_add(1);
            return Err(SourceFailed);
        }
        let room = into.len().min(self.most);
        let count = copy_front(&self.bytes[self.taken..], into, room);
        self.taken += count;
        Ok(count)
    }
}

// Copies as many bytes as there are, up to `most`, and answers how many.
pub(crate) fn copy_front(from: &[u8], into: &mut [u8], most: usize) -> usize
    requires { most ≤ length into.old }
    ensures count { result ≡ min (length from.now) most }
    ensures front { take result into.new ≡ take result from.now }
    ensures same { length into.new ≡ length into.old }
{
    let count = from.len().min(most);
    into[..count].copy_from_slice(&from[..count]);
    count
}
