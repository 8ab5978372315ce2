//! Relaxers that tell their calls.

ghost use Rattle.std.specs.Prelude.{◌≡◌, ◌≤◌, ◌<◌, ◌+◌, ◌^◌, ℕ, [], Some, IfOk, length, option_map};
ghost use Rattle.cu_interval.specs.Calls.{Adds, IfAt};
ghost use Rattle.cu_interval.specs.Hierarchies.{IsHierarchy};
ghost use Rattle.cu_interval.specs.LeastBounds.{far, least_bound};
ghost use Rattle.cu_interval.specs.Unpacking.{relaxed};
ghost use Rattle.cu_unpack.specs.Told.{told_after};

use cu_interval::{Call, Dir, Relaxed, Relaxer};
use cu_model::NoMemory;
use std::alloc::Global;
use std::marker::Model;

/// A relaxer that tells its calls, as long as they find room. Contracts see the hierarchy, the calls and the room.
#[derive(Drop)]
pub struct Listed<R: Relaxer + Drop> {
    inner: R,
    list: CallList,
}

impl<R: Relaxer + Drop> Model for Listed<R> {
    ghost use Rattle.cu_unpack.specs.Told.{ListedValue};

    ghost Value = { ListedValue };

    ghost view = { λ listed. record {
      hierarchy = R.hierarchy listed.inner;
      calls = listed.list.calls;
      room = listed.list.room;
    } };
}

impl<R: Relaxer + Drop> Listed<R> {
    /// This relaxer, with room for so many calls and none told yet. It is dropped where there is no memory.
    pub fn new(alloc: Global, inner: R, room: u32) -> Result<Listed<R>, NoMemory>
        ensures { IfOk result (λ listed. listed ≡ record {
          hierarchy = R.hierarchy inner;
          calls = Some [];
          room = room;
        }) }
    {
        let list = CallList::new(alloc, room as usize)?;
        Ok(Listed { inner, list })
    }

    /// The calls so far, in order. None exactly where there were more than its room. Takes no memory.
    pub fn calls(&self) -> Option<&[Call]>
        ensures { option_map (λ calls. calls.now) result ≡ self.now.calls }
    {
        self.list.told()
    }
}

impl<R: Relaxer + Drop> Relaxer for Listed<R> {
    ghost hierarchy = { λ listed. listed.hierarchy };

    ghost calls = { λ listed. listed.calls };

    fn relax(&mut self, edge: u32, dir: Dir, at: u64) -> Relaxed
        requires edge { edge < length self.old.hierarchy.edges }
        requires time { at < 2 ^ 61 }
        ensures answer { result ≡ relaxed self.old.hierarchy edge dir at }
        ensures near { IfAt result (λ (arrival : ℕ). (at ≤ arrival) × (arrival ≤ at + 2 ^ 38)) }
        ensures sound { IsHierarchy self.old.hierarchy }
        ensures stays { self.new.hierarchy ≡ self.old.hierarchy }
        ensures told { Adds self.old.calls self.new.calls
            (record { edge = edge; dir = dir; second = at }) }
        ensures listed { self.new.calls ≡ told_after self.old.calls self.old.room
            (record { edge = edge; dir = dir; second = at }) }
        ensures room { self.new.room ≡ self.old.room }
    {
        let answer = self.inner.relax(edge, dir, at);
        self.list.note(Call {
            edge,
            dir,
            second: at,
        });
        answer
    }

    fn least(&self, edge: u32, dir: Dir) -> u64
        requires edge { edge < length self.now.hierarchy.edges }
        ensures bound { result ≡ least_bound self.now.hierarchy edge dir }
        ensures most { result ≤ far }
    {
        self.inner.least(edge, dir)
    }
}

// Calls, as long as they find room.
#[derive(Drop)]
struct CallList {
    calls: Vec<Call>,
    room: usize,
    passed: bool,
}

impl Model for CallList {
    ghost use Rattle.std.specs.Prelude.{◌≤◌, vec_len, vec_capacity};
    ghost use Rattle.cu_unpack.specs.Told.{ToldCalls, told_unless};

    ghost Value = { ToldCalls };

    ghost view = { λ list. record {
      calls = told_unless list.passed list.calls.items;
      room = list.room;
    } };

    ghost invariant = { λ list. (vec_len list.calls ≤ list.room)
        × (list.room ≤ vec_capacity list.calls) };
}

impl CallList {
    // No calls, and room for so many.
    fn new(alloc: Global, room: usize) -> Result<CallList, NoMemory>
        ensures { IfOk result (λ list. list ≡ record { calls = Some []; room = room }) }
    {
        let calls = Vec::with_capacity(alloc, room)?;
        Ok(CallList {
            calls,
            room,
            passed: false,
        })
    }

    // The calls, where they found room.
    fn told(&self) -> Option<&[Call]>
        ensures { option_map (λ calls. calls.now) result ≡ self.now.calls }
    {
        if self.passed {
            return None;
        }
        Some(self.calls.as_slice())
    }

    // One more call.
    fn note(&mut self, call: Call)
        ensures calls { self.new.calls ≡ told_after self.old.calls self.old.room call }
        ensures room { self.new.room ≡ self.old.room }
    {
        if self.calls.len() == self.room {
            self.passed = true;
            return;
        }
        match self.calls.push(call) {
            Ok(()) => {}
            Err(_) => unreachable!(),
        }
    }
}
