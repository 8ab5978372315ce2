//! Merging whole candidates: what merges them keeps order.

ghost use Rattle.std.specs.Prelude.{◌≡◌, ◌≤◌, ◌<◌, ◌↔◌, ℕ, IfOk, OnErr, IsTrue, min};
ghost use Rattle.cu_model.specs.declared.limits.TheConstants.{DAY};
ghost use Rattle.cu_arrival.specs.Runs.{arrival_value};
ghost use Rattle.cu_runs.specs.declared.merging.TheConstants.{MOST, NOBODY};
ghost use Rattle.cu_runs.specs.PackedRuns.{IsCompactDay, IsPackedFunction, composed};
ghost use Rattle.cu_runs.specs.Least.{IsWayRuns, least_arrival, least_way, way_with};

use crate::merging::{PartMerger, WayRun};
use crate::packed_runs::{MAX_NUMBER, PackedRun};
use cu_model::NoMemory;
use std::alloc::Global;
use std::marker::Model;

/// What merges candidates, with its room. Contracts see it as the runs of the least arrivals so far, each beside the
/// number of its candidate.
#[derive(Drop)]
pub struct Merger {
    parts: PartMerger,
}

impl Model for Merger {
    ghost use Rattle.std.specs.Prelude.{List};
    ghost use Rattle.cu_runs.specs.Least.{Held, KeepsDayOrder, least_arrival};

    ghost Value = { List Held };

    ghost view = { λ merger. merger.parts };

    ghost invariant = { λ merger. KeepsDayOrder (least_arrival merger.parts) };
}

impl Merger {
    /// A merger with no candidate.
    pub fn new(alloc: Global) -> Result<Merger, NoMemory>
        ensures arrival { IfOk result (λ merger.
            (t : ℕ) → t < DAY → least_arrival merger t ≡ MOST) }
        ensures way { IfOk result (λ merger.
            (t : ℕ) → t < DAY → least_way merger t ≡ NOBODY) }
    {
        Ok(Merger {
            parts: PartMerger::new(alloc)?,
        })
    }

    /// Forgets all candidates: from then on the least is later than any arrival, and nobody's. Takes no memory.
    pub fn clear(&mut self)
        ensures arrival { (t : ℕ) → t < DAY → least_arrival self.new t ≡ MOST }
        ensures way { (t : ℕ) → t < DAY → least_way self.new t ≡ NOBODY }
    {
        self.parts.clear();
    }

    /// Adds a candidate, the composition of two functions, under its number. Where it arrives as early as another, the
    /// one with the lower number stays. After a refusal for want of memory the merger is what it was.
    pub fn add(
        &mut self,
        first: &[PackedRun],
        second: &[PackedRun],
        way: u32,
    ) -> Result<(), NoMemory>
        requires first { IsPackedFunction first.now }
        requires second { IsPackedFunction second.now }
        ensures arrival { IfOk result (λ _. (t : ℕ) → t < DAY → least_arrival self.new t
            ≡ min (least_arrival self.old t) (composed first.now second.now t)) }
        ensures way { IfOk result (λ _. (t : ℕ) → t < DAY → least_way self.new t
            ≡ way_with self.old (composed first.now second.now t) way t) }
        ensures err { OnErr result (self.new ≡ self.old) }
    {
        self.parts.add(first, second, way)?;
        Ok(())
    }

    /// Has it no candidate at all? Each is there at every second of the day.
    pub fn is_empty(&self) -> bool
        ensures { IsTrue result ↔ (least_way self.now 0 ≡ NOBODY) }
    {
        self.parts.is_empty()
    }

    /// The least arrivals as a function, where all are within the limit of numbers: neighbouring runs differ.
    pub fn least_runs(&self, alloc: Global) -> Result<Vec<PackedRun>, NoMemory>
        requires { (t : ℕ) → t < DAY → least_arrival self.now t ≤ MAX_NUMBER }
        ensures function { IfOk result (λ packed. IsPackedFunction packed.items) }
        ensures value { IfOk result (λ packed. (t : ℕ) → t < DAY →
            arrival_value packed.items t ≡ least_arrival self.now t) }
        ensures compact { IfOk result (λ packed. IsCompactDay packed.items) }
    {
        let packed = self.parts.least_runs(alloc)?;
        Ok(packed)
    }

    /// The numbers of the candidates that are the least, each from the second from which it is: neighbours differ.
    pub fn way_runs(&self, alloc: Global) -> Result<Vec<WayRun>, NoMemory>
        ensures { IfOk result (λ runs. IsWayRuns self.now runs.items) }
    {
        let runs = self.parts.way_runs(alloc)?;
        Ok(runs)
    }
}
