//! Runs as they are kept, in 16 bytes each.

ghost use Rattle.std.specs.Prelude.{◌≡◌, ◌≤◌, ◌<◌, ◌+◌, ◌^◌, ◌++◌, ◌∷◌, [], ℕ, Some, IfOk, length, nat_le, slice_get, true, false};
ghost use Rattle.std.specs.List.Sorted.{IsNonDecreasingBy, IsPartitionPoint};
ghost use Rattle.cu_model.specs.declared.limits.TheConstants.{DAY};
ghost use Rattle.cu_arrival.specs.declared.packing.KeptRun.{KeptRun};
ghost use Rattle.cu_arrival.specs.declared.runs.Run.{Run};
ghost use Rattle.cu_arrival.specs.Runs.{IsArrivalFunction, run_at, rule_number};
ghost use Rattle.cu_arrival.specs.Steps.Packing.{unpacked, unpacked_rule};
ghost use Rattle.cu_arrival.specs.Steps.Stretches.{until_next};

use crate::runs::{Run, RunRule};
use cu_model::NoMemory;
use std::alloc::Global;
use std::marker::Model;

// A run: the second of the day from which it holds, and the number of its rule doubled, and one more where that is fixed.
#[derive(Clone, Copy)]
struct KeptRun {
    from: u32,
    bits: u64,
}

/// A list of runs. Contracts see it as such.
#[derive(Drop)]
pub struct RunList {
    packed: Vec<KeptRun>,
}

impl Model for RunList {
    ghost use Rattle.std.specs.Prelude.{List, map};
    ghost use Rattle.cu_arrival.specs.declared.runs.Run.{Run};
    ghost use Rattle.cu_arrival.specs.Steps.Packing.{unpacked};

    ghost Value = { List Run };

    ghost view = { λ list. map unpacked list.packed.items };
}

impl RunList {
    /// No runs, and room for so many.
    pub fn with_capacity(alloc: Global, runs: usize) -> Result<RunList, NoMemory>
        ensures { IfOk result (λ list. list ≡ []) }
    {
        let packed = Vec::with_capacity(alloc, runs)?;
        Ok(RunList { packed })
    }

    /// How many runs there are.
    pub fn len(&self) -> usize
        ensures { result ≡ length self.now }
    {
        self.packed.len()
    }

    /// The run with this index.
    pub fn at(&self, index: usize) -> Run
        requires { index < length self.now }
        ensures { slice_get self.now index ≡ Some result }
    {
        unpack(self.packed[index])
    }

    /// Adds a run at the end.
    pub fn push(&mut self, run: Run) -> Result<(), NoMemory>
        requires { rule_number run.rule ≤ 2 ^ 62 }
        ensures { IfOk result (λ _. self.new ≡ self.old ++ run ∷ []) }
    {
        self.packed.push(pack(run))?;
        Ok(())
    }

    /// A list of the same runs.
    pub fn copy(&self, alloc: Global) -> Result<RunList, NoMemory>
        ensures { IfOk result (λ copy. copy ≡ self.now) }
    {
        let mut packed = Vec::with_capacity(alloc, self.packed.len())?;
        packed.extend_from_slice(&self.packed)?;
        Ok(RunList { packed })
    }

    /// Gives back the memory that the runs don't take. Where the smaller piece of memory isn't to be had it stays.
    pub fn shrink(&mut self)
        ensures { self.new ≡ self.old }
    {
        self.packed.shrink_to_fit();
    }

    /// The index of the last run that has begun by this second of the day.
    pub fn index_begun(&self, time: u32) -> usize
        requires valid { IsArrivalFunction self.now }
        requires time { time < DAY }
        ensures within { result < length self.now }
        ensures last { run_at self.now time ≡ slice_get self.now result }
        ensures begun { (run : Run) × (slice_get self.now result ≡ Some run) × (run.from ≤ time) }
        ensures next { time < until_next (slice_get self.now (result + 1)) }
    {
        begun(&self.packed, time) - 1
    }
}

fn pack(run: Run) -> KeptRun
    requires { rule_number run.rule ≤ 2 ^ 62 }
    ensures { unpacked result ≡ run }
{
    KeptRun {
        from: run.from,
        bits: pack_rule(run.rule),
    }
}

fn pack_rule(rule: RunRule) -> u64
    requires { rule_number rule ≤ 2 ^ 62 }
    ensures { unpacked_rule result ≡ rule }
{
    match rule {
        RunRule::Shift(seconds) => 2 * seconds,
        RunRule::Fixed(arrival) => 2 * arrival + 1,
    }
}

fn unpack(kept: KeptRun) -> Run
    ensures { result ≡ unpacked kept }
{
    let number = kept.bits / 2;
    let rule = if kept.bits % 2 == 0 {
        RunRule::Shift(number)
    } else {
        RunRule::Fixed(number)
    };
    Run {
        from: kept.from,
        rule,
    }
}

// How many runs are from this second of the day or before it.
fn begun(packed: &[KeptRun], time: u32) -> usize
    requires { IsNonDecreasingBy (λ (kept : KeptRun). kept.from) packed.now }
    ensures bound { result ≤ length packed.now }
    ensures point { IsPartitionPoint
        (λ (kept : KeptRun). nat_le kept.from time ≡ true)
        (λ (kept : KeptRun). nat_le kept.from time ≡ false)
        packed.now result }
{
    packed.partition_point(|kept| kept.from <= time)
}
