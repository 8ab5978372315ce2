//! Runs of arrival functions, packed in eight bytes each. A function over the day is a list of them: runs from second 0
//! on, and then one from second 86,400 that only ends it, so that no loop asks for the end of the list.

ghost use Rattle.std.specs.Prelude.{◌≡◌, ◌≢◌, ◌≤◌, ◌<◌, ◌+◌, ◌^◌, ◌↔◌, ℕ, Some, IfOk, IsTrue, length, nat_le, true, false, slice_get, if◌then◌else◌};
ghost use Rattle.std.specs.List.Sorted.{IsNonDecreasingBy, IsPartitionPoint};
ghost use Rattle.cu_model.specs.declared.limits.TheConstants.{DAY};
ghost use Rattle.cu_arrival.specs.declared.runs.Run.{Run};
ghost use Rattle.cu_arrival.specs.declared.runs.RunRule.TheVariants.{Shift, Fixed};
ghost use Rattle.cu_model.specs.Days.{IsOnward};
ghost use Rattle.cu_arrival.specs.Runs.{arrival_value, rule_number, run_at, arrives};
ghost use Rattle.cu_runs.specs.PackedRuns.{IsDayList, IsPackedFunction, end_run, is_fixed};
ghost use Rattle.cu_runs.specs.Steps.Linking.{after_arrival, after_shift};

use cu_arrival::{Run, RunRule};
use cu_model::{DAY, NoMemory};
use std::alloc::Global;
use std::marker::Model;

// What a run's second is multiplied by in its bits, 2^47, and what a fixed run has beside its number, 2^46.
const SECOND: u64 = 140_737_488_355_328;

const FIXED: u64 = 70_368_744_177_664;

/// The greatest number of a run of a function that is linked, 2^44: some 557,000 years.
pub const MAX_NUMBER: u64 = 17_592_186_044_416;

/// A run in eight bytes: the second of the day from which it holds (0 to 86,400), whether it is fixed, and its number
/// (below 2^46): the seconds it takes, or where it is fixed the second at which it arrives. Contracts see it as a
/// `Run`.
#[derive(Clone, Copy, Debug, PartialEq, Eq)]
pub struct PackedRun {
    bits: u64,
}

impl Model for PackedRun {
    ghost use Rattle.std.specs.Prelude.{◌≤◌, ◌/◌, ◌^◌, ℕ};
    ghost use Rattle.std.proofs.Common.{ap};
    ghost use Rattle.cu_model.specs.declared.limits.TheConstants.{DAY};
    ghost use Rattle.cu_arrival.specs.declared.runs.Run.{Run};
    ghost use Rattle.cu_runs.specs.PackedRuns.{run_of_bits, bits_of_run, bits_back};

    ghost Value = { Run };

    ghost view = { λ run. run_of_bits run.bits };

    ghost invariant = { λ run. run.bits / 2 ^ 47 ≤ DAY };

    ghost inverse = { λ run. record { bits = bits_of_run run } };

    ghost inverse_ok = { λ run h.
        ap (λ (bits : ℕ). record run { bits = bits }) (bits_back run.bits) };
}

impl PackedRun {
    /// The run from this second of the day, 0 to 86,400, with this number, below 2^46.
    pub fn of(from: u64, is_fixed: bool, number: u64) -> PackedRun
        requires from { from ≤ DAY }
        requires number { number < 2 ^ 46 }
        ensures from { result.from ≡ from }
        ensures rule { result.rule ≡ (if is_fixed then Fixed number else Shift number) }
    {
        let kind = if is_fixed { FIXED } else { 0 };
        PackedRun {
            bits: from * SECOND + (kind + number),
        }
    }

    /// The second of the day from which it holds.
    #[inline(always)]
    pub fn from(self) -> u64
        ensures from { result ≡ self.from }
        ensures in_day { result ≤ DAY }
    {
        self.bits / SECOND
    }

    #[inline(always)]
    pub fn is_fixed(self) -> bool
        ensures { result ≡ is_fixed self.rule }
    {
        self.bits / FIXED % 2 == 1
    }

    /// The seconds it takes, or where it is fixed the second at which it arrives.
    #[inline(always)]
    pub fn number(self) -> u64
        ensures number { result ≡ rule_number self.rule }
        ensures small { result < 2 ^ 46 }
    {
        self.bits % FIXED
    }

    /// The run that it is.
    pub fn run(self) -> Run
        ensures { result ≡ self }
    {
        let number = self.number();
        let rule = if self.is_fixed() {
            RunRule::Fixed(number)
        } else {
            RunRule::Shift(number)
        };
        Run {
            from: self.from() as u32,
            rule,
        }
    }

    /// Do two runs have the same rule?
    #[inline(always)]
    pub(crate) fn has_rule_of(self, other: PackedRun) -> bool
        ensures { IsTrue result ↔ (self.rule ≡ other.rule) }
    {
        self.bits % SECOND == other.bits % SECOND
    }

    /// Are both fixed, or neither?
    #[inline(always)]
    pub(crate) fn has_kind_of(self, other: PackedRun) -> bool
        ensures { IsTrue result ↔ (is_fixed self.rule ≡ is_fixed other.rule) }
    {
        self.is_fixed() == other.is_fixed()
    }

    /// The same rule from another second of the day, 0 to 86,400.
    #[inline(always)]
    pub(crate) fn begun(self, from: u64) -> PackedRun
        requires { from ≤ DAY }
        ensures from { result.from ≡ from }
        ensures rule { result.rule ≡ self.rule }
    {
        PackedRun {
            bits: from * SECOND + self.bits % SECOND,
        }
    }

    /// The run from this second of the day, 0 to 86,400, that takes so many seconds first: what is fixed arrives on the
    /// day that begins at `midnight`.
    #[inline(always)]
    pub(crate) fn after(self, seconds: u64, midnight: u64, from: u64) -> PackedRun
        requires from { from ≤ DAY }
        requires seconds { rule_number self.rule + seconds < 2 ^ 46 }
        requires midnight { rule_number self.rule + midnight < 2 ^ 46 }
        ensures from { result.from ≡ from }
        ensures rule { result.rule ≡ after_shift self.rule seconds midnight }
    {
        let more = if self.is_fixed() { midnight } else { seconds };
        PackedRun {
            bits: from * SECOND + (self.bits % SECOND + more),
        }
    }

    /// The same after an arrival at this second, whenever it leaves.
    #[inline(always)]
    pub(crate) fn after_fixed(self, arrival: u64, midnight: u64, from: u64) -> PackedRun
        requires from { from ≤ DAY }
        requires arrival { rule_number self.rule + arrival < 2 ^ 46 }
        requires midnight { rule_number self.rule + midnight < 2 ^ 46 }
        ensures from { result.from ≡ from }
        ensures rule { result.rule ≡ after_arrival self.rule arrival midnight }
    {
        let second = if self.is_fixed() { midnight } else { arrival };
        PackedRun::of(from, true, self.number() + second)
    }

    /// The run that ends a function.
    pub fn end() -> PackedRun
        ensures { result ≡ end_run }
    {
        PackedRun::of(u64::from(DAY), false, 0)
    }

    /// When it arrives, leaving on day 0 at this second.
    #[inline(always)]
    pub fn arrives(self, second: u64) -> u64
        requires { second ≤ 2 ^ 62 }
        ensures { result ≡ arrives self.rule second }
    {
        if self.is_fixed() {
            self.number()
        } else {
            self.number() + second
        }
    }
}

/// The function of one run, which is from second 0: staying is that of a run that takes no seconds.
pub fn function_of_run(alloc: Global, run: PackedRun) -> Result<Vec<PackedRun>, NoMemory>
    requires from { run.from ≡ 0 }
    requires number { rule_number run.rule ≤ MAX_NUMBER }
    ensures function { IfOk result (λ packed. IsPackedFunction packed.items) }
    ensures value { IfOk result (λ packed. (t : ℕ) → t < DAY →
        arrival_value packed.items t ≡ arrives run.rule t) }
{
    let packed = vec![in alloc; run, PackedRun::end()]?;
    Ok(packed)
}

/// The function of a road that takes no time.
pub fn staying() -> [PackedRun; 2]
    ensures function { IsPackedFunction result }
    ensures value { (t : ℕ) → t < DAY → arrival_value result t ≡ t }
{
    [PackedRun::of(0, false, 0), PackedRun::end()]
}

/// The index of the run in force at a second of the day, 0 to 86,399.
pub fn index_at(packed: &[PackedRun], second: u64) -> usize
    requires day { IsDayList packed.now }
    requires second { second < DAY }
    ensures within { result + 1 < length packed.now }
    ensures last { run_at packed.now second ≡ slice_get packed.now result }
    ensures begun { (run : Run) × (slice_get packed.now result ≡ Some run) × (run.from ≤ second) }
    ensures lasts { (next : Run) → slice_get packed.now (result + 1) ≡ Some next
        → second < next.from }
{
    begun(packed, second) - 1
}

/// The index of the run in force at the end of a stretch, from that in force before, which ends at `own_end`.
#[inline(always)]
pub fn stepped(index: usize, own_end: u64, end: u64) -> usize
    requires { index + 1 < 2 ^ 64 }
    ensures ended { own_end ≡ end → result ≡ index + 1 }
    ensures lasts { own_end ≢ end → result ≡ index }
{
    index + usize::from(own_end == end)
}

// How many runs are from this second of the day or before it.
fn begun(packed: &[PackedRun], second: u64) -> usize
    requires { IsNonDecreasingBy (λ (run : Run). run.from) packed.now }
    ensures bound { result ≤ length packed.now }
    ensures point { IsPartitionPoint (λ (run : Run). nat_le run.from second ≡ true)
        (λ (run : Run). nat_le run.from second ≡ false) packed.now result }
{
    packed.partition_point(|run| run.from() <= second)
}

/// The least travel time of a function that never arrives before it leaves, over the day.
pub fn least_travel(packed: &[PackedRun]) -> u64
    requires over_day { IsDayList packed.now }
    requires onward { IsOnward (arrival_value packed.now) }
    ensures least { (t : ℕ) → t < DAY → t + result ≤ arrival_value packed.now t }
    ensures taken { (t : ℕ) × (t < DAY) × (arrival_value packed.now t ≡ t + result) }
{
    let mut least = packed[0].arrives(0);
    'runs: for index in 0..packed.len() - 1 {
        let last = packed[index + 1].from() - 1;
        least = least.min(packed[index].arrives(last) - last);
    }
    least
}

/// The greatest travel time of a function that never arrives before it leaves, over the day.
pub fn most_travel(packed: &[PackedRun]) -> u64
    requires over_day { IsDayList packed.now }
    requires onward { IsOnward (arrival_value packed.now) }
    ensures most { (t : ℕ) → t < DAY → arrival_value packed.now t ≤ t + result }
    ensures taken { (t : ℕ) × (t < DAY) × (arrival_value packed.now t ≡ t + result) }
{
    let mut most = packed[0].arrives(0);
    'runs: for index in 0..packed.len() - 1 {
        let from = packed[index].from();
        most = most.max(packed[index].arrives(from) - from);
    }
    most
}
