//! The least of several candidates at each second of a day, and which of them it is. It is the operation that
//! time-dependent contraction hierarchies call merge, here of compositions, one candidate after the other. Of those
//! that arrive as early the one with the lowest number is the least, in whatever order they come.

ghost use Rattle.std.specs.Prelude.{◌≡◌, ◌≢◌, ◌≤◌, ◌<◌, ◌+◌, ◌-◌, ◌↔◌, ℕ, [], Some, IfOk, OnErr, IsTrue, min, length, nat_lt, slice_get, if◌then◌else◌};
ghost use Rattle.cu_model.specs.declared.limits.TheConstants.{DAY};
ghost use Rattle.cu_arrival.specs.declared.runs.Run.{Run};
ghost use Rattle.cu_arrival.specs.Runs.{arrival_value, arrives};
ghost use Rattle.cu_model.specs.Growing.{IsPushed, last_says};
ghost use Rattle.cu_runs.specs.declared.windows.TheConstants.{NO_LIMIT, WINDOWS};
ghost use Rattle.cu_runs.specs.Windows.{AreLowered, AreStarts, TakesInWindows, window_start};
ghost use Rattle.cu_runs.specs.Steps.Merging.{
  CopiesBehind,
  IsAlone,
  IsBefore,
  IsHeld,
  IsLate,
  IsMerged,
  IsMerging,
  IsNext,
  IsSeen,
  Merges,
  MergesSeen,
  Puts,
  least_held,
  next_held,
};
ghost use Rattle.cu_runs.specs.PackedRuns.{IsCompactDay, IsDayList, IsPackedFunction, composed, is_fixed};
ghost use Rattle.cu_runs.specs.Least.{IsAddedWithin, IsWayRuns, KeepsDayOrder, least_arrival, least_way, tie_with, way_with};

use crate::compacting::compact;
use crate::linking::{link, link_between};
use crate::packed_runs::{MAX_NUMBER, PackedRun, index_at, stepped};
use crate::windows::{Limits, STARTS, WINDOWS, Windows, lower_limits, start_in};
use cu_model::{DAY, NoMemory};
use std::alloc::Global;
use std::marker::Model;
use std::mem;

/// The number of no candidate.
pub const NOBODY: u32 = u32::MAX;

/// Later than any arrival of a candidate.
pub const MOST: u64 = 70_368_744_177_663;

// The seconds of a day, as wide as arrivals are.
const END: u64 = DAY as u64;

/// The number of a candidate, and the second of the day, 0 to 86,399, from which it is the least.
#[derive(Clone, Copy, PartialEq, Eq)]
pub struct WayRun {
    pub from: u32,
    pub way: u32,
}

// The least arrivals of the candidates so far, and beside each run which of them it is: at each second the lowest
// number of those that arrive then. Both lists have one entry more, which ends them.
#[derive(Drop)]
struct Least {
    packed: Vec<PackedRun>,
    ways: Vec<u32>,
}

// The same with one candidate more, as far as it is known: at all seconds below `done`. The run of the old list at
// `index` begins no later than `done`.
#[derive(Drop)]
struct Next {
    packed: Vec<PackedRun>,
    ways: Vec<u32>,
    index: usize,
    done: u64,
}

// A candidate, the composition of two functions, with its number.
#[derive(Clone, Copy)]
struct Candidate<'a> {
    first: &'a [PackedRun],
    second: &'a [PackedRun],
    way: u32,
}

// Seconds of the day, from one until another.
#[derive(Clone, Copy)]
struct Stretch {
    at: u64,
    end: u64,
}

// The run of the least over a stretch; and one where a tie with it is a candidate's, else none.
#[derive(Clone, Copy)]
struct Standing {
    run: PackedRun,
    tie: u64,
}

// A candidate with what is known of it in windows, and where these begin.
#[derive(Clone, Copy)]
struct Windowed<'a> {
    candidate: Candidate<'a>,
    limits: Limits<'a>,
    starts: &'a [u32; STARTS],
}

/// What merges candidates, each maybe only in parts of the day, with its room. Contracts see it as the runs of the least
/// arrivals so far, each beside the number of its candidate. Where candidates are left out a later departure may arrive
/// earlier.
#[derive(Drop)]
pub struct PartMerger {
    least: Least,
    next: Next,
    linked: Vec<PackedRun>,
}

impl Model for PartMerger {
    ghost use Rattle.std.specs.Prelude.{List};
    ghost use Rattle.cu_runs.specs.Least.{Held};
    ghost use Rattle.cu_runs.specs.Steps.Merging.{IsHeld, least_held};

    ghost Value = { List Held };

    ghost view = { λ merger. least_held merger.least };

    ghost invariant = { λ merger. IsHeld merger.least };
}

impl Next {
    // Adds a run of a candidate, unless the last run says the same.
    fn put(&mut self, run: PackedRun, way: u32) -> Result<(), NoMemory>
        requires even { length self.old.ways.items ≡ length self.old.packed.items }
        ensures even { IfOk result (λ _. length self.new.ways.items ≡ length self.new.packed.items) }
        ensures put { IfOk result (λ _.
            Puts (next_held self.old) (run, way) (next_held self.new)) }
        ensures index { self.new.index ≡ self.old.index }
        ensures done { self.new.done ≡ self.old.done }
    {
        let count = self.packed.len();
        if count > 0 && self.ways[count - 1] == way && self.packed[count - 1].has_rule_of(run) {
            return Ok(());
        }
        self.packed.push(run)?;
        self.ways.push(way)?;
        Ok(())
    }

    // Takes what the old list has from `done` to a second.
    fn copy_to(&mut self, least: &Least, until: u64) -> Result<(), NoMemory>
        requires least { IsHeld least.now }
        requires next { IsNext least.now self.old }
        requires order { self.old.done ≤ until }
        requires in_day { until ≤ DAY }
        ensures next { IfOk result (λ _. IsNext least.now self.new) }
        ensures done { IfOk result (λ _. self.new.done ≡ until) }
        ensures copied { IfOk result (λ _. (arrival : ℕ → ℕ) → (way : ℕ) →
            IsMerging least.now arrival way self.old until →
            IsMerging least.now arrival way self.new until) }
    {
        if self.done == until {
            return Ok(());
        }
        let index = in_force(&least.packed, self.index, self.done);
        self.put(least.packed[index].begun(self.done), least.ways[index])?;
        self.index = self.copy_behind(least, index, until)?;
        self.done = until;
        Ok(())
    }

    // Takes the runs of the old list that begin behind that of an index and before a second, and gives the last one's
    // index.
    fn copy_behind(&mut self, least: &Least, first: usize, until: u64) -> Result<usize, NoMemory>
        requires least { IsHeld least.now }
        requires even { length self.old.ways.items ≡ length self.old.packed.items }
        requires first { IsBefore least.now.packed.items first until }
        requires in_day { until ≤ DAY }
        ensures even { IfOk result (λ _. length self.new.ways.items ≡ length self.new.packed.items) }
        ensures last { IfOk result (λ last. IsBefore least.now.packed.items last until) }
        ensures copied { IfOk result (λ _. CopiesBehind least.now first until self.old self.new) }
    {
        let mut index = first;
        'runs: while least.packed[index + 1].from() < until {
            index += 1;
            self.put(least.packed[index], least.ways[index])?;
        }
        Ok(index)
    }

    // Forgets what it has, to begin with another candidate.
    fn restart(&mut self)
        ensures empty { next_held self.new ≡ [] }
        ensures even { length self.new.ways.items ≡ length self.new.packed.items }
        ensures index { self.new.index ≡ 0 }
        ensures done { self.new.done ≡ 0 }
    {
        self.packed.clear();
        self.ways.clear();
        self.index = 0;
        self.done = 0;
    }

    // Takes a candidate's runs all day.
    fn take_all(&mut self, packed: &[PackedRun], way: u32) -> Result<(), NoMemory>
        requires over_day { IsDayList packed.now }
        requires even { length self.old.ways.items ≡ length self.old.packed.items }
        requires empty { next_held self.old ≡ [] }
        ensures even { IfOk result (λ _. length self.new.ways.items ≡ length self.new.packed.items) }
        ensures index { IfOk result (λ _. self.new.index ≡ self.old.index) }
        ensures done { IfOk result (λ _. self.new.done ≡ DAY) }
        ensures alone { IfOk result (λ _. IsAlone (arrival_value packed.now) way self.new) }
    {
        'runs: for index in 0..packed.len() - 1 {
            self.put(packed[index], way)?;
        }
        self.done = END;
        Ok(())
    }

    // Takes what the old list has to the end of the day, and ends both lists.
    fn finish(&mut self, least: &Least) -> Result<(), NoMemory>
        requires least { IsHeld least.now }
        requires next { IsNext least.now self.old }
        ensures merged { IfOk result (λ _. (arrival : ℕ → ℕ) → (way : ℕ) →
            IsMerging least.now arrival way self.old DAY →
            IsMerged least.now arrival way self.new.packed.items self.new.ways.items) }
    {
        self.copy_to(least, END)?;
        self.packed.push(PackedRun::end())?;
        self.ways.push(NOBODY)?;
        Ok(())
    }

    // Takes what the old list has up to `from`, and the candidate from there to `until`.
    #[inline(never)]
    fn win(
        &mut self,
        least: &Least,
        run: PackedRun,
        from: u64,
        until: u64,
        way: u32,
    ) -> Result<(), NoMemory>
        requires least { IsHeld least.now }
        requires next { IsNext least.now self.old }
        requires order { self.old.done ≤ from }
        requires some { from < until }
        requires in_day { until ≤ DAY }
        requires earlier { (s : ℕ) → from ≤ s → s < until → arrives run.rule s
            < least_arrival (least_held least.now) s + tie_with (least_held least.now) way s }
        ensures next { IfOk result (λ _. IsNext least.now self.new) }
        ensures done { IfOk result (λ _. self.new.done ≡ until) }
        ensures won { IfOk result (λ _.
            Merges least.now from until (arrives run.rule) way self.old self.new) }
    {
        self.copy_to(least, from)?;
        self.put(run.begun(from), way)?;
        self.done = until;
        Ok(())
    }
}

// The index of the run in force at a second, from one whose run begins no later.
#[inline(always)]
fn in_force(packed: &[PackedRun], from: usize, second: u64) -> usize
    requires over_day { IsDayList packed.now }
    requires begun { (run : Run) × (slice_get packed.now from ≡ Some run) × (run.from ≤ second) }
    requires in_day { second < DAY }
    ensures begun { (run : Run) × (slice_get packed.now result ≡ Some run) × (run.from ≤ second) }
    ensures next { (run : Run) × (slice_get packed.now (result + 1) ≡ Some run)
        × (second < run.from) }
{
    let mut index = from;
    while packed[index + 1].from() <= second {
        index += 1;
    }
    index
}

// One where a candidate's number is lower than that of the least, so that a tie goes to it.
#[inline(always)]
fn tie_between(way: u32, least: u32) -> u64
    ensures tie { result ≡ (if nat_lt way least then 1 else 0) }
    ensures one { result ≤ 1 }
{
    u64::from(way < least)
}

// Takes the candidate where it wins over a stretch: where it is earlier than the least, or as early where a tie is its
// own. One of the two runs is fixed, the other isn't.
#[inline(never)]
fn compare_kinds(
    least: &Least,
    held: Standing,
    run: PackedRun,
    stretch: Stretch,
    way: u32,
    next: &mut Next,
) -> Result<(), NoMemory>
    requires least { IsHeld least.now }
    requires next { IsNext least.now next.old }
    requires order { next.old.done ≤ stretch.at }
    requires some { stretch.at < stretch.end }
    requires in_day { stretch.end ≤ DAY }
    requires differ { is_fixed held.run.rule ≢ is_fixed run.rule }
    requires held { (s : ℕ) → stretch.at ≤ s → s < stretch.end →
        least_arrival (least_held least.now) s ≡ arrives held.run.rule s }
    requires one { held.tie ≤ 1 }
    requires tie { (s : ℕ) → stretch.at ≤ s → s < stretch.end →
        tie_with (least_held least.now) way s ≡ held.tie }
    ensures next { IfOk result (λ _. IsNext least.now next.new) }
    ensures order { IfOk result (λ _. next.new.done ≤ stretch.end) }
    ensures merged { IfOk result (λ _.
        Merges least.now stretch.at stretch.end (arrives run.rule) way next.old next.new) }
{
    let Stretch { at, end } = stretch;
    if run.is_fixed() {
        // From here on the other arrives later, or as early where a tie is the candidate's.
        let from = at.max((run.number() + 1 - held.tie).saturating_sub(held.run.number()));
        if from < end {
            return next.win(least, run, from, end, way);
        }
        return Ok(());
    }
    let until = end.min((held.run.number() + held.tie).saturating_sub(run.number()));
    if at < until {
        return next.win(least, run, at, until, way);
    }
    Ok(())
}

// Takes the candidate where it wins over a stretch.
#[inline(always)]
fn compare_runs(
    least: &Least,
    held: Standing,
    run: PackedRun,
    stretch: Stretch,
    way: u32,
    next: &mut Next,
) -> Result<(), NoMemory>
    requires least { IsHeld least.now }
    requires next { IsNext least.now next.old }
    requires order { next.old.done ≤ stretch.at }
    requires some { stretch.at < stretch.end }
    requires in_day { stretch.end ≤ DAY }
    requires held { (s : ℕ) → stretch.at ≤ s → s < stretch.end →
        least_arrival (least_held least.now) s ≡ arrives held.run.rule s }
    requires one { held.tie ≤ 1 }
    requires tie { (s : ℕ) → stretch.at ≤ s → s < stretch.end →
        tie_with (least_held least.now) way s ≡ held.tie }
    ensures next { IfOk result (λ _. IsNext least.now next.new) }
    ensures order { IfOk result (λ _. next.new.done ≤ stretch.end) }
    ensures merged { IfOk result (λ _.
        Merges least.now stretch.at stretch.end (arrives run.rule) way next.old next.new) }
{
    if !run.has_kind_of(held.run) {
        return compare_kinds(least, held, run, stretch, way, next);
    }
    if run.number() < held.run.number() + held.tie {
        return next.win(least, run, stretch.at, stretch.end, way);
    }
    Ok(())
}

// Takes the candidate where it wins, from one second until another.
#[inline(never)]
fn compare(
    least: &Least,
    candidate: &[PackedRun],
    from: u64,
    until: u64,
    way: u32,
    next: &mut Next,
) -> Result<(), NoMemory>
    requires least { IsHeld least.now }
    requires candidate { IsDayList candidate.now }
    requires next { IsNext least.now next.old }
    requires order { next.old.done ≤ from }
    requires some { from < until }
    requires in_day { until ≤ DAY }
    ensures next { IfOk result (λ _. IsNext least.now next.new) }
    ensures order { IfOk result (λ _. next.new.done ≤ until) }
    ensures merged { IfOk result (λ _.
        Merges least.now from until (arrival_value candidate.now) way next.old next.new) }
{
    let mut at = from;
    // The candidate was linked from this second on, so its run in force is one of the first two.
    let mut index = in_force(candidate, 0, from);
    let mut other = index_at(&least.packed, from);
    'stretch: while at < until {
        let run_end = candidate[index + 1].from();
        let held_end = least.packed[other + 1].from();
        let both_end = run_end.min(held_end);
        let end = both_end.min(until);
        let tie = tie_between(way, least.ways[other]);
        let held = Standing {
            run: least.packed[other],
            tie,
        };
        let stretch = Stretch { at, end };
        compare_runs(least, held, candidate[index], stretch, way, next)?;
        index = stepped(index, run_end, end);
        other = stepped(other, held_end, end);
        at = end;
    }
    Ok(())
}

// Links a candidate from one second until another, and takes it where it wins.
fn link_and_compare(
    least: &Least,
    candidate: Candidate<'_>,
    from: u64,
    until: u64,
    linked: &mut Vec<PackedRun>,
    next: &mut Next,
) -> Result<(), NoMemory>
    requires least { IsHeld least.now }
    requires first { IsPackedFunction candidate.first.now }
    requires second { IsPackedFunction candidate.second.now }
    requires next { IsNext least.now next.old }
    requires order { next.old.done ≤ from }
    requires some { from < until }
    requires in_day { until ≤ DAY }
    ensures next { IfOk result (λ _. IsNext least.now next.new) }
    ensures order { IfOk result (λ _. next.new.done ≤ until) }
    ensures merged { IfOk result (λ _. Merges least.now from until
        (composed candidate.entry.first.now candidate.entry.second.now)
        candidate.entry.way next.old next.new) }
{
    link_between(candidate.first, candidate.second, from, until, linked)?;
    compare(least, linked, from, until, candidate.way, next)?;
    Ok(())
}

// Does the candidate take longer in a window than some candidate takes at most?
#[inline(always)]
fn is_late(limits: Limits<'_>, window: usize) -> bool
    requires window { window < WINDOWS }
    ensures { IsTrue result ↔ IsLate limits.entry.lower.now limits.entry.most.now window }
{
    is_above(limits.lower[window], limits.most[window])
}

// Is a number above another one?
#[inline(always)]
fn is_above(lower: u32, most: u32) -> bool
    ensures { IsTrue result ↔ (most < min lower NO_LIMIT) }
{
    lower > most
}

// The first window from this one on in which it is late, or the number of windows.
#[inline(always)]
fn late_from(limits: Limits<'_>, first: usize) -> usize
    requires first { first ≤ WINDOWS }
    ensures from { first ≤ result }
    ensures within { result ≤ WINDOWS }
    ensures before { (window : ℕ) → first ≤ window → window < result →
        IsLate limits.entry.lower.now limits.entry.most.now window → ⊥ }
{
    let mut window = first;
    'windows: while window < WINDOWS {
        if is_late(limits, window) {
            return window;
        }
        window += 1;
    }
    window
}

// Leaves out a window in which the candidate is late, or takes the candidate in all windows from this one on until it
// is late. Gives the window behind.
fn compare_windows_from(
    least: &Least,
    windowed: &Windowed<'_>,
    window: usize,
    linked: &mut Vec<PackedRun>,
    next: &mut Next,
) -> Result<usize, NoMemory>
    requires least { IsHeld least.now }
    requires first { IsPackedFunction windowed.now.candidate.first.now }
    requires second { IsPackedFunction windowed.now.candidate.second.now }
    requires next { IsNext least.now next.old }
    requires starts { AreStarts windowed.now.limits.windows windowed.now.starts.now }
    requires window { window < WINDOWS }
    requires order { next.old.done ≤ window_start windowed.now.limits.windows window }
    ensures next { IfOk result (λ _. IsNext least.now next.new) }
    ensures order { IfOk result (λ end.
        next.new.done ≤ window_start windowed.now.limits.windows end) }
    ensures later { IfOk result (λ end. window < end) }
    ensures within { IfOk result (λ end. end ≤ WINDOWS) }
    ensures merged { IfOk result (λ end. MergesSeen
        windowed.now.limits windowed.now.candidate least.now
        (window_start windowed.now.limits.windows window)
        (window_start windowed.now.limits.windows end) next.old next.new) }
{
    if is_late(windowed.limits, window) {
        return Ok(window + 1);
    }
    let end = late_from(windowed.limits, window + 1);
    let from = start_in(windowed.starts, window);
    let until = start_in(windowed.starts, end);
    if from >= until {
        return Ok(end);
    }
    link_and_compare(least, windowed.candidate, from, until, linked, next)?;
    Ok(end)
}

// Takes the candidate where it wins, in the windows in which it isn't late.
fn compare_windows(
    least: &Least,
    candidate: Candidate<'_>,
    limits: Limits<'_>,
    linked: &mut Vec<PackedRun>,
    next: &mut Next,
) -> Result<(), NoMemory>
    requires least { IsHeld least.now }
    requires first { IsPackedFunction candidate.first.now }
    requires second { IsPackedFunction candidate.second.now }
    requires next { IsNext least.now next.old }
    requires none { next.old.done ≡ 0 }
    requires empty { next_held next.old ≡ [] }
    ensures next { IfOk result (λ _. IsNext least.now next.new) }
    ensures merged { IfOk result (λ _.
        (arrival : ℕ → ℕ) → IsSeen limits.entry candidate.entry least.now arrival
        → IsMerging least.now arrival candidate.entry.way next.new DAY) }
{
    let starts = limits.windows.starts();
    let windowed = Windowed {
        candidate,
        limits,
        starts: &starts,
    };
    let mut window = 0;
    'windows: while window < WINDOWS {
        window = compare_windows_from(least, &windowed, window, linked, next)?;
    }
    Ok(())
}

impl PartMerger {
    /// A merger with no candidate.
    pub fn new(alloc: Global) -> Result<PartMerger, NoMemory>
        ensures arrival { IfOk result (λ merger.
            (t : ℕ) → t < DAY → least_arrival merger t ≡ MOST) }
        ensures way { IfOk result (λ merger.
            (t : ℕ) → t < DAY → least_way merger t ≡ NOBODY) }
    {
        let least = Least {
            packed: vec![in alloc; PackedRun::of(0, true, MOST), PackedRun::end()]?,
            ways: vec![in alloc; NOBODY, NOBODY]?,
        };
        let next = Next {
            packed: Vec::new(alloc),
            ways: Vec::new(alloc),
            index: 0,
            done: 0,
        };
        Ok(PartMerger {
            least,
            next,
            linked: Vec::new(alloc),
        })
    }

    /// Forgets all candidates: from then on the least is later than any arrival, and nobody's. Takes no memory.
    pub fn clear(&mut self)
        ensures arrival { (t : ℕ) → t < DAY → least_arrival self.new t ≡ MOST }
        ensures way { (t : ℕ) → t < DAY → least_way self.new t ≡ NOBODY }
    {
        self.least.packed.truncate(2);
        self.least.ways.truncate(2);
        self.least.packed[0] = PackedRun::of(0, true, MOST);
        self.least.packed[1] = PackedRun::end();
        self.least.ways[0] = NOBODY;
        self.least.ways[1] = NOBODY;
    }

    /// Adds a candidate, the composition of two functions, under its number. Where it arrives as early as another, the
    /// one with the lower number stays. After a refusal for want of memory the merger is what it was.
    pub fn add(
        &mut self,
        first: &[PackedRun],
        second: &[PackedRun],
        way: u32,
    ) -> Result<(), NoMemory>
        requires first { IsPackedFunction first.now }
        requires second { IsPackedFunction second.now }
        ensures arrival { IfOk result (λ _. (t : ℕ) → t < DAY → least_arrival self.new t
            ≡ min (least_arrival self.old t) (composed first.now second.now t)) }
        ensures way { IfOk result (λ _. (t : ℕ) → t < DAY → least_way self.new t
            ≡ way_with self.old (composed first.now second.now t) way t) }
        ensures err { OnErr result (self.new ≡ self.old) }
    {
        if self.has_none() {
            return self.begin_with(first, second, way);
        }
        let candidate = Candidate { first, second, way };
        self.next.restart();
        link_and_compare(
            &self.least,
            candidate,
            0,
            END,
            &mut self.linked,
            &mut self.next,
        )?;
        if self.next.packed.is_empty() {
            return Ok(());
        }
        self.next.finish(&self.least)?;
        mem::swap(&mut self.least.packed, &mut self.next.packed);
        mem::swap(&mut self.least.ways, &mut self.next.ways);
        Ok(())
    }

    // Is the least later than any arrival all day, as where there is no candidate?
    fn has_none(&self) -> bool
        ensures { IsTrue result → (t : ℕ) → t < DAY → least_arrival self.now t ≡ MOST }
    {
        let packed = &self.least.packed;
        packed.len() == 2 && packed[0].has_rule_of(PackedRun::of(0, true, MOST))
    }

    // Adds a candidate where there is none: it is the least all day, so nothing is compared.
    fn begin_with(
        &mut self,
        first: &[PackedRun],
        second: &[PackedRun],
        way: u32,
    ) -> Result<(), NoMemory>
        requires first { IsPackedFunction first.now }
        requires second { IsPackedFunction second.now }
        requires none { (t : ℕ) → t < DAY → least_arrival self.old t ≡ MOST }
        ensures arrival { IfOk result (λ _. (t : ℕ) → t < DAY → least_arrival self.new t
            ≡ min (least_arrival self.old t) (composed first.now second.now t)) }
        ensures way { IfOk result (λ _. (t : ℕ) → t < DAY → least_way self.new t
            ≡ way_with self.old (composed first.now second.now t) way t) }
        ensures err { OnErr result (self.new ≡ self.old) }
    {
        link(first, second, &mut self.linked)?;
        self.next.restart();
        self.next.take_all(&self.linked, way)?;
        self.next.finish(&self.least)?;
        mem::swap(&mut self.least.packed, &mut self.next.packed);
        mem::swap(&mut self.least.ways, &mut self.next.ways);
        Ok(())
    }

    /// The same where it is known what the composition takes at least in each window of the day: where it takes longer
    /// than some limit it may be left out. Answers whether anything changed, of which no clause speaks.
    pub fn add_within(
        &mut self,
        first: &[PackedRun],
        second: &[PackedRun],
        way: u32,
        limits: Limits<'_>,
    ) -> Result<bool, NoMemory>
        requires first { IsPackedFunction first.now }
        requires second { IsPackedFunction second.now }
        requires lower { TakesInWindows limits.windows (composed first.now second.now)
            limits.lower.now }
        ensures { IfOk result (λ _. IsAddedWithin limits.entry.windows limits.entry.most.now
            (composed first.now second.now) way self.old self.new) }
    {
        let candidate = Candidate { first, second, way };
        self.next.restart();
        compare_windows(
            &self.least,
            candidate,
            limits,
            &mut self.linked,
            &mut self.next,
        )?;
        if self.next.packed.is_empty() {
            return Ok(false);
        }
        self.next.finish(&self.least)?;
        mem::swap(&mut self.least.packed, &mut self.next.packed);
        mem::swap(&mut self.least.ways, &mut self.next.ways);
        Ok(true)
    }

    /// Lowers the limit of each window of the day to what the least takes at most.
    pub fn lower_limits(&self, windows: Windows, limits: &mut [u32; WINDOWS])
        ensures { AreLowered windows (least_arrival self.now) limits.old limits.new }
    {
        lower_limits(&self.least.packed, windows, limits);
    }

    /// Has it no candidate at all? Each is there at every second of the day.
    pub fn is_empty(&self) -> bool
        ensures { IsTrue result ↔ (least_way self.now 0 ≡ NOBODY) }
    {
        self.least.ways[0] == NOBODY
    }

    /// The least arrivals as a function, where all are within the limit of numbers: neighbouring runs differ.
    pub fn least_runs(&self, alloc: Global) -> Result<Vec<PackedRun>, NoMemory>
        requires limit { (t : ℕ) → t < DAY → least_arrival self.now t ≤ MAX_NUMBER }
        requires order { KeepsDayOrder (least_arrival self.now) }
        ensures function { IfOk result (λ packed. IsPackedFunction packed.items) }
        ensures value { IfOk result (λ packed. (t : ℕ) → t < DAY →
            arrival_value packed.items t ≡ least_arrival self.now t) }
        ensures compact { IfOk result (λ packed. IsCompactDay packed.items) }
    {
        let packed = compact(alloc, &self.least.packed)?;
        Ok(packed)
    }

    /// The numbers of the candidates that are the least, each from the second from which it is: neighbours differ.
    pub fn way_runs(&self, alloc: Global) -> Result<Vec<WayRun>, NoMemory>
        ensures { IfOk result (λ runs. IsWayRuns self.now runs.items) }
    {
        runs_of_ways(alloc, &self.least)
    }
}

// The numbers of the candidates that are the least, neighbours of one number as one.
fn runs_of_ways(alloc: Global, least: &Least) -> Result<Vec<WayRun>, NoMemory>
    requires { IsHeld least.now }
    ensures { IfOk result (λ runs. IsWayRuns (least_held least.now) runs.items) }
{
    let mut runs = Vec::with_capacity(alloc, count_ways(&least.ways))?;
    'runs: for index in 0..least.packed.len() - 1 {
        let run = WayRun {
            from: least.packed[index].from() as u32,
            way: least.ways[index],
        };
        push_way(&mut runs, run)?;
    }
    Ok(runs)
}

// Adds the number of a candidate, unless the last one is the same.
fn push_way(runs: &mut Vec<WayRun>, run: WayRun) -> Result<(), NoMemory>
    ensures { IfOk result (λ _.
        IsPushed (λ (r : WayRun). r.way) runs.old.items run runs.new.items) }
{
    if last_way(runs) == Some(run.way) {
        return Ok(());
    }
    runs.push(run)?;
    Ok(())
}

fn last_way(runs: &[WayRun]) -> Option<u32>
    ensures { result ≡ last_says (λ (r : WayRun). r.way) runs.now }
{
    runs.last().map(|last| last.way)
}

// How many entries are left where neighbours of one number become one, without the end.
fn count_ways(ways: &[u32]) -> usize
    requires { 0 < length ways.now }
{
    let mut count = 0;
    for index in 0..ways.len() - 1 {
        if index == 0 || ways[index] != ways[index - 1] {
            count += 1;
        }
    }
    count
}
