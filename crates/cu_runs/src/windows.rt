//! How long functions take in each window of the day. These bounds tell where a candidate can't be the least, and so
//! needs no linking.

ghost use Rattle.std.specs.Prelude.{◌≡◌, ◌≤◌, ◌<◌, ◌+◌, ◌*◌, ◌↔◌, ℕ, IsTrue, min};
ghost use Rattle.std.proofs.Common.{get_or};
ghost use Rattle.cu_model.specs.declared.limits.TheConstants.{DAY};
ghost use Rattle.cu_model.specs.Days.{IsOnward};
ghost use Rattle.cu_arrival.specs.Runs.{arrival_value};
ghost use Rattle.cu_runs.specs.PackedRuns.{IsDayList};
ghost use Rattle.cu_runs.specs.Windows.{
  AreEach,
  AreLowered,
  AreStarts,
  TakesBetween,
  TakesUpToBetween,
  window_start,
};
ghost use Rattle.cu_runs.specs.Steps.Bounded.{
  AreBounds,
  AreReaches,
  AreSpans,
  IsAt,
  IsOfBoth,
  IsReach,
  IsSpan,
  IsUpper,
  IsWindow,
};
ghost use Rattle.cu_runs.specs.Travels.{TakesAtLeast, TakesAtMost};

use crate::choosing_windows::widths_for;
use crate::packed_runs::{PackedRun, stepped};
use cu_model::{DAY, Roads};

/// How many windows a day has.
pub const WINDOWS: usize = 32;

/// How many of them have a width: all but the last one, which ends with the day.
pub const WIDTHS: usize = WINDOWS - 1;

/// How many seconds there are at which a window begins or the day ends.
pub const STARTS: usize = WINDOWS + 1;

// The reach that is the whole day, behind those of two windows and of four.
const WHOLE: usize = 2 * WINDOWS;

// How many reaches there are.
const REACHES: usize = WHOLE + 1;

/// No limit of what a function takes in a window: the greatest number that one has room for.
pub const NO_LIMIT: u32 = u32::MAX;

/// A travel time that is no bound: greater ones have none.
pub const UNKNOWN: u16 = 65_535;

// The seconds of a day, as wide as arrivals are.
const END: u64 = DAY as u64;

/// The windows of a day: how many seconds each begins behind the one before, none of them behind the end of the day.
/// The last one ends with the day. Some may be empty.
#[derive(Clone, Copy, PartialEq, Eq)]
pub struct Windows {
    widths: [u16; WIDTHS],
}

/// How long a function takes from one second until another: at least, and at most where that is below 65,535.
#[derive(Clone, Copy, PartialEq, Eq)]
pub struct Span {
    pub least: u16,
    pub most: u16,
}

/// How long a function takes in each of some windows, and over each reach; and for each window the reach within which
/// all arrive who leave in it.
///
/// A reach is some windows, one behind the other, by a number: below 32 it is that window and the next one, below 64
/// the window of 32 less and the next three, as far as the day has them, and 64 is the whole day. So what a second
/// function takes behind a first one is looked up at one place, whichever windows those are. The least and the most
/// stand side by side there, as both are read.
#[derive(Drop)]
pub struct Bounds {
    windows: Windows,
    own: [Span; WINDOWS],
    reach: [u8; WINDOWS],
    over: [Span; REACHES],
}

/// What a candidate takes at least in each of these windows, and what some candidate takes at most.
#[derive(Clone, Copy)]
pub struct Limits<'a> {
    pub windows: Windows,
    pub lower: &'a [u32; WINDOWS],
    pub most: &'a [u32; WINDOWS],
}

// What is known of one window.
#[derive(Clone, Copy)]
struct Window {
    span: Span,
    reach: u8,
}

// How long a function takes over a stretch of the day, at least and at most, and the index of the run in force at its
// end.
#[derive(Clone, Copy)]
struct Travels {
    index: usize,
    least: u64,
    most: u64,
}

impl Windows {
    /// Windows that are narrow where much changes in the profiles of a network.
    pub fn of<R: Roads>(roads: &R) -> Windows {
        Windows {
            widths: widths_for(roads),
        }
    }

    /// The second at which each window begins, and behind the last one the end of the day.
    pub fn starts(&self) -> [u32; STARTS]
        ensures { AreStarts self.now result }
    {
        let mut starts = [0; STARTS];
        'windows: for window in 0..WIDTHS {
            starts[window + 1] = DAY.min(starts[window] + u32::from(self.widths[window]));
        }
        starts[WINDOWS] = DAY;
        starts
    }
}

/// The second at which a window begins, and the end of the day behind the last one.
#[inline(always)]
pub fn start_in(starts: &[u32; STARTS], window: usize) -> u64
    ensures { (windows : Windows) → AreStarts windows starts.now
        → result ≡ window_start windows window }
{
    u64::from(starts[window.min(WINDOWS)])
}

// The window that has a second of the day. Each step halves those in question.
#[inline(always)]
fn window_at(starts: &[u32; STARTS], second: u64) -> usize
    ensures { result < WINDOWS }
{
    let window = narrowed(starts, second, 0, 16);
    let window = narrowed(starts, second, window, 8);
    let window = narrowed(starts, second, window, 4);
    let window = narrowed(starts, second, window, 2);
    narrowed(starts, second, window, 1)
}

// The window so many behind this one, where that has begun by a second, or else this one.
#[inline(always)]
fn narrowed(starts: &[u32; STARTS], second: u64, window: usize, step: usize) -> usize
    requires { window + step < WINDOWS }
    ensures { result ≤ window + step }
{
    if start_in(starts, window + step) <= second {
        return window + step;
    }
    window
}

// A reach that has all seconds from one to another on one day, or that of the whole day.
#[inline(always)]
fn reach(starts: &[u32; STARTS], first: u64, last: u64) -> usize
    ensures few { result ≤ 2 * WINDOWS }
    ensures reach { (windows : Windows) → AreStarts windows starts.now
        → IsReach windows first last result }
{
    let second = first % END;
    let midnight = first - second;
    let window = window_at(starts, second);
    if start_in(starts, window) > second {
        return WHOLE;
    }
    if last < midnight.saturating_add(start_in(starts, window + 2)) {
        return window;
    }
    if last < midnight.saturating_add(start_in(starts, window + 4)) {
        return WINDOWS + window;
    }
    WHOLE
}

impl Bounds {
    /// The bounds of a function that takes so much at least and at most.
    pub fn of(packed: &[PackedRun], least: u64, most: u64, windows: Windows) -> Bounds
        requires over_day { IsDayList packed.now }
        requires onward { IsOnward (arrival_value packed.now) }
        requires least { TakesAtLeast packed.now least }
        requires most { TakesAtMost packed.now most }
        ensures windows { result.windows ≡ windows }
        ensures bounds { AreBounds (arrival_value packed.now) result }
    {
        let whole = span_of(least, most);
        let mut bounds = Bounds {
            windows,
            own: [whole; WINDOWS],
            reach: [0; WINDOWS],
            over: [whole; REACHES],
        };
        let starts = windows.starts();
        let mut index = 0;
        'windows: for window in 0..WINDOWS {
            let from = start_in(&starts, window);
            let until = start_in(&starts, window + 1);
            let travels = travels_between(packed, index, from, until);
            let known = window_of(&starts, from, until, travels);
            bounds.own[window] = known.span;
            bounds.reach[window] = known.reach;
            index = travels.index;
        }
        bounds.over = by_reach(&bounds.own, whole);
        bounds
    }

    /// Are they bounds in these windows?
    pub fn are_in(&self, windows: Windows) -> bool
        ensures { IsTrue result ↔ (self.now.windows ≡ windows) }
    {
        self.windows == windows
    }

    /// What a function takes at least in a window together with one behind it.
    #[inline(always)]
    pub fn least_with(&self, second: &Bounds, window: usize) -> u32
        requires window { window < WINDOWS }
        requires reach { get_or self.now.reach window 0 ≤ 2 * WINDOWS }
        requires same { second.now.windows ≡ self.now.windows }
        ensures { IsOfBoth (λ f from until. TakesBetween f from until result)
            self.now second.now window }
    {
        let reach = self.reach[window] as usize;
        u32::from(self.own[window].least) + u32::from(second.over[reach].least)
    }

    /// What it takes at most, where that is below 4,294,967,295.
    #[inline(always)]
    pub fn most_with(&self, second: &Bounds, window: usize) -> u32
        requires window { window < WINDOWS }
        requires reach { get_or self.now.reach window 0 ≤ 2 * WINDOWS }
        requires same { second.now.windows ≡ self.now.windows }
        ensures { IsOfBoth (λ f from until. IsUpper f from until result)
            self.now second.now window }
    {
        let reach = self.reach[window] as usize;
        let most = u32::from(self.own[window].most) + u32::from(second.over[reach].most);
        // Unknown where one of the two is. As great a sum of two that are known is dropped too: it only loses a limit.
        if most >= u32::from(UNKNOWN) {
            return NO_LIMIT;
        }
        most
    }
}

// What a function takes over each reach, by what it takes in each window and over the day.
fn by_reach(own: &[Span; WINDOWS], whole: Span) -> [Span; REACHES]
    ensures { (windows : Windows) → (f : ℕ → ℕ) → AreSpans windows f own.now
        → IsSpan f 0 DAY whole → AreReaches windows f result }
{
    let mut over = [whole; REACHES];
    'windows: for window in 0..WINDOWS {
        let two = of_two(own, window);
        over[window] = two;
        over[WINDOWS + window] = joined(two, of_two(own, window + 2));
    }
    over
}

// What a function takes in a window and the next one, as far as the day has them.
#[inline(always)]
fn of_two(own: &[Span; WINDOWS], window: usize) -> Span
    requires { window ≤ 2 * WINDOWS }
    ensures { (windows : Windows) → (f : ℕ → ℕ) → AreSpans windows f own.now
        → IsSpan f (window_start windows window) (window_start windows (window + 2)) result }
{
    joined(
        own[window.min(WINDOWS - 1)],
        own[(window + 1).min(WINDOWS - 1)],
    )
}

// What a function takes over both of two stretches of the day, one behind the other.
#[inline(always)]
fn joined(one: Span, two: Span) -> Span
    ensures { (f : ℕ → ℕ) → (from middle until : ℕ) → IsSpan f from middle one
        → IsSpan f middle until two → IsSpan f from until result }
{
    Span {
        least: one.least.min(two.least),
        most: one.most.max(two.most),
    }
}

// How long a function takes in a window, by its travel times from one second until another.
#[inline(always)]
fn window_of(starts: &[u32; STARTS], from: u64, until: u64, travels: Travels) -> Window
    ensures { (windows : Windows) → AreStarts windows starts.now
        → (f : ℕ → ℕ) → (window : ℕ) → from ≡ window_start windows window
        → until ≡ window_start windows (window + 1) → TakesBetween f from until travels.least
        → TakesUpToBetween f from until travels.most → IsWindow windows f window result }
{
    let reach = reach(
        starts,
        from.saturating_add(travels.least),
        until.saturating_add(travels.most),
    );
    Window {
        span: span_of(travels.least, travels.most),
        reach: reach as u8,
    }
}

// Such travel times, as short numbers have them.
#[inline(always)]
fn span_of(least: u64, most: u64) -> Span
    ensures { (f : ℕ → ℕ) → (from until : ℕ) → TakesBetween f from until least
        → TakesUpToBetween f from until most → IsSpan f from until result }
{
    Span {
        least: short(least),
        most: short(most),
    }
}

// A travel time, or 65,535 where it is greater.
#[inline(always)]
fn short(seconds: u64) -> u16
    ensures { result ≡ min seconds UNKNOWN }
{
    seconds.min(u64::from(UNKNOWN)) as u16
}

/// Lowers the limit of each window to what a function takes at most.
pub fn lower_limits(packed: &[PackedRun], windows: Windows, limits: &mut [u32; WINDOWS])
    requires { IsDayList packed.now }
    ensures { AreLowered windows (arrival_value packed.now) limits.old limits.new }
{
    let starts = windows.starts();
    let mut index = 0;
    'windows: for window in 0..WINDOWS {
        let from = start_in(&starts, window);
        let until = start_in(&starts, window + 1);
        let travels = travels_between(packed, index, from, until);
        limits[window] = lesser(limits[window], travels.most);
        index = travels.index;
    }
}

/// Writes the same number for each window.
pub fn fill(numbers: &mut [u32; WINDOWS], number: u32)
    ensures { AreEach (λ _ one. one ≡ number) numbers.new WINDOWS }
{
    'windows: for window in 0..WINDOWS {
        numbers[window] = number;
    }
}

// The lesser of two numbers.
#[inline(always)]
fn lesser(limit: u32, other: u64) -> u32
    ensures { result ≡ min limit other }
{
    other.min(u64::from(limit)) as u32
}

// What a function takes from one second until another, from the run in force at the first.
#[inline(always)]
fn travels_between(packed: &[PackedRun], first: usize, from: u64, until: u64) -> Travels
    requires over_day { IsDayList packed.now }
    requires first { IsAt packed.now first from }
    requires order { from ≤ until }
    requires in_day { until ≤ DAY }
    ensures index { IsAt packed.now result.index until }
    ensures least { IsOnward (arrival_value packed.now)
        → TakesBetween (arrival_value packed.now) from until result.least }
    ensures most { TakesUpToBetween (arrival_value packed.now) from until result.most }
{
    let mut index = first;
    let mut at = from;
    let mut least = u64::MAX;
    let mut most = 0_u64;
    'stretch: while at < until {
        let run = packed[index];
        let run_end = packed[index + 1].from();
        let end = run_end.min(until);
        least = least.min(run.arrives(end - 1).saturating_sub(end - 1));
        most = most.max(run.arrives(at).saturating_sub(at));
        index = stepped(index, run_end, end);
        at = end;
    }
    Travels { index, least, most }
}
