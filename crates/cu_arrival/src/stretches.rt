//! Stretches of seconds over which one run of an arrival function is in force, taken one after the other.

ghost use Rattle.std.specs.Prelude.{◌≡◌, ◌≤◌, ◌<◌, ◌+◌, ◌^◌, ◌%◌, ℕ, Some, length, slice_get};
ghost use Rattle.cu_model.specs.declared.limits.TheConstants.{DAY};
ghost use Rattle.cu_arrival.specs.declared.runs.Run.{Run};
ghost use Rattle.cu_arrival.specs.Runs.{IsArrivalFunction, arrival_value, rule_number, arrives};
ghost use Rattle.cu_arrival.specs.Steps.Stretches.{IsStretch, on_day, until_next};

use crate::packing::RunList;
use crate::runs::RunRule;
use cu_model::DAY;

/// A run in force, in absolute seconds: the begin of its day, its index, the first second at which another run begins,
/// and its rule. A `Fixed` rule names an absolute second here.
#[derive(Clone, Copy)]
pub struct Stretch {
    pub midnight: u64,
    pub index: usize,
    pub end: u64,
    pub rule: RunRule,
}

/// When a rule in absolute seconds arrives, leaving at an absolute second.
#[inline(always)]
pub fn arrive_by(rule: RunRule, second: u64) -> u64
    requires { second + rule_number rule < 2 ^ 64 }
    ensures { result ≡ arrives rule second }
{
    match rule {
        RunRule::Shift(seconds) => second + seconds,
        RunRule::Fixed(arrival) => arrival,
    }
}

// The rule in absolute seconds, on the day that begins at this second.
#[inline(always)]
fn rule_on(rule: RunRule, midnight: u64) -> RunRule
    requires { midnight + rule_number rule < 2 ^ 64 }
    ensures { result ≡ on_day rule midnight }
{
    match rule {
        RunRule::Shift(seconds) => RunRule::Shift(seconds),
        RunRule::Fixed(arrival) => RunRule::Fixed(midnight + arrival),
    }
}

// The second of the day from which the run after the one with this index holds, or the end of the day where that is the
// last.
#[inline(always)]
fn next_begin(runs: &RunList, index: usize) -> u64
    requires { index < length runs.now }
    ensures { result ≡ until_next (slice_get runs.now (index + 1)) }
{
    if index < runs.len() - 1 {
        u64::from(runs.at(index + 1).from)
    } else {
        u64::from(DAY)
    }
}

// The stretch of the run with this index, on the day that begins at this second.
#[inline(always)]
fn stretch_of(runs: &RunList, index: usize, midnight: u64) -> Stretch
    requires valid { IsArrivalFunction runs.now }
    requires within { index < length runs.now }
    requires whole { midnight % DAY ≡ 0 }
    requires time { midnight ≤ 2 ^ 62 }
    ensures midnight { result.midnight ≡ midnight }
    ensures index { result.index ≡ index }
    ensures end { result.end ≡ midnight + until_next (slice_get runs.now (index + 1)) }
    ensures run { (run : Run)
        × (slice_get runs.now index ≡ Some run)
        × (result.rule ≡ on_day run.rule midnight) }
{
    Stretch {
        midnight,
        index,
        end: midnight + next_begin(runs, index),
        rule: rule_on(runs.at(index).rule, midnight),
    }
}

/// The stretch in which an absolute second lies.
pub fn stretch_at(runs: &RunList, second: u64) -> Stretch
    requires valid { IsArrivalFunction runs.now }
    requires time { second ≤ 2 ^ 62 }
    ensures stretch { IsStretch runs.now result second }
    ensures holds { second < result.end }
{
    let time = second % u64::from(DAY);
    stretch_of(runs, runs.index_begun(time as u32), second - time)
}

// The stretch that begins where one ends: the next run's, or the first one's of the next day.
#[inline(always)]
fn following(runs: &RunList, last: Stretch) -> Stretch
    requires valid { IsArrivalFunction runs.now }
    requires stretch { IsStretch runs.now last last.end }
    requires time { last.end ≤ 2 ^ 62 }
    ensures stretch { IsStretch runs.now result last.end }
    ensures later { last.end < result.end }
{
    if last.index < runs.len() - 1 {
        stretch_of(runs, last.index + 1, last.midnight)
    } else {
        stretch_of(runs, 0, last.midnight + u64::from(DAY))
    }
}

/// The stretch in which an absolute second lies, from one that begins no later.
#[inline(always)]
pub fn reach(runs: &RunList, from: Stretch, second: u64) -> Stretch
    requires valid { IsArrivalFunction runs.now }
    requires stretch { IsStretch runs.now from second }
    requires time { second ≤ 2 ^ 62 }
    ensures stretch { IsStretch runs.now result second }
    ensures holds { second < result.end }
    ensures value { arrival_value runs.now second ≡ arrives result.rule second }
    ensures near { result.end ≤ second + DAY }
    ensures limit { rule_number result.rule ≤ second + 2 ^ 62 }
    ensures day { second < DAY → result.end ≤ DAY }
    ensures day_limit { second < DAY → rule_number result.rule ≤ 2 ^ 62 }
{
    let mut stretch = from;
    while stretch.end <= second {
        stretch = following(runs, stretch);
    }
    stretch
}
