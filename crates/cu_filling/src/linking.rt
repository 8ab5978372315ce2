//! Functions of both halves linked from their brief runs, put behind runs that say all before.

ghost use Rattle.std.specs.Prelude.{◌≡◌, ◌≤◌, ◌<◌, ◌+◌, ◌^◌, ℕ, IfOk};
ghost use Rattle.cu_model.specs.declared.limits.TheConstants.{DAY};
ghost use Rattle.cu_arrival.specs.Runs.{arrives, rule_number};
ghost use Rattle.cu_brief.specs.BriefRuns.{IsBrief};
ghost use Rattle.cu_filling.specs.Filling.{SaysUpTo, behind_rule, linked_value};

use cu_brief::{Brief, in_force_at};
use cu_model::{DAY, NoMemory};
use cu_runs::{PackedRun, push_run};

// The seconds of a day, as wide as arrivals are.
const END: u64 = DAY as u64;

// A run that says when both halves arrive, one behind the other, and until when; and the indices of the runs by which.
#[derive(Clone, Copy)]
struct Step {
    run: PackedRun,
    end: u64,
    first: usize,
    second: usize,
}

/// Adds when a second function arrives, leaving when a first one does, from one second of the day until another, to runs that say
/// all before. The work is by the runs of this stretch alone.
pub fn add_linked(
    first: &Brief<'_>,
    second: &Brief<'_>,
    from: u64,
    until: u64,
    whole: &mut Vec<PackedRun>,
) -> Result<(), NoMemory>
    requires first { IsBrief first.now.runs.now }
    requires second { IsBrief second.now.runs.now }
    requires some { from < until }
    requires in_day { until ≤ DAY }
    ensures { IfOk result (λ _. (f : ℕ → ℕ) → SaysUpTo f whole.old.items from
        → ((t : ℕ) → from ≤ t → t < until
        → linked_value first.now.base first.now.runs.now second.now.base second.now.runs.now t ≡ f t)
        → SaysUpTo f whole.new.items until) }
{
    let mut at = from;
    let mut near_first = 0;
    let mut near_second = 0;
    'steps: while at < until {
        let step = step_at(first, second, near_first, near_second, at);
        let end = step.end.min(until);
        push_run(whole, step.run)?;
        near_first = step.first;
        near_second = step.second;
        at = end;
    }
    Ok(())
}

// The run from this second of the day on.
#[inline(always)]
fn step_at(
    first: &Brief<'_>,
    second: &Brief<'_>,
    near_first: usize,
    near_second: usize,
    at: u64,
) -> Step
    requires first { IsBrief first.now.runs.now }
    requires second { IsBrief second.now.runs.now }
    requires in_day { at < DAY }
    ensures from { result.run.from ≡ at }
    ensures some { at < result.end }
    ensures says { (t : ℕ) → at ≤ t → t < result.end → arrives result.run.rule t
        ≡ linked_value first.now.base first.now.runs.now second.now.base second.now.runs.now t }
{
    let to = in_force_at(first, near_first, at as u32);
    let between = arrival_of(to.run, at);
    let midnight = between / END * END;
    let second_of_day = between - midnight;
    let on = in_force_at(second, near_second, second_of_day as u32);
    if to.run.is_fixed() {
        let arrival = midnight + arrival_of(on.run, second_of_day);
        return Step {
            run: PackedRun::of(at, true, arrival),
            end: u64::from(to.end),
            first: to.index,
            second: on.index,
        };
    }
    let run = behind(on.run, between - at, midnight, at);
    let left = u64::from(on.end) - second_of_day;
    Step {
        run,
        end: u64::from(to.end).min(at + left),
        first: to.index,
        second: on.index,
    }
}

// When a run that says little arrives.
#[inline(always)]
fn arrival_of(run: PackedRun, second: u64) -> u64
    requires small { rule_number run.rule < 2 ^ 33 }
    requires second { second < DAY }
    ensures value { result ≡ arrives run.rule second }
    ensures small { result < 2 ^ 33 + 2 ^ 17 }
{
    run.arrives(second)
}

// The run from this second of the day on that takes so many seconds first: what is fixed arrives on the day that begins at
// `midnight`.
#[inline(always)]
fn behind(run: PackedRun, seconds: u64, midnight: u64, from: u64) -> PackedRun
    requires small { rule_number run.rule < 2 ^ 33 }
    requires seconds { seconds < 2 ^ 34 }
    requires midnight { midnight < 2 ^ 34 }
    requires from { from ≤ DAY }
    ensures from { result.from ≡ from }
    ensures rule { result.rule ≡ behind_rule run.rule seconds midnight }
{
    if run.is_fixed() {
        PackedRun::of(from, true, midnight + run.number())
    } else {
        PackedRun::of(from, false, seconds + run.number())
    }
}
