//! How far one function is behind another at most.

ghost use Rattle.std.specs.Prelude.{◌≡◌, ◌≤◌, ◌<◌, ◌+◌, ◌-◌, ◌^◌, ℕ};
ghost use Rattle.cu_model.specs.declared.limits.TheConstants.{DAY};
ghost use Rattle.cu_arrival.specs.Behind.{IsBehind};
ghost use Rattle.cu_arrival.specs.Runs.{arrives, rule_number};

use crate::runs::{Arrival, RunRule};
use crate::stretches::{arrive_by, reach, stretch_at};
use cu_model::DAY;

/// A number of seconds by which a limit is later than a function by less, at each second of the day. Where it is more than `most`,
/// no more than that is said. The work is linear in the runs of both.
pub fn slack_of(limit: &Arrival, function: &Arrival, most: u64) -> u64
    ensures { result ≤ most → IsBehind limit.now function.now result }
{
    let limit_runs = limit.runs();
    let function_runs = function.runs();
    let mut slack = 0;
    let mut at = 0;
    let mut first = stretch_at(limit_runs, 0);
    let mut second = stretch_at(function_runs, 0);
    'day: while at < u64::from(DAY) && slack <= most {
        first = reach(limit_runs, first, at);
        second = reach(function_runs, second, at);
        let end = first.end.min(second.end);
        slack = slack.max(slack_within(first.rule, second.rule, at, end));
        at = end;
    }
    slack
}

// The same of two rules that hold from a second on and before another: it is greatest at the first or at the last.
#[inline(always)]
fn slack_within(first: RunRule, second: RunRule, at: u64, end: u64) -> u64
    requires now { at < end }
    requires day { end ≤ DAY }
    requires first { rule_number first ≤ 2 ^ 62 }
    requires second { rule_number second ≤ 2 ^ 62 }
    ensures { (t : ℕ) → at ≤ t → t < end → arrives first t < arrives second t + result }
{
    behind(first, second, at).max(behind(first, second, end - 1))
}

// One second more than the first rule is behind the second, if it is.
#[inline(always)]
fn behind(first: RunRule, second: RunRule, at: u64) -> u64
    requires day { at < DAY }
    requires first { rule_number first ≤ 2 ^ 62 }
    requires second { rule_number second ≤ 2 ^ 62 }
    ensures { result ≡ (arrives first at + 1) - arrives second at }
{
    (arrive_by(first, at) + 1).saturating_sub(arrive_by(second, at))
}
