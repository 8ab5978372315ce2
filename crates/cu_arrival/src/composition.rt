//! The composition of two arrival functions: along a first road or shortcut and then a second. It is the operation that
//! time-dependent contraction hierarchies call link, here exact at whole seconds.

ghost use Rattle.std.specs.Prelude.{◌≡◌, ◌≤◌, ◌<◌, ◌+◌, ◌^◌, ℕ, IfOk, min};
ghost use Rattle.cu_model.specs.declared.limits.TheConstants.{DAY};
ghost use Rattle.cu_arrival.specs.declared.runs.RunRule.TheVariants.{Shift};
ghost use Rattle.cu_arrival.specs.Runs.{arrival_value, rule_number, IsArrivalFunction, IsCompact, arrives};
ghost use Rattle.cu_arrival.specs.Steps.TwoRules.{IsLinked};

use crate::growing::push_run;
use crate::packing::RunList;
use crate::runs::{Arrival, Run, RunRule};
use crate::stretches::{Stretch, arrive_by, reach, stretch_at};
use cu_model::{DAY, NoMemory};
use std::alloc::Global;

// The last second at which a function arrives on day 0.
const LATEST: u64 = 1 << 62;

// A rule of the composition, and the first second at which it no longer holds.
#[derive(Clone, Copy)]
struct Linked {
    rule: RunRule,
    end: u64,
}

/// The composition: along the first function and from where it arrives along the second, which repeats by whole days. A
/// value past 2^62 becomes 2^62. Neighbouring runs differ. The work is linear in the runs of both.
pub fn compose(alloc: Global, first: &Arrival, second: &Arrival) -> Result<Arrival, NoMemory>
    ensures value { IfOk result (λ f. (t : ℕ) → t < DAY
        → arrival_value f t ≡ min (arrival_value second.now (arrival_value first.now t)) (2 ^ 62)) }
    ensures sound { IfOk result IsArrivalFunction }
    ensures compact { IfOk result IsCompact }
{
    let first_runs = first.runs();
    let second_runs = second.runs();
    let mut runs = RunList::with_capacity(alloc, first_runs.len() + second_runs.len())?;
    let mut first_stretch = stretch_at(first_runs, 0);
    let mut second_stretch = stretch_at(second_runs, first.value(0));
    let mut at = 0;
    'day: while at < u64::from(DAY) {
        first_stretch = reach(first_runs, first_stretch, at);
        second_stretch = reach(
            second_runs,
            second_stretch,
            arrive_by(first_stretch.rule, at),
        );
        let step = link_stretches(first_stretch, second_stretch, at);
        let run = Run {
            from: at as u32,
            rule: step.rule,
        };
        push_run(&mut runs, run)?;
        at = step.end;
    }
    Ok(Arrival::of_runs(runs))
}

// The rule of the composition at a second at which both stretches are reached, and until when it holds.
#[inline(always)]
fn link_stretches(first: Stretch, second: Stretch, at: u64) -> Linked
    requires now { at < first.end }
    requires day { first.end ≤ DAY }
    requires first { rule_number first.rule ≤ 2 ^ 62 }
    requires second { rule_number second.rule ≤ 2 ^ 63 }
    requires reached { arrives first.rule at < second.end }
    requires near { second.end < 2 ^ 63 }
    ensures link { IsLinked first.rule second.rule at first.end result }
    ensures reached { (s : ℕ) → at ≤ s → s < result.end → arrives first.rule s < second.end }
{
    match first.rule {
        RunRule::Fixed(midway) => Linked {
            rule: RunRule::Fixed(arrive_by(second.rule, midway).min(LATEST)),
            end: first.end,
        },
        RunRule::Shift(seconds) => shifted(
            seconds,
            second.rule,
            at,
            first.end.min(second.end - seconds),
        ),
    }
}

// The same where the first rule shifts by so many seconds.
#[inline(always)]
fn shifted(seconds: u64, second: RunRule, at: u64, end: u64) -> Linked
    requires now { at < end }
    requires day { end ≤ DAY }
    requires first { seconds ≤ 2 ^ 62 }
    requires second { rule_number second ≤ 2 ^ 63 }
    ensures { IsLinked (Shift seconds) second at end result }
{
    match second {
        RunRule::Fixed(arrival) => Linked {
            rule: RunRule::Fixed(arrival.min(LATEST)),
            end,
        },
        RunRule::Shift(more) => capped(seconds + more, at, end),
    }
}

// A shift by so many seconds, by the last second: what would arrive after it arrives then.
#[inline(always)]
fn capped(seconds: u64, at: u64, end: u64) -> Linked
    requires now { at < end }
    requires day { end ≤ DAY }
    requires room { seconds ≤ 2 ^ 62 + 2 ^ 63 }
    ensures { IsLinked (Shift 0) (Shift seconds) at end result }
{
    if at + seconds > LATEST {
        Linked {
            rule: RunRule::Fixed(LATEST),
            end,
        }
    } else {
        Linked {
            rule: RunRule::Shift(seconds),
            end: end.min(LATEST - seconds + 1),
        }
    }
}
