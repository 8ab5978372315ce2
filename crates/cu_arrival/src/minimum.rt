//! The pointwise minimum of two arrival functions, and which of them it is. It is the operation that time-dependent
//! contraction hierarchies call merge, here exact at whole seconds.

ghost use Rattle.std.specs.Prelude.{◌≡◌, ◌≤◌, ◌<◌, ◌+◌, ◌^◌, ℕ, IfOk, min, if◌then◌else◌};
ghost use Rattle.cu_model.specs.declared.limits.TheConstants.{DAY};
ghost use Rattle.cu_arrival.specs.Runs.{arrival_value, rule_number, IsArrivalFunction, IsCompact, arrives};
ghost use Rattle.cu_arrival.specs.Choices.{IsChoices};
ghost use Rattle.cu_arrival.specs.Steps.TwoRules.{IsEarlier};

use crate::growing::{push_choice, push_run};
use crate::packing::RunList;
use crate::runs::{Arrival, Choice, Run, RunRule};
use crate::stretches::{reach, stretch_at};
use cu_model::{DAY, NoMemory};
use std::alloc::Global;

// The earlier of two rules, whether it is the second, and the first second at which that no longer holds.
#[derive(Clone, Copy)]
struct Earlier {
    rule: RunRule,
    second: bool,
    end: u64,
}

/// The earlier of two functions at each second, and from which seconds on it is the second one: where that is strictly
/// earlier; a tie is the first's. Neighbouring runs differ. The work is linear in the runs of both.
pub fn lesser(
    alloc: Global,
    first: &Arrival,
    second: &Arrival,
) -> Result<(Arrival, Vec<Choice>), NoMemory>
    ensures value { IfOk result (λ (f, choices). (t : ℕ) → t < DAY
        → arrival_value f t ≡ min (arrival_value first.now t) (arrival_value second.now t)) }
    ensures choices { IfOk result
        (λ (f, choices). IsChoices first.now second.now choices.items) }
    ensures sound { IfOk result (λ (f, choices). IsArrivalFunction f) }
    ensures compact { IfOk result (λ (f, choices). IsCompact f) }
{
    let first_runs = first.runs();
    let second_runs = second.runs();
    let mut runs = RunList::with_capacity(alloc, first_runs.len() + second_runs.len())?;
    let mut choices = Vec::new(alloc);
    let mut first_stretch = stretch_at(first_runs, 0);
    let mut second_stretch = stretch_at(second_runs, 0);
    let mut at = 0;
    'day: while at < u64::from(DAY) {
        first_stretch = reach(first_runs, first_stretch, at);
        second_stretch = reach(second_runs, second_stretch, at);
        let end = first_stretch.end.min(second_stretch.end);
        let step = earlier_rule(first_stretch.rule, second_stretch.rule, at, end);
        let run = Run {
            from: at as u32,
            rule: step.rule,
        };
        push_run(&mut runs, run)?;
        let choice = Choice {
            from: at as u32,
            second: step.second,
        };
        push_choice(&mut choices, choice)?;
        at = step.end;
    }
    choices.shrink_to_fit();
    Ok((Arrival::of_runs(runs), choices))
}

/// [`lesser`] without its choices.
pub fn least(alloc: Global, first: &Arrival, second: &Arrival) -> Result<Arrival, NoMemory>
    ensures value { IfOk result (λ f. (t : ℕ) → t < DAY
        → arrival_value f t ≡ min (arrival_value first.now t) (arrival_value second.now t)) }
    ensures sound { IfOk result IsArrivalFunction }
    ensures compact { IfOk result IsCompact }
{
    let first_runs = first.runs();
    let second_runs = second.runs();
    let mut runs = RunList::with_capacity(alloc, first_runs.len() + second_runs.len())?;
    let mut first_stretch = stretch_at(first_runs, 0);
    let mut second_stretch = stretch_at(second_runs, 0);
    let mut at = 0;
    'day: while at < u64::from(DAY) {
        first_stretch = reach(first_runs, first_stretch, at);
        second_stretch = reach(second_runs, second_stretch, at);
        let end = first_stretch.end.min(second_stretch.end);
        let step = earlier_rule(first_stretch.rule, second_stretch.rule, at, end);
        let run = Run {
            from: at as u32,
            rule: step.rule,
        };
        push_run(&mut runs, run)?;
        at = step.end;
    }
    Ok(Arrival::of_runs(runs))
}

// The earlier of two rules at a second, and until when it is the earlier, at most until `end`. The first one takes a tie.
fn earlier_rule(first: RunRule, second: RunRule, at: u64, end: u64) -> Earlier
    requires now { at < end }
    requires day { end ≤ DAY }
    requires first { rule_number first ≤ 2 ^ 62 }
    requires second { rule_number second ≤ 2 ^ 62 }
    ensures { IsEarlier first second at end result }
{
    match (first, second) {
        (RunRule::Shift(a), RunRule::Shift(b)) | (RunRule::Fixed(a), RunRule::Fixed(b)) => {
            lasting(first, second, b < a, end)
        }
        (RunRule::Shift(seconds), RunRule::Fixed(arrival)) if at + seconds <= arrival => Earlier {
            rule: first,
            second: false,
            end: end.min(arrival - seconds + 1),
        },
        (RunRule::Fixed(arrival), RunRule::Shift(seconds)) if at + seconds < arrival => Earlier {
            rule: second,
            second: true,
            end: end.min(arrival - seconds),
        },
        (RunRule::Shift(_), RunRule::Fixed(_)) => lasting(first, second, true, end),
        (RunRule::Fixed(_), RunRule::Shift(_)) => lasting(first, second, false, end),
    }
}

// One of two rules until `end`.
fn lasting(first: RunRule, second: RunRule, is_second: bool, end: u64) -> Earlier
    ensures { result ≡ record {
      rule = (if is_second then second else first);
      second = is_second;
      end = end;
    } }
{
    Earlier {
        rule: if is_second { second } else { first },
        second: is_second,
        end,
    }
}
