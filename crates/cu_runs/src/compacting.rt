//! Functions over the day in which neighbouring runs differ.

ghost use Rattle.std.specs.Prelude.{◌≡◌, ◌<◌, ◌-◌, ◌↔◌, ℕ, Some, IfOk, IsTrue, length, slice_get};
ghost use Rattle.cu_model.specs.declared.limits.TheConstants.{DAY};
ghost use Rattle.cu_model.specs.Growing.{IsPushed, last_says};
ghost use Rattle.cu_arrival.specs.declared.runs.Run.{Run};
ghost use Rattle.cu_arrival.specs.Runs.{arrival_value};
ghost use Rattle.cu_runs.specs.PackedRuns.{IsCompactDay, IsDayList, end_run};

use crate::packed_runs::PackedRun;
use cu_model::NoMemory;
use std::alloc::Global;

/// The same function with no two neighbouring runs of one rule.
pub fn compact(alloc: Global, packed: &[PackedRun]) -> Result<Vec<PackedRun>, NoMemory>
    requires { IsDayList packed.now }
    ensures over_day { IfOk result (λ list. IsDayList list.items) }
    ensures value { IfOk result (λ list. (t : ℕ) → t < DAY →
        arrival_value list.items t ≡ arrival_value packed.now t) }
    ensures compact { IfOk result (λ list. IsCompactDay list.items) }
    ensures end { IfOk result (λ list.
        slice_get list.items (length list.items - 1) ≡ Some end_run) }
{
    let mut list = Vec::with_capacity(alloc, count_rules(packed) + 1)?;
    'runs: for index in 0..packed.len() - 1 {
        push_run(&mut list, packed[index])?;
    }
    list.push(PackedRun::end())?;
    Ok(list)
}

/// Adds a run, unless the last one's rule is the same; where there is no memory the list stays as it is.
pub fn push_run(list: &mut Vec<PackedRun>, run: PackedRun) -> Result<(), NoMemory>
    ensures { IfOk result (λ _. IsPushed (λ (r : Run). r.rule) list.old.items run list.new.items) }
{
    if ends_with_rule(list, run) {
        return Ok(());
    }
    list.push(run)?;
    Ok(())
}

fn ends_with_rule(list: &[PackedRun], run: PackedRun) -> bool
    ensures { IsTrue result ↔ (last_says (λ (r : Run). r.rule) list.now ≡ Some run.rule) }
{
    match list.last() {
        Some(last) => last.has_rule_of(run),
        None => false,
    }
}

// How many runs are left where neighbours of one rule become one, without the end.
fn count_rules(packed: &[PackedRun]) -> usize
    requires { 0 < length packed.now }
    ensures { result < length packed.now }
{
    let mut count = 0;
    for index in 0..packed.len() - 1 {
        if index == 0 || !packed[index].has_rule_of(packed[index - 1]) {
            count += 1;
        }
    }
    count
}
