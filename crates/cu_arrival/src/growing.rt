//! Lists of runs and of choices that grow at their end.

ghost use Rattle.std.specs.Prelude.{◌≡◌, ◌≤◌, ◌^◌, IfOk};
ghost use Rattle.cu_arrival.specs.declared.runs.Choice.{Choice};
ghost use Rattle.cu_arrival.specs.declared.runs.Run.{Run};
ghost use Rattle.cu_arrival.specs.Runs.{rule_number};
ghost use Rattle.cu_model.specs.Growing.{IsPushed, last_says};

use crate::packing::RunList;
use crate::runs::{Choice, Run, RunRule};
use cu_model::NoMemory;

/// Adds a run, unless the last one's rule is the same.
pub fn push_run(runs: &mut RunList, run: Run) -> Result<(), NoMemory>
    requires { rule_number run.rule ≤ 2 ^ 62 }
    ensures { IfOk result (λ _. IsPushed (λ (r : Run). r.rule) runs.old run runs.new) }
{
    if last_rule(runs) == Some(run.rule) {
        return Ok(());
    }
    runs.push(run)?;
    Ok(())
}

/// Adds a choice, unless the last one is of the same function.
pub fn push_choice(choices: &mut Vec<Choice>, choice: Choice) -> Result<(), NoMemory>
    ensures { IfOk result
        (λ _. IsPushed (λ (c : Choice). c.second) choices.old.items choice choices.new.items) }
{
    if last_second(choices) == Some(choice.second) {
        return Ok(());
    }
    choices.push(choice)?;
    Ok(())
}

fn last_rule(runs: &RunList) -> Option<RunRule>
    ensures { result ≡ last_says (λ (r : Run). r.rule) runs.now }
{
    let last = runs.len().checked_sub(1)?;
    Some(runs.at(last).rule)
}

fn last_second(choices: &[Choice]) -> Option<bool>
    ensures { result ≡ last_says (λ (c : Choice). c.second) choices.now }
{
    choices.last().map(|last| last.second)
}
