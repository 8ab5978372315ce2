//! Finding the pieces of a day form, one from where the one before ends.

ghost use Rattle.std.specs.Prelude.{◌≡◌, ◌≤◌, ◌<◌, ◌^◌};
ghost use Rattle.cu_forms.specs.Said.{number_said, rule_said};
ghost use Rattle.cu_forms.specs.Steps.Found.{piece_found};
ghost use Rattle.cu_model.specs.DayForms.{IsFormPiece, rule_from};
ghost use Rattle.cu_model.specs.Profiles.{rule_value};
ghost use Rattle.cu_model.specs.declared.limits.TheConstants.{DAY};

use crate::values::{DayRule, DayValues};
use cu_model::DAY;

// A piece of a day form, and the second of the day before which it ends.
#[derive(Clone, Copy)]
pub(crate) struct FoundPiece {
    pub from: u32,
    pub rule: DayRule,
    pub end: u32,
}

// The piece that begins at a second of the day.
pub(crate) fn piece_from<F: DayValues>(function: &F, from: u32) -> FoundPiece
    requires { from < DAY }
    ensures begins { result.from ≡ from }
    ensures form { IsFormPiece (F.value function.now) (piece_found result) result.end }
{
    let rule = first_rule(function, from);
    let end = end_of(function, rule, from);
    FoundPiece { from, rule, end }
}

// The rule of the piece that begins at a second of the day.
fn first_rule<F: DayValues>(function: &F, from: u32) -> DayRule
    requires { from < DAY }
    ensures rule { rule_said result ≡ rule_from (F.value function.now) from }
    ensures limit { number_said result ≤ 2 ^ 62 }
{
    let arrival = function.at(from);
    if from == DAY - 1 || function.at(from + 1) != arrival {
        DayRule::Travel(arrival - u64::from(from))
    } else {
        DayRule::Until(arrival)
    }
}

// The second before which the piece of this rule ends. A stretch of another rule may still say the same at its first second.
fn end_of<F: DayValues>(function: &F, rule: DayRule, from: u32) -> u32
    requires day { from < DAY }
    requires rule { rule_said rule ≡ rule_from (F.value function.now) from }
    requires limit { number_said rule ≤ 2 ^ 62 }
    ensures { IsFormPiece (F.value function.now) (record { from = from; rule = rule_said rule }) result }
{
    let mut end = from;
    'stretches: while end < DAY && function.at(end) == arrival_by(rule, end) {
        let stretch = function.stretch(end);
        end = if stretch.rule == rule {
            stretch.end
        } else {
            end + 1
        };
    }
    end
}

// When a rule arrives, leaving at a second of the day.
fn arrival_by(rule: DayRule, second: u32) -> u64
    requires { number_said rule ≤ 2 ^ 62 }
    ensures { result ≡ rule_value (rule_said rule) 0 second }
{
    match rule {
        DayRule::Travel(seconds) => u64::from(second) + seconds,
        DayRule::Until(arrival) => arrival,
    }
}
