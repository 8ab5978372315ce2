//! Writing an arrival function as a day.

ghost use Rattle.std.specs.Prelude.{◌≡◌, ◌≤◌, ◌<◌, ◌^◌, List};
ghost use Rattle.cu_arrival.specs.declared.runs.RunRule.{RunRule};
ghost use Rattle.cu_arrival.specs.Runs.{arrival_value};
ghost use Rattle.cu_day.specs.Steps.Saying.{said};
ghost use Rattle.cu_forms.specs.DayTexts.{day_text};
ghost use Rattle.cu_forms.specs.Said.{rule_said};
ghost use Rattle.cu_io.specs.Sinks.{Wrote};
ghost use Rattle.cu_model.specs.DayForms.{IsDayForm};
ghost use Rattle.cu_model.specs.Days.{IsOnward};
ghost use Rattle.cu_model.specs.declared.profiles.Piece.{Piece};

use cu_arrival::{Arrival, RunRule};
use cu_forms::{DayRule, DayValues, Stretch};
use cu_io::{Sink, SinkFailed};

// An arrival function over one day.
#[derive(Clone, Copy)]
struct OneDay<'a> {
    function: &'a Arrival,
}

impl DayValues for OneDay<'_> {
    ghost value = { λ day. arrival_value day.function.now };

    fn at(&self, second: u32) -> u64 {
        self.function.value(u64::from(second))
    }

    fn stretch(&self, second: u32) -> Stretch {
        let stretch = self.function.stretch(second);
        Stretch {
            rule: rule_of(stretch.rule),
            end: stretch.end,
        }
    }
}

// The function over one day. Its value at the first second tells that none is before its departure.
fn one_day(function: &Arrival) -> OneDay<'_>
    ensures same { result.function.now ≡ function.now }
    ensures onward { IsOnward (arrival_value function.now) }
{
    let _first = function.value(0);
    OneDay { function }
}

// The rule of a run, on day 0.
fn rule_of(rule: RunRule) -> DayRule
    ensures { rule_said result ≡ said rule }
{
    match rule {
        RunRule::Shift(seconds) => DayRule::Travel(seconds),
        RunRule::Fixed(arrival) => DayRule::Until(arrival),
    }
}

/// Writes the day form of an arrival function: `day`, and for each of its pieces a blank, the second from which it holds, and
/// `,travel,` with the seconds that it takes or `,until,` with the second at which it arrives, all in plain decimal. No line end is
/// written. Takes no memory.
///
/// Refused only where a write is: the sink's count of faults rose, and some first bytes of the text were written.
pub fn write_day<K: Sink>(function: &Arrival, sink: &mut K) -> Result<(), SinkFailed>
    ensures wrote { (pieces : List Piece) × IsDayForm (arrival_value function.now) pieces
        × Wrote (K.state sink.old) (K.state sink.new) result (day_text pieces) }
{
    cu_forms::write_day(&one_day(function), sink)
}
