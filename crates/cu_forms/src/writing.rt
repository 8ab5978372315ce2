//! Writing a day form as a line of text.

ghost use Rattle.std.specs.Prelude.{◌++◌, List, decimal};
ghost use Rattle.cu_forms.specs.DayTexts.{day_text, piece_text, rule_text};
ghost use Rattle.cu_forms.specs.Said.{rule_said};
ghost use Rattle.cu_forms.specs.Steps.Found.{piece_found};
ghost use Rattle.cu_io.specs.Sinks.{Wrote};
ghost use Rattle.cu_model.specs.DayForms.{IsDayForm};
ghost use Rattle.cu_model.specs.Days.{IsOnward};
ghost use Rattle.cu_model.specs.declared.profiles.Piece.{Piece};

use crate::finding::{FoundPiece, piece_from};
use crate::values::{DayRule, DayValues};
use cu_io::{Sink, SinkFailed, put_all, put_number};
use cu_model::DAY;

/// Writes the day form of a function: `day`, and for each piece a blank and `FROM,KIND,VALUE` in plain decimals, where the
/// kind is `travel` or `until`. No line end is written. Takes no memory.
///
/// Refused only where a write is: the count of faults rose, and some first bytes of the text were written.
pub fn write_day<F: DayValues, K: Sink>(function: &F, sink: &mut K) -> Result<(), SinkFailed>
    requires onward { IsOnward (F.value function.now) }
    ensures wrote { (pieces : List Piece) × IsDayForm (F.value function.now) pieces
        × Wrote (K.state sink.old) (K.state sink.new) result (day_text pieces) }
{
    put_all(sink, b"day")?;
    let mut from = 0;
    'pieces: while from < DAY {
        let piece = piece_from(function, from);
        put_piece(sink, piece)?;
        from = piece.end;
    }
    Ok(())
}

// Writes a piece.
fn put_piece<K: Sink>(sink: &mut K, piece: FoundPiece) -> Result<(), SinkFailed>
    ensures wrote { Wrote (K.state sink.old) (K.state sink.new) result
        (piece_text (piece_found piece)) }
{
    put_word_and_number(sink, b" ", u64::from(piece.from))?;
    put_rule(sink, piece.rule)
}

// Writes the rule of a piece.
fn put_rule<K: Sink>(sink: &mut K, rule: DayRule) -> Result<(), SinkFailed>
    ensures wrote { Wrote (K.state sink.old) (K.state sink.new) result (rule_text (rule_said rule)) }
{
    match rule {
        DayRule::Travel(seconds) => put_word_and_number(sink, b",travel,", seconds),
        DayRule::Until(arrival) => put_word_and_number(sink, b",until,", arrival),
    }
}

// Writes a word and a number.
fn put_word_and_number<K: Sink>(sink: &mut K, word: &[u8], number: u64) -> Result<(), SinkFailed>
    ensures wrote { Wrote (K.state sink.old) (K.state sink.new) result (word.now ++ decimal number) }
{
    put_all(sink, word)?;
    put_number(sink, number)
}
