//! Day lines of a script: `d,FROM,TO`.

ghost use Rattle.std.specs.Prelude.{◌≡◌, ℕ};
ghost use Rattle.cu_day.specs.DayLines.{checked_day, day_of};
ghost use Rattle.cu_day.specs.Steps.LineFields.{HasThree};
ghost use Rattle.cu_model.specs.Numbers.{as_number, value_below};
ghost use Rattle.cu_model.specs.Queries.{fields_of_line};

use cu_model::{Number, cut_field, parse_number};
use thiserror::Error;

/// A whole day asked, from one node to another.
#[derive(Clone, Copy, PartialEq, Eq)]
pub struct DayAsked {
    pub from: u32,
    pub to: u32,
}

/// The first check that a day line fails, in this order.
#[derive(Clone, Copy, Debug, PartialEq, Eq, Error)]
pub enum DayRefusal {
    /// The first word isn't `d`, there aren't three fields, or one of the two others is no number word.
    #[error("line")]
    Line,
    /// A node isn't below the number of nodes.
    #[error("node")]
    Node,
}

// The fields of a line that has three.
#[derive(Clone, Copy)]
struct Fields<'a> {
    word: &'a [u8],
    from: &'a [u8],
    to: &'a [u8],
}

/// Checks a line of a script, its line end cut off, against a network with so many nodes. Takes no memory.
pub fn check_day(line: &[u8], nodes: u32) -> Result<DayAsked, DayRefusal>
    ensures { result ≡ day_of nodes line.now }
{
    let Some(fields) = three_fields(line) else {
        return Err(DayRefusal::Line);
    };
    if fields.word != b"d".as_slice() {
        return Err(DayRefusal::Line);
    }
    let Some(from) = parse_number(fields.from) else {
        return Err(DayRefusal::Line);
    };
    let Some(to) = parse_number(fields.to) else {
        return Err(DayRefusal::Line);
    };
    check_nodes(nodes, from, to)
}

// The day between the nodes of these numbers, or that one is out of range.
fn check_nodes(nodes: u32, from: Number, to: Number) -> Result<DayAsked, DayRefusal>
    ensures { (f t : ℕ) → from ≡ as_number f → to ≡ as_number t → result ≡ checked_day nodes f t }
{
    let Some(from) = value_under(from, nodes) else {
        return Err(DayRefusal::Node);
    };
    let Some(to) = value_under(to, nodes) else {
        return Err(DayRefusal::Node);
    };
    Ok(DayAsked { from, to })
}

// A number's value, where it is under a limit.
fn value_under(number: Number, limit: u32) -> Option<u32>
    ensures { (value : ℕ) → number ≡ as_number value → result ≡ value_below value limit }
{
    match number {
        Number::Value(value) if value < u64::from(limit) => Some(value as u32),
        _ => None,
    }
}

// A line's three fields; none where it has fewer or more.
fn three_fields(line: &[u8]) -> Option<Fields<'_>>
    ensures { HasThree (fields_of_line line.now) result }
{
    let (word, rest) = cut_field(line);
    let (from, rest) = cut_field(rest?);
    let (to, rest) = cut_field(rest?);
    match rest {
        Some(_) => None,
        None => Some(Fields { word, from, to }),
    }
}
