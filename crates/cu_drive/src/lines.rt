//! Lines of a script that ask for the drive of a query: `v,FROM,TO,SECOND`.

ghost use Rattle.std.specs.Prelude.{◌≡◌, ℕ};
ghost use Rattle.cu_model.specs.Numbers.{as_number, value_below};
ghost use Rattle.cu_model.specs.Queries.{checked_query, fields_of_line};
ghost use Rattle.cu_drive.specs.DriveLines.{drive_of};
ghost use Rattle.cu_drive.specs.Steps.LineFields.{HasFour};

use cu_model::{DAY, Number, Query, QueryRefusal, cut_field, parse_number};

// The fields of a line that has four.
#[derive(Clone, Copy)]
struct Fields<'a> {
    word: &'a [u8],
    from: &'a [u8],
    to: &'a [u8],
    second: &'a [u8],
}

/// Checks a line that asks for the drive of a query, its line end cut off, against a network with so many nodes, as a query's
/// line is checked. Takes no memory.
pub fn check_drive(line: &[u8], nodes: u32) -> Result<Query, QueryRefusal>
    ensures { result ≡ drive_of nodes line.now }
{
    let Some(fields) = four_fields(line) else {
        return Err(QueryRefusal::Line);
    };
    if fields.word != b"v".as_slice() {
        return Err(QueryRefusal::Line);
    }
    let Some(from) = parse_number(fields.from) else {
        return Err(QueryRefusal::Line);
    };
    let Some(to) = parse_number(fields.to) else {
        return Err(QueryRefusal::Line);
    };
    let Some(second) = parse_number(fields.second) else {
        return Err(QueryRefusal::Line);
    };
    query_asked(nodes, from, to, second)
}

// The query of these numbers, or the first of its nodes and second that is out of range.
fn query_asked(nodes: u32, from: Number, to: Number, second: Number) -> Result<Query, QueryRefusal>
    ensures { (f t s : ℕ) → from ≡ as_number f → to ≡ as_number t → second ≡ as_number s
        → result ≡ checked_query nodes f t s }
{
    let Some(from) = value_under(from, nodes) else {
        return Err(QueryRefusal::Node);
    };
    let Some(to) = value_under(to, nodes) else {
        return Err(QueryRefusal::Node);
    };
    let Some(second) = value_under(second, DAY) else {
        return Err(QueryRefusal::Second);
    };
    Ok(Query { from, to, second })
}

// A number's value, where it is under a limit.
fn value_under(number: Number, limit: u32) -> Option<u32>
    ensures { (value : ℕ) → number ≡ as_number value → result ≡ value_below value limit }
{
    match number {
        Number::Value(value) if value < u64::from(limit) => Some(value as u32),
        _ => None,
    }
}

// A line's four fields; none where it has fewer or more.
fn four_fields(line: &[u8]) -> Option<Fields<'_>>
    ensures { HasFour (fields_of_line line.now) result }
{
    let (word, rest) = cut_field(line);
    let (from, rest) = cut_field(rest?);
    let (to, rest) = cut_field(rest?);
    let (second, rest) = cut_field(rest?);
    match rest {
        Some(_) => None,
        None => Some(Fields {
            word,
            from,
            to,
            second,
        }),
    }
}
