//! Lines of a script that ask for more than one answer, or for the latest departure: `r,FROM,SECOND`, `t,SECOND,K` and the
//! numbers of K sources and of targets, and `l,FROM,TO,BY`.

ghost use Rattle.std.specs.Prelude.{◌≡◌, ◌≤◌, ◌<◌, ◌*◌, ℕ, All, IfOk, length};
ghost use Rattle.cu_model.specs.declared.limits.TheConstants.{DAY};
ghost use Rattle.cu_model.specs.Numbers.{as_number, value_below};
ghost use Rattle.cu_model.specs.Queries.{fields_of_line};
ghost use Rattle.cu_reach.specs.ReachLines.{checked_latest, checked_reach, latest_of, reach_of};
ghost use Rattle.cu_reach.specs.Steps.LineFields.{HasFour, HasThree};

use cu_model::{DAY, Number, cut_field, parse_number};
use thiserror::Error;

/// The most entries of a table.
pub const MAX_TABLE: u32 = 1_048_576;

/// The latest second by which one may ask to arrive, 2^40.
pub const LATEST_BY: u64 = 1_099_511_627_776;

/// All nodes asked from one, leaving at a second of the day.
#[derive(Clone, Copy, PartialEq, Eq)]
pub struct ReachAsked {
    pub from: u32,
    pub second: u32,
}

/// The latest departure asked from one node that arrives at another by a second, at most `LATEST_BY`.
#[derive(Clone, Copy, PartialEq, Eq)]
pub struct LatestAsked {
    pub from: u32,
    pub to: u32,
    pub by: u64,
}

/// The first check that a line of these kinds fails, in this order.
#[derive(Clone, Copy, Debug, PartialEq, Eq, Error)]
pub enum ManyRefusal {
    /// The first word isn't that of the kind, the fields aren't as many as they should be, or one of the others is no number
    /// word.
    #[error("line")]
    Line,
    /// A node isn't below the number of nodes.
    #[error("node")]
    Node,
    /// The second is no second of the day, or the one to arrive by is above `LATEST_BY`.
    #[error("second")]
    Second,
    /// A table has more than `MAX_TABLE` entries.
    #[error("limit")]
    Limit,
}

// The fields of a line that has three.
#[derive(Clone, Copy)]
struct ThreeFields<'a> {
    word: &'a [u8],
    from: &'a [u8],
    second: &'a [u8],
}

// The fields of a line that has four.
#[derive(Clone, Copy)]
struct FourFields<'a> {
    word: &'a [u8],
    from: &'a [u8],
    to: &'a [u8],
    by: &'a [u8],
}

/// Checks a line that asks for all nodes from one, its line end cut off, against a network with so many nodes. Takes no memory.
pub fn check_reach(line: &[u8], nodes: u32) -> Result<ReachAsked, ManyRefusal>
    ensures { result ≡ reach_of nodes line.now }
{
    let Some(fields) = three_fields(line) else {
        return Err(ManyRefusal::Line);
    };
    if fields.word != b"r".as_slice() {
        return Err(ManyRefusal::Line);
    }
    let Some(from) = parse_number(fields.from) else {
        return Err(ManyRefusal::Line);
    };
    let Some(second) = parse_number(fields.second) else {
        return Err(ManyRefusal::Line);
    };
    reach_asked(nodes, from, second)
}

// What the numbers of a line ask for, or the first of its node and second that is out of range.
fn reach_asked(nodes: u32, from: Number, second: Number) -> Result<ReachAsked, ManyRefusal>
    ensures { (f s : ℕ) → from ≡ as_number f → second ≡ as_number s
        → result ≡ checked_reach nodes f s }
{
    let Some(from) = value_under(from, nodes) else {
        return Err(ManyRefusal::Node);
    };
    let Some(second) = value_under(second, DAY) else {
        return Err(ManyRefusal::Second);
    };
    Ok(ReachAsked { from, second })
}

/// Checks a line that asks for the latest departure, its line end cut off, against a network with so many nodes. Takes no
/// memory.
pub fn check_latest(line: &[u8], nodes: u32) -> Result<LatestAsked, ManyRefusal>
    ensures { result ≡ latest_of nodes line.now }
{
    let Some(fields) = four_fields(line) else {
        return Err(ManyRefusal::Line);
    };
    if fields.word != b"l".as_slice() {
        return Err(ManyRefusal::Line);
    }
    let Some(from) = parse_number(fields.from) else {
        return Err(ManyRefusal::Line);
    };
    let Some(to) = parse_number(fields.to) else {
        return Err(ManyRefusal::Line);
    };
    let Some(by) = parse_number(fields.by) else {
        return Err(ManyRefusal::Line);
    };
    latest_asked(nodes, from, to, by)
}

// What the numbers of a line ask for, or the first of its nodes and second that is out of range.
fn latest_asked(
    nodes: u32,
    from: Number,
    to: Number,
    by: Number,
) -> Result<LatestAsked, ManyRefusal>
    ensures { (f t b : ℕ) → from ≡ as_number f → to ≡ as_number t → by ≡ as_number b
        → result ≡ checked_latest nodes f t b }
{
    let Some(from) = value_under(from, nodes) else {
        return Err(ManyRefusal::Node);
    };
    let Some(to) = value_under(to, nodes) else {
        return Err(ManyRefusal::Node);
    };
    match by {
        Number::Value(by) if by <= LATEST_BY => Ok(LatestAsked { from, to, by }),
        _ => Err(ManyRefusal::Second),
    }
}

// A number's value, where it is under a limit.
pub(crate) fn value_under(number: Number, limit: u32) -> Option<u32>
    ensures { (value : ℕ) → number ≡ as_number value → result ≡ value_below value limit }
{
    match number {
        Number::Value(value) if value < u64::from(limit) => Some(value as u32),
        _ => None,
    }
}

// A line's three fields; none where it has fewer or more.
fn three_fields(line: &[u8]) -> Option<ThreeFields<'_>>
    ensures { HasThree (fields_of_line line.now) result }
{
    let (word, rest) = cut_field(line);
    let (from, rest) = cut_field(rest?);
    let (second, rest) = cut_field(rest?);
    match rest {
        Some(_) => None,
        None => Some(ThreeFields { word, from, second }),
    }
}

// A line's four fields; none where it has fewer or more.
fn four_fields(line: &[u8]) -> Option<FourFields<'_>>
    ensures { HasFour (fields_of_line line.now) result }
{
    let (word, rest) = cut_field(line);
    let (from, rest) = cut_field(rest?);
    let (to, rest) = cut_field(rest?);
    let (by, rest) = cut_field(rest?);
    match rest {
        Some(_) => None,
        None => Some(FourFields { word, from, to, by }),
    }
}
