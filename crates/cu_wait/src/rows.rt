//! The header, and the checks of one row.

ghost use Rattle.std.specs.Prelude.{◌≡◌, ◌<◌, IfSome, OnOk, map};
ghost use Rattle.csv.specs.Records.{fields_of};
ghost use Rattle.cu_profile.specs.declared.rows.TheConstants.{MAX_ROWS};
ghost use Rattle.cu_wait.specs.MeasuredTexts.{header, mode_of, point_by};
ghost use Rattle.cu_wait.specs.Steps.ReadRows.{RowChecked};
ghost use Rattle.cu_wait.specs.declared.rows.TheConstants.{MAX_MEASURED};

use crate::points::{Mode, Point};
use crate::refusals::MeasuredRefusal;
use csv::ByteRecord;
use cu_profile::{MAX_ROWS, may_follow, row_numbers};
use cu_tables::field;

/// The most profiles of a table of measured profiles: in pieces, at most 86,400 each, they have fewer than 2^32.
pub const MAX_MEASURED: u32 = 49_710;

// The names of the four columns.
pub(crate) fn header() -> [&'static [u8]; 4]
    ensures { map (λ f. f.now) result ≡ header }
{
    [
        b"profile".as_slice(),
        b"second".as_slice(),
        b"mode".as_slice(),
        b"travel".as_slice(),
    ]
}

// A row that passed its checks: its profile, and its point, none where its mode is no word of a mode.
#[derive(Clone, Copy)]
pub(crate) struct PointRow {
    pub profile: u32,
    pub point: Option<Point>,
}

// Checks the row with this number, behind a row of the last profile.
pub(crate) fn check_row(
    row: &ByteRecord,
    number: u32,
    last: Option<u32>,
) -> Result<PointRow, MeasuredRefusal>
    ensures checked { IfSome last (λ profile. profile < MAX_MEASURED)
        → RowChecked number last (fields_of row.now) result }
    ensures few { OnOk result (number < MAX_ROWS) }
{
    if number == MAX_ROWS {
        return Err(MeasuredRefusal::TooMany { row: number });
    }
    if row.len() != 4 {
        return Err(MeasuredRefusal::Fields { row: number });
    }
    let Some(numbers) = row_numbers(row) else {
        return Err(MeasuredRefusal::Number { row: number });
    };
    if !may_follow(last, numbers.profile) {
        return Err(MeasuredRefusal::Sequence { row: number });
    }
    if numbers.profile == MAX_MEASURED {
        return Err(MeasuredRefusal::TooMany { row: number });
    }
    Ok(PointRow {
        profile: numbers.profile,
        point: point_of(mode_of(field(row, 2)), numbers.from, numbers.value),
    })
}

// The mode that a word names.
fn mode_of(word: &[u8]) -> Option<Mode>
    ensures { result ≡ mode_of word.now }
{
    if word == b"line".as_slice() {
        Some(Mode::Line)
    } else if word == b"step".as_slice() {
        Some(Mode::Step)
    } else {
        None
    }
}

// The point at a second with this travel time, where it has a mode.
fn point_of(mode: Option<Mode>, second: u32, travel: u32) -> Option<Point>
    ensures { result ≡ point_by mode second travel }
{
    let mode = mode?;
    Some(Point {
        second,
        mode,
        travel,
    })
}
