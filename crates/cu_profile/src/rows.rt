//! The header, and the checks of one row.

ghost use Rattle.std.specs.Prelude.{◌≡◌, ◌<◌, IfSome, OnOk, length, map};
ghost use Rattle.csv.specs.Records.{fields_of};
ghost use Rattle.cu_profile.specs.declared.rows.TheConstants.{MAX_ROWS};
ghost use Rattle.cu_profile.specs.ProfileTexts.{header, may_follow, numbers_of, piece_of_fields};
ghost use Rattle.cu_profile.specs.Steps.ReadRows.{RowChecked};

use crate::refusals::ProfileRefusal;
use csv::ByteRecord;
use cu_model::{MAX_PROFILES, Piece, Rule};
use cu_tables::{field, number_at};

/// The most rows of a table of profiles, so that each has a number of 32 bits, and so has their count.
pub const MAX_ROWS: u32 = u32::MAX;

/// The names of the four columns.
pub(crate) fn header() -> [&'static [u8]; 4]
    ensures { map (λ f. f.now) result ≡ header }
{
    [
        b"profile".as_slice(),
        b"from".as_slice(),
        b"kind".as_slice(),
        b"value".as_slice(),
    ]
}

/// A row that passed its checks: its profile, and its piece, none where the kind is no word of a kind.
#[derive(Clone, Copy)]
pub(crate) struct PieceRow {
    pub profile: u32,
    pub piece: Option<Piece>,
}

/// The number fields of a row. A number too wide is 4,294,967,295, which is past each limit.
#[derive(Clone, Copy)]
pub struct RowNumbers {
    pub profile: u32,
    pub from: u32,
    pub value: u32,
}

/// Checks the row with this number, behind a row of the last profile.
pub(crate) fn check_row(
    row: &ByteRecord,
    number: u32,
    last: Option<u32>,
) -> Result<PieceRow, ProfileRefusal>
    ensures checked { IfSome last (λ profile. profile < MAX_PROFILES)
        → RowChecked number last (fields_of row.now) result }
    ensures few { OnOk result (number < MAX_ROWS) }
{
    if number == MAX_ROWS {
        return Err(ProfileRefusal::TooMany { row: number });
    }
    if row.len() != 4 {
        return Err(ProfileRefusal::Fields { row: number });
    }
    let Some(numbers) = row_numbers(row) else {
        return Err(ProfileRefusal::Number { row: number });
    };
    if !may_follow(last, numbers.profile) {
        return Err(ProfileRefusal::Sequence { row: number });
    }
    if numbers.profile == MAX_PROFILES {
        return Err(ProfileRefusal::TooMany { row: number });
    }
    Ok(PieceRow {
        profile: numbers.profile,
        piece: piece_of(field(row, 2), numbers.from, numbers.value),
    })
}

/// The numbers of a row of four fields, none where one of its three number fields isn't a number word.
pub fn row_numbers(row: &ByteRecord) -> Option<RowNumbers>
    requires { length (fields_of row.now) ≡ 4 }
    ensures { result ≡ numbers_of (fields_of row.now) }
{
    let profile = number_at(row, 0)?;
    let from = number_at(row, 1)?;
    let value = number_at(row, 3)?;
    Some(RowNumbers {
        profile,
        from,
        value,
    })
}

/// Whether a row of this profile may come behind one of the last profile: 0 comes first, then the same or the next one.
pub fn may_follow(last: Option<u32>, profile: u32) -> bool
    ensures { result ≡ may_follow last profile }
{
    match last {
        None => profile == 0,
        Some(last) => profile == last || u64::from(profile) == u64::from(last) + 1,
    }
}

/// The piece that is from this second on and has this value, where the kind is the word `travel`, `until` or `closed`; none
/// where it is any other word. Neither number is checked, so the piece may be past a limit.
pub fn piece_of(kind: &[u8], from: u32, value: u32) -> Option<Piece>
    ensures { result ≡ piece_of_fields kind.now from value }
{
    let rule = if kind == b"travel".as_slice() {
        Rule::Travel(value)
    } else if kind == b"until".as_slice() {
        Rule::Until(value)
    } else if kind == b"closed".as_slice() {
        Rule::Closed(value)
    } else {
        return None;
    };
    Some(Piece { from, rule })
}
