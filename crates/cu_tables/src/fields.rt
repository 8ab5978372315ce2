ghost use Rattle.std.specs.Prelude.{◌≡◌, ◌<◌, ◌≤◌, ◌+◌, ◌*◌, ◌-◌, length, map, min, bytes_eq, Some, None, if◌then◌else◌};
ghost use Rattle.std.specs.Cmp.Lexicographic.{pointwise};
ghost use Rattle.csv.specs.Records.{fields_of};
ghost use Rattle.cu_model.specs.Numbers.{is_number_word};
ghost use Rattle.cu_tables.specs.declared.fields.TheConstants.{WIDEST};
ghost use Rattle.cu_tables.specs.Tables.{field_of, kept_number, number_in};

use csv::ByteRecord;

/// The widest number that a field is read as: one too wide for 32 bits counts as this one.
pub const WIDEST: u32 = u32::MAX;

/// The bytes of one field of a row, counted from 0.
pub fn field(row: &ByteRecord, index: usize) -> &[u8]
    requires { index < length (fields_of row.now) }
    ensures { result.now ≡ field_of (fields_of row.now) index }
{
    row.get(index).unwrap()
}

/// The number that a field of a row names, none where it isn't a number word: one or more ASCII digits, with any leading
/// zeros and of any length. A number too wide for 32 bits is 4,294,967,295.
pub fn number_at(row: &ByteRecord, index: usize) -> Option<u32>
    requires { index < length (fields_of row.now) }
    ensures { result ≡ number_in (fields_of row.now) index }
{
    number_of(field(row, index))
}

fn number_of(word: &[u8]) -> Option<u32>
    ensures { result ≡ (if is_number_word word.now then Some (kept_number word.now) else None) }
{
    if word.is_empty() {
        return None;
    }
    let mut value = 0;
    for digit in word {
        if !digit.is_ascii_digit() {
            return None;
        }
        value = with_digit(value, *digit);
    }
    Some(value)
}

// A number with one more digit, at most the widest.
fn with_digit(value: u32, digit: u8) -> u32
    requires low { 48 ≤ digit }
    requires high { digit ≤ 57 }
    ensures { result ≡ min (value * 10 + (digit - 48)) WIDEST }
{
    value
        .saturating_mul(10)
        .saturating_add(u32::from(digit - b'0'))
}

/// Whether a row has exactly these fields.
pub(crate) fn has_fields(row: &ByteRecord, fields: &[&[u8]]) -> bool
    ensures { result ≡ pointwise bytes_eq (fields_of row.now) (map (λ f. f.now) fields.now) }
{
    if row.len() != fields.len() {
        return false;
    }
    for (i, wanted) in fields.iter().enumerate() {
        if field(row, i) != *wanted {
            return false;
        }
    }
    true
}
