//! The lines of a desk: `step`; and, behind a client's number, `q,FROM,TO,SECOND`, an edit line, or `x`.

ghost use Rattle.std.specs.Prelude.{◌≡◌, ◌==◌, ◌≤◌, ◌+◌, IfSome, None, Some, length, min, position, if◌then◌else◌};
ghost use Rattle.cu_model.specs.Numbers.{is_number_word, number_value};
ghost use Rattle.cu_model.specs.Queries.{fields_of_line};
ghost use Rattle.cu_desk.specs.DeskLines.{kind_of};
ghost use Rattle.cu_desk.specs.Steps.Cuts.{CutsClient};

use cu_model::{Number, cut_field, parse_number};

/// The greatest number of a client.
pub const MAX_CLIENT: u32 = 65_535;

/// The kinds of line that clients have.
#[derive(Clone, Copy)]
pub enum Kind {
    Query,
    Cancel,
    Edit,
}

// What stands behind a client's number. One past the greatest is the next one to that.
#[derive(Clone, Copy)]
pub(crate) struct ClientText<'a> {
    pub(crate) client: u32,
    pub(crate) text: &'a [u8],
}

/// The kind of the text behind a client's number, by its first field. What is no query and no cancel may be an edit.
pub(crate) fn kind_of(text: &[u8]) -> Kind
    ensures { result ≡ kind_of (fields_of_line text.now) }
{
    let (word, rest) = cut_field(text);
    if word == b"q".as_slice() {
        return Kind::Query;
    }
    if word != b"x".as_slice() {
        return Kind::Edit;
    }
    match rest {
        None => Kind::Cancel,
        Some(_more) => Kind::Edit,
    }
}

/// A line cut behind its client's number; none where it has none.
pub(crate) fn cut_client(line: &[u8]) -> Option<ClientText<'_>>
    ensures cut { CutsClient line.now result }
    ensures shorter { IfSome result (λ cut. length cut.text.now ≤ length line.now) }
{
    let end = comma(line)?;
    let client = client_number(&line[..end])?;
    let text = &line[end + 1..];
    Some(ClientText { client, text })
}

// Where the first comma stands.
fn comma(line: &[u8]) -> Option<usize>
    ensures first { result ≡ position (λ byte. byte == 44) line.now }
{
    line.iter().position(|byte| *byte == b',')
}

// A client's number; one past the greatest is the next one to that.
fn client_number(word: &[u8]) -> Option<u32>
    ensures number { result ≡ (if is_number_word word.now
        then Some (min (number_value word.now) (MAX_CLIENT + 1)) else None) }
{
    match parse_number(word)? {
        Number::Value(value) => Some(value.min(u64::from(MAX_CLIENT) + 1) as u32),
        Number::Huge => Some(MAX_CLIENT + 1),
    }
}
