//! Writing profiles as a table text.

ghost use Rattle.std.specs.Prelude.{◌≡◌, ◌≤◌, ◌<◌, ◌^◌, ◌++◌, List, ℕ, Ok, IfOk, OnOk, length, map, sum_by};
ghost use Rattle.csv.proofs.RoundTrip.{rows_text};
ghost use Rattle.cu_profile.specs.ProfileTexts.{profiles_of_text};
ghost use Rattle.cu_profile.specs.Written.{kind_word, piece_row, rule_number, table_of};
ghost use Rattle.cu_tables.specs.WrittenTexts.{AddsRow, HasRows, MayFollow};

use crate::rows::header;
use cu_model::{MAX_PROFILES, NoMemory, Piece, Profile, Rule};
use cu_tables::RowWriter;
use itoa::Buffer;
use std::alloc::Global;

/// Writes profiles, numbered from 0, as the text that `read_profiles` reads as these profiles: the header and one row for
/// each piece, `PROFILE,FROM,KIND,VALUE`, in plain decimals, each ended by LF. There are at most 1,048,576 profiles, with
/// fewer than 2^32 pieces in all.
pub fn write_profiles(alloc: Global, profiles: &[Profile]) -> Result<Vec<u8>, NoMemory>
    requires profiles { length profiles.now ≤ MAX_PROFILES }
    requires pieces { sum_by length profiles.now < 2 ^ 32 }
    ensures text { IfOk result (λ text. text.items ≡ rows_text (table_of profiles.now)) }
    ensures again { IfOk result (λ text. profiles_of_text text.items ≡ Ok profiles.now) }
{
    let mut writer = RowWriter::new(alloc);
    writer.write_row(&header())?;
    for (number, profile) in profiles.iter().enumerate() {
        write_profile(&mut writer, number, profile.pieces())?;
    }
    writer.finish()
}

// Writes the rows of the profile with this number.
fn write_profile(writer: &mut RowWriter, number: usize, pieces: &[Piece]) -> Result<(), NoMemory>
    requires { (rows : List (List (List ℕ))) × HasRows writer.old 4 rows }
    ensures { OnOk result ((rows : List (List (List ℕ))) → HasRows writer.old 4 rows
        → HasRows writer.new 4 (rows ++ map (piece_row number) pieces.now)) }
{
    for piece in pieces {
        write_piece(writer, number, *piece)?;
    }
    Ok(())
}

fn write_piece(writer: &mut RowWriter, number: usize, piece: Piece) -> Result<(), NoMemory>
    requires { MayFollow writer.old 4 }
    ensures { OnOk result (AddsRow writer.old writer.new (piece_row number piece)) }
{
    let mut profile = Buffer::new();
    let mut from = Buffer::new();
    let mut value = Buffer::new();
    writer.write_row(&[
        profile.format(number).as_bytes(),
        from.format(piece.from).as_bytes(),
        kind_word(piece.rule),
        value.format(rule_number(piece.rule)).as_bytes(),
    ])
}

fn kind_word(rule: Rule) -> &'static [u8]
    ensures { result.now ≡ kind_word rule }
{
    match rule {
        Rule::Travel(_) => b"travel".as_slice(),
        Rule::Until(_) => b"until".as_slice(),
        Rule::Closed(_) => b"closed".as_slice(),
    }
}

fn rule_number(rule: Rule) -> u32
    ensures { result ≡ rule_number rule }
{
    match rule {
        Rule::Travel(seconds) => seconds,
        Rule::Until(arrival) => arrival,
        Rule::Closed(value) => value,
    }
}
