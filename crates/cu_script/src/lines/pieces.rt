//! The pieces of an edit line, read from its text without memory.

ghost use Rattle.std.specs.Prelude.{◌≡◌, ◌<◌, ◌-◌, ◌^◌, IfOk, MatchResult, None, Some, length, if◌then◌else◌};
ghost use Rattle.cu_model.specs.Numbers.{is_number_word};
ghost use Rattle.cu_model.specs.Queries.{fields_of_line};
ghost use Rattle.cu_tables.specs.Tables.{kept_number};
ghost use Rattle.cu_script.specs.Steps.LinePieces.{CutsPiece, all_named, pieces_begun, pieces_refusal, stand_by_threes, those_named};

use cu_model::{NoMemory, Number, Piece, PieceChecker, PieceRefusal, cut_field, parse_number};
use cu_profile::piece_of;
use std::alloc::Global;

// The pieces of a line from here on, each none where its kind is no word of a kind. They end before the first three fields
// that aren't those of a piece.
#[derive(Drop)]
struct Pieces<'a> {
    rest: Option<&'a [u8]>,
}

// A line's first piece, and what stands behind its last comma.
#[derive(Clone, Copy)]
struct CutPiece<'a> {
    piece: Option<Piece>,
    rest: Option<&'a [u8]>,
}

impl Iterator for Pieces<'_> {
    type Item = Option<Piece>;

    ghost use Rattle.std.specs.Iterator.{YieldsFirst, item_count};
    ghost use Rattle.cu_script.specs.Steps.LinePieces.{pieces_left};

    ghost next_gives = { YieldsFirst pieces_left };

    ghost remaining = { item_count pieces_left };

    fn next(&mut self) -> Option<Option<Piece>> {
        let cut = cut_piece(self.rest?)?;
        self.rest = cut.rest;
        Some(cut.piece)
    }
}

/// Whether a line has pieces and nothing else: three fields after three, of which the first and the last are number words.
pub(crate) fn has_pieces(line: &[u8]) -> bool
    ensures threes { result ≡ stand_by_threes (fields_of_line line.now) }
{
    let mut rest = Some(line);
    while let Some(line) = rest {
        let Some(cut) = cut_piece(line) else {
            return false;
        };
        rest = cut.rest;
    }
    true
}

/// Whether the pieces of a line make a profile: each kind is a word of a kind, and then they have no fault.
pub(crate) fn check_profile(line: &[u8]) -> Result<(), PieceRefusal>
    requires few { length (fields_of_line line.now) < 2 ^ 32 - 1 }
    ensures refusal { MatchResult result
        (λ _. pieces_refusal (all_named (pieces_begun (fields_of_line line.now))) ≡ None)
        (λ refusal. pieces_refusal (all_named (pieces_begun (fields_of_line line.now)))
        ≡ Some refusal) }
{
    let mut checker = PieceChecker::new();
    for piece in (Pieces { rest: Some(line) }) {
        match piece {
            Some(piece) => checker.push(piece),
            None => return Err(PieceRefusal::Kind),
        }
    }
    match checker.finish() {
        Ok(()) => Ok(()),
        Err(fault) => Err(PieceRefusal::Fault(fault)),
    }
}

/// The pieces of a line, but for those whose kind is no word of a kind.
pub(crate) fn take_pieces(alloc: Global, line: &[u8]) -> Result<Vec<Piece>, NoMemory>
    ensures named { IfOk result (λ pieces. pieces.items
        ≡ those_named (pieces_begun (fields_of_line line.now))) }
{
    let pieces = Pieces { rest: Some(line) };
    Ok(pieces.filter_map(|piece| piece).collect(alloc)?)
}

// A line's first three fields as a piece, where the first and the last of them are number words.
fn cut_piece(line: &[u8]) -> Option<CutPiece<'_>>
    ensures cut { CutsPiece line.now result }
{
    let (from, rest) = cut_field(line);
    let (kind, rest) = cut_field(rest?);
    let (value, rest) = cut_field(rest?);
    let from = kept_number(from)?;
    let value = kept_number(value)?;
    Some(CutPiece {
        piece: piece_of(kind, from, value),
        rest,
    })
}

/// The number that a word names, where it is a number word; one too wide for 32 bits is the widest, which is past each
/// limit.
pub(crate) fn kept_number(word: &[u8]) -> Option<u32>
    ensures number { result
        ≡ (if is_number_word word.now then Some (kept_number word.now) else None) }
{
    match parse_number(word)? {
        Number::Value(value) => Some(value.min(u64::from(u32::MAX)) as u32),
        Number::Huge => Some(u32::MAX),
    }
}
