//! Numbers and rows of three numbers as bytes, the lowest byte first.

ghost use Rattle.std.specs.Prelude.{◌≡◌, OnOk};
ghost use Rattle.cu_pack.specs.Spelling.{arc_bytes, entry_bytes, long, piece_bytes, triple, short};

use crate::targets::Target;
use cu_interval::{Entry, Way};
use cu_model::{Piece, RoadArc, Rule};

// Appends a number in four bytes.
pub fn put_short<T: Target>(bytes: &mut T, number: u32) -> Result<(), T::Failed>
    ensures { OnOk result (T.grows bytes.old bytes.new (short number)) }
{
    bytes.put(&number.to_le_bytes())
}

// Appends a number in eight bytes.
pub fn put_long<T: Target>(bytes: &mut T, number: u64) -> Result<(), T::Failed>
    ensures { OnOk result (T.grows bytes.old bytes.new (long number)) }
{
    bytes.put(&number.to_le_bytes())
}

// Appends a road's tail, head and profile.
pub fn put_arc<T: Target>(bytes: &mut T, arc: RoadArc) -> Result<(), T::Failed>
    ensures { OnOk result (T.grows bytes.old bytes.new (arc_bytes arc)) }
{
    bytes.put(&arc_row(arc))
}

// Appends a piece's second, kind and value.
pub fn put_piece<T: Target>(bytes: &mut T, piece: Piece) -> Result<(), T::Failed>
    ensures { OnOk result (T.grows bytes.old bytes.new (piece_bytes piece)) }
{
    bytes.put(&piece_row(piece))
}

// Appends an entry's second, kind and number.
pub fn put_entry<T: Target>(bytes: &mut T, entry: Entry) -> Result<(), T::Failed>
    ensures { OnOk result (T.grows bytes.old bytes.new (entry_bytes entry)) }
{
    bytes.put(&entry_row(entry))
}

#[tactic(auto, unfolding(crate::specs::Spelling::arc_bytes))]
fn arc_row(arc: RoadArc) -> [u8; 12]
    ensures { result ≡ arc_bytes arc }
{
    row(arc.tail, arc.head, arc.profile)
}

#[tactic(auto, unfolding(crate::specs::Spelling::piece_bytes))]
fn piece_row(piece: Piece) -> [u8; 12]
    ensures { result ≡ piece_bytes piece }
{
    match piece.rule {
        Rule::Travel(seconds) => row(piece.from, 0, seconds),
        Rule::Until(arrival) => row(piece.from, 1, arrival),
        Rule::Closed(value) => row(piece.from, 2, value),
    }
}

#[tactic(auto, unfolding(crate::specs::Spelling::entry_bytes))]
fn entry_row(entry: Entry) -> [u8; 12]
    ensures { result ≡ entry_bytes entry }
{
    match entry.way {
        Way::Road(arc) => row(entry.from, 0, arc),
        Way::Via(rank) => row(entry.from, 1, rank),
    }
}

// Three numbers of four bytes.
fn row(first: u32, second: u32, third: u32) -> [u8; 12]
    ensures { result ≡ triple first second third }
{
    let [a, b, c, d] = first.to_le_bytes();
    let [e, f, g, h] = second.to_le_bytes();
    let [i, j, k, l] = third.to_le_bytes();
    [a, b, c, d, e, f, g, h, i, j, k, l]
}
