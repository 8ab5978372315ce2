//! A block of text that is gathered before it is written, so that many short texts take one write.

ghost use Rattle.std.specs.Prelude.{◌≡◌, ◌+◌, ◌≤◌, ◌↔◌, ◌++◌, [], IsTrue, length};
ghost use Rattle.cu_reach.specs.ReachTexts.{time_text};

use itoa::write_digits;
use std::marker::Model;

// How many bytes a block has.
const SIZE: usize = 1_024;

// The most bytes of a time: a blank and 20 digits.
const LONGEST: usize = 21;

/// A text of at most 1,024 bytes, on the stack. Contracts see the text.
#[derive(Drop)]
pub struct Block {
    bytes: [u8; SIZE],
    filled: usize,
}

impl Model for Block {
    ghost use Rattle.std.specs.Prelude.{ℕ, List, ◌≤◌, take};

    ghost Value = { List ℕ };

    ghost view = { λ block. take block.filled block.bytes };

    ghost invariant = { λ block. block.filled ≤ 1024 };
}

impl Block {
    /// A block without text.
    pub fn new() -> Block
        ensures { result ≡ [] }
    {
        Block {
            bytes: [0; SIZE],
            filled: 0,
        }
    }

    /// Whether one more time has room, however long it is.
    pub fn has_room(&self) -> bool
        ensures { IsTrue result ↔ (length self.now + LONGEST ≤ SIZE) }
    {
        self.filled + LONGEST <= SIZE
    }

    /// The text.
    pub fn text(&self) -> &[u8]
        ensures { result.now ≡ self.now }
    {
        &self.bytes[..self.filled]
    }

    /// Forgets the text.
    pub fn clear(&mut self)
        ensures { self.new ≡ [] }
    {
        self.filled = 0;
    }

    /// Adds an arrival behind a blank, or a dash where there is none.
    pub fn add(&mut self, time: Option<u64>)
        requires room { length self.old + LONGEST ≤ SIZE }
        ensures { self.new ≡ self.old ++ time_text time }
    {
        match time {
            None => self.add_piece(b" -"),
            Some(arrival) => {
                let mut text = [b' '; LONGEST];
                let start = write_digits(arrival, &mut text, LONGEST);
                self.add_piece(&text[start - 1..]);
            }
        }
    }

    // Adds a piece that has room.
    fn add_piece(&mut self, piece: &[u8])
        requires room { length self.old + length piece.now ≤ SIZE }
        ensures { self.new ≡ self.old ++ piece.now }
    {
        let end = self.filled + piece.len();
        self.bytes[self.filled..end].copy_from_slice(piece);
        self.filled = end;
    }
}
