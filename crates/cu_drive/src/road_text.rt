//! Room for the text of a road.

ghost use Rattle.std.specs.Prelude.{◌≡◌, ◌≤◌, ◌<◌, ◌+◌, ◌++◌, ◌∷◌, decimal, length};
ghost use Rattle.cu_drive.specs.RoadTexts.{behind_blank};

use itoa::write_digits;
use std::marker::Model;

// A blank, a road's number of at most 10 digits, and two seconds of at most 20, each behind a comma.
const ROOM: usize = 64;

/// The text of a road: numbers with a comma between two, the last one first put down. Contracts see the text.
#[derive(Drop)]
pub struct RoadText {
    bytes: [u8; ROOM],
    start: usize,
}

impl Model for RoadText {
    ghost use Rattle.std.specs.Prelude.{◌≤◌, ℕ, List, drop};

    ghost Value = { List ℕ };

    ghost view = { λ text. drop text.start text.bytes };

    ghost invariant = { λ text. text.start ≤ 64 };
}

impl RoadText {
    /// The text of the last number. Takes no memory.
    pub fn of(number: u64) -> RoadText
        ensures text { result ≡ decimal number }
        ensures few { length result ≤ 20 }
    {
        let mut bytes = [b' '; ROOM];
        let start = write_digits(number, &mut bytes, ROOM);
        RoadText { bytes, start }
    }

    /// Puts a number before the text, and a comma between both. There is room for three numbers.
    pub fn put_before(&mut self, number: u64)
        requires room { length self.old ≤ 42 }
        ensures text { self.new ≡ decimal number ++ 44 ∷ self.old }
        ensures few { length self.new ≤ length self.old + 21 }
    {
        let comma = self.start - 1;
        self.bytes[comma] = b',';
        self.start = write_digits(number, &mut self.bytes, comma);
    }

    /// Puts a blank before the text, but not where it is the first of all.
    pub fn put_blank(&mut self, first: bool)
        requires room { length self.old < 64 }
        ensures text { self.new ≡ behind_blank first self.old }
    {
        if !first {
            self.start -= 1;
            self.bytes[self.start] = b' ';
        }
    }

    /// The text as it is.
    pub fn bytes(&self) -> &[u8]
        ensures { result.now ≡ self.now }
    {
        &self.bytes[self.start..]
    }
}
