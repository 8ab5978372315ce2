//! Listing the pieces of a day as they come, stretch by stretch, each stretch looked at once.

ghost use Rattle.std.specs.Prelude.{◌≡◌, ◌≤◌, ◌<◌, ◌+◌, ◌-◌, ◌^◌, ◌++◌, ◌∷◌, [], ℕ, IfOk, IfSome, OnOk};
ghost use Rattle.cu_model.specs.Days.{day};
ghost use Rattle.cu_model.specs.DayForms.{IsDayForm};
ghost use Rattle.cu_model.specs.declared.limits.TheConstants.{DAY};
ghost use Rattle.cu_wait.specs.Steps.Listed.{Follows, Goes, IsListed, IsOpen, IsSettled, IsStretch, course_value, piece_of};

use crate::stretches::{Course, Listing, OpenPiece, Stretch};
use cu_model::{DAY, NoMemory, Piece, Rule};
use std::alloc::Global;

// What a stretch makes of the last piece: whether it ended, and the one that is last then.
#[derive(Clone, Copy)]
pub(crate) struct Following {
    pub ended: Option<OpenPiece>,
    pub last: OpenPiece,
}

impl OpenPiece {
    // When it arrives, leaving at a second of the day from its begin on.
    fn arrival_at(self, second: u32) -> u32
        requires sound { IsOpen self }
        requires within { (self.from ≤ second) × (second < DAY) }
        ensures { result ≡ course_value self.course self.from self.arrival second }
    {
        match self.course {
            Course::Rises => self.arrival + (second - self.from),
            Course::Stays => self.arrival,
        }
    }

    // As profiles have it.
    fn piece(self) -> Piece
        requires { IsOpen self }
        ensures { result ≡ piece_of self }
    {
        let rule = match self.course {
            Course::Rises => Rule::Travel(self.arrival - self.from),
            Course::Stays => Rule::Until(self.arrival),
        };
        Piece {
            from: self.from,
            rule,
        }
    }
}

impl Listing {
    // Nothing is listed yet.
    pub fn new(alloc: Global) -> Listing
        ensures listed { (f : ℕ → ℕ) → IsListed f result 0 }
        ensures begun { result.last.from ≡ 0 }
    {
        Listing {
            pieces: Vec::new(alloc),
            last: OpenPiece {
                from: 0,
                arrival: 0,
                course: Course::Stays,
            },
        }
    }

    // Goes on with the stretch from this second on.
    pub fn add(&mut self, from: u32, stretch: Stretch) -> Result<(), NoMemory>
        requires begun { self.old.last.from ≤ from }
        requires within { (from < stretch.end) × (stretch.end ≤ day) }
        requires onward { (from ≤ stretch.arrival) × (stretch.arrival < 2 ^ 31) }
        requires last { stretch.end ≤ course_value stretch.course from stretch.arrival (stretch.end - 1) + 1 }
        ensures begun { OnOk result (self.new.last.from ≤ stretch.end) }
        ensures listed { OnOk result ((f : ℕ → ℕ) → IsStretch f from stretch → IsListed f self.old from
            → IsListed f self.new stretch.end) }
    {
        let following = follow(self.last, from, stretch);
        match following.ended {
            None => {
                self.last = following.last;
                Ok(())
            }
            Some(ended) => {
                self.end(ended, following.last)?;
                Ok(())
            }
        }
    }

    // Lists a piece that ended, behind which this one is the last.
    fn end(&mut self, ended: OpenPiece, last: OpenPiece) -> Result<(), NoMemory>
        requires ended { IsOpen ended }
        requires last { IsOpen last }
        ensures last { OnOk result (self.new.last ≡ last) }
        ensures pieces { OnOk result (self.new.pieces.items ≡ self.old.pieces.items ++ (piece_of ended ∷ [])) }
    {
        self.pieces.push(ended.piece())?;
        self.last = last;
        Ok(())
    }

    // The pieces of the whole day.
    pub fn finish(self) -> Result<Vec<Piece>, NoMemory>
        ensures { IfOk result (λ pieces. (f : ℕ → ℕ) → IsListed f self day → IsDayForm f pieces.items) }
    {
        let mut pieces = self.pieces;
        pieces.push(at_day_end(self.last).piece())?;
        Ok(pieces)
    }
}

// What the stretch from a second on makes of the last piece, which has lasted until before it.
fn follow(last: OpenPiece, from: u32, stretch: Stretch) -> Following
    requires sound { IsOpen last }
    requires begun { last.from ≤ from }
    requires within { (from < stretch.end) × (stretch.end ≤ day) }
    requires onward { (from ≤ stretch.arrival) × (stretch.arrival < 2 ^ 31) }
    requires last { stretch.end ≤ course_value stretch.course from stretch.arrival (stretch.end - 1) + 1 }
    ensures sound { IsOpen result.last }
    ensures begun { result.last.from < stretch.end }
    ensures ended { IfSome result.ended (λ ended. IsOpen ended) }
    ensures follows { (f : ℕ → ℕ) → IsStretch f from stretch → Goes f last from
        → Follows f last.from result.ended result.last stretch.end }
{
    let begun = OpenPiece {
        from,
        arrival: stretch.arrival,
        course: stretch.course,
    };
    if last.from == from {
        return Following {
            ended: None,
            last: begun,
        };
    }
    let last = settled(last, from, stretch.arrival);
    if last.arrival_at(from) != stretch.arrival {
        return Following {
            ended: Some(last),
            last: begun,
        };
    }
    if from + 1 == stretch.end {
        return Following { ended: None, last };
    }
    let later = a_second_later(begun);
    if last.arrival_at(later.from) == later.arrival {
        return Following { ended: None, last };
    }
    Following {
        ended: Some(last),
        last: later,
    }
}

// A piece, its course settled by when one arrives leaving at the next second, where it has lasted for one second alone.
fn settled(piece: OpenPiece, next: u32, arrival: u32) -> OpenPiece
    requires sound { IsOpen piece }
    requires within { (piece.from < next) × (next < day) }
    ensures same { (result.from ≡ piece.from) × (result.arrival ≡ piece.arrival) }
    ensures settled { (f : ℕ → ℕ) → f next ≡ arrival → Goes f piece next → IsSettled f result next }
{
    if piece.from + 1 < next {
        return piece;
    }
    let course = if arrival == piece.arrival {
        Course::Stays
    } else {
        Course::Rises
    };
    OpenPiece { course, ..piece }
}

// The last piece of a day, its course settled.
fn at_day_end(piece: OpenPiece) -> OpenPiece
    requires sound { IsOpen piece }
    ensures same { (result.from ≡ piece.from) × (result.arrival ≡ piece.arrival) }
    ensures settled { (f : ℕ → ℕ) → Goes f piece day → IsSettled f result day }
{
    if piece.from + 1 < DAY {
        return piece;
    }
    OpenPiece {
        course: Course::Rises,
        ..piece
    }
}

// The same from a second later on.
fn a_second_later(piece: OpenPiece) -> OpenPiece
    requires sound { IsOpen piece }
    requires within { piece.from + 1 < day }
    ensures from { result.from ≡ piece.from + 1 }
    ensures course { result.course ≡ piece.course }
    ensures arrival { result.arrival ≡ course_value piece.course piece.from piece.arrival (piece.from + 1) }
{
    OpenPiece {
        from: piece.from + 1,
        arrival: piece.arrival_at(piece.from + 1),
        course: piece.course,
    }
}
