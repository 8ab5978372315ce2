//! Stretches of a day, and the pieces that are made of them.

ghost use Rattle.std.specs.Prelude.{◌≤◌, ◌<◌, ◌^◌};
ghost use Rattle.cu_model.specs.declared.limits.TheConstants.{DAY};

use cu_model::Piece;

// How arrivals go on from one second to the next.
#[derive(Clone, Copy)]
pub(crate) enum Course {
    // Who leaves a second later arrives a second later.
    Rises,
    // Who leaves later arrives at the same second.
    Stays,
}

// When one arrives leaving at a second of the day, and how that goes on until before another.
#[derive(Clone, Copy)]
pub(crate) struct Stretch {
    pub arrival: u32,
    pub course: Course,
    pub end: u32,
}

// A piece that may go on: where it begins, when one arrives leaving then, and how that goes on. What it is called, where it
// has one second as yet, is settled by the next.
#[derive(Clone, Copy)]
pub(crate) struct OpenPiece {
    pub from: u32,
    pub arrival: u32,
    pub course: Course,
}

// The pieces of a day up to a second: those that ended, and the last. Nothing is listed where the last begins at that second.
#[derive(Drop)]
pub(crate) struct Listing {
    pub pieces: Vec<Piece>,
    pub last: OpenPiece,
    ghost within: { last.from < DAY },
    ghost onward: { last.from ≤ last.arrival },
    ghost limit: { last.arrival ≤ 2 ^ 31 },
}
