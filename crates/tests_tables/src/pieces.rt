//! Pieces that are a profile, and those that aren't.

use cu_model::{Piece, PieceFault, Profile, Rule, check_pieces};
use std::alloc::Global;
use std::test::*;

macro_rules! travel {
    ($from:expr, $seconds:expr) => {
        Piece {
            from: $from,
            rule: Rule::Travel($seconds),
        }
    };
}

macro_rules! until {
    ($from:expr, $arrival:expr) => {
        Piece {
            from: $from,
            rule: Rule::Until($arrival),
        }
    };
}

macro_rules! closed {
    ($from:expr, $value:expr) => {
        Piece {
            from: $from,
            rule: Rule::Closed($value),
        }
    };
}

// Lists of pieces, and what is wrong with each.
const FAULTS: [(&[Piece], Result<(), PieceFault>); 20] = [
    // Pieces that are closed.
    (&[closed!(0, 0)], Ok(())),
    (&[closed!(0, 1)], Err(PieceFault::Limit { piece: 0 })),
    (&[closed!(5, 0)], Err(PieceFault::Start)),
    (
        &[closed!(0, 0), travel!(0, 1)],
        Err(PieceFault::Rising { piece: 1 }),
    ),
    (
        &[closed!(0, 0), travel!(5, 1)],
        Err(PieceFault::Closed { piece: 0 }),
    ),
    (
        &[until!(0, 100), closed!(50, 0), closed!(60, 0)],
        Err(PieceFault::Closed { piece: 1 }),
    ),
    // Pieces that overtake one another, and that don't.
    (&[until!(0, 86_400)], Ok(())),
    (
        &[
            travel!(0, 100),
            travel!(28_800, 300),
            until!(35_800, 36_100),
            travel!(36_000, 100),
        ],
        Ok(()),
    ),
    (
        &[
            travel!(0, 100),
            travel!(28_800, 300),
            until!(35_800, 36_100),
            travel!(36_000, 50),
        ],
        Err(PieceFault::Fifo { second: 35_999 }),
    ),
    (
        &[travel!(0, 100), travel!(50, 20)],
        Err(PieceFault::Fifo { second: 49 }),
    ),
    (
        &[travel!(0, 0), travel!(43_200, 100)],
        Err(PieceFault::Fifo { second: 86_399 }),
    ),
    // Pieces that arrive too early, do not rise, or do not begin with the day.
    (&[until!(0, 100)], Err(PieceFault::Early { second: 101 })),
    (
        &[until!(0, 100), until!(50, 20)],
        Err(PieceFault::Early { second: 50 }),
    ),
    (
        &[travel!(0, 1), travel!(0, 2)],
        Err(PieceFault::Rising { piece: 1 }),
    ),
    (&[], Err(PieceFault::Start)),
    (&[travel!(5, 1)], Err(PieceFault::Start)),
    // Pieces past their limits.
    (&[travel!(5, 604_801)], Err(PieceFault::Limit { piece: 0 })),
    (&[travel!(0, 604_801)], Err(PieceFault::Limit { piece: 0 })),
    (
        &[travel!(0, 604_800), until!(86_399, 691_201)],
        Err(PieceFault::Limit { piece: 1 }),
    ),
    (
        &[travel!(0, 0), until!(86_400, 86_400)],
        Err(PieceFault::Limit { piece: 1 }),
    ),
];

// Is this what is wrong with these pieces?
fn is_found(pieces: &[Piece], want: Result<(), PieceFault>) -> bool {
    pieces.len() < 9 && check_pieces(pieces) == want
}

#[test]
fn names_the_first_fault(rt: HostRuntime) {
    for (pieces, want) in &FAULTS {
        assert!(rt; is_found(*pieces, *want));
    }
}

// The profile of two pieces.
fn two_pieces(alloc: Global) -> Result<Profile, Fail> {
    let pieces = Vec::from_slice(alloc, &[travel!(0, 60), until!(43_200, 86_400)])?;
    Ok(Profile::of(pieces).ok().ok_or("these are a profile")?)
}

// Whether a profile has two pieces and lets somebody through, and these are its arrivals in the last second of the first and in the
// first of the second, a day later.
fn is_driven(profile: &Profile) -> bool {
    profile.pieces().len() == 2
        && !profile.is_closed()
        && profile.arrive(43_199) == 43_259
        && profile.arrive(86_400 + 43_200) == 172_800
}

#[test]
fn makes_a_profile(rt: HostRuntime) -> Result<(), Fail> {
    let profile = two_pieces(rt.alloc())?;
    assert!(rt; is_driven(&profile));
    Ok(())
}
