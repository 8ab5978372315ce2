//! Lines of edits, checked and taken.

use cu_model::{Edit, NoMemory, Piece, PieceFault, PieceRefusal, Rule};
use cu_script::{EditRefusal, MAX_EDIT_LINE, check_edit};
use std::alloc::Global;

// An edit, with the first of the pieces that it sets.
#[derive(Clone, Copy, PartialEq, Eq)]
enum Shown {
    Set { profile: u32, first: Option<Piece> },
    Assign { arc: u32, profile: u32 },
}

// What a line makes of a network with three roads and three profiles.
fn outcome(alloc: Global, line: &[u8]) -> Result<Result<Shown, EditRefusal>, NoMemory> {
    if line.len() > MAX_EDIT_LINE as usize {
        return Ok(Err(EditRefusal::Line));
    }
    let checked = match check_edit(line, 3, 3) {
        Ok(checked) => checked,
        Err(refusal) => return Ok(Err(refusal)),
    };
    match checked.take(alloc)? {
        Edit::Set { profile, pieces } => Ok(Ok(Shown::Set {
            profile,
            first: pieces.pieces().first().copied(),
        })),
        Edit::Assign { arc, profile } => Ok(Ok(Shown::Assign { arc, profile })),
    }
}

// A line for each refusal, by the first check that it fails.
const REFUSED: [(&[u8], EditRefusal); 14] = [
    (b"x", EditRefusal::Line),
    (b"", EditRefusal::Line),
    (b"s,0", EditRefusal::Line),
    (b"s,0,0,travel", EditRefusal::Line),
    (b"s,9,0,fly,1,0", EditRefusal::Line),
    (b"a,0", EditRefusal::Line),
    (b"a,0,1,2", EditRefusal::Line),
    (b"a,9,0", EditRefusal::Arc),
    (b"a,9,9", EditRefusal::Arc),
    (b"a,0,9", EditRefusal::Profile),
    (b"s,9,0,fly,1", EditRefusal::Profile),
    (
        b"s,100000000000000000000000000000,0,travel,1",
        EditRefusal::Profile,
    ),
    (b"s,0,0,fly,1", EditRefusal::Piece(PieceRefusal::Kind)),
    (
        b"s,0,0,travel,604801,1,fly,1",
        EditRefusal::Piece(PieceRefusal::Kind),
    ),
];

// A line for each fault of a profile's pieces.
const FAULTS: [(&[u8], PieceFault); 9] = [
    (b"s,0,5,travel,1", PieceFault::Start),
    (b"s,0,5,closed,0", PieceFault::Start),
    (
        b"s,0,0,travel,1,0,travel,2",
        PieceFault::Rising { piece: 1 },
    ),
    (
        b"s,0,0,travel,0,43200,travel,100",
        PieceFault::Fifo { second: 86399 },
    ),
    (
        b"s,0,0,travel,100,50,travel,20",
        PieceFault::Fifo { second: 49 },
    ),
    (b"s,0,0,until,100", PieceFault::Early { second: 101 }),
    (b"s,0,0,travel,604801", PieceFault::Limit { piece: 0 }),
    (b"s,0,0,closed,1", PieceFault::Limit { piece: 0 }),
    (
        b"s,0,0,closed,0,5,travel,1",
        PieceFault::Closed { piece: 0 },
    ),
];

// Lines that are taken.
const TAKEN: [(&[u8], Shown); 3] = [
    (
        b"s,0,0,until,86400",
        Shown::Set {
            profile: 0,
            first: Some(Piece {
                from: 0,
                rule: Rule::Until(86400),
            }),
        },
    ),
    (
        b"s,2,0,closed,0",
        Shown::Set {
            profile: 2,
            first: Some(Piece {
                from: 0,
                rule: Rule::Closed(0),
            }),
        },
    ),
    (b"a,02,1", Shown::Assign { arc: 2, profile: 1 }),
];

#[test]
fn checks_and_takes(rt: HostRuntime) {
    for (line, refusal) in REFUSED {
        assert!(rt; outcome(rt.alloc(), line) == Ok(Err(refusal)));
    }
    for (line, fault) in FAULTS {
        let refusal = EditRefusal::Piece(PieceRefusal::Fault(fault));
        assert!(rt; outcome(rt.alloc(), line) == Ok(Err(refusal)));
    }
    for (line, shown) in TAKEN {
        assert!(rt; outcome(rt.alloc(), line) == Ok(Ok(shown)));
    }
}
