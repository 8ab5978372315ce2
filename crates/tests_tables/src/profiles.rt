//! Texts of profiles.

use cu_model::{Piece, PieceFault, PieceRefusal, Profile, Rule};
use cu_profile::{ProfileRefusal, read_profiles, write_profiles};
use std::alloc::Global;

// Why a text is refused, none where it isn't.
fn refusal_of(alloc: Global, text: &[u8]) -> Option<ProfileRefusal> {
    match read_profiles(alloc, text) {
        Ok(_) => None,
        Err(refusal) => Some(refusal),
    }
}

// Texts, and why they are refused.
const REFUSED_ROWS: [(&[u8], Option<ProfileRefusal>); 6] = [
    (b"profile,from,kind,values\n", Some(ProfileRefusal::Header)),
    (
        b"profile,from,kind,value\n0,0,fly,1\n0,1,travel,1,1\n",
        Some(ProfileRefusal::Fields { row: 1 }),
    ),
    (
        b"profile,from,kind,value\n0,0,travel,+1\n",
        Some(ProfileRefusal::Number { row: 0 }),
    ),
    (
        b"profile,from,kind,value\n0,,travel,1\n",
        Some(ProfileRefusal::Number { row: 0 }),
    ),
    (
        b"profile,from,kind,value\n1,0,travel,1\n",
        Some(ProfileRefusal::Sequence { row: 0 }),
    ),
    (
        b"profile,from,kind,value\n0,0,travel,1\n\
        100000000000000000000000000000,0,travel,1\n",
        Some(ProfileRefusal::Sequence { row: 1 }),
    ),
];

#[test]
fn refuses_rows(rt: HostRuntime) {
    for (text, refusal) in &REFUSED_ROWS {
        assert!(rt; refusal_of(rt.alloc(), *text) == *refusal);
    }
}

// Texts, the row that is refused, and why.
const REFUSED_PROFILES: [(&[u8], u32, PieceRefusal); 9] = [
    (
        b"profile,from,kind,value\n0,0,travel,604801\n0,1,fly,1\n",
        1,
        PieceRefusal::Kind,
    ),
    (
        b"profile,from,kind,value\n0,0,travel,1\n\
        0,1,travel,100000000000000000000000000000\n",
        1,
        PieceRefusal::Fault(PieceFault::Limit { piece: 1 }),
    ),
    (
        b"profile,from,kind,value\n0,5,travel,1\n",
        0,
        PieceRefusal::Fault(PieceFault::Start),
    ),
    (
        b"profile,from,kind,value\n0,0,travel,1\n1,0,travel,1\n1,0,travel,2\n",
        2,
        PieceRefusal::Fault(PieceFault::Rising { piece: 1 }),
    ),
    (
        b"profile,from,kind,value\n0,0,until,100\n",
        0,
        PieceRefusal::Fault(PieceFault::Early { second: 101 }),
    ),
    (
        b"profile,from,kind,value\n0,0,travel,0\n0,43200,travel,100\n",
        0,
        PieceRefusal::Fault(PieceFault::Fifo { second: 86399 }),
    ),
    (
        b"profile,from,kind,value\n0,0,closed,1\n",
        0,
        PieceRefusal::Fault(PieceFault::Limit { piece: 0 }),
    ),
    (
        b"profile,from,kind,value\n0,0,travel,1\n1,0,travel,1\n1,5,closed,0\n",
        2,
        PieceRefusal::Fault(PieceFault::Closed { piece: 1 }),
    ),
    (
        b"profile,from,kind,value\n0,0,closed,0\n0,5,closes,0\n",
        1,
        PieceRefusal::Kind,
    ),
];

#[test]
fn refuses_profiles(rt: HostRuntime) {
    for (text, row, refusal) in &REFUSED_PROFILES {
        let refused = ProfileRefusal::Row {
            row: *row,
            refusal: *refusal,
        };
        assert!(rt; refusal_of(rt.alloc(), *text) == Some(refused));
    }
}

// Texts, and why they are refused, none where they aren't.
const SPELLINGS: [(&[u8], Option<ProfileRefusal>); 4] = [
    (b"", Some(ProfileRefusal::Header)),
    (b"profile,from,kind,value\n", None),
    (b"profile,from,kind,value\n00,000,travel,0060\n", None),
    (
        b"\xef\xbb\xbfprofile,\"from\",kind,value\r\n\r\n\
        0,0,\"travel\",60\r\n\n0,\"60\",travel,60",
        None,
    ),
];

#[test]
fn takes_other_spellings(rt: HostRuntime) {
    for (text, refusal) in &SPELLINGS {
        assert!(rt; refusal_of(rt.alloc(), *text) == *refusal);
    }
}

// Three profiles: a minute, one of four pieces, and a closed one.
const THREE: &[u8] =
    b"profile,from,kind,value\n0,0,travel,60\n1,0,travel,100\n1,28800,travel,300\n1,35800,until,36100\n1,36000,travel,100\n2,0,closed,0\n";

// Whether these are they.
fn are_three(profiles: &[Profile]) -> bool {
    let [_, second, third] = profiles else {
        return false;
    };
    let until = Piece {
        from: 35800,
        rule: Rule::Until(36100),
    };
    let pieces = second.pieces();
    pieces.len() == 4 && pieces.get(2) == Some(&until) && third.is_closed()
}

#[test]
fn reads_and_writes(rt: HostRuntime) -> Result<(), ProfileRefusal> {
    let profiles = read_profiles(rt.alloc(), THREE)?;
    assert!(rt; are_three(&profiles));
    let written = write_profiles(rt.alloc(), &profiles)?;
    assert!(rt; written.as_slice() == THREE);
    Ok(())
}
