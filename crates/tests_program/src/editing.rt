//! `edit` of packed files of both versions.

use crate::runs::{PLAIN, Run, leaves, perform};
use cu_model::NoMemory;
use cu_samples::{BUILT, FIRST_VERSION, FORGED, first_version};
use std::alloc::Global;
use std::test::Fail;

// The rush hour's profiles where the first road takes 200 seconds.
const SLOWER: &[u8] =
    b"profile,from,kind,value\n0,0,travel,200\n1,0,travel,100\n1,28800,travel,300\n1,35800,until,36100\n1,36000,travel,100\n2,0,travel,250\n";

// A slower first road.
const SLOW: &[u8] = b"s,0,0,travel,200\n";

// And back again.
const THERE_AND_BACK: &[u8] = b"s,0,0,travel,200\ns,0,0,travel,60\n";

// The digest of the forged file where the shortcut from rank 2 to 3 takes its road, hashed by another program.
const SETTLED_DIGEST: [u8; 32] = [
    0x93, 0xa0, 0x55, 0x08, 0x71, 0x60, 0xdb, 0xaa, 0xe6, 0x59, 0x73, 0x43, 0x2a, 0xa8, 0x21, 0x06,
    0x53, 0x01, 0xe6, 0x79, 0x14, 0x17, 0x6d, 0xb3, 0x9a, 0x7e, 0xe6, 0x21, 0xc1, 0x9a, 0x3b, 0x2f,
];

// A run of `edit` of this file by these lines, with the limit and the faults of another run.
fn edit_of<'a>(file: &'a [u8], lines: &'a [u8], how: Run<'a>) -> Run<'a> {
    Run {
        words: "edit packed lines out",
        packed: file,
        lines,
        ..how
    }
}

// Whether `edit` of this file by these lines says this, stores these bytes and ends well.
fn stores<'a>(alloc: Global, file: &'a [u8], lines: &'a [u8], said: &[u8], out: &[u8]) -> bool {
    leaves(alloc, edit_of(file, lines, PLAIN), 0, said, out)
}

// The packed file of the slower tables.
pub fn built_slower(alloc: Global) -> Result<Vec<u8>, NoMemory> {
    let asked = Run {
        words: "build nodes roads profiles ranks out",
        profiles: SLOWER,
        ..PLAIN
    };
    Ok(perform(alloc, asked)?.out)
}

#[test]
fn edited_files_are_stored(rt: HostRuntime) -> Result<(), Fail> {
    let slower = built_slower(rt.alloc())?;
    let rows: [(&[u8], &[u8], &[u8]); 4] = [
        (b"", b"stored 440\n", &BUILT),
        (SLOW, b"done 2\nstored 416\n", slower.as_slice()),
        (THERE_AND_BACK, b"done 2\ndone 2\nstored 440\n", &BUILT),
        (
            b"q,0,2,0\nd,0,2\nv,0,2,0\ns,9,0,fly,1\na,0,0",
            b"refused: line\nrefused: line\nrefused: line\nrefused: profile\ndone 2\nstored 440\n",
            &BUILT,
        ),
    ];
    for (lines, said, out) in &rows {
        assert!(rt; stores(rt.alloc(), &BUILT, *lines, *said, *out));
        assert!(rt; stores(rt.alloc(), &FIRST_VERSION, *lines, *said, *out));
    }
    Ok(())
}

const SMALL: Run<'static> = Run {
    limit: 439,
    ..PLAIN
};

// The file before the edits is within the limit, and the one after them isn't: by an edit, or in version 2 alone.
#[test]
fn larger_files_are_not_stored(rt: HostRuntime) -> Result<(), Fail> {
    let slower = built_slower(rt.alloc())?;
    let alloc = rt.alloc();
    let built = slower.as_slice();
    let said = b"done 2\ndone 2\ntoo large 440\n";
    assert!(rt; leaves(alloc, edit_of(built, THERE_AND_BACK, SMALL), 13, said, b""));
    let said = b"too large 440\n";
    assert!(rt; leaves(alloc, edit_of(&FIRST_VERSION, b"", SMALL), 13, said, b""));
    let said = b"done 2\nstored 416\n";
    assert!(rt; leaves(alloc, edit_of(&FIRST_VERSION, SLOW, SMALL), 0, said, built));
    Ok(())
}

// An edit of the road from rank 2 to 3 settles that shortcut, whose least bound is then the road's, and leaves the two other forged
// ways.
#[test]
fn untouched_ways_are_stored_as_they_were(rt: HostRuntime) -> Result<(), Fail> {
    let mut after = FORGED;
    after[528] = 0;
    after[532] = 8;
    after[628] = 10;
    after[644..].copy_from_slice(&SETTLED_DIGEST);
    let first = first_version(rt.alloc(), &FORGED)?;
    let said = b"done 1\nstored 676\n";
    assert!(rt; stores(rt.alloc(), &FORGED, b"a,8,0\n", said, &after));
    assert!(rt; stores(rt.alloc(), &first, b"a,8,0\n", said, &after));
    Ok(())
}
