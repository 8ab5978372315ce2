//! Where files of version 1 that were forged by hand differ, migrated.

use cu_interval::{Dir, Way};
use cu_pack::{PackedView, migrate};
use cu_samples::{FIRST_VERSION, forged};
use cu_verify::{Verdict, verify};
use std::alloc::Global;
use std::process::Abort;
use std::test::Fail;

// The built file in version 1 with these bytes changed, cut behind so many bytes, and migrated.
fn migrated(alloc: Global, changes: &[(usize, u8)], length: usize) -> Result<Vec<u8>, Fail> {
    let first = forged(alloc, &FIRST_VERSION, changes, length)?;
    Ok(migrate(alloc, &first)?)
}

// The verdict over a file.
fn verdict(alloc: Global, file: &[u8]) -> Result<Verdict, Fail> {
    let view = PackedView::open(alloc, file)?;
    Ok(verify(alloc, &view)?)
}

const ROAD: Option<Way> = Some(Way::Road(2));

const MIDDLE: Option<Way> = Some(Way::Via(0));

// A forged file: the bytes that are changed, and how many are left; and what verify says of it.
struct Forged<'a> {
    changes: &'a [(usize, u8)],
    length: usize,
    verdict: Verdict,
}

// The entries of edge 2 up stand at 324, 336 and 348, twelve bytes each: the middle, road 2 from 28,740 on, and the middle again
// from 35,851 on. The starts of the lists stand from 244 on, eight bytes each.
const ROWS: [Forged<'static>; 7] = [
    Forged {
        changes: &[],
        length: 360,
        verdict: Verdict::Same,
    },
    // Middle and road are swapped.
    Forged {
        changes: &[(328, 0), (332, 2), (340, 1), (344, 0), (352, 0), (356, 2)],
        length: 360,
        verdict: Verdict::Differs {
            edge: 2,
            dir: Dir::Up,
            second: 0,
            stored: ROAD,
            built: MIDDLE,
        },
    },
    // The road begins a second later, and the middle again a second sooner.
    Forged {
        changes: &[(336, 0x45)],
        length: 360,
        verdict: Verdict::Differs {
            edge: 2,
            dir: Dir::Up,
            second: 28_740,
            stored: MIDDLE,
            built: ROAD,
        },
    },
    Forged {
        changes: &[(348, 0x0a)],
        length: 360,
        verdict: Verdict::Differs {
            edge: 2,
            dir: Dir::Up,
            second: 35_850,
            stored: MIDDLE,
            built: ROAD,
        },
    },
    // The last entry is gone.
    Forged {
        changes: &[(36, 4), (44, 0x7c), (284, 4), (292, 4)],
        length: 348,
        verdict: Verdict::Differs {
            edge: 2,
            dir: Dir::Up,
            second: 35_851,
            stored: ROAD,
            built: MIDDLE,
        },
    },
    // The list is empty; and so are two, of which the first is named.
    Forged {
        changes: &[(36, 2), (44, 0x64), (284, 2), (292, 2)],
        length: 324,
        verdict: Verdict::Differs {
            edge: 2,
            dir: Dir::Up,
            second: 0,
            stored: None,
            built: MIDDLE,
        },
    },
    Forged {
        changes: &[
            (36, 1),
            (44, 0x58),
            (260, 0),
            (268, 1),
            (276, 1),
            (284, 1),
            (292, 1),
            (308, 1),
        ],
        length: 312,
        verdict: Verdict::Differs {
            edge: 0,
            dir: Dir::Down,
            second: 0,
            stored: None,
            built: Some(Way::Road(0)),
        },
    },
];

// Does verify say this of the file?
fn is_found(rt: &impl Abort, alloc: Global, row: &Forged<'_>) -> Result<(), Fail> {
    let file = migrated(alloc, row.changes, row.length)?;
    let found = verdict(alloc, &file)?;
    assert_eq!(rt; found, row.verdict);
    Ok(())
}

#[test]
fn finds_where_a_list_differs_first(rt: HostRuntime) -> Result<(), Fail> {
    for row in &ROWS {
        is_found(&rt, rt.alloc(), row)?;
    }
    Ok(())
}
