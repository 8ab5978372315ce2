//! Files made by hand that pass, in both versions, and which check they fail with some of their bytes changed.

use cu_interval::Dir;
use cu_pack::{Field, PackRefusal, PackedView, migrate};
use cu_samples::{BUILT, FIRST_VERSION, FORGED, NOTHING, forged};
use std::alloc::Global;
use std::process::Abort;
use std::test::Fail;

// Why a file of this version, 1 or 2, isn't taken: migrated or opened.
fn refusal(alloc: Global, version: u32, file: &[u8]) -> Option<PackRefusal> {
    if version == 1 {
        migrate(alloc, file).err()
    } else {
        PackedView::open(alloc, file).err()
    }
}

// Why the built file isn't opened with one byte changed, and the digest that it had.
fn changed_refusal(alloc: Global, place: usize, byte: u8) -> Option<PackRefusal> {
    let mut file = BUILT;
    if let Some(old) = file.get_mut(place) {
        *old = byte;
    }
    refusal(alloc, 2, &file)
}

// Why it isn't migrated in version 1, changed in the same way.
fn first_changed_refusal(alloc: Global, place: usize, byte: u8) -> Option<PackRefusal> {
    let mut file = FIRST_VERSION;
    if let Some(old) = file.get_mut(place) {
        *old = byte;
    }
    refusal(alloc, 1, &file)
}

// Why the built file isn't opened with these bytes changed and the digest of what they then are.
fn forged_refusal(alloc: Global, changes: &[(usize, u8)]) -> Result<Option<PackRefusal>, Fail> {
    let file = forged(alloc, &BUILT, changes, 408)?;
    Ok(refusal(alloc, 2, &file))
}

// Why it isn't migrated in version 1, changed in the same way.
fn first_refusal(alloc: Global, changes: &[(usize, u8)]) -> Result<Option<PackRefusal>, Fail> {
    let file = forged(alloc, &FIRST_VERSION, changes, 360)?;
    Ok(refusal(alloc, 1, &file))
}

// Is this why a file of this version with these bytes changed isn't taken?
fn is_wanted(
    rt: &impl Abort,
    version: u32,
    changes: &[(usize, u8)],
    found: Option<PackRefusal>,
    wanted: Option<PackRefusal>,
) {
    assert_eq!(rt; found, wanted, "{changes:?} in version {version}");
}

// Are these files of this version taken, and if not, is this why?
fn takes_files(
    rt: &impl Abort,
    alloc: Global,
    version: u32,
    rows: &[(&[u8], Option<PackRefusal>)],
) {
    for (file, wanted) in rows {
        let found = refusal(alloc, version, *file);
        assert_eq!(rt; found, *wanted, "{} bytes", file.len());
    }
}

// Is this why the built file isn't taken in this version, with one byte changed and the digest that it had?
fn refuses_bytes(rt: &impl Abort, alloc: Global, version: u32, rows: &[(usize, u8, PackRefusal)]) {
    for (place, byte, wanted) in rows {
        let found = if version == 1 {
            first_changed_refusal(alloc, *place, *byte)
        } else {
            changed_refusal(alloc, *place, *byte)
        };
        is_wanted(rt, version, &[(*place, *byte)], found, Some(*wanted));
    }
}

// The check that fails where one byte is changed.
const HEADER: [(usize, u8, PackRefusal); 8] = [
    (0, 0x44, PackRefusal::Magic),
    (7, 0x49, PackRefusal::Magic),
    (8, 3, PackRefusal::Version { found: 3 }),
    (
        44,
        0xb9,
        PackRefusal::Length {
            said: 441,
            found: 440,
        },
    ),
    (12, 4, PackRefusal::Digest),
    (359, 1, PackRefusal::Digest),
    (392, 0xa1, PackRefusal::Digest),
    (439, 0xa1, PackRefusal::Digest),
];

#[test]
fn refuses_a_header_for_its_first_fault(rt: HostRuntime) {
    let alloc = rt.alloc();
    let length = PackRefusal::Length {
        said: 440,
        found: 439,
    };
    let rows: [(&[u8], Option<PackRefusal>); 7] = [
        (&BUILT, None),
        (&NOTHING, None),
        (&FORGED, None),
        (&BUILT[..0], Some(PackRefusal::Short)),
        (&BUILT[..83], Some(PackRefusal::Short)),
        (&BUILT[..439], Some(length)),
        (&FIRST_VERSION, Some(PackRefusal::Version { found: 1 })),
    ];
    takes_files(&rt, alloc, 2, &rows);
    refuses_bytes(&rt, alloc, 2, &HEADER);
}

// The same in version 1.
const FIRST_HEADER: [(usize, u8, PackRefusal); 7] = [
    (0, 0x44, PackRefusal::Magic),
    (7, 0x49, PackRefusal::Magic),
    (8, 3, PackRefusal::Version { found: 3 }),
    (
        44,
        0x89,
        PackRefusal::Length {
            said: 393,
            found: 392,
        },
    ),
    (12, 4, PackRefusal::Digest),
    (359, 1, PackRefusal::Digest),
    (391, 0x3d, PackRefusal::Digest),
];

#[test]
fn refuses_a_header_of_version_1_for_its_first_fault(rt: HostRuntime) {
    let alloc = rt.alloc();
    let length = PackRefusal::Length {
        said: 392,
        found: 391,
    };
    let rows: [(&[u8], Option<PackRefusal>); 5] = [
        (&FIRST_VERSION, None),
        (&FIRST_VERSION[..0], Some(PackRefusal::Short)),
        (&FIRST_VERSION[..83], Some(PackRefusal::Short)),
        (&FIRST_VERSION[..391], Some(length)),
        (&BUILT, Some(PackRefusal::Version { found: 2 })),
    ];
    takes_files(&rt, alloc, 1, &rows);
    refuses_bytes(&rt, alloc, 1, &FIRST_HEADER);
}

// The bytes that the counts ask for, of a file with so many bytes; none for another refusal.
fn counted(refusal: Option<PackRefusal>, length: u64) -> Option<u64> {
    match refusal {
        Some(PackRefusal::Size { counted, found }) if found == length => Some(counted),
        _ => None,
    }
}

// The same of both versions with these bytes changed.
fn counts(alloc: Global, changes: &[(usize, u8)]) -> Result<(Option<u64>, Option<u64>), Fail> {
    let second = counted(forged_refusal(alloc, changes)?, 440);
    let first = counted(first_refusal(alloc, changes)?, 392);
    Ok((second, first))
}

// With these bytes changed, is this why neither version is taken?
fn is_refused_so(
    rt: &impl Abort,
    alloc: Global,
    changes: &[(usize, u8)],
    wanted: Option<PackRefusal>,
) -> Result<(), Fail> {
    is_wanted(rt, 2, changes, forged_refusal(alloc, changes)?, wanted);
    is_wanted(rt, 1, changes, first_refusal(alloc, changes)?, wanted);
    Ok(())
}

// Counts that are one past their limits, and at them with their first byte 0.
const COUNTS: [([(usize, u8); 3], Field); 6] = [
    ([(12, 1), (13, 0), (14, 4)], Field::Nodes),
    ([(16, 1), (17, 0), (18, 16)], Field::Arcs),
    ([(20, 1), (21, 0), (22, 16)], Field::Profiles),
    ([(24, 1), (25, 0), (27, 1)], Field::Edges),
    ([(28, 1), (31, 0x18), (32, 0x15)], Field::Pieces),
    ([(36, 1), (40, 0xa3), (41, 2)], Field::Entries),
];

// Does a count at its limit ask for more bytes than there are, in both versions?
fn asks_for_more(rt: &impl Abort, alloc: Global, changes: [(usize, u8); 3]) -> Result<(), Fail> {
    let [(place, _), second, third] = changes;
    let (found, first) = counts(alloc, &[(place, 0), second, third])?;
    assert!(rt; found.is_some(), "at {place}");
    assert!(rt; first.is_some(), "at {place} in version 1");
    Ok(())
}

#[test]
fn refuses_counts_past_their_limits(rt: HostRuntime) -> Result<(), Fail> {
    let alloc = rt.alloc();
    for (changes, field) in &COUNTS {
        is_refused_so(
            &rt,
            alloc,
            changes,
            Some(PackRefusal::Limit { field: *field }),
        )?;
        asks_for_more(&rt, alloc, *changes)?;
    }
    Ok(())
}

// What the counts ask for where each version stands under the number of the other.
fn first_as_second(alloc: Global) -> Result<Option<u64>, Fail> {
    let file = forged(alloc, &FIRST_VERSION, &[(8, 2)], 360)?;
    Ok(counted(refusal(alloc, 2, &file), 392))
}

fn second_as_first(alloc: Global) -> Result<Option<u64>, Fail> {
    let file = forged(alloc, &BUILT, &[(8, 1)], 408)?;
    Ok(counted(refusal(alloc, 1, &file), 440))
}

#[test]
fn refuses_other_sizes(rt: HostRuntime) -> Result<(), Fail> {
    let alloc = rt.alloc();
    // One more node, and one more edge, which asks for least bounds in version 2 alone.
    let rows = [((12, 4), 452, 404), ((24, 4), 476, 412)];
    for (change, wanted, first_wanted) in &rows {
        let (found, first) = counts(alloc, &[*change])?;
        assert!(rt; found == Some(*wanted) && first == Some(*first_wanted));
    }
    assert_eq!(rt; first_as_second(alloc)?, Some(440));
    assert_eq!(rt; second_as_first(alloc)?, Some(392));
    Ok(())
}

// The first part that is wrong where one byte is changed.
const ONE_BYTE: [(usize, u8, PackRefusal); 39] = [
    // The node at a rank is none, has another rank, or is one that another rank has.
    (52, 3, PackRefusal::Order { rank: 0 }),
    (52, 0, PackRefusal::Order { rank: 0 }),
    (60, 1, PackRefusal::Order { rank: 2 }),
    (64, 2, PackRefusal::Order { rank: 1 }),
    (72, 3, PackRefusal::Order { rank: 2 }),
    // No such tail, head or profile.
    (84, 3, PackRefusal::RoadArc { arc: 0 }),
    (88, 3, PackRefusal::RoadArc { arc: 1 }),
    (104, 3, PackRefusal::RoadArc { arc: 2 }),
    (103, 3, PackRefusal::RoadArc { arc: 2 }),
    // The first start, a profile of no pieces, and one past the last piece.
    (112, 1, PackRefusal::Profile { number: 0 }),
    (120, 0, PackRefusal::Profile { number: 0 }),
    (128, 1, PackRefusal::Profile { number: 1 }),
    (136, 5, PackRefusal::Profile { number: 2 }),
    (120, 7, PackRefusal::Profile { number: 0 }),
    // A kind that is none, a closed piece with a value, and one beside others.
    (148, 3, PackRefusal::Profile { number: 0 }),
    (151, 1, PackRefusal::Profile { number: 0 }),
    (148, 2, PackRefusal::Profile { number: 0 }),
    (160, 2, PackRefusal::Profile { number: 1 }),
    // A first piece later than the day begins, a second past the day, and one that doesn't rise.
    (204, 1, PackRefusal::Profile { number: 2 }),
    (194, 2, PackRefusal::Profile { number: 1 }),
    (181, 0x60, PackRefusal::Profile { number: 1 }),
    // The first start of edges, too few edges, and too many.
    (216, 1, PackRefusal::Graph { rank: 0 }),
    (220, 1, PackRefusal::Graph { rank: 0 }),
    (220, 3, PackRefusal::Graph { rank: 0 }),
    (224, 2, PackRefusal::Graph { rank: 1 }),
    (228, 2, PackRefusal::Graph { rank: 2 }),
    // Another upper end.
    (232, 2, PackRefusal::Graph { rank: 0 }),
    (240, 1, PackRefusal::Graph { rank: 1 }),
    // The first start of entries, a list with another's entries, and one past the last entry.
    (
        244,
        1,
        PackRefusal::Ways {
            edge: 0,
            dir: Dir::Up,
        },
    ),
    (
        252,
        1,
        PackRefusal::Ways {
            edge: 0,
            dir: Dir::Up,
        },
    ),
    (
        260,
        0,
        PackRefusal::Ways {
            edge: 1,
            dir: Dir::Up,
        },
    ),
    (
        260,
        6,
        PackRefusal::Ways {
            edge: 0,
            dir: Dir::Down,
        },
    ),
    // A kind that is none, a first entry not from second 0, and one past the day.
    (
        304,
        2,
        PackRefusal::Ways {
            edge: 0,
            dir: Dir::Down,
        },
    ),
    (
        300,
        1,
        PackRefusal::Ways {
            edge: 0,
            dir: Dir::Down,
        },
    ),
    (
        338,
        2,
        PackRefusal::Ways {
            edge: 2,
            dir: Dir::Up,
        },
    ),
    // A road elsewhere, a road that is none, and middles that are none.
    (
        308,
        1,
        PackRefusal::Ways {
            edge: 0,
            dir: Dir::Down,
        },
    ),
    (
        308,
        3,
        PackRefusal::Ways {
            edge: 0,
            dir: Dir::Down,
        },
    ),
    (
        316,
        1,
        PackRefusal::Ways {
            edge: 1,
            dir: Dir::Up,
        },
    ),
    (
        332,
        1,
        PackRefusal::Ways {
            edge: 2,
            dir: Dir::Up,
        },
    ),
];

// The same where more than one is.
const MORE_BYTES: [(&[(usize, u8)], Option<PackRefusal>); 9] = [
    (&[], None),
    // Three profiles of a piece each leave three pieces behind.
    (
        &[(128, 2), (136, 3), (168, 0), (169, 0)],
        Some(PackRefusal::Profile { number: 3 }),
    ),
    // A second entry from second 0 too, and one with the way of the first.
    (
        &[(336, 0), (337, 0)],
        Some(PackRefusal::Ways {
            edge: 2,
            dir: Dir::Up,
        }),
    ),
    (
        &[(340, 1), (344, 0)],
        Some(PackRefusal::Ways {
            edge: 2,
            dir: Dir::Up,
        }),
    ),
    // A middle whose first half has no way.
    (
        &[
            (308, 1),
            (260, 0),
            (268, 1),
            (276, 1),
            (316, 1),
            (320, 0),
            (284, 2),
        ],
        Some(PackRefusal::Ways {
            edge: 2,
            dir: Dir::Up,
        }),
    ),
    // A road that is closed all day may be there, but is no way.
    (
        &[(148, 2), (152, 0)],
        Some(PackRefusal::Ways {
            edge: 0,
            dir: Dir::Down,
        }),
    ),
    // Entries that are left behind the last list.
    (
        &[(284, 4), (292, 4)],
        Some(PackRefusal::Ways {
            edge: 3,
            dir: Dir::Up,
        }),
    ),
    // The earlier check is named, also where a least bound is wrong.
    (&[(60, 1), (104, 3)], Some(PackRefusal::Order { rank: 2 })),
    (
        &[(332, 1), (368, 61)],
        Some(PackRefusal::Ways {
            edge: 2,
            dir: Dir::Up,
        }),
    ),
];

#[test]
fn finds_the_first_part_that_is_wrong(rt: HostRuntime) -> Result<(), Fail> {
    for (place, byte, wanted) in &ONE_BYTE {
        is_refused_so(&rt, rt.alloc(), &[(*place, *byte)], Some(*wanted))?;
    }
    for (changes, wanted) in &MORE_BYTES {
        is_refused_so(&rt, rt.alloc(), *changes, *wanted)?;
    }
    Ok(())
}

// The first list whose least bound is another one. The bounds stand from 360 on, eight bytes each: those of the empty lists, of edge
// 0 up and of edges 1 and 2 down, are 2^60.
const BOUNDS: [(&[(usize, u8)], Option<(u32, Dir)>); 15] = [
    // One too great and one too small, of each list.
    (&[(360, 1)], Some((0, Dir::Up))),
    (&[(367, 0x0f)], Some((0, Dir::Up))),
    (&[(368, 61)], Some((0, Dir::Down))),
    (&[(368, 59)], Some((0, Dir::Down))),
    (&[(376, 101)], Some((1, Dir::Up))),
    (&[(383, 0x10)], Some((1, Dir::Up))),
    (&[(391, 0)], Some((1, Dir::Down))),
    (&[(392, 161)], Some((2, Dir::Up))),
    (&[(392, 159)], Some((2, Dir::Up))),
    (&[(400, 160), (407, 0)], Some((2, Dir::Down))),
    // The first of two.
    (&[(392, 161), (368, 61)], Some((0, Dir::Down))),
    // Another first piece leaves a least travel of 100 seconds by the last one; another last piece too makes it 101, of which
    // the way over the middle takes part.
    (&[(164, 101)], None),
    (&[(164, 101), (200, 101)], Some((1, Dir::Up))),
    (&[(164, 101), (200, 101), (376, 101)], Some((2, Dir::Up))),
    (&[(164, 101), (200, 101), (376, 101), (392, 161)], None),
];

// Is the first list of the built file with these bytes changed whose bound is wrong this one?
fn is_bound(
    rt: &impl Abort,
    alloc: Global,
    changes: &[(usize, u8)],
    wanted: Option<(u32, Dir)>,
) -> Result<(), Fail> {
    let wanted = wanted.map(|(edge, dir)| PackRefusal::Bound { edge, dir });
    is_wanted(rt, 2, changes, forged_refusal(alloc, changes)?, wanted);
    Ok(())
}

#[test]
fn finds_the_first_bound_that_is_wrong(rt: HostRuntime) -> Result<(), Fail> {
    for (changes, wanted) in &BOUNDS {
        is_bound(&rt, rt.alloc(), *changes, *wanted)?;
    }
    Ok(())
}
