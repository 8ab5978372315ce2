//! `migrate` of packed files.

use crate::runs::{PLAIN, Run, leaves, says};
use cu_samples::{BUILT, FIRST_VERSION, FORGED, NOTHING, first_version, forged, later};
use std::alloc::Global;
use std::test::Fail;

const MIGRATE: Run<'static> = Run {
    words: "migrate packed out",
    ..PLAIN
};

// Whether a file of the second version, and its hierarchy in the first one, are stored as the file.
fn migrates(alloc: Global, packed: &[u8], said: &[u8]) -> Result<bool, Fail> {
    let first = first_version(alloc, packed)?;
    let asked = Run {
        packed: first.as_slice(),
        ..MIGRATE
    };
    Ok(
        leaves(alloc, Run { packed, ..MIGRATE }, 0, said, packed)
            && leaves(alloc, asked, 0, said, packed),
    )
}

#[test]
fn files_of_both_versions_are_stored_in_the_second(rt: HostRuntime) -> Result<(), Fail> {
    let alloc = rt.alloc();
    assert!(rt; migrates(alloc, &BUILT, b"migrated 440\n")?);
    assert!(rt; migrates(alloc, &NOTHING, b"migrated 104\n")?);
    // Forged ways are kept.
    assert!(rt; migrates(alloc, &FORGED, b"migrated 676\n")?);
    assert!(rt; migrates(alloc, &later(), b"migrated 440\n")?);
    let made_by_hand = Run {
        packed: &FIRST_VERSION,
        ..MIGRATE
    };
    assert!(rt; leaves(alloc, made_by_hand, 0, b"migrated 440\n", &BUILT));
    Ok(())
}

// Whether `migrate` refuses a file, and says this.
fn refuses(alloc: Global, packed: &[u8], said: &[u8]) -> bool {
    says(alloc, Run { packed, ..MIGRATE }, 6, said)
}

// Whether it refuses the file that is made by one change of a byte of another, before the digest at this place.
fn refuses_forged(
    alloc: Global,
    file: &[u8],
    change: (usize, u8),
    length: usize,
    said: &[u8],
) -> Result<bool, Fail> {
    let forged = forged(alloc, file, &[change], length)?;
    Ok(refuses(alloc, &forged, said))
}

#[test]
fn other_files_are_refused(rt: HostRuntime) -> Result<(), Fail> {
    let alloc = rt.alloc();
    assert!(rt; refuses(alloc, b"", b"file: short\n"));
    assert!(rt; refuses(alloc, &BUILT[..439], b"file: length 440 439\n"));
    assert!(rt; refuses(alloc, &FIRST_VERSION[..391], b"file: length 392 391\n"));
    assert!(rt; refuses(alloc, &FIRST_VERSION[8..], b"file: magic\n"));
    assert!(rt; refuses_forged(alloc, &BUILT, (392, 161), 408, b"file: bound 2 up\n")?);
    assert!(rt; refuses_forged(alloc, &BUILT, (368, 59), 408, b"file: bound 0 down\n")?);
    assert!(rt; refuses_forged(alloc, &FIRST_VERSION, (232, 2), 360, b"file: graph 0\n")?);
    let missing = Run {
        words: "migrate other out",
        ..MIGRATE
    };
    assert!(rt; says(alloc, missing, 3, b"shelf: fault hierarchy\n"));
    Ok(())
}

// The most bytes of a file, the status, what is said, and what is stored.
const LIMITS: [(u64, u8, &[u8], &[u8]); 4] = [
    (391, 3, b"shelf: long hierarchy\n", b""),
    (392, 13, b"too large 440\n", b""),
    (439, 13, b"too large 440\n", b""),
    (440, 0, b"migrated 440\n", &BUILT),
];

#[test]
fn files_that_grow_past_the_limit_are_not_stored(rt: HostRuntime) -> Result<(), Fail> {
    for (limit, status, said, out) in &LIMITS {
        let asked = Run {
            packed: &FIRST_VERSION,
            limit: *limit,
            ..MIGRATE
        };
        assert!(rt; leaves(rt.alloc(), asked, *status, *said, *out));
    }
    Ok(())
}
