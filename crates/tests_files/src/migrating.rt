//! Files of version 1, and the files of version 2 of their hierarchies, which were written byte by byte.

use cu_pack::migrate;
use cu_samples::{BUILT, FIRST_VERSION, FORGED, NOTHING, first_version, forged, later};
use std::alloc::Global;
use std::test::Fail;

// Is a file's first version migrated to the file again?
fn comes_back(alloc: Global, file: &[u8]) -> Result<bool, Fail> {
    let first = first_version(alloc, file)?;
    let bytes = migrate(alloc, &first)?;
    Ok(bytes.as_slice() == file)
}

// Is the built file in its first version the one written byte by byte?
fn is_first_version(alloc: Global) -> Result<bool, Fail> {
    let first = first_version(alloc, &BUILT)?;
    Ok(first.as_slice() == FIRST_VERSION.as_slice())
}

#[test]
fn migrates_files_made_by_hand(rt: HostRuntime) -> Result<(), Fail> {
    let alloc = rt.alloc();
    assert!(rt; is_first_version(alloc)?);
    let later = later();
    let rows: [&[u8]; 4] = [&BUILT, &NOTHING, &FORGED, &later];
    for file in &rows {
        assert!(rt; comes_back(alloc, *file)?, "{} bytes", file.len());
    }
    Ok(())
}

// The one changes, and then the others.
fn joined(
    alloc: Global,
    changes: &[(usize, u8)],
    others: &[(usize, u8)],
) -> Result<Vec<(usize, u8)>, Fail> {
    let mut all = Vec::from_slice(alloc, changes)?;
    all.extend_from_slice(others)?;
    Ok(all)
}

// The built file with these bytes changed, and these of its least bounds.
fn bounded(
    alloc: Global,
    changes: &[(usize, u8)],
    bounds: &[(usize, u8)],
) -> Result<Vec<u8>, Fail> {
    let all = joined(alloc, changes, bounds)?;
    Ok(forged(alloc, &BUILT, &all, 408)?)
}

// What its first version, changed in the same way, is migrated to.
fn migrated(alloc: Global, changes: &[(usize, u8)]) -> Result<Vec<u8>, Fail> {
    let first = forged(alloc, &FIRST_VERSION, changes, 360)?;
    Ok(migrate(alloc, &first)?)
}

// Are both the same?
fn gets_bounds(
    alloc: Global,
    changes: &[(usize, u8)],
    bounds: &[(usize, u8)],
) -> Result<bool, Fail> {
    let wanted = bounded(alloc, changes, bounds)?;
    let bytes = migrated(alloc, changes)?;
    Ok(bytes.as_slice() == wanted.as_slice())
}

// The second road's day at its ends: the profile's first and last piece, of 100 seconds each, stand at 156 and 192, and their seconds
// at 164 and 200. The least bounds of the lists that this road is in stand at 376 and 392.
const CHANGED: [(&[(usize, u8)], &[(usize, u8)]); 4] = [
    (&[(164, 101)], &[]),
    (&[(164, 101), (200, 101)], &[(376, 101), (392, 161)]),
    // The last piece begins 50 seconds later: who arrives at 36,100 then has left 51 seconds before.
    (&[(192, 0xd2)], &[(376, 51), (392, 111)]),
    // The third road takes 150 seconds.
    (&[(212, 150)], &[(392, 150)]),
];

#[test]
fn bounds_what_was_changed(rt: HostRuntime) -> Result<(), Fail> {
    for (changes, bounds) in &CHANGED {
        assert!(rt; gets_bounds(rt.alloc(), *changes, *bounds)?);
    }
    Ok(())
}
