//! `verify` of packed files, built and forged.

use crate::runs::{PLAIN, Run, says};
use cu_samples::{BUILT, FIRST_VERSION, FORGED, first_version, later};
use std::alloc::Global;
use std::test::Fail;

#[test]
fn packed_files_are_compared(rt: HostRuntime) -> Result<(), Fail> {
    let later = later();
    let rows: [(&str, &[u8], &[u64], u8, &[u8]); 8] = [
        ("verify packed", &BUILT, &[], 0, b"same\n"),
        (
            "verify packed",
            &later,
            &[],
            10,
            b"differs 2 up 28740 via 0 road 2\n",
        ),
        (
            "verify packed",
            &FORGED,
            &[],
            10,
            b"differs 3 down 0 via 0 road 7\n",
        ),
        ("verify packed", &BUILT[..83], &[], 6, b"file: short\n"),
        ("verify other", &BUILT, &[], 3, b"shelf: fault hierarchy\n"),
        ("verify packed out", &BUILT, &[], 2, b"words\n"),
        ("verify packed", &BUILT, &[0], 8, b""),
        ("verify packed", &later, &[0], 8, b""),
    ];
    for (words, packed, sink, status, said) in &rows {
        let asked = Run {
            words: *words,
            packed: *packed,
            sink: *sink,
            ..PLAIN
        };
        assert!(rt; says(rt.alloc(), asked, *status, *said));
    }
    Ok(())
}

// Whether `verify` of the hierarchy of a packed file in version 1 has this status and says this.
fn verifies_first(alloc: Global, file: &[u8], status: u8, said: &[u8]) -> Result<bool, Fail> {
    let first = first_version(alloc, file)?;
    let asked = Run {
        words: "verify packed",
        packed: first.as_slice(),
        ..PLAIN
    };
    Ok(says(alloc, asked, status, said))
}

#[test]
fn files_of_version_1_are_compared(rt: HostRuntime) -> Result<(), Fail> {
    let alloc = rt.alloc();
    let differs = b"differs 2 up 28740 via 0 road 2\n";
    assert!(rt; verifies_first(alloc, &BUILT, 0, b"same\n")?);
    assert!(rt; verifies_first(alloc, &later(), 10, differs)?);
    assert!(rt; verifies_first(alloc, &FORGED, 10, b"differs 3 down 0 via 0 road 7\n")?);
    let cut = Run {
        words: "verify packed",
        packed: &FIRST_VERSION[..391],
        ..PLAIN
    };
    assert!(rt; says(alloc, cut, 6, b"file: length 392 391\n"));
    Ok(())
}
