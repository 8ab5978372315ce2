//! Runs over objects that never fail, one after the other over the same files.

use crate::runs::words_of;
use cu_cli::run_surely;
use cu_io::{SureShelf, SureSink, SureSource};
use cu_model::NoMemory;
use std::alloc::Global;
use std::test::Fail;

// The status of a run over this shelf, with a script of a query and a day.
fn status_over(alloc: Global, words: &str, shelf: &mut SureShelf) -> Result<u8, NoMemory> {
    let words = words_of(alloc, words)?;
    let mut source = SureSource::of(Vec::from_slice(alloc, b"q,0,3,0\nd,0,3\n")?);
    let mut sink = SureSink::new();
    Ok(run_surely(alloc, &words, shelf, &mut source, &mut sink))
}

#[test]
fn what_never_fails_ends_no_run(rt: HostRuntime) -> Result<(), Fail> {
    let alloc = rt.alloc();
    let mut shelf = SureShelf::new(alloc, 1 << 20);
    let rows = [
        ("none", 2),
        ("serve nodes roads profiles identity", 4),
        ("ask packed", 6),
        ("migrate packed out", 6),
        ("make 1 2 2 nodes roads profiles", 0),
        ("serve nodes roads profiles identity", 0),
        ("build nodes roads profiles dissect packed", 0),
        ("ask packed", 0),
        ("migrate packed packed", 0),
        ("ask packed", 0),
        ("verify packed", 0),
    ];
    for (words, status) in &rows {
        assert_eq!(rt; status_over(alloc, *words, &mut shelf)?, *status);
    }
    Ok(())
}
