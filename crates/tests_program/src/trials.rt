//! Trials of grids.

use crate::runs::{PLAIN, Run, says};
use std::test::Fail;

// Words, the status and what is said.
const TRIALS: [(&str, u8, &[u8]); 7] = [
    (
        "trial 7 16 16 200",
        0,
        b"nodes 256 arcs 960 edges 2476 entries 17753 queries 200 reached 200 sum 9045248 edits 20 touched 27033\n",
    ),
    (
        "trial 7 1 1 0",
        0,
        b"nodes 1 arcs 0 edges 0 entries 0 queries 0 reached 0 sum 0 edits 0 touched 0\n",
    ),
    ("trial 7 513 1 0", 2, b"words\n"),
    ("trial 7 1 0 0", 2, b"words\n"),
    ("trial 7 1 1 1000001", 2, b"words\n"),
    ("trial 18446744073709551616 1 1 0", 2, b"words\n"),
    ("trial 7 1 1 -1", 2, b"words\n"),
];

#[test]
fn trials_count_queries_and_edits(rt: HostRuntime) -> Result<(), Fail> {
    for (words, status, said) in &TRIALS {
        let asked = Run {
            words: *words,
            ..PLAIN
        };
        assert!(rt; says(rt.alloc(), asked, *status, *said));
    }
    Ok(())
}
