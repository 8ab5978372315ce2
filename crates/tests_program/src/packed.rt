//! `build` over the rush hour's tables.

use crate::runs::{PLAIN, Run, leaves};
use cu_samples::BUILT;
use std::test::Fail;

#[test]
fn hierarchies_are_stored(rt: HostRuntime) -> Result<(), Fail> {
    let asked = Run {
        words: "build nodes roads profiles ranks out",
        limit: 440,
        ..PLAIN
    };
    let small = Run {
        limit: 439,
        ..asked
    };
    assert!(rt; leaves(rt.alloc(), asked, 0, b"built 3 3 3 440\n", &BUILT));
    assert!(rt; leaves(rt.alloc(), small, 13, b"too large 440\n", b""));
    Ok(())
}
