//! Files that were written byte by byte.

use cu_samples::{BUILT, EMPTY, NOTHING, RUSH_HOUR, Tables, packed};
use std::test::Fail;

#[test]
fn packs_files_made_by_hand(rt: HostRuntime) -> Result<(), Fail> {
    let rows: [(Tables<'_>, &[u8]); 2] = [(RUSH_HOUR, &BUILT), (EMPTY, &NOTHING)];
    for (tables, file) in rows {
        let bytes = packed(rt.alloc(), tables)?;
        assert!(rt; bytes.as_slice() == file);
    }
    Ok(())
}
