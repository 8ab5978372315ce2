//! `ask` over packed files of both versions, whole and forged.

use crate::runs::{PLAIN, Run, says};
use cu_samples::{SCRIPTS, Script, first_version};
use std::alloc::Global;
use std::test::Fail;

// Whether `ask` over a file answers the lines of a script by its replies.
fn answers(alloc: Global, packed: &[u8], script: Script) -> bool {
    let asked = Run {
        words: "ask packed",
        packed,
        script: script.lines,
        ..PLAIN
    };
    says(alloc, asked, 0, script.replies.as_bytes())
}

// Whether it does so over the file of a script, and over its hierarchy in the first version.
fn answers_both(alloc: Global, script: Script) -> Result<bool, Fail> {
    let first = first_version(alloc, script.file)?;
    Ok(answers(alloc, script.file, script) && answers(alloc, &first, script))
}

#[test]
fn packed_files_are_asked(rt: HostRuntime) -> Result<(), Fail> {
    for script in &SCRIPTS {
        assert!(rt; answers_both(rt.alloc(), *script)?);
    }
    Ok(())
}
