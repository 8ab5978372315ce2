//! Runs of four bytes that were worked by hand.

use cu_brief::brief_of;
use cu_model::DAY;
use cu_runs::{MAX_NUMBER, PackedRun};
use std::test::Fail;

// A run: its first second, whether it arrives at one second, and its number; a base; and the brief run that means the run.
type Row = (u64, bool, u64, u32, Option<u32>);

// Times above the base up to 16,383 seconds fit, at the first second of the day and at the last.
const ROWS: [Row; 13] = [
    (0, false, 100, 100, Some(0)),
    (0, false, 99, 100, None),
    (0, false, 16_483, 100, Some(16_383)),
    (0, false, 16_484, 100, None),
    (0, false, 4_294_967_295, 4_294_967_295, Some(0)),
    (0, true, 60, 60, Some(16_384)),
    (28_740, false, 250, 160, Some(941_752_410)),
    (35_801, true, 36_100, 100, Some(1_173_143_751)),
    (35_801, true, 35_900, 100, None),
    (86_399, false, 100, 100, Some(2_831_122_432)),
    (86_399, true, 102_882, 100, Some(2_831_155_199)),
    (86_399, true, 102_883, 100, None),
    (86_399, true, 86_498, 100, None),
];

// Is this the brief run of a row?
fn is_brief(row: Row) -> bool {
    let (from, is_fixed, number, base, wanted) = row;
    if from >= u64::from(DAY) || number > MAX_NUMBER {
        return false;
    }
    brief_of(PackedRun::of(from, is_fixed, number), base) == wanted
}

#[test]
fn runs_are_brief_up_to_a_bound(rt: HostRuntime) -> Result<(), Fail> {
    for row in ROWS {
        assert!(rt; is_brief(row));
    }
    Ok(())
}
