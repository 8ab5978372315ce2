//! When one leaves on a measured profile who comes to it at a second, and waits as little as serves.

use cu_progress::Silent;
use cu_wait::read_with_points;
use std::alloc::Global;

// Whether one leaves on the first profile of a text at these seconds, coming to it at those.
fn leaves_so(alloc: Global, text: &[u8], rows: &[(u64, u64)]) -> bool {
    let Ok(read) = read_with_points(alloc, text, &mut Silent) else {
        return false;
    };
    let Some(measured) = read.measured.first() else {
        return false;
    };
    for (second, left) in rows {
        if *second > 1 << 62 || measured.left(*second) != *left {
            return false;
        }
    }
    true
}

// Travel times that fall by day.
const BY_DAY: &[u8] = b"profile,second,mode,travel\n0,0,step,100\n0,1000,step,20\n";

const LEFT_BY_DAY: [(u64, u64); 7] = [
    (0, 0),
    (920, 920),
    (921, 1000),
    (950, 1000),
    (1000, 1000),
    (1001, 1001),
    (86_399, 86_399),
];

// Travel times that fall at midnight.
const BY_NIGHT: &[u8] = b"profile,second,mode,travel\n0,0,step,20\n0,86300,step,200\n";

const LEFT_BY_NIGHT: [(u64, u64); 6] = [
    (86_299, 86_299),
    (86_300, 86_400),
    (86_350, 86_400),
    (86_400, 86_400),
    (691_150, 691_200),
    (86_400_000_000_086_350, 86_400_000_000_086_400),
];

// Raw arrivals that are the same from second 0 to 10.
const LEVEL: &[u8] = b"profile,second,mode,travel\n0,0,line,10\n0,10,step,0\n";

const LEFT_LEVEL: [(u64, u64); 3] = [(0, 0), (3, 3), (10, 10)];

// Raw arrivals that fall to the same at seconds 9 and 10.
const STEEP: &[u8] = b"profile,second,mode,travel\n0,0,line,15\n0,10,step,0\n";

const LEFT_STEEP: [(u64, u64); 4] = [(0, 9), (5, 9), (9, 9), (10, 10)];

// One travel time, a week.
const ALONE: &[u8] = b"profile,second,mode,travel\n0,0,step,604800\n";

const LEFT_ALONE: [(u64, u64); 3] = [(0, 0), (86_399, 86_399), (86_420, 86_420)];

#[test]
fn leaves_as_little_later_as_serves(rt: HostRuntime) {
    assert!(rt; leaves_so(rt.alloc(), BY_DAY, &LEFT_BY_DAY));
    assert!(rt; leaves_so(rt.alloc(), BY_NIGHT, &LEFT_BY_NIGHT));
    assert!(rt; leaves_so(rt.alloc(), LEVEL, &LEFT_LEVEL));
    assert!(rt; leaves_so(rt.alloc(), STEEP, &LEFT_STEEP));
    assert!(rt; leaves_so(rt.alloc(), ALONE, &LEFT_ALONE));
}
