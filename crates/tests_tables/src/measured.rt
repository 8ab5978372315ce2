//! Texts of measured profiles.

use cu_profile::write_profiles;
use cu_wait::{MeasuredRefusal, read_measured};
use std::alloc::Global;

// Why a text is refused, none where it isn't.
fn refusal_of(alloc: Global, text: &[u8]) -> Option<MeasuredRefusal> {
    match read_measured(alloc, text) {
        Ok(_) => None,
        Err(refusal) => Some(refusal),
    }
}

// The table of profiles in pieces that a text of measured ones is turned into.
fn converted(alloc: Global, text: &[u8]) -> Result<Vec<u8>, MeasuredRefusal> {
    let profiles = read_measured(alloc, text)?;
    Ok(write_profiles(alloc, &profiles)?)
}

fn is_converted(alloc: Global, text: &[u8], wanted: &[u8]) -> bool {
    match converted(alloc, text) {
        Ok(pieces) => pieces.as_slice() == wanted,
        Err(_) => false,
    }
}

// Texts of measured profiles, and the tables that they are turned into.
const CONVERTED: [(&[u8], &[u8]); 8] = [
    (
        b"profile,second,mode,travel\n",
        b"profile,from,kind,value\n",
    ),
    (
        b"profile,second,mode,travel\n0,0,step,7\n1,0,line,8\n",
        b"profile,from,kind,value\n0,0,travel,7\n1,0,travel,8\n",
    ),
    (
        b"profile,second,mode,travel\n0,0,step,100\n0,1000,step,20\n",
        b"profile,from,kind,value\n0,0,travel,100\n0,921,until,1020\n0,1001,travel,20\n",
    ),
    (
        b"profile,second,mode,travel\n0,0,line,10\n0,4,line,12\n",
        b"profile,from,kind,value\n0,0,travel,10\n0,2,travel,11\n0,4,until,16\n0,6,travel,11\n\
        0,43203,travel,10\n",
    ),
    (
        b"profile,second,mode,travel\n0,0,step,20\n0,86300,step,200\n",
        b"profile,from,kind,value\n0,0,travel,20\n0,86300,until,86420\n",
    ),
    // Travel times that fall by three quarters of a second a second, by a second, and by more.
    (
        b"profile,second,mode,travel\n0,0,line,15\n0,20,step,0\n",
        b"profile,from,kind,value\n0,0,until,15\n0,4,until,16\n0,8,until,17\n0,12,until,18\n\
        0,16,until,19\n0,20,travel,0\n",
    ),
    (
        b"profile,second,mode,travel\n0,0,line,50\n0,50,line,0\n0,86399,step,0\n",
        b"profile,from,kind,value\n0,0,until,50\n0,51,travel,0\n",
    ),
    (
        b"profile,second,mode,travel\n0,0,line,100\n0,10,step,5\n",
        b"profile,from,kind,value\n0,0,until,15\n0,11,travel,5\n",
    ),
];

#[test]
fn converts_profiles(rt: HostRuntime) {
    for (text, wanted) in &CONVERTED {
        assert!(rt; is_converted(rt.alloc(), *text, *wanted));
    }
}

// Texts, and why they are refused.
const REFUSED: [(&[u8], Option<MeasuredRefusal>); 11] = [
    (b"", Some(MeasuredRefusal::Header)),
    (b"profile,from,kind,value\n", Some(MeasuredRefusal::Header)),
    (
        b"profile,second,mode,travel\n0,0,jump,1\n0,1,step\n",
        Some(MeasuredRefusal::Fields { row: 1 }),
    ),
    (
        b"profile,second,mode,travel\n0,0,step,-1\n",
        Some(MeasuredRefusal::Number { row: 0 }),
    ),
    (
        b"profile,second,mode,travel\n0,0,step,1\n2,0,step,1\n",
        Some(MeasuredRefusal::Sequence { row: 1 }),
    ),
    (
        b"profile,second,mode,travel\n0,5,step,1\n0,5,step,604801\n0,5,jump,1\n",
        Some(MeasuredRefusal::Mode { row: 2 }),
    ),
    (
        b"profile,second,mode,travel\n0,0,step,1\n1,5,step,1\n1,4,line,604801\n",
        Some(MeasuredRefusal::Limit { row: 2 }),
    ),
    (
        b"profile,second,mode,travel\n0,0,step,1\n0,86400,step,1\n",
        Some(MeasuredRefusal::Limit { row: 1 }),
    ),
    (
        b"profile,second,mode,travel\n0,5,step,1\n",
        Some(MeasuredRefusal::Start { row: 0 }),
    ),
    (
        b"profile,second,mode,travel\n0,0,step,1\n0,9,step,1\n0,9,step,1\n",
        Some(MeasuredRefusal::Rising { row: 2 }),
    ),
    (
        b"profile,second,mode,travel\n0,0,step,604800\n0,86399,line,0\n",
        None,
    ),
];

#[test]
fn refuses_rows(rt: HostRuntime) {
    for (text, refusal) in &REFUSED {
        assert!(rt; refusal_of(rt.alloc(), *text) == *refusal);
    }
}
