//! Whole days of `serve`, which no order changes.

use crate::runs::{PLAIN, Run, says};
use std::test::Fail;

const DAYS: Run<'static> = Run {
    words: "serve nodes roads profiles identity",
    script: "d,0,2\nq,0,2,28740\nd,2,1\nd,2\nd,1,2\n",
    ..PLAIN
};

const REPLIES: &[u8; 184] =
    b"day 0,travel,160 28740,travel,250 35851,until,36100 35941,travel,160\narrive=28990 arcs=2\nunreachable\nrefused: line\nday 0,travel,100 28800,travel,300 35801,until,36100 36001,travel,100\n";

#[test]
fn days_are_served(rt: HostRuntime) -> Result<(), Fail> {
    for words in [
        "serve nodes roads profiles identity",
        "serve nodes roads profiles ranks",
        "serve nodes roads profiles dissect",
    ] {
        let asked = Run { words, ..DAYS };
        assert!(rt; says(rt.alloc(), asked, 0, REPLIES.as_slice()), "{words}");
    }
    Ok(())
}

#[test]
fn days_change_with_edits(rt: HostRuntime) -> Result<(), Fail> {
    let asked = Run {
        words: "serve nodes roads profiles ranks",
        script: "d,0,2\ns,2,0,closed,0\nd,0,2\ns,0,0,closed,0\nd,0,2\nd,1,2\n",
        ..DAYS
    };
    let said =
        b"day 0,travel,160 28740,travel,250 35851,until,36100 35941,travel,160\ndone 1\nday 0,travel,160 28740,travel,360 35741,until,36100 35941,travel,160\ndone 2\nunreachable\nday 0,travel,100 28800,travel,300 35801,until,36100 36001,travel,100\n";
    assert!(rt; says(rt.alloc(), asked, 0, said));
    Ok(())
}

#[test]
fn writes_that_fail_in_a_day_end_the_run(rt: HostRuntime) -> Result<(), Fail> {
    for room in 0..184usize {
        let asked = Run { room, ..DAYS };
        assert!(rt; says(rt.alloc(), asked, 8, &REPLIES[..room]));
    }
    Ok(())
}
