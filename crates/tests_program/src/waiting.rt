//! Measured profiles: `measure`, which stores those that stand for them, and `wait`, which answers over them.

use crate::runs::{PLAIN, Run, leaves, says};
use cu_samples::RUSH;
use std::alloc::Global;
use std::test::Fail;

// Two nodes, and a road from the first to the second.
const PAIR: Run<'static> = Run {
    nodes: b"node,x,y\n0,0,0\n1,0,0\n",
    roads: b"arc,tail,head,profile\n0,0,1,0\n",
    ..PLAIN
};

// A road that takes less from second 1000 on.
const FALLS: &[u8] = b"profile,second,mode,travel\n0,0,step,100\n0,1000,step,20\n";

// Whether `wait` over the pair with these measured profiles has this status and writes this.
fn waits<'a>(alloc: Global, profiles: &'a [u8], script: &'a str, status: u8, said: &[u8]) -> bool {
    let asked = Run {
        words: "wait nodes roads profiles identity",
        profiles,
        script,
        ..PAIR
    };
    says(alloc, asked, status, said)
}

// Measured profiles, a script and its replies.
const WAITS: [(&[u8], &str, &[u8]); 4] = [
    (
        FALLS,
        "q,0,1,950\nq,0,1,0\nq,0,1,1000\nd,0,1\nq,1,0,0\nd,1,0\nq,1,1,7\n",
        b"arrive=1020 arcs=0\narrive=100 arcs=0\narrive=1020 arcs=0\nday 0,travel,100 921,until,1020 1001,travel,20\nunreachable\nunreachable\narrive=7 arcs=\n",
    ),
    (
        FALLS,
        "s,0,0,travel,50\nq,0,1,950\nd,0,1\ns,1,0,travel,50\nq,2,0,0\ns,0,0,closed,0\nq,0,1,950\n",
        b"done 1\narrive=1000 arcs=0\nday 0,travel,50\nrefused: profile\nrefused: node\ndone 1\nunreachable\n",
    ),
    (
        b"profile,second,mode,travel\n0,0,step,100\n0,1000,step,20\n1,0,step,20\n1,86300,step,200\n",
        "a,0,1\nq,0,1,86350\nd,0,1\na,0,0\nq,0,1,950\n",
        b"done 1\narrive=86420 arcs=0\nday 0,travel,20 86300,until,86420\ndone 1\narrive=1020 arcs=0\n",
    ),
    (
        b"profile,second,mode,travel\n0,0,line,10\n0,4,line,12\n",
        "d,0,1\n",
        b"day 0,travel,10 2,travel,11 4,until,16 6,travel,11 43203,travel,10\n",
    ),
];

#[test]
fn queries_wait_where_it_pays(rt: HostRuntime) -> Result<(), Fail> {
    for (profiles, script, said) in &WAITS {
        assert!(rt; waits(rt.alloc(), *profiles, *script, 0, *said));
    }
    Ok(())
}

// A road that takes longer before midnight.
const NIGHT: &[u8] = b"profile,second,mode,travel\n0,0,step,20\n0,86300,step,200\n";

// A road that one is through with at second 10 who leaves at any second from 0 to 10.
const LEVEL: &[u8] = b"profile,second,mode,travel\n0,0,line,10\n0,10,step,0\n";

// A road that one is through with at second 10 who leaves at second 9 or 10, and later who leaves before.
const STEEP: &[u8] = b"profile,second,mode,travel\n0,0,line,15\n0,10,step,0\n";

// Measured profiles, a script that asks for drives, and its replies: one leaves as soon as serves, and at once where pieces were set.
const DRIVES: [(&[u8], &str, &[u8]); 6] = [
    (
        FALLS,
        "v,0,1,950\nv,0,1,0\nv,0,1,1000\nv,0,1,920\nv,0,1,921\nv,1,0,0\nv,1,1,7\nv,2,0,0\nv,0,1,86400\nv,0,1\n",
        b"arrive=1020 drive=0,950,1000\narrive=100 drive=0,0,0\narrive=1020 drive=0,1000,1000\narrive=1020 drive=0,920,920\narrive=1020 drive=0,921,1000\nunreachable\narrive=7 drive=\nrefused: node\nrefused: second\nrefused: line\n",
    ),
    (
        NIGHT,
        "v,0,1,86350\ns,0,5,travel,7\ns,1,0,travel,7\nv,0,1,86350\ns,0,0,travel,7\nv,0,1,86350\n",
        b"arrive=86420 drive=0,86350,86400\nrefused: start\nrefused: profile\narrive=86420 drive=0,86350,86400\ndone 1\narrive=86357 drive=0,86350,86350\n",
    ),
    (
        LEVEL,
        "v,0,1,3\nv,0,1,0\nv,0,1,10\n",
        b"arrive=10 drive=0,3,3\narrive=10 drive=0,0,0\narrive=10 drive=0,10,10\n",
    ),
    (
        STEEP,
        "v,0,1,0\nv,0,1,9\nv,0,1,10\n",
        b"arrive=10 drive=0,0,9\narrive=10 drive=0,9,9\narrive=10 drive=0,10,10\n",
    ),
    (
        FALLS,
        "s,0,0,travel,100,921,until,1020,1001,travel,20\nv,0,1,950\ns,0,0,closed,0\nv,0,1,950\n",
        b"done 1\narrive=1020 drive=0,950,950\ndone 1\nunreachable\n",
    ),
    (
        b"profile,second,mode,travel\n0,0,step,100\n0,1000,step,20\n1,0,step,5\n",
        "a,0,1\nv,0,1,950\ns,0,0,travel,3\na,0,0\nv,0,1,950\n",
        b"done 1\narrive=955 drive=0,950,950\ndone 0\ndone 1\narrive=953 drive=0,950,950\n",
    ),
];

#[test]
fn drives_are_left_for_as_soon_as_serves(rt: HostRuntime) -> Result<(), Fail> {
    for (profiles, script, said) in &DRIVES {
        assert!(rt; waits(rt.alloc(), *profiles, *script, 0, *said));
    }
    Ok(())
}

#[test]
fn each_road_is_left_for_in_turn(rt: HostRuntime) -> Result<(), Fail> {
    let asked = Run {
        words: "wait nodes roads profiles identity",
        nodes: b"node,x,y\n0,0,0\n1,0,0\n2,0,0\n",
        roads: b"arc,tail,head,profile\n0,0,1,0\n1,1,2,1\n",
        profiles: b"profile,second,mode,travel\n0,0,step,20\n0,86300,step,200\n1,0,step,604800\n",
        script: "v,0,2,86350\na,0,1\na,1,0\nv,0,2,86350\n",
        ..PLAIN
    };
    let said =
        b"arrive=691220 drive=0,86350,86400 1,86420,86420\ndone 1\ndone 1\narrive=691220 drive=0,86350,86350 1,691150,691200\n";
    assert!(rt; says(rt.alloc(), asked, 0, said));
    Ok(())
}

#[test]
fn waits_come_before_each_road(rt: HostRuntime) -> Result<(), Fail> {
    let asked = Run {
        words: "wait nodes roads profiles ranks",
        nodes: b"node,x,y\n0,0,0\n1,0,0\n2,0,0\n",
        roads: b"arc,tail,head,profile\n0,0,1,0\n1,1,2,1\n2,0,2,2\n",
        profiles: b"profile,second,mode,travel\n0,0,step,100\n0,1000,step,20\n1,0,step,500\n1,2000,step,10\n2,0,step,2000\n",
        script: "q,0,2,950\nq,0,2,0\nq,0,2,1600\nq,0,2,1981\n",
        ..PLAIN
    };
    let said =
        b"arrive=1520 arcs=0 1\narrive=600 arcs=0 1\narrive=2010 arcs=0 1\narrive=2011 arcs=0 1\n";
    assert!(rt; says(rt.alloc(), asked, 0, said));
    Ok(())
}

// Measured profiles that are refused, and what is said of them; the fourth are none, where a road has one.
const REFUSED: [(&[u8], &[u8]); 5] = [
    (
        b"profile,from,kind,value\n0,0,travel,100\n",
        b"measured: header\n",
    ),
    (
        b"profile,second,mode,travel\n0,5,step,1\n",
        b"measured: 0 start\n",
    ),
    (
        b"profile,second,mode,travel\n0,0,jump,1\n",
        b"measured: 0 mode\n",
    ),
    (
        b"profile,second,mode,travel\n",
        b"network: roads 0 profile\n",
    ),
    (
        b"profile,second,mode,travel\n0,0,step,1\n0,0,step,2\n",
        b"measured: 1 rising\n",
    ),
];

// Words over the pair, measured profiles, the status and what is said: of two texts that are refused, of one, of a file that isn't
// there, and of too few words.
const REFUSED_WORDS: [(&str, &[u8], u8, &[u8]); 4] = [
    (
        "wait roads nodes profiles identity",
        b"profile,second,mode,travel\n0,5,step,1\n",
        4,
        b"measured: 0 start\n",
    ),
    (
        "wait roads nodes profiles identity",
        FALLS,
        4,
        b"network: nodes header\n",
    ),
    (
        "wait nodes roads other identity",
        RUSH,
        3,
        b"shelf: fault profiles\n",
    ),
    ("wait nodes roads profiles", RUSH, 2, b"words\n"),
];

#[test]
fn measured_texts_are_refused_before_others(rt: HostRuntime) -> Result<(), Fail> {
    for (profiles, said) in &REFUSED {
        assert!(rt; waits(rt.alloc(), *profiles, "q,0,1,0\n", 4, *said));
    }
    for (words, profiles, status, said) in &REFUSED_WORDS {
        let asked = Run {
            words: *words,
            profiles: *profiles,
            ..PAIR
        };
        assert!(rt; says(rt.alloc(), asked, *status, *said));
    }
    Ok(())
}

// Measured profiles, the status, what is said, and the profiles that are stored for them.
const MEASURED: [(&[u8], u8, &[u8], &[u8]); 5] = [
    (
        FALLS,
        0,
        b"measured 1\n",
        b"profile,from,kind,value\n0,0,travel,100\n0,921,until,1020\n0,1001,travel,20\n",
    ),
    (
        b"profile,second,mode,travel\n0,0,line,10\n0,4,line,12\n",
        0,
        b"measured 1\n",
        b"profile,from,kind,value\n0,0,travel,10\n0,2,travel,11\n0,4,until,16\n0,6,travel,11\n0,43203,travel,10\n",
    ),
    (
        b"profile,second,mode,travel\n0,0,step,20\n0,86300,step,200\n",
        0,
        b"measured 1\n",
        b"profile,from,kind,value\n0,0,travel,20\n0,86300,until,86420\n",
    ),
    (
        b"profile,second,mode,travel\n0,5,step,1\n",
        4,
        b"measured: 0 start\n",
        b"",
    ),
    (
        b"profile,second,mode,travel\n0,0,jump,1\n",
        4,
        b"measured: 0 mode\n",
        b"",
    ),
];

#[test]
fn profiles_are_stored_for_measured_ones(rt: HostRuntime) -> Result<(), Fail> {
    for (profiles, status, said, out) in &MEASURED {
        let asked = Run {
            words: "measure profiles out",
            profiles: *profiles,
            ..PLAIN
        };
        assert!(rt; leaves(rt.alloc(), asked, *status, *said, *out));
    }
    Ok(())
}
