//! All nodes from one, tables and latest departures, by `serve`, which no order changes, and by `wait`.

use crate::runs::{PLAIN, Run, says};
use std::alloc::{AllocError, Global};
use std::test::Fail;

const ASKED: Run<'static> = Run {
    words: "serve nodes roads profiles identity",
    script: "r,0,0\nr,2,5\nt,0,1,0,0,1,2\nt,0,2,0,2,2\nt,0,0\nt,0,5,0\nl,0,2,160\nl,0,2,159\nl,0,2,36100\nl,0,2,86559\nl,1,1,5\nl,2,0,50\nl,0,2,1099511627777\n",
    ..PLAIN
};

const REPLIES: &[u8; 234] =
    b"reach 0 60 160\nreach - - 5\ntable 0 60 160\ntable 160 0\ntable\nrefused: line\ndepart=0 arrive=160 arcs=0 1\ntoo late\ndepart=35940 arrive=36100 arcs=0 1\ndepart=86399 arrive=86559 arcs=0 1\ndepart=5 arrive=5 arcs=\nunreachable\nrefused: second\n";

#[test]
fn reaches_are_served(rt: HostRuntime) -> Result<(), Fail> {
    for words in [
        "serve nodes roads profiles identity",
        "serve nodes roads profiles ranks",
        "serve nodes roads profiles dissect",
    ] {
        let asked = Run { words, ..ASKED };
        assert!(rt; says(rt.alloc(), asked, 0, REPLIES.as_slice()), "{words}");
    }
    Ok(())
}

#[test]
fn writes_that_fail_in_a_reply_end_the_run(rt: HostRuntime) -> Result<(), Fail> {
    for room in 0..234usize {
        let asked = Run { room, ..ASKED };
        assert!(rt; says(rt.alloc(), asked, 8, &REPLIES[..room]));
    }
    Ok(())
}

// A road that takes less from second 1000 on: then it pays to wait.
#[test]
fn reaches_wait_where_it_pays(rt: HostRuntime) -> Result<(), Fail> {
    let asked = Run {
        words: "wait nodes roads profiles identity",
        nodes: b"node,x,y\n0,0,0\n1,0,0\n",
        roads: b"arc,tail,head,profile\n0,0,1,0\n",
        profiles: b"profile,second,mode,travel\n0,0,step,100\n0,1000,step,20\n",
        script: "r,0,950\nr,1,3\nt,950,2,0,1,1\nl,0,1,1020\nl,0,1,1019\nl,0,1,99\nl,1,0,99\n",
        ..PLAIN
    };
    let said =
        b"reach 950 1020\nreach - 3\ntable 1020 950\ndepart=1000 arrive=1020 arcs=0\ndepart=919 arrive=1019 arcs=0\ntoo late\nunreachable\n";
    assert!(rt; says(rt.alloc(), asked, 0, said));
    Ok(())
}

// A line that asks for a table, by its first fields, and of a field so often.
fn table_line(alloc: Global, first: &str, field: &str, count: u32) -> Result<String, AllocError> {
    let mut line = String::from_str(alloc, first)?;
    for _ in 0..count {
        line.push_str(field)?;
    }
    line.push_str("\n")?;
    Ok(line)
}

// Whether `serve` says this of a line with these first fields and so many more.
fn asks_table(alloc: Global, first: &str, count: u32, said: &[u8]) -> Result<bool, AllocError> {
    let line = table_line(alloc, first, ",0", count)?;
    let asked = Run {
        script: line.as_str(),
        ..ASKED
    };
    Ok(says(alloc, asked, 0, said))
}

// The first fields of a line, how many more it has, and what is said.
const LARGE_TABLES: [(&str, u32, &[u8]); 4] = [
    ("t,0,1024", 2049, b"refused: limit\n"),
    ("t,86400,1024", 2049, b"refused: second\n"),
    // As many bytes as a line may have; and one more.
    ("t,00,1", 2_097_149, b"refused: limit\n"),
    ("t,000,1", 2_097_149, b"refused: long\n"),
];

#[test]
fn large_tables_are_refused(rt: HostRuntime) -> Result<(), Fail> {
    let alloc = rt.alloc();
    for (first, count, said) in &LARGE_TABLES {
        assert!(rt; asks_table(alloc, *first, *count, *said)?);
    }
    Ok(())
}
