//! `desk` over packed files of both versions: queries, edits by steps, cancels, and what is stored at the end.

use crate::editing::built_slower;
use crate::runs::{PLAIN, Run, leaves, perform, says};
use cu_model::NoMemory;
use cu_samples::{BUILT, FIRST_VERSION, FORGED};
use std::alloc::Global;
use std::test::Fail;

const DESK: Run<'static> = Run {
    words: "desk packed out",
    packed: &BUILT,
    ..PLAIN
};

// An edit of one client while another asks and a third wants one too, settled to its end.
const PUBLISHED: &str =
    "1,s,0,0,travel,200\n2,q,0,2,0\n3,a,2,0\nstep\n2,q,0,2,0\nstep\n2,q,0,2,0\nstep\n";

const PUBLISHED_REPLIES: &[u8] =
    b"1 begun 2\n2 arrive=160 arcs=0 1\n3 busy 1\nleft 1\n2 arrive=160 arcs=0 1\npublished 1\n2 arrive=250 arcs=2\nidle\nstored 416\n";

// An edit that its client cancels when one of its two shortcuts is settled.
const CANCELLED: &str = "1,s,0,0,travel,200\nstep\n2,x\n1,x\n2,q,0,2,0\n70000,x\nx\n";

const CANCELLED_REPLIES: &[u8] =
    b"1 begun 2\nleft 1\n2 refused: none\n1 cancelled\n2 arrive=160 arcs=0 1\nrefused: client\nrefused: line\nstored 440\n";

// Whether a desk over this file says so of a script, and stores these bytes.
fn settles<'a>(alloc: Global, packed: &'a [u8], script: &'a str, said: &[u8], out: &[u8]) -> bool {
    let asked = Run {
        packed,
        script,
        ..DESK
    };
    leaves(alloc, asked, 0, said, out)
}

#[test]
fn edits_are_published_by_steps_or_not_at_all(rt: HostRuntime) -> Result<(), Fail> {
    let slower = built_slower(rt.alloc())?;
    let rows: [(&str, &[u8], &[u8]); 4] = [
        (PUBLISHED, PUBLISHED_REPLIES, slower.as_slice()),
        (CANCELLED, CANCELLED_REPLIES, &BUILT),
        ("", b"stored 440\n", &BUILT),
        // The edit that is in work at the end of input is dropped.
        (
            "7,s,0,0,travel,200\nstep\n7,a,0,0\n7,q,0,2,0",
            b"7 begun 2\nleft 1\n7 busy 7\n7 arrive=160 arcs=0 1\nstored 440\n",
            &BUILT,
        ),
    ];
    for (script, said, out) in &rows {
        assert!(rt; settles(rt.alloc(), &BUILT, *script, *said, *out));
        assert!(rt; settles(rt.alloc(), &FIRST_VERSION, *script, *said, *out));
    }
    Ok(())
}

// Lines that are refused whoever asks.
const OTHER_LINES: [&str; 29] = [
    "\n",
    "Step\n",
    "step,\n",
    "step \n",
    "1,step\n",
    "1\n",
    "1,\n",
    "1,,x\n",
    ",x\n",
    "x\n",
    "-1,x\n",
    "1 ,x\n",
    "1,X\n",
    "1,x,\n",
    "1,x,1\n",
    "1,xx\n",
    "1,y\n",
    "q,0,2,0\n",
    "1,q\n",
    "1,q,0,2\n",
    "1,q,0,2,0,0\n",
    "1,q,9,9,now\n",
    "1,d,0,2\n",
    "1,v,0,2,0\n",
    "1,s,9\n",
    "1,a,9\n",
    "70000,q,9,9,now\n",
    "70000,s,9,0,fly\n",
    "70000,x,1\n",
];

// Lines whose client is refused, whatever else they say.
const OTHER_CLIENTS: [&str; 10] = [
    "70000,x\n",
    "65536,x\n",
    "65536,q,9,9,99999\n",
    "65536,s,9,0,fly,1\n",
    "65536,s,0,0,fly,1\n",
    "65536,a,9,9\n",
    "4294967297,x\n",
    "18446744073709551617,x\n",
    "1000000000000000000000000000000000000001,x\n",
    "1000000000000000000000000000000000000001,q,0,2,0\n",
];

#[test]
fn lines_are_refused_by_their_form_and_then_their_client(rt: HostRuntime) -> Result<(), Fail> {
    for script in &OTHER_LINES {
        assert!(rt;
            settles(
                rt.alloc(),
                &BUILT,
                *script,
                b"refused: line\nstored 440\n",
                &BUILT
            )
        );
    }
    for script in &OTHER_CLIENTS {
        assert!(rt;
            settles(
                rt.alloc(),
                &BUILT,
                *script,
                b"refused: client\nstored 440\n",
                &BUILT
            )
        );
    }
    Ok(())
}

// Scripts and their replies.
const REPLIES: [(&str, &[u8]); 16] = [
    ("0,q,0,2,0\n", b"0 arrive=160 arcs=0 1\nstored 440\n"),
    ("65535,q,2,0,0\r\n", b"65535 unreachable\nstored 440\n"),
    (
        "0000000000000000000000000000000000000012,q,1,1,5\n",
        b"12 arrive=5 arcs=\nstored 440\n",
    ),
    ("007,x\n", b"7 refused: none\nstored 440\n"),
    ("1,q,3,0,86400\n", b"1 refused: node\nstored 440\n"),
    ("1,q,0,3,86400\n", b"1 refused: node\nstored 440\n"),
    ("1,q,0,2,86400\n", b"1 refused: second\nstored 440\n"),
    ("1,s,3,0,fly,1\n", b"1 refused: profile\nstored 440\n"),
    ("1,s,0,0,fly,1\n", b"1 refused: kind\nstored 440\n"),
    ("1,s,0,1,travel,1\n", b"1 refused: start\nstored 440\n"),
    ("1,a,3,9\n", b"1 refused: arc\nstored 440\n"),
    ("1,a,0,3\n", b"1 refused: profile\nstored 440\n"),
    ("step\n", b"idle\nstored 440\n"),
    // A check goes before that an edit is in work.
    (
        "1,a,0,0\n2,a,3,9\n2,a,0,0\n",
        b"1 begun 2\n2 refused: arc\n2 busy 1\nstored 440\n",
    ),
    // Whose edit is in work may cancel it, once.
    (
        "1,a,0,0\n01,x\n1,x\n2,a,0,0\n",
        b"1 begun 2\n1 cancelled\n1 refused: none\n2 begun 2\nstored 440\n",
    ),
    // What was settled of a cancelled edit isn't there for the next.
    (
        "1,a,0,0\nstep\n1,x\n1,a,0,0\nstep\nstep\nstep\n",
        b"1 begun 2\nleft 1\n1 cancelled\n1 begun 2\nleft 1\npublished 1\nidle\nstored 440\n",
    ),
];

// Lines that get a reply for their client, which is told by its value.
#[test]
fn replies_tell_their_client(rt: HostRuntime) -> Result<(), Fail> {
    for (script, said) in &REPLIES {
        assert!(rt; settles(rt.alloc(), &BUILT, *script, *said, &BUILT));
    }
    Ok(())
}

// Whether a desk says these replies, and leaves what `edit` makes of these lines.
fn leaves_edited(
    alloc: Global,
    asked: Run<'_>,
    replies: &[u8],
    lines: &[u8],
) -> Result<bool, NoMemory> {
    let edit = Run {
        words: "edit packed lines out",
        lines,
        ..asked
    };
    let edited = perform(alloc, edit)?;
    leaves_behind(alloc, asked, replies, edited.out.as_slice())
}

// Whether it says these replies first, and leaves these bytes.
fn leaves_behind(
    alloc: Global,
    asked: Run<'_>,
    replies: &[u8],
    out: &[u8],
) -> Result<bool, NoMemory> {
    let ended = perform(alloc, asked)?;
    let said = ended.said.as_slice();
    Ok(ended.status == 0 && said.starts_with(replies) && ended.out.as_slice() == out)
}

// No road has the first profile once it is given the second: an edit of it touches no shortcut, and is there at once.
#[test]
fn edits_that_touch_nothing_are_published_by_their_line(rt: HostRuntime) -> Result<(), Fail> {
    let script =
        "1,a,0,1\nstep\nstep\n2,s,0,0,travel,5\nstep\n1,a,0,0\nstep\n2,q,0,2,0\nstep\n2,q,0,2,0\n";
    let replies =
        b"1 begun 2\nleft 1\npublished 1\n2 done 0\nidle\n1 begun 2\nleft 1\n2 arrive=200 arcs=0 1\npublished 1\n2 arrive=105 arcs=0 1\nstored ";
    let lines = b"a,0,1\ns,0,0,travel,5\na,0,0\n";
    assert!(rt; leaves_edited(rt.alloc(), Run { script, ..DESK }, replies, lines)?);
    // While another edit is in work it isn't.
    let busy = "1,a,0,1\nstep\nstep\n1,a,0,1\n2,s,0,0,travel,5\n";
    let told = b"1 begun 2\nleft 1\npublished 1\n1 begun 2\n2 busy 1\nstored ";
    let asked = Run {
        script: busy,
        ..DESK
    };
    assert!(rt; leaves_edited(rt.alloc(), asked, told, b"a,0,1\n")?);
    Ok(())
}

// Forged ways are driven as they stand until what an edit settles is published.
#[test]
fn forged_files_are_asked_as_they_stand(rt: HostRuntime) -> Result<(), Fail> {
    let asked = Run {
        packed: &FORGED,
        script: "1,q,2,3,0\n1,a,8,0\n1,q,2,3,0\nstep\n1,q,2,3,0\n1,q,2,1,0\n",
        ..DESK
    };
    let replies =
        b"1 damaged 5 up 0\n1 begun 1\n1 damaged 5 up 0\npublished 1\n1 arrive=10 arcs=8\n1 arrive=20 arcs=6 0\nstored 676\n";
    assert!(rt; leaves_edited(rt.alloc(), asked, replies, b"a,8,0\n")?);
    Ok(())
}

// The front of a line, so many noughts, and a line feed.
fn filled(alloc: Global, front: &str, noughts: u32) -> Result<String, NoMemory> {
    let mut line = String::from_str(alloc, front)?;
    for _ in 0..noughts {
        line.push('0')?;
    }
    line.push('\n')?;
    Ok(line)
}

// Whether a desk says this of a line that asks for a query at a second with so many noughts.
fn asks_at(alloc: Global, noughts: u32, said: &[u8]) -> Result<bool, NoMemory> {
    let line = filled(alloc, "1,q,0,2,", noughts)?;
    Ok(settles(alloc, &BUILT, line.as_str(), said, &BUILT))
}

// Behind the eight bytes of the front the noughts make a line of 4,194,304 bytes, and one with a byte more.
#[test]
fn lines_have_at_most_four_megabytes(rt: HostRuntime) -> Result<(), Fail> {
    let most = b"1 arrive=160 arcs=0 1\nstored 440\n";
    let more = b"refused: long\nstored 440\n";
    assert!(rt; asks_at(rt.alloc(), 4_194_296, most)?);
    assert!(rt; asks_at(rt.alloc(), 4_194_297, more)?);
    Ok(())
}

// The published file is within the limit or past it, whatever the file was that it grew from.
const SMALL: Run<'static> = Run {
    packed: &FIRST_VERSION,
    limit: 439,
    ..DESK
};

#[test]
fn larger_files_are_not_stored(rt: HostRuntime) -> Result<(), Fail> {
    let slower = built_slower(rt.alloc())?;
    assert!(rt; says(rt.alloc(), SMALL, 13, b"too large 440\n"));
    let told = Run {
        script: "1,q,0,2,0\n",
        ..SMALL
    };
    let said = b"1 arrive=160 arcs=0 1\ntoo large 440\n";
    assert!(rt; says(rt.alloc(), told, 13, said));
    let shorter = Run {
        script: PUBLISHED,
        ..SMALL
    };
    assert!(rt; leaves(rt.alloc(), shorter, 0, PUBLISHED_REPLIES, slower.as_slice()));
    Ok(())
}

#[test]
fn other_words_and_files_are_refused(rt: HostRuntime) -> Result<(), Fail> {
    let rows: [(&str, &[u8], u8, &[u8]); 7] = [
        ("desk", &BUILT, 2, b"words\n"),
        ("desk packed", &BUILT, 2, b"words\n"),
        ("desk packed out out", &BUILT, 2, b"words\n"),
        ("desk packed out", b"", 6, b"file: short\n"),
        (
            "desk packed out",
            &BUILT[..439],
            6,
            b"file: length 440 439\n",
        ),
        (
            "desk packed out",
            &FIRST_VERSION[..391],
            6,
            b"file: length 392 391\n",
        ),
        ("desk missing out", &BUILT, 3, b"shelf: fault hierarchy\n"),
    ];
    for (words, packed, status, said) in &rows {
        let asked = Run {
            words: *words,
            packed: *packed,
            script: "1,q,0,2,0\n",
            ..DESK
        };
        assert!(rt; says(rt.alloc(), asked, *status, *said));
    }
    Ok(())
}

// A call of the source that fails, and the replies before it.
const READ_FAULTS: [(u64, &[u8]); 4] = [
    (0, b""),
    (1, b""),
    (2, b"1 arrive=160 arcs=0 1\nidle\n"),
    (3, b"1 arrive=160 arcs=0 1\nidle\n"),
];

// Where the source fails the lines whose end was taken are answered, and nothing is stored.
#[test]
fn reads_that_fail_end_the_run(rt: HostRuntime) -> Result<(), Fail> {
    for (call, said) in &READ_FAULTS {
        let asked = Run {
            script: "1,q,0,2,0\nstep\nstep",
            most: 8,
            source: &[*call],
            ..DESK
        };
        assert!(rt; says(rt.alloc(), asked, 7, *said));
    }
    Ok(())
}
