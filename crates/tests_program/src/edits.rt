//! Edit lines between queries, over the rush hour's tables; replies worked out by hand.

use crate::runs::{PLAIN, Run, says};
use cu_model::{MAX_TRAVEL, MAX_UNTIL};
use std::test::Fail;

// Node 1 has the lowest rank, so that the way over it is a shortcut of the road beside it.
const RANKED: Run<'static> = Run {
    words: "serve nodes roads profiles ranks",
    ..PLAIN
};

// Scripts and their replies.
const EDITS: [(&str, &str); 6] = [
    // A slower first road, and back: then the road beside both is the better way.
    (
        "s,0,0,travel,200\nq,0,2,0\ns,0,0,travel,60\nq,0,2,0\n",
        "done 2\narrive=250 arcs=2\ndone 2\narrive=160 arcs=0 1\n",
    ),
    // The first road opens at midnight.
    (
        "s,0,0,until,100\ns,0,0,until,86400\nq,0,2,86250\nq,0,2,86251\n",
        "refused: early 101\ndone 2\narrive=86500 arcs=2\narrive=86500 arcs=0 1\n",
    ),
    // Another profile for the road beside both.
    ("a,2,0\nq,0,2,0\n", "done 1\narrive=60 arcs=2\n"),
    // Closed roads, and opened again.
    (
        "s,2,0,closed,0\nq,0,2,28800\ns,0,0,closed,0\nq,0,2,0\nq,1,2,0\ns,0,0,travel,60\nq,0,2,0\n",
        "done 1\narrive=29160 arcs=0 1\ndone 2\nunreachable\narrive=100 arcs=1\ndone 2\narrive=160 arcs=0 1\n",
    ),
    // Each check in its turn.
    (
        "s,9,0,fly,1\ns,0,0,fly,1\na,9,0\na,0,9\ns,0,5,travel,1\ns,0,0,travel,1,0,travel,2\ns,0,0\n",
        "refused: profile\nrefused: kind\nrefused: arc\nrefused: profile\nrefused: start\nrefused: rising\nrefused: line\n",
    ),
    (
        "s,0,0,travel,0,43200,travel,100\ns,0,0,closed,1\ns,0,0,closed,0,5,travel,1\nq,0,2,0\n",
        "refused: fifo 86399\nrefused: limit\nrefused: closed\narrive=160 arcs=0 1\n",
    ),
];

#[test]
fn edits_change_the_next_answer(rt: HostRuntime) -> Result<(), Fail> {
    for (script, replies) in &EDITS {
        let asked = Run {
            script: *script,
            ..RANKED
        };
        assert!(rt; says(rt.alloc(), asked, 0, replies.as_bytes()));
    }
    Ok(())
}

#[test]
fn pieces_say_no_more_than_their_limits(rt: HostRuntime) -> Result<(), Fail> {
    let script = format!(in rt.alloc();
        "s,0,0,travel,{}\ns,0,0,travel,{}\ns,0,0,until,{}\n",
        MAX_TRAVEL + 1,
        MAX_TRAVEL,
        MAX_UNTIL
    )?;
    let asked = Run {
        script: script.as_str(),
        ..RANKED
    };
    assert!(rt; says(rt.alloc(), asked, 0, b"refused: limit\ndone 2\ndone 2\n"));
    Ok(())
}
