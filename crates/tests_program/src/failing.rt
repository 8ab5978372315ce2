//! Loads, stores, reads and writes that fail, each in turn.

use crate::runs::{Ended, PLAIN, Run, leaves, perform, perform_over, says, shelf_of};
use cu_io::{MemoryShelf, Shelf};
use cu_model::NoMemory;
use cu_samples::{BUILT, FIRST_VERSION};
use std::alloc::Global;
use std::test::Fail;

const SERVE: &str = "serve nodes roads profiles identity";

const SERVE_BY_FILE: &str = "serve nodes roads profiles ranks";

const BUILD: &str = "build nodes roads profiles identity out";

const BUILD_BY_FILE: &str = "build nodes roads profiles ranks out";

const EDIT: &str = "edit packed lines out";

const DESK: &str = "desk packed out";

const MIGRATE: &str = "migrate packed out";

const ORDER: &str = "order nodes roads profiles out";

const SLOW: &[u8] = b"s,0,0,travel,200\n";

// Whether the shelf holds these bytes under a name.
fn holds(alloc: Global, shelf: &mut MemoryShelf, name: &str, bytes: &[u8]) -> bool {
    let mut held = Vec::new(alloc);
    shelf.load(alloc, name, &mut held).is_ok() && held.as_slice() == bytes
}

// Whether the shelf holds the six files of a run.
fn holds_files(alloc: Global, asked: Run<'_>, shelf: &mut MemoryShelf) -> bool {
    holds(alloc, shelf, "nodes", asked.nodes)
        && holds(alloc, shelf, "roads", asked.roads)
        && holds(alloc, shelf, "profiles", asked.profiles)
        && holds(alloc, shelf, "ranks", asked.ranks)
        && holds(alloc, shelf, "packed", asked.packed)
        && holds(alloc, shelf, "lines", asked.lines)
}

// Whether a run over a shelf ends with status 3 and says this, and stores nothing under the name `out`.
fn stops_over(
    alloc: Global,
    asked: Run<'_>,
    said: &[u8],
    shelf: &mut MemoryShelf,
) -> Result<bool, NoMemory> {
    let ended = perform_over(alloc, asked, shelf)?;
    Ok(ended.is(3, said, b""))
}

// Whether it does so, and leaves the files that were there.
fn stops(alloc: Global, asked: Run<'_>, said: &[u8]) -> Result<bool, NoMemory> {
    let mut shelf = shelf_of(alloc, asked)?;
    let is_stopped = stops_over(alloc, asked, said, &mut shelf)?;
    Ok(is_stopped && holds_files(alloc, asked, &mut shelf))
}

// Words, the call of the shelf that fails, and what is said of it.
const SHELF_FAULTS: [(&str, u64, &[u8]); 23] = [
    (SERVE, 0, b"shelf: fault nodes\n"),
    (SERVE, 1, b"shelf: fault roads\n"),
    (SERVE, 2, b"shelf: fault profiles\n"),
    (SERVE_BY_FILE, 3, b"shelf: fault order\n"),
    (BUILD, 0, b"shelf: fault nodes\n"),
    (BUILD, 3, b"shelf: fault out\n"),
    (BUILD_BY_FILE, 3, b"shelf: fault order\n"),
    ("ask packed", 0, b"shelf: fault hierarchy\n"),
    (EDIT, 0, b"shelf: fault hierarchy\n"),
    (EDIT, 1, b"shelf: fault edits\n"),
    (EDIT, 2, b"done 2\nshelf: fault out\n"),
    (DESK, 0, b"shelf: fault hierarchy\n"),
    (DESK, 1, b"refused: line\nshelf: fault out\n"),
    (
        "desk packed packed",
        1,
        b"refused: line\nshelf: fault out\n",
    ),
    (MIGRATE, 0, b"shelf: fault hierarchy\n"),
    (MIGRATE, 1, b"shelf: fault out\n"),
    ("verify packed", 0, b"shelf: fault hierarchy\n"),
    (ORDER, 1, b"shelf: fault roads\n"),
    (ORDER, 3, b"shelf: fault out\n"),
    ("make 7 1 1 out b c", 0, b"shelf: fault nodes\n"),
    ("make 7 1 1 a out c", 1, b"shelf: fault roads\n"),
    ("make 7 1 1 a b out", 2, b"shelf: fault profiles\n"),
    ("make 7 1 1 a b packed", 2, b"shelf: fault profiles\n"),
];

#[test]
fn loads_and_stores_that_fail_end_the_run(rt: HostRuntime) -> Result<(), Fail> {
    for (words, call, said) in &SHELF_FAULTS {
        let asked = Run {
            words: *words,
            packed: &BUILT,
            lines: SLOW,
            script: "q,0,2,0\n",
            shelf: &[*call],
            ..PLAIN
        };
        assert!(rt; stops(rt.alloc(), asked, *said)?);
    }
    Ok(())
}

// Words, the most bytes of a file, and what is said of one that has more.
const LONG_FILES: [(&str, u64, &[u8]); 8] = [
    (SERVE, 30, b"shelf: long nodes\n"),
    (SERVE, 45, b"shelf: long roads\n"),
    (SERVE, 46, b"shelf: long profiles\n"),
    ("ask packed", 439, b"shelf: long hierarchy\n"),
    (EDIT, 439, b"shelf: long hierarchy\n"),
    (DESK, 439, b"shelf: long hierarchy\n"),
    (MIGRATE, 439, b"shelf: long hierarchy\n"),
    ("verify packed", 439, b"shelf: long hierarchy\n"),
];

#[test]
fn files_past_the_limit_end_the_run(rt: HostRuntime) -> Result<(), Fail> {
    for (words, limit, said) in &LONG_FILES {
        let asked = Run {
            words: *words,
            packed: &BUILT,
            lines: SLOW,
            limit: *limit,
            ..PLAIN
        };
        assert!(rt; says(rt.alloc(), asked, 3, *said));
    }
    Ok(())
}

// Four queries over roads of which each takes as long all day.
const STEADY: Run<'static> = Run {
    words: SERVE,
    profiles: b"profile,from,kind,value\n0,0,travel,60\n1,0,travel,100\n2,0,travel,250\n",
    script: "q,0,2,0\nq,0,1,5\nq,2,0,0\nq,1,1,5\n",
    ..PLAIN
};

const REPLIES: &[u8; 64] = b"arrive=160 arcs=0 1\narrive=65 arcs=0\nunreachable\narrive=5 arcs=\n";

// A call of the source that fails, the status, and the replies before it.
const READ_FAULTS: [(u64, u8, &[u8]); 9] = [
    (0, 7, b""),
    (1, 7, b""),
    (2, 7, b"arrive=160 arcs=0 1\n"),
    (3, 7, b"arrive=160 arcs=0 1\n"),
    (4, 7, b"arrive=160 arcs=0 1\narrive=65 arcs=0\n"),
    (
        5,
        7,
        b"arrive=160 arcs=0 1\narrive=65 arcs=0\nunreachable\n",
    ),
    (
        6,
        7,
        b"arrive=160 arcs=0 1\narrive=65 arcs=0\nunreachable\n",
    ),
    (7, 7, REPLIES),
    // The call isn't made.
    (8, 0, REPLIES),
];

// Each read gives five bytes of the 32: the seventh the last two, and the eighth shows the end.
#[test]
fn reads_that_fail_end_the_run(rt: HostRuntime) -> Result<(), Fail> {
    for (call, status, said) in &READ_FAULTS {
        let asked = Run {
            most: 5,
            source: &[*call],
            ..STEADY
        };
        assert!(rt; says(rt.alloc(), asked, *status, *said));
    }
    Ok(())
}

// Whether this one call of the sink ends a run with status 8 behind first bytes of the replies;
// nothing where it isn't made, and all of them are written.
fn stops_at(alloc: Global, call: u64) -> Result<Option<bool>, NoMemory> {
    let asked = Run {
        sink: &[call],
        ..STEADY
    };
    let ended = perform(alloc, asked)?;
    Ok(stopped(&ended))
}

// The same of a run that has ended.
fn stopped(ended: &Ended) -> Option<bool> {
    let said = ended.said.as_slice();
    if ended.status == 0 && said == REPLIES.as_slice() {
        return None;
    }
    Some(ended.status == 8 && REPLIES.as_slice().starts_with(said))
}

// Whether each call of the sink that a run makes stops it when it fails. There are fewer than a
// hundred.
fn stops_at_each(alloc: Global) -> Result<bool, NoMemory> {
    for call in 0..100u64 {
        match stops_at(alloc, call)? {
            None => return Ok(call > 0),
            Some(false) => return Ok(false),
            Some(true) => {}
        }
    }
    Ok(false)
}

#[test]
fn writes_that_fail_end_the_run(rt: HostRuntime) -> Result<(), Fail> {
    assert!(rt; stops_at_each(rt.alloc())?);
    for room in 0..64usize {
        let asked = Run { room, ..STEADY };
        assert!(rt; says(rt.alloc(), asked, 8, &REPLIES[..room]));
    }
    let asked = Run { room: 64, ..STEADY };
    assert!(rt; says(rt.alloc(), asked, 0, REPLIES.as_slice()));
    Ok(())
}

#[test]
fn lines_behind_a_store_that_fail_end_the_run(rt: HostRuntime) -> Result<(), Fail> {
    let order = Run {
        words: ORDER,
        sink: &[0],
        ..PLAIN
    };
    assert!(rt; leaves(rt.alloc(), order, 8, b"", b"0\n1\n2\n"));
    let migrate = Run {
        words: MIGRATE,
        packed: &FIRST_VERSION,
        ..order
    };
    assert!(rt; leaves(rt.alloc(), migrate, 8, b"", &BUILT));
    let desk = Run {
        words: DESK,
        packed: &FIRST_VERSION,
        ..order
    };
    assert!(rt; leaves(rt.alloc(), desk, 8, b"", &BUILT));
    // Where a reply fails, nothing is stored.
    let asked = Run {
        script: "1,x\n",
        ..desk
    };
    assert!(rt; says(rt.alloc(), asked, 8, b""));
    let edit = Run {
        words: EDIT,
        packed: &BUILT,
        lines: SLOW,
        sink: &[0],
        ..PLAIN
    };
    assert!(rt; says(rt.alloc(), edit, 8, b""));
    Ok(())
}
