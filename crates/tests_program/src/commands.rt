//! Commands that store files. The numbers were worked out by hand, or by another program over the same grid.

use crate::runs::{Ended, PLAIN, Run, leaves, perform, perform_over, says, shelf_of};
use cu_io::MemoryShelf;
use cu_model::NoMemory;
use cu_samples::ROW;
use std::alloc::Global;
use std::test::Fail;

const ORDER: Run<'static> = Run {
    words: "order nodes roads profiles out",
    script: "q,0,2,0\n",
    ..PLAIN
};

#[test]
fn orders_are_stored(rt: HostRuntime) -> Result<(), Fail> {
    let alloc = rt.alloc();
    let row = Run {
        nodes: ROW.nodes,
        roads: ROW.roads,
        ..ORDER
    };
    assert!(rt; leaves(alloc, ORDER, 0, b"ordered 3\n", b"0\n1\n2\n"));
    assert!(rt;
        leaves(
            alloc,
            row,
            0,
            b"ordered 9\n",
            b"0\n1\n2\n3\n5\n6\n7\n8\n4\n"
        )
    );
    let refused = Run {
        words: "order roads roads profiles out",
        ..ORDER
    };
    assert!(rt; says(alloc, refused, 4, b"network: nodes header\n"));
    Ok(())
}

// Whether `make` says this, and leaves a text that begins so under the name `out`.
fn makes(alloc: Global, words: &str, said: &[u8], front: &[u8]) -> bool {
    match perform(alloc, Run { words, ..PLAIN }) {
        Ok(ended) => {
            ended.status == 0 && ended.said.as_slice() == said && ended.out.starts_with(front)
        }
        Err(NoMemory) => false,
    }
}

// Words, what is said, and the front of the text under the name `out`.
const GRIDS: [(&str, &[u8], &[u8]); 4] = [
    (
        "make 0 1 1 a b out",
        b"made 1 0 64\n",
        b"profile,from,kind,value\n0,0,travel,27\n0,25200,travel,52\n0,32400,until,32452\n",
    ),
    (
        "make 7 02 001 out b c",
        b"made 2 2 64\n",
        b"node,x,y\n0,0,0\n1,100,0\n",
    ),
    (
        "make 7 2 1 a out c",
        b"made 2 2 64\n",
        b"arc,tail,head,profile\n0,0,1,17\n1,1,0,17\n",
    ),
    // Where two words are one name, the later text stands there.
    (
        "make 18446744073709551615 1 1 out b out",
        b"made 1 0 64\n",
        b"profile,from,kind,value\n",
    ),
];

#[test]
fn grids_are_stored(rt: HostRuntime) -> Result<(), Fail> {
    for (words, said, front) in &GRIDS {
        assert!(rt; makes(rt.alloc(), *words, *said, *front));
    }
    Ok(())
}

// Words that no command takes.
const OTHER_WORDS: [&str; 26] = [
    "",
    "serve",
    "Serve nodes roads profiles identity",
    "serve nodes roads profiles",
    "serve nodes roads profiles identity out",
    "order nodes roads profiles",
    "order nodes roads profiles out out",
    "ask",
    "ask nodes out",
    "edit nodes roads",
    "edit nodes roads out out",
    "migrate",
    "migrate packed",
    "migrate packed out out",
    "Migrate packed out",
    "make 7 1 1 a b",
    "make 7 1 1 a b c d",
    "make 18446744073709551616 1 1 a b c",
    "make -1 1 1 a b c",
    "make x 1 1 a b c",
    "make  1 1 a b c",
    "make 7 0 1 a b c",
    "make 7 513 1 a b c",
    "make 7 1 0 a b c",
    "make 7 1 513 a b c",
    "make 7 1 99999999999999999999999 a b c",
];

#[test]
fn other_words_are_refused(rt: HostRuntime) -> Result<(), Fail> {
    for words in &OTHER_WORDS {
        let asked = Run {
            words: *words,
            ..PLAIN
        };
        assert!(rt; says(rt.alloc(), asked, 2, b"words\n"));
    }
    Ok(())
}

// Four journeys across a grid of 32 by 32 nodes, each at three times.
const JOURNEYS: &str =
    "q,0,1023,28500\nq,0,1023,28800\nq,0,1023,29100\nq,1023,0,28500\nq,1023,0,28800\nq,1023,0,29100\nq,31,992,28500\nq,31,992,28800\nq,31,992,29100\nq,500,37,28500\nq,500,37,28800\nq,500,37,29100\n";

const ARRIVALS: &str =
    "arrive=34693\narrive=34768\narrive=34786\narrive=34408\narrive=34429\narrive=34507\narrive=34592\narrive=34704\narrive=34704\narrive=33436\narrive=33460\narrive=33475\n";

// The same where one of the profiles takes a quarter of an hour all day.
const LATER: &str =
    "arrive=34693\narrive=34768\narrive=34786\narrive=34455\narrive=34548\narrive=34607\narrive=34592\narrive=34704\narrive=34704\narrive=33455\narrive=33460\narrive=33519\n";

// The first word of each line.
fn first_words(alloc: Global, text: &[u8]) -> Result<Vec<u8>, NoMemory> {
    let mut words = Vec::new(alloc);
    let mut is_first = true;
    for byte in text {
        if *byte == b' ' {
            is_first = false;
        }
        if *byte == b'\n' {
            is_first = true;
        }
        if is_first {
            words.push(*byte)?;
        }
    }
    Ok(words)
}

// The lines of a text from one number to before another, from 0.
fn lines_between(alloc: Global, text: &[u8], from: u32, to: u32) -> Result<Vec<u8>, NoMemory> {
    let mut lines = Vec::new(alloc);
    let mut number = 0u32;
    for byte in text {
        if from <= number && number < to {
            lines.push(*byte)?;
        }
        if *byte == b'\n' {
            number = number.saturating_add(1);
        }
    }
    Ok(lines)
}

// A shelf with the tables of a grid of 32 by 32 nodes.
fn grid(alloc: Global) -> Result<MemoryShelf, NoMemory> {
    let mut shelf = shelf_of(alloc, PLAIN)?;
    let asked = Run {
        words: "make 7 32 32 nodes roads profiles",
        ..PLAIN
    };
    perform_over(alloc, asked, &mut shelf)?;
    Ok(shelf)
}

// Journeys, an edit to a slower profile and the same journeys, an edit back to the old profile and
// the same journeys, and two others.
fn forty_lines(alloc: Global) -> Result<String, NoMemory> {
    let slower = "s,5,0,travel,900\n";
    let back = "s,5,0,travel,115,25200,travel,191,32400,until,32591,32476,travel,115\n";
    let others = "q,992,31,0\nq,37,500,86399\n";
    Ok(format!(in alloc; "{JOURNEYS}{slower}{JOURNEYS}{back}{JOURNEYS}{others}")?)
}

// `serve` over a grid.
const SERVE_GRID: Run<'static> = Run {
    words: "serve nodes roads profiles dissect",
    ..PLAIN
};

// What it says of the forty lines; and how it ends where the first read stops in the middle of the twentieth line, and the second
// fails.
fn served(alloc: Global) -> Result<(Vec<u8>, Ended), NoMemory> {
    let mut shelf = grid(alloc)?;
    let script = forty_lines(alloc)?;
    let asked = Run {
        script: script.as_str(),
        ..SERVE_GRID
    };
    served_whole_and_cut(alloc, asked, &mut shelf)
}

fn served_whole_and_cut(
    alloc: Global,
    asked: Run<'_>,
    shelf: &mut MemoryShelf,
) -> Result<(Vec<u8>, Ended), NoMemory> {
    let whole = perform_over(alloc, asked, shelf)?.said;
    let cut = Run {
        most: 294,
        source: &[1],
        ..asked
    };
    Ok((whole, perform_over(alloc, cut, shelf)?))
}

// Whether a run ended at a fault of the source behind the first nineteen of these replies.
fn is_cut_short(alloc: Global, cut: &Ended, replies: &[u8]) -> Result<bool, NoMemory> {
    let nineteen = lines_between(alloc, replies, 0, 19)?;
    Ok(cut.status == 7 && cut.said.as_slice() == nineteen.as_slice())
}

// Are the arrivals those of all journeys, slower between the two edits?
fn are_arrivals(alloc: Global, replies: &[u8]) -> Result<bool, NoMemory> {
    let arrivals = format!(in alloc;
        "{ARRIVALS}done\n{LATER}done\n{ARRIVALS}arrive=2637\narrive=87645\n"
    )?;
    Ok(first_words(alloc, replies)?.as_slice() == arrivals.as_bytes())
}

// Are the lines of the replies from one number to before another the same as those between two other numbers?
fn are_same(
    alloc: Global,
    replies: &[u8],
    lines: [u32; 2],
    others: [u32; 2],
) -> Result<bool, NoMemory> {
    let [from, to] = lines;
    let lines = lines_between(alloc, replies, from, to)?;
    let [from, to] = others;
    let others = lines_between(alloc, replies, from, to)?;
    Ok(lines.as_slice() == others.as_slice())
}

// With the old pieces the old routes are back, and the edit back touches what the first one touched.
#[test]
fn a_grid_is_served(rt: HostRuntime) -> Result<(), Fail> {
    let alloc = rt.alloc();
    let (replies, cut) = served(alloc)?;
    let replies = replies.as_slice();
    assert!(rt; are_arrivals(alloc, replies)?);
    assert!(rt; are_same(alloc, replies, [26, 38], [0, 12])?);
    assert!(rt; are_same(alloc, replies, [25, 26], [12, 13])?);
    assert!(rt; is_cut_short(alloc, &cut, replies)?);
    Ok(())
}
