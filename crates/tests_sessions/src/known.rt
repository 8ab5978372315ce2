//! Sessions that ask so much that functions of lists are made: their replies are those of a session that asks less.

use crate::grids::Grid;
use crate::sessions::answer;
use cu_model::NoMemory;
use cu_samples::packed;
use std::alloc::Global;
use std::test::Fail;

// The twenty nodes of a grid with four rows.
const NODES: u32 = 20;

// Adds so many queries from a number on, at seconds all over the day: neighbours in number ask for other nodes and other hours.
fn push_queries(alloc: Global, lines: &mut String, first: u32, count: u32) -> Result<(), NoMemory> {
    for index in 0..count {
        let number = first.saturating_add(index);
        let (from, to) = (number % NODES, number / 3 % NODES);
        let second = number.wrapping_mul(7_919) % 86_400;
        lines.push_str(format!(in alloc; "q,{from},{to},{second}\n")?.as_str())?;
    }
    Ok(())
}

// Adds so many drives and latest departures from a number on.
fn push_drives(alloc: Global, lines: &mut String, first: u32, count: u32) -> Result<(), NoMemory> {
    for index in 0..count {
        let number = first.saturating_add(index);
        let (from, to) = (number / 2 % NODES, number / 7 % NODES);
        let second = number.wrapping_mul(104_729) % 86_400;
        lines.push_str(format!(in alloc;
            "v,{from},{to},{second}\nl,{from},{to},{second}\n"
        )?.as_str())?;
    }
    Ok(())
}

// Edits of the grid's profiles and roads: a rush that takes longer, a road that is closed, and that opens with another profile.
const EDITS: [&str; 4] = [
    "s,1,0,travel,100,28800,travel,900,35800,until,36700,36000,travel,700,50000,until,50700,50600,travel,100\n",
    "a,0,4\n",
    "a,0,2\ns,0,0,travel,45\n",
    "s,4,0,travel,30\n",
];

// Queries and drives between these edits, fewer than a thousand.
fn lines_with_edits(alloc: Global) -> Result<String, NoMemory> {
    let mut lines = String::new(alloc);
    let mut first = 0u32;
    for edit in &EDITS {
        push_queries(alloc, &mut lines, first, 120)?;
        push_drives(alloc, &mut lines, first, 40)?;
        lines.push_str(*edit)?;
        first = first.saturating_add(1_000);
    }
    push_queries(alloc, &mut lines, 0, 120)?;
    push_drives(alloc, &mut lines, 0, 40)?;
    Ok(lines)
}

// The first thousand queries are answered before any function is made; those behind them make all.
#[test]
fn replies_are_those_of_a_session_that_knows_less(rt: HostRuntime) -> Result<(), Fail> {
    let alloc = rt.alloc();
    let grid = Grid::of(alloc, 4)?;
    let file = packed(alloc, grid.tables())?;
    let lines = lines_with_edits(alloc)?;
    let mut more = String::new(alloc);
    push_queries(alloc, &mut more, 5_000, 1_500)?;
    more.push_str(lines.as_str())?;
    let (fresh_status, fresh) = answer(alloc, &file, lines.as_str())?;
    let (status, said) = answer(alloc, &file, more.as_str())?;
    assert!(rt; said.ends_with(&fresh));
    assert!(rt; fresh.starts_with(b"arrive=0 arcs=\n"));
    assert_eq!(rt; (status, fresh_status), (0, 0));
    Ok(())
}
