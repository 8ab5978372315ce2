//! Files, and runs that end for another reason than their words and tables.

use crate::asked::{Given, NOTHING, Row, first_other};
use cu_advice::brief;
use std::test::Fail;

// What the system says.
const REASON: Given = Given {
    reason: "No such file or directory",
    ..NOTHING
};

const SHELVES: [Row; 8] = [
    (
        3,
        "serve n road.csv p o",
        "shelf: fault roads",
        "catchup: cannot read road.csv: No such file or directory\n",
    ),
    (
        3,
        "serve n r p identiy",
        "shelf: fault order",
        "catchup: cannot read identiy: No such file or directory. For the built-in orders write identity or dissect\n",
    ),
    (
        3,
        "wait n r m.csv o",
        "shelf: fault profiles",
        "catchup: cannot read m.csv: No such file or directory\n",
    ),
    (
        3,
        "ask day.cu",
        "shelf: fault hierarchy",
        "catchup: cannot read day.cu: No such file or directory. To make it: catchup build ..\n",
    ),
    (
        3,
        "edit day.cu lines out.cu",
        "shelf: fault edits",
        "catchup: cannot read lines: No such file or directory\n",
    ),
    (
        3,
        "build n r p o none/day.cu",
        "shelf: fault out",
        "catchup: cannot store none/day.cu: No such file or directory. Name a file in a folder that is there and may be written\n",
    ),
    (
        3,
        "make 7 1 1 a/n b c",
        "shelf: fault nodes",
        "catchup: cannot store a/n: No such file or directory. Name a file in a folder that is there and may be written\n",
    ),
    (
        3,
        "serve n r p o",
        "shelf: long nodes",
        "catchup: n has more than 4294967296 bytes (4 GiB), the most that is read. Is it the right file?\n",
    ),
];

#[test]
fn files_that_fail(rt: HostRuntime) -> Result<(), Fail> {
    assert_eq!(rt; first_other(rt.alloc(), &REASON, &SHELVES)?, SHELVES.len());
    Ok(())
}

const A: &str = "ask day.cu";

const PACKED: [Row; 14] = [
    (
        6,
        A,
        "file: short",
        "catchup: day.cu is no packed hierarchy, or a damaged one (it has fewer than 84 bytes). Build it again: catchup build ..\n",
    ),
    (
        6,
        A,
        "file: magic",
        "catchup: day.cu is no packed hierarchy, or a damaged one (it doesn't begin with CATCHUPH). Build it again: catchup build ..\n",
    ),
    (
        6,
        A,
        "file: version 3",
        "catchup: day.cu is of version 3, and versions 1 and 2 are read. Build it again: catchup build ..\n",
    ),
    (
        6,
        A,
        "file: length 99 100",
        "catchup: day.cu is no packed hierarchy, or a damaged one (it should have 99 bytes and has 100). Build it again: catchup build ..\n",
    ),
    (
        6,
        A,
        "file: digest",
        "catchup: day.cu is no packed hierarchy, or a damaged one (its checksum does not match). Build it again: catchup build ..\n",
    ),
    (
        6,
        A,
        "file: limit nodes",
        "catchup: day.cu has more than 262144 nodes, the most that catchup takes\n",
    ),
    (
        6,
        A,
        "file: limit entries",
        "catchup: day.cu has more than 2899102924800 entries, the most that catchup takes\n",
    ),
    (
        6,
        A,
        "file: size 440 441",
        "catchup: day.cu is no packed hierarchy, or a damaged one (what it counts takes 440 bytes and it has 441). Build it again: catchup build ..\n",
    ),
    (
        6,
        A,
        "file: order 3",
        "catchup: day.cu has a right checksum, but catchup did not make it: no node has rank 3 as it should. Build it: catchup build ..\n",
    ),
    (
        6,
        A,
        "file: arc 4",
        "catchup: day.cu has a right checksum, but catchup did not make it: road 4 has a node or a profile that isn't there. Build it: catchup build ..\n",
    ),
    (
        6,
        A,
        "file: profile 5",
        "catchup: day.cu has a right checksum, but catchup did not make it: profile 5 is none. Build it: catchup build ..\n",
    ),
    (
        6,
        A,
        "file: graph 6",
        "catchup: day.cu has a right checksum, but catchup did not make it: the shortcuts of rank 6 are not those of its roads. Build it: catchup build ..\n",
    ),
    (
        6,
        A,
        "file: ways 7 up",
        "catchup: day.cu has a right checksum, but catchup did not make it: the ways of shortcut 7 up are not its own. Build it: catchup build ..\n",
    ),
    (
        6,
        A,
        "file: bound 8 down",
        "catchup: day.cu has a right checksum, but catchup did not make it: the bound of shortcut 8 down is wrong. Build it: catchup build ..\n",
    ),
];

#[test]
fn packed_files_that_are_refused(rt: HostRuntime) -> Result<(), Fail> {
    assert_eq!(rt; first_other(rt.alloc(), &NOTHING, &PACKED)?, PACKED.len());
    Ok(())
}

const ENDINGS: [Row; 9] = [
    (0, A, "unreachable", ""),
    (
        7,
        A,
        "unreachable",
        "catchup: cannot read standard input: No such file or directory. The replies so far stand; the lines behind them were not answered\n",
    ),
    (
        8,
        A,
        "",
        "catchup: cannot write standard output: No such file or directory. What was written may end in the middle of a line\n",
    ),
    (
        9,
        A,
        "",
        "catchup: out of memory in ask (No such file or directory). Allow it more, or take a smaller network\n",
    ),
    (
        10,
        "verify day.cu",
        "differs 5 up 28799 road 3 none",
        "catchup: day.cu is not as a new build makes it: shortcut 5 up first differs at 07:59:59. Build it again: catchup build ..\n",
    ),
    (
        11,
        "serve n r p identity",
        "too many shortcuts",
        "catchup: under the order identity there are more than 16777216 shortcuts, the most that catchup takes. Take another order, as dissect\n",
    ),
    (
        12,
        A,
        "unreachable",
        "catchup: standard input has 1099511627776 bytes or more, and a run reads fewer. Cut it into several runs\n",
    ),
    (
        13,
        "build n r p o day.cu",
        "too large 4294967297",
        "catchup: day.cu would have 4294967297 bytes, and at most 4294967296 are stored (4 GiB). Take a smaller network, or another order\n",
    ),
    (
        13,
        "edit day.cu e new\ncu",
        "too large 9",
        "catchup: new?cu would have 9 bytes, and at most 4294967296 are stored (4 GiB). Take a smaller network, or another order\n",
    ),
];

#[test]
fn runs_that_end_otherwise(rt: HostRuntime) -> Result<(), Fail> {
    assert_eq!(rt; first_other(rt.alloc(), &REASON, &ENDINGS)?, ENDINGS.len());
    Ok(())
}

#[test]
fn each_status_has_a_line_that_takes_no_memory(rt: HostRuntime) {
    for status in 2..14u8 {
        assert!(rt; brief(status).starts_with("catchup: ") && brief(status).ends_with("\n"));
    }
}
