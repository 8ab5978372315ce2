//! `serve` over small tables.

use crate::runs::{PLAIN, Run, says};
use cu_samples::{NODES, ROADS};
use std::alloc::Global;
use std::test::Fail;

const SERVE: Run<'static> = Run {
    words: "serve nodes roads profiles identity",
    ..PLAIN
};

// Whether `serve` over these three tables has this status and writes this.
fn serves<'a>(
    alloc: Global,
    tables: [&'a [u8]; 3],
    script: &'a str,
    status: u8,
    said: &[u8],
) -> bool {
    let [nodes, roads, profiles] = tables;
    let asked = Run {
        nodes,
        roads,
        profiles,
        script,
        ..SERVE
    };
    says(alloc, asked, status, said)
}

#[test]
fn queries_are_answered(rt: HostRuntime) -> Result<(), Fail> {
    let asked = Run {
        script: "q,0,2,0\nq,0,2,28800\r\nq,1,1,5\nq,0,2,35850\nq,0,2,35851\nq,0,2,86399\nq,2,0,0\nq,3,0,0\nq,0,2,86400\nq,0,2\nx\n\nq,00,2,0",
        ..SERVE
    };
    let said =
        b"arrive=160 arcs=0 1\narrive=29050 arcs=2\narrive=5 arcs=\narrive=36100 arcs=2\narrive=36100 arcs=0 1\narrive=86559 arcs=0 1\nunreachable\nrefused: node\nrefused: second\nrefused: line\nrefused: line\nrefused: line\narrive=160 arcs=0 1\n";
    for most in [1 << 20, 1, 2, 7] {
        assert!(rt; says(rt.alloc(), Run { most, ..asked }, 0, said));
    }
    Ok(())
}

const TWO_NODES: &[u8] = b"node,x,y\n0,0,0\n1,0,0\n";

// Roads and profiles between two nodes, a script and its replies.
const PARALLEL: [([&[u8]; 2], &str, &[u8]); 2] = [
    (
        [
            b"arc,tail,head,profile\n0,0,1,1\n1,0,1,0\n2,1,0,1\n",
            b"profile,from,kind,value\n0,0,travel,50\n1,0,closed,0\n",
        ],
        "q,0,1,7\nq,1,0,7\n",
        b"arrive=57 arcs=1\nunreachable\n",
    ),
    (
        [
            b"arc,tail,head,profile\n0,0,0,0\n1,0,1,1\n2,0,1,2\n",
            b"profile,from,kind,value\n0,0,travel,0\n1,0,travel,50\n2,0,travel,40\n2,1000,travel,60\n2,2000,until,2060\n2,2020,travel,40\n",
        ],
        "q,0,1,0\nq,0,1,1000\nq,0,1,2010\nq,0,1,2011\nq,0,0,7\na,0,1\n",
        b"arrive=40 arcs=2\narrive=1050 arcs=1\narrive=2060 arcs=1\narrive=2060 arcs=2\narrive=7 arcs=\ndone 0\n",
    ),
];

#[test]
fn roads_are_closed_parallel_and_loops(rt: HostRuntime) -> Result<(), Fail> {
    for (tables, script, said) in &PARALLEL {
        let [roads, profiles] = *tables;
        assert!(rt; serves(rt.alloc(), [TWO_NODES, roads, profiles], *script, 0, *said));
    }
    Ok(())
}

// Profiles that are refused beside the rush hour's nodes and roads, or with them, and what is said.
const REFUSED: [(&[u8], &[u8]); 7] = [
    (
        b"profile,from,kind,value\n0,0,until,100\n",
        b"network: profiles 0 early 101\n",
    ),
    (
        b"profile,from,kind,value\n0,0,travel,0\n0,43200,travel,100\n",
        b"network: profiles 0 fifo 86399\n",
    ),
    (
        b"profile,from,kind,value\n0,0,travel,604801\n",
        b"network: profiles 0 limit\n",
    ),
    (
        b"profile,from,kind,value\n0,5,travel,1\n",
        b"network: profiles 0 start\n",
    ),
    (
        b"profile,from,kind,value\n0,0,travel,60\n0,100,closed,0\n",
        b"network: profiles 1 closed\n",
    ),
    (
        b"profile,from,kind,value\n0,0,travel,60\n1,0,travel,100\n1,35800,until,36100\n1,36000,travel,50\n",
        b"network: profiles 1 fifo 35999\n",
    ),
    (
        b"profile,from,kind,value\n0,0,travel,60\n",
        b"network: roads 1 profile\n",
    ),
];

#[test]
fn refused_tables_are_named(rt: HostRuntime) -> Result<(), Fail> {
    for (profiles, said) in &REFUSED {
        assert!(rt; serves(rt.alloc(), [NODES, ROADS, *profiles], "q,0,2,0\n", 4, *said));
    }
    Ok(())
}

// Whether `serve` by this order has this status and says this of a query.
fn serves_by(alloc: Global, ranks: &[u8], status: u8, said: &[u8]) -> bool {
    let asked = Run {
        words: "serve nodes roads profiles ranks",
        ranks,
        script: "q,0,2,0\n",
        ..PLAIN
    };
    says(alloc, asked, status, said)
}

// Orders, what is said of a query, and the status.
const ORDERS: [(&[u8], &[u8], u8); 5] = [
    (b"1\n0\n2\n", b"arrive=160 arcs=0 1\n", 0),
    (b"0\n0\n2\n", b"order: 1 twice\n", 5),
    (b"1\n0\n", b"order: 2 count\n", 5),
    (b"0\n3\n", b"order: 1 range\n", 5),
    (b"0\nx\n", b"order: 1 number\n", 5),
];

#[test]
fn orders_are_read(rt: HostRuntime) -> Result<(), Fail> {
    for (order, said, status) in &ORDERS {
        assert!(rt; serves_by(rt.alloc(), *order, *status, *said));
    }
    Ok(())
}
