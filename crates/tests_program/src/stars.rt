//! The closed graph of a star, up to its limit.

use crate::runs::{PLAIN, Run, says};
use cu_chordal::{CloseRefusal, close};
use cu_model::{Order, Roads};
use cu_samples::{Star, Tables, network};
use std::alloc::Global;
use std::test::Fail;

const PROFILES: &[u8] = b"profile,from,kind,value\n0,0,travel,10\n";

// How many edges the closed graph of a star has where each node is its own rank; none where it has too many.
fn star_edges(alloc: Global, tables: Tables<'_>) -> Result<Option<u32>, Fail> {
    let network = network(alloc, tables)?;
    let order = Order::identity(alloc, network.nodes())?;
    match close(alloc, &network, &order) {
        Ok(graph) => Ok(Some(graph.edges())),
        Err(CloseRefusal::TooManyEdges) => Ok(None),
        Err(CloseRefusal::NoMemory) => Ok(Some(0)),
    }
}

// Eliminated first, the middle of a star joins all its leaves: with 5,792 of them 16,776,528 edges, with one more 16,782,321.
#[test]
fn stars_close_up_to_the_limit(rt: HostRuntime) -> Result<(), Fail> {
    let alloc = rt.alloc();
    let star = Star::of(alloc, 5792)?;
    assert_eq!(rt; star_edges(alloc, star.tables(PROFILES))?, Some(16_776_528));
    let star = Star::of(alloc, 5793)?;
    let tables = star.tables(PROFILES);
    let asked = Run {
        words: "serve nodes roads profiles identity",
        nodes: tables.nodes,
        roads: tables.roads,
        profiles: tables.profiles,
        script: "q,0,1,0\n",
        ..PLAIN
    };
    assert!(rt; says(alloc, asked, 11, b"too many shortcuts\n"));
    Ok(())
}
