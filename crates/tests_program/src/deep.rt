//! Paths by orders that nest their shortcuts as deep as they go.

use crate::runs::{PLAIN, Run, perform, says};
use cu_model::NoMemory;
use std::alloc::Global;
use std::test::Fail;

const PROFILES: &[u8] = b"profile,from,kind,value\n0,0,travel,1\n";

// How many nodes the path has.
const NODES: u32 = 40_000;

// A path's tables of nodes and of roads, from each node to the next; and all its roads, with blanks
// between them.
#[derive(Drop)]
struct Path {
    nodes: String,
    roads: String,
    arcs: String,
}

fn long_path(alloc: Global) -> Result<Path, NoMemory> {
    let mut path = two_nodes(alloc)?;
    for road in 1..NODES - 1 {
        path.add_road(alloc, road)?;
    }
    Ok(path)
}

// The path of the first two nodes.
fn two_nodes(alloc: Global) -> Result<Path, NoMemory> {
    let nodes = String::from_str(alloc, "node,x,y\n0,0,0\n1,0,0\n")?;
    let roads = String::from_str(alloc, "arc,tail,head,profile\n0,0,1,0\n")?;
    let arcs = String::from_str(alloc, "0")?;
    Ok(Path { nodes, roads, arcs })
}

impl Path {
    // Adds the road from the node with its number to the next, which is added, too.
    fn add_road(&mut self, alloc: Global, road: u32) -> Result<(), NoMemory> {
        let head = road.saturating_add(1);
        self.nodes
            .push_str(format!(in alloc; "{head},0,0\n")?.as_str())?;
        self.roads
            .push_str(format!(in alloc; "{road},{road},{head},0\n")?.as_str())?;
        self.arcs.push_str(format!(in alloc; " {road}")?.as_str())?;
        Ok(())
    }
}

// Two orders: the inner nodes, from the second on or from the last but one back, and then both ends.
// By the first each shortcut is over the one before and a road, by the other over a road and the
// one before.
fn orders(alloc: Global) -> Result<(String, String), NoMemory> {
    let left = order(alloc, false)?;
    let right = order(alloc, true)?;
    Ok((left, right))
}

// The one that goes from the second node on, or else the one that goes back.
fn order(alloc: Global, goes_back: bool) -> Result<String, NoMemory> {
    let mut ranks = String::new(alloc);
    for inner in 1..NODES - 1 {
        let rank = if goes_back { NODES - 1 - inner } else { inner };
        ranks.push_str(format!(in alloc; "{rank}\n")?.as_str())?;
    }
    ranks.push_str(format!(in alloc; "0\n{}\n", NODES - 1)?.as_str())?;
    Ok(ranks)
}

// `serve` by an order.
fn serve<'a>(path: &'a Path, ranks: &'a str, script: &'a str) -> Run<'a> {
    Run {
        words: "serve nodes roads profiles ranks",
        nodes: path.nodes.as_bytes(),
        roads: path.roads.as_bytes(),
        profiles: PROFILES,
        ranks: ranks.as_bytes(),
        script,
        limit: 1 << 23,
        room: 1 << 19,
        ..PLAIN
    }
}

// Whether `ask` over the packed file of the order by which this run serves says the same.
fn asks(alloc: Global, serve: Run<'_>, said: &[u8]) -> Result<bool, NoMemory> {
    let build = Run {
        words: "build nodes roads profiles ranks out",
        ..serve
    };
    let built = perform(alloc, build)?;
    let ask = Run {
        words: "ask packed",
        packed: built.out.as_slice(),
        ..serve
    };
    Ok(says(alloc, ask, 0, said))
}

// Whether `serve` by an order, and `ask` over its packed file, say this of a script.
fn answers<'a>(
    alloc: Global,
    path: &'a Path,
    ranks: &'a str,
    script: &'a str,
    said: &str,
) -> Result<bool, NoMemory> {
    let serve = serve(path, ranks, script);
    let said = said.as_bytes();
    Ok(says(alloc, serve, 0, said) && asks(alloc, serve, said)?)
}

// What an edit of all roads, which touches all edges, and a query behind it are answered: the roads, and one shortcut over each inner
// node.
fn both(alloc: Global, arcs: &str) -> Result<String, NoMemory> {
    let last = NODES - 1;
    Ok(format!(in alloc; "done {}\narrive={} arcs={arcs}\n", 2 * NODES - 3, 2 * last)?)
}

// Whether an edit of the last road rebuilds a shortcut over all other inner nodes, and one of all roads then rebuilds all.
fn edits_rebuild(alloc: Global, path: &Path, ranks: &str) -> Result<bool, NoMemory> {
    let last = NODES - 1;
    let arcs = path.arcs.as_str();
    let both = both(alloc, arcs)?;
    let said = format!(in alloc; "arrive={last} arcs={arcs}\ndone 2\n{}", both.as_str())?;
    let script = format!(in alloc;
        "q,0,{last},0\na,{},0\ns,0,0,travel,2\nq,0,{last},0\n",
        NODES - 2
    )?;
    answers(alloc, path, ranks, script.as_str(), said.as_str())
}

// Whether a day rebuilds it from nothing, and an edit of all roads then rebuilds all.
fn days_rebuild(alloc: Global, path: &Path, ranks: &str) -> Result<bool, NoMemory> {
    let last = NODES - 1;
    let arcs = path.arcs.as_str();
    let both = both(alloc, arcs)?;
    let said = format!(in alloc;
        "arrive={last} arcs={arcs}\nday 0,travel,{last}\n{}",
        both.as_str()
    )?;
    let script = format!(in alloc; "q,0,{last},0\nd,0,{last}\ns,0,0,travel,2\nq,0,{last},0\n")?;
    answers(alloc, path, ranks, script.as_str(), said.as_str())
}

#[test]
fn deep_shortcuts_are_walked_and_rebuilt(rt: HostRuntime) -> Result<(), Fail> {
    let alloc = rt.alloc();
    let path = long_path(alloc)?;
    let (left, right) = orders(alloc)?;
    assert!(rt; edits_rebuild(alloc, &path, left.as_str())?);
    assert!(rt; days_rebuild(alloc, &path, right.as_str())?);
    Ok(())
}
