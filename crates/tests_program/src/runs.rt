//! Runs over tables, packed files, scripts and edits in memory.

use cu_cli::run;
use cu_io::{MemoryShelf, MemorySink, MemorySource, Shelf};
use cu_model::NoMemory;
use cu_samples::{NODES, RANKS, ROADS, RUSH};
use std::alloc::Global;

// A run: its words, with blanks between them; the bytes of six files, each under its field's name,
// and the script; the most bytes of a file, of a read and of all that is written; and the calls that
// fail, by number: of the shelf, from the run's first on, of the source and of the sink.
#[derive(Clone, Copy)]
pub struct Run<'a> {
    pub words: &'a str,
    pub nodes: &'a [u8],
    pub roads: &'a [u8],
    pub profiles: &'a [u8],
    pub ranks: &'a [u8],
    pub packed: &'a [u8],
    pub lines: &'a [u8],
    pub script: &'a str,
    pub limit: u64,
    pub most: usize,
    pub room: usize,
    pub shelf: &'a [u64],
    pub source: &'a [u64],
    pub sink: &'a [u64],
}

// No words over the rush hour's tables.
pub const PLAIN: Run<'static> = Run {
    words: "",
    nodes: NODES,
    roads: ROADS,
    profiles: RUSH,
    ranks: RANKS,
    packed: &[],
    lines: &[],
    script: "",
    limit: 1 << 20,
    most: 1 << 20,
    room: 1 << 16,
    shelf: &[],
    source: &[],
    sink: &[],
};

// What a run comes to: its status, what it writes, and what then stands under the name `out`, no bytes where nothing does.
#[derive(Drop)]
pub struct Ended {
    pub status: u8,
    pub said: Vec<u8>,
    pub out: Vec<u8>,
}

// The files that a shelf holds before a run.
const FILES: u64 = 6;

pub fn perform(alloc: Global, asked: Run<'_>) -> Result<Ended, NoMemory> {
    let mut shelf = shelf_of(alloc, asked)?;
    perform_over(alloc, asked, &mut shelf)
}

// A run over a shelf that holds what it holds.
pub fn perform_over(
    alloc: Global,
    asked: Run<'_>,
    shelf: &mut MemoryShelf,
) -> Result<Ended, NoMemory> {
    let mut sink = sink_of(alloc, asked)?;
    let status = status_over(alloc, asked, shelf, &mut sink)?;
    let said = Vec::from_slice(alloc, sink.bytes())?;
    let out = stored(alloc, shelf);
    Ok(Ended { status, said, out })
}

// The status of a run over a shelf, which writes to this sink.
fn status_over(
    alloc: Global,
    asked: Run<'_>,
    shelf: &mut MemoryShelf,
    sink: &mut MemorySink,
) -> Result<u8, NoMemory> {
    let words = words_of(alloc, asked.words)?;
    let mut source = source_of(alloc, asked)?;
    Ok(run(alloc, &words, shelf, &mut source, sink))
}

// What stands in a shelf under the name `out`, no bytes where nothing does.
fn stored(alloc: Global, shelf: &mut MemoryShelf) -> Vec<u8> {
    let mut out = Vec::new(alloc);
    let _outcome = shelf.load(alloc, "out", &mut out);
    out
}

pub fn shelf_of(alloc: Global, asked: Run<'_>) -> Result<MemoryShelf, NoMemory> {
    let fails = fails_of(alloc, asked)?;
    let mut shelf = MemoryShelf::new(alloc, asked.limit, fails);
    if is_filled(alloc, asked, &mut shelf) {
        Ok(shelf)
    } else {
        Err(NoMemory)
    }
}

// The calls of a shelf that fail, counted from its first one.
fn fails_of(alloc: Global, asked: Run<'_>) -> Result<Vec<u64>, NoMemory> {
    let mut fails = Vec::new(alloc);
    for call in asked.shelf {
        fails.push(call.saturating_add(FILES))?;
    }
    Ok(fails)
}

// Puts the six files into a shelf. Whether they are there.
fn is_filled(alloc: Global, asked: Run<'_>, shelf: &mut MemoryShelf) -> bool {
    shelf.store(alloc, "nodes", asked.nodes).is_ok()
        && shelf.store(alloc, "roads", asked.roads).is_ok()
        && shelf.store(alloc, "profiles", asked.profiles).is_ok()
        && shelf.store(alloc, "ranks", asked.ranks).is_ok()
        && shelf.store(alloc, "packed", asked.packed).is_ok()
        && shelf.store(alloc, "lines", asked.lines).is_ok()
}

fn sink_of(alloc: Global, asked: Run<'_>) -> Result<MemorySink, NoMemory> {
    let fails = Vec::from_slice(alloc, asked.sink)?;
    Ok(MemorySink::new(alloc, asked.room, fails)?)
}

fn source_of(alloc: Global, asked: Run<'_>) -> Result<MemorySource, NoMemory> {
    let fails = Vec::from_slice(alloc, asked.source)?;
    let script = Vec::from_slice(alloc, asked.script.as_bytes())?;
    Ok(MemorySource::of(script, fails).cut(asked.most.max(1)))
}

pub fn words_of(alloc: Global, words: &str) -> Result<Vec<String>, NoMemory> {
    let mut asked = Vec::new(alloc);
    for word in words.split(' ') {
        asked.push(String::from_str(alloc, word)?)?;
    }
    Ok(asked)
}

impl Ended {
    // Whether it has this status, writes this, and leaves these bytes under the name `out`.
    pub fn is(&self, status: u8, said: &[u8], out: &[u8]) -> bool {
        self.status == status && self.said.as_slice() == said && self.out.as_slice() == out
    }
}

// Whether a run has this status, writes this, and leaves these bytes under the name `out`.
pub fn leaves(alloc: Global, asked: Run<'_>, status: u8, said: &[u8], out: &[u8]) -> bool {
    match perform(alloc, asked) {
        Ok(ended) => ended.is(status, said, out),
        Err(NoMemory) => false,
    }
}

// Whether a run has this status, writes this, and stores nothing under the name `out`.
pub fn says(alloc: Global, asked: Run<'_>, status: u8, said: &[u8]) -> bool {
    leaves(alloc, asked, status, said, b"")
}
