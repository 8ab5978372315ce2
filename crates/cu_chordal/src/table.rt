//! The edges of a chordal graph in flat arrays, rank by rank.

ghost use Rattle.std.specs.Prelude.{◌≡◌, ◌≤◌, ◌<◌, ◌+◌, ◌-◌, [], ◌∷◌, IfOk, OnOk, length};
ghost use Rattle.cu_chordal.specs.Graphs.{IsChordal, up_of};
ghost use Rattle.cu_chordal.specs.Steps.Closing.{Appends};
ghost use Rattle.cu_chordal.specs.Steps.Flat.{AreLower, IsTable, edges_in, graph_in};

use crate::graph::MAX_EDGES;
use crate::groups::{Groups, part};
use cu_model::NoMemory;
use std::alloc::{AllocError, Global};

// The lower and the higher ends of the edges by number, and where the edges of each lower end start; after the last
// start comes their end.
#[derive(Drop)]
pub struct EdgeTable {
    pub lows: Vec<u32>,
    pub starts: Vec<u32>,
    pub highs: Vec<u32>,
}

impl EdgeTable {
    // No edges yet, with room for the starts of so many ranks.
    pub fn new(alloc: Global, ranks: u32) -> Result<EdgeTable, AllocError>
        ensures lows { IfOk result (λ table. table.lows.items ≡ []) }
        ensures highs { IfOk result (λ table. table.highs.items ≡ []) }
        ensures starts { IfOk result (λ table. table.starts.items ≡ 0 ∷ []) }
    {
        let mut starts = Vec::with_capacity(alloc, ranks as usize + 1)?;
        starts.push(0u32)?;
        Ok(EdgeTable {
            lows: Vec::new(alloc),
            starts,
            highs: Vec::new(alloc),
        })
    }

    // Adds the edges of the next rank to its higher neighbours.
    pub fn append(&mut self, rank: u32, part: &[u32]) -> Result<(), AllocError>
        requires few { length self.old.lows.items + length part.now ≤ MAX_EDGES }
        ensures { OnOk result (Appends rank part.now self.old self.new) }
    {
        self.lows.resize(self.lows.len() + part.len(), rank)?;
        self.highs.extend_from_slice(part)?;
        Ok(self.starts.push(self.lows.len() as u32)?)
    }

    // The higher neighbours of a rank that was added, rising where the edges are.
    pub fn up(&self, rank: u32) -> &[u32]
        requires there { rank + 1 < length self.now.starts.items }
        requires table { IsTable (length self.now.starts.items - 1) self.now }
        ensures { result.now ≡ up_of (edges_in self.now) rank }
    {
        part(&self.starts, &self.highs, rank)
    }

    // The lower neighbours of each of so many ranks.
    pub fn lower(&self, alloc: Global, ranks: u32) -> Result<Groups, NoMemory>
        requires table { IsTable ranks self.now }
        requires sound { IsChordal (graph_in ranks self.now) }
        ensures { IfOk result (AreLower ranks (edges_in self.now)) }
    {
        Groups::of(alloc, &self.highs, &self.lows, ranks)
    }
}
