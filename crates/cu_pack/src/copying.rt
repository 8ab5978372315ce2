//! Whole columns of a file, in memory of their own.

ghost use Rattle.std.specs.Prelude.{◌≡◌, IfOk};
ghost use Rattle.cu_pack.specs.Reading.{edge_starts_in, order_in, uppers_in};

use crate::cutting::Sections;
use cu_model::NoMemory;
use std::alloc::Global;

impl<'a> Sections<'a> {
    /// The node at each rank. Takes 4 bytes for each.
    pub fn nodes_by_rank(&self, alloc: Global) -> Result<Vec<u32>, NoMemory>
        ensures nodes { IfOk result (λ nodes. nodes.items ≡ (order_in self.now).node_at) }
    {
        let ranks = self.counts().nodes;
        let mut nodes = Vec::with_capacity(alloc, ranks as usize)?;
        for rank in 0..ranks {
            nodes.push(self.node_at(rank))?;
        }
        Ok(nodes)
    }

    /// How many edges are before each rank, and at last how many there are in all. Takes 4 bytes for each.
    pub fn edge_starts(&self, alloc: Global) -> Result<Vec<u32>, NoMemory>
        ensures starts { IfOk result (λ starts. starts.items ≡ edge_starts_in self.now) }
    {
        let ranks = self.counts().nodes;
        let mut starts = Vec::with_capacity(alloc, ranks as usize + 1)?;
        for rank in 0..ranks + 1 {
            starts.push(self.edge_start(rank))?;
        }
        Ok(starts)
    }

    /// The higher rank of each edge. Takes 4 bytes for each.
    pub fn uppers(&self, alloc: Global) -> Result<Vec<u32>, NoMemory>
        ensures uppers { IfOk result (λ uppers. uppers.items ≡ uppers_in self.now) }
    {
        let edges = self.counts().edges;
        let mut uppers = Vec::with_capacity(alloc, edges as usize)?;
        for edge in 0..edges {
            uppers.push(self.upper(edge))?;
        }
        Ok(uppers)
    }
}
