//! The order and the graph of a packed file, in memory of their own.

ghost use Rattle.std.specs.Prelude.{◌≡◌, IfOk, map};
ghost use Rattle.cu_chordal.specs.declared.graph.Ends.{Ends};
ghost use Rattle.cu_interval.specs.Hierarchies.{IsHierarchy, graph_of};
ghost use Rattle.cu_pack.specs.Spelling.{edge_starts};

use crate::view::PackedView;
use cu_chordal::Chordal;
use cu_model::{NoMemory, Order};
use std::alloc::Global;

/// The order of a packed file.
pub fn order_of(alloc: Global, view: &PackedView<'_>) -> Result<Order, NoMemory>
    ensures same { IfOk result (λ order. order ≡ view.now.order) }
{
    let nodes = view.nodes_by_rank(alloc)?;
    Order::of(alloc, nodes)
}

/// The graph of a packed file.
pub fn chordal_of(alloc: Global, view: &PackedView<'_>) -> Result<Chordal, NoMemory>
    ensures same { IfOk result (λ graph. graph ≡ graph_of view.now) }
{
    let starts = view.edge_starts(alloc)?;
    let uppers = view.uppers(alloc)?;
    Chordal::of_lists(alloc, starts, uppers)
}

impl<'a> PackedView<'a> {
    // The node at each rank.
    fn nodes_by_rank(&self, alloc: Global) -> Result<Vec<u32>, NoMemory>
        ensures all { IfOk result (λ nodes. nodes.items ≡ self.now.order.node_at) }
        ensures sound { IsHierarchy self.now }
    {
        self.sections.nodes_by_rank(alloc)
    }

    // How many edges are before each rank, and at last how many in all.
    fn edge_starts(&self, alloc: Global) -> Result<Vec<u32>, NoMemory>
        ensures all { IfOk result (λ starts. starts.items ≡ edge_starts self.now) }
    {
        self.sections.edge_starts(alloc)
    }

    // The higher rank of each edge.
    fn uppers(&self, alloc: Global) -> Result<Vec<u32>, NoMemory>
        ensures all { IfOk result
            (λ uppers. uppers.items ≡ map (λ (ends : Ends). ends.high) self.now.edges) }
        ensures sound { IsHierarchy self.now }
    {
        self.sections.uppers(alloc)
    }
}
