//! Orders of the nodes: which node has which rank.

ghost use Rattle.std.specs.Prelude.{◌≡◌, ◌≤◌, ◌<◌, ℕ, Some, IfOk, length, slice_get};
ghost use Rattle.std.specs.List.{range_with_len};
ghost use Rattle.cu_model.specs.Orders.{IsOrder, ListsEachNodeOnce};

use crate::NoMemory;
use crate::limits::MAX_NODES;
use std::alloc::Global;
use std::marker::Model;

/// An order of the nodes. Ranks and nodes are both numbered from 0; each node has one rank and each rank one node.
/// Contracts see its two tables.
#[derive(Drop)]
pub struct Order {
    node_at: Vec<u32>,
    rank_of: Vec<u32>,
}

impl Model for Order {
    ghost use Rattle.cu_model.specs.Orders.{OrderValue, IsOrder};

    ghost Value = { OrderValue };

    ghost view = { λ order. record {
      node_at = order.node_at.items;
      rank_of = order.rank_of.items;
    } };

    ghost invariant = { λ order. IsOrder (record {
      node_at = order.node_at.items;
      rank_of = order.rank_of.items;
    }) };
}

impl Order {
    /// The order in which each rank has the node that this list has at that place. The list has each node once, and
    /// at most 262,144 of them.
    pub fn of(alloc: Global, node_at: Vec<u32>) -> Result<Order, NoMemory>
        requires { ListsEachNodeOnce node_at.items }
        ensures given { IfOk result (λ order. order.node_at ≡ node_at.items) }
        ensures sound { IfOk result (λ order. IsOrder order) }
    {
        let rank_of = places(alloc, &node_at)?;
        Ok(Order { node_at, rank_of })
    }

    /// The order of so many nodes, at most 262,144, in which each node is its own rank.
    pub fn identity(alloc: Global, nodes: u32) -> Result<Order, NoMemory>
        requires { nodes ≤ MAX_NODES }
        ensures count { IfOk result (λ order. length order.node_at ≡ nodes) }
        ensures same { IfOk result
            (λ order. (rank : ℕ) → rank < nodes → slice_get order.node_at rank ≡ Some rank) }
        ensures sound { IfOk result (λ order. IsOrder order) }
    {
        let node_at = counted(alloc, nodes)?;
        Order::of(alloc, node_at)
    }

    /// How many nodes there are, at most 262,144, and so how many ranks.
    pub fn nodes(&self) -> u32
        ensures count { result ≡ length self.now.node_at }
        ensures sound { IsOrder self.now }
    {
        self.node_at.len() as u32
    }

    /// The rank of a node, which is below the number of nodes. So is the rank.
    pub fn rank(&self, node: u32) -> u32
        requires { node < length self.now.rank_of }
        ensures there { slice_get self.now.rank_of node ≡ Some result }
        ensures range { result < length self.now.node_at }
        ensures sound { IsOrder self.now }
    {
        self.rank_of[node as usize]
    }

    /// The node with a rank, which is below the number of nodes. So is the node.
    pub fn node(&self, rank: u32) -> u32
        requires { rank < length self.now.node_at }
        ensures there { slice_get self.now.node_at rank ≡ Some result }
        ensures range { result < length self.now.rank_of }
        ensures sound { IsOrder self.now }
    {
        self.node_at[rank as usize]
    }
}

// The place of each node in a list that has each node once.
fn places(alloc: Global, nodes: &[u32]) -> Result<Vec<u32>, NoMemory>
    requires { ListsEachNodeOnce nodes.now }
    ensures { IfOk result
        (λ places. IsOrder (record { node_at = nodes.now; rank_of = places.items })) }
{
    let mut places = vec![in alloc; 0u32; nodes.len()]?;
    for (place, node) in nodes.iter().enumerate() {
        places[*node as usize] = place as u32;
    }
    Ok(places)
}

// The numbers below this one, rising.
fn counted(alloc: Global, count: u32) -> Result<Vec<u32>, NoMemory>
    ensures { IfOk result (λ numbers. numbers.items ≡ range_with_len 0 count) }
{
    let mut numbers = Vec::with_capacity(alloc, count as usize)?;
    for number in 0..count {
        numbers.push(number)?;
    }
    Ok(numbers)
}
