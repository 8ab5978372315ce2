//! The chordal graph: its edges by number, and the neighbours of each rank.

ghost use Rattle.std.specs.Prelude.{◌≡◌, ◌≤◌, ◌<◌, ◌+◌, ◌↔◌, ℕ, Some, IfOk, length, slice_get};
ghost use Rattle.std.specs.List.{Contains};
ghost use Rattle.std.specs.List.Sorted.{IsStrictlyIncreasing};
ghost use Rattle.cu_chordal.specs.declared.graph.Ends.{Ends};
ghost use Rattle.cu_chordal.specs.Graphs.{ChordalValue, FindsEdge, HasEdge, IsChordal, NumbersEdges, down_of, first_edge_of, up_of};
ghost use Rattle.cu_chordal.specs.Steps.Flat.{FindsIndex, IsTable, graph_in};

use crate::groups::Groups;
use crate::table::EdgeTable;
use cu_model::NoMemory;
use std::alloc::Global;
use std::marker::Model;

/// The most edges that a chordal graph has.
pub const MAX_EDGES: u32 = 16_777_216;

/// The ends of an edge, by rank.
#[derive(Clone, Copy, PartialEq, Eq)]
pub struct Ends {
    pub low: u32,
    pub high: u32,
}

/// A chordal graph on ranks: any two higher neighbours of one rank are joined by an edge. Its edges are numbered from 0,
/// by lower rank and then by higher rank. Contracts see the number of ranks and the list of edges.
#[derive(Drop)]
pub struct Chordal {
    ranks: u32,
    table: EdgeTable,
    lower: Groups,
}

impl Model for Chordal {
    ghost use Rattle.cu_chordal.specs.Graphs.{ChordalValue};

    ghost Value = { ChordalValue };

    ghost use Rattle.cu_chordal.specs.Steps.Flat.{IsLaidOut, graph_in};

    ghost view = { λ graph. graph_in graph.ranks graph.table };

    ghost invariant = { λ graph. IsLaidOut graph.ranks graph.table graph.lower };
}

impl Chordal {
    // The graph of these edges.
    pub(crate) fn of_table(alloc: Global, ranks: u32, table: EdgeTable) -> Result<Chordal, NoMemory>
        requires table { IsTable ranks table }
        requires sound { IsChordal (graph_in ranks table) }
        ensures { IfOk result (λ graph. graph ≡ graph_in ranks table) }
    {
        let lower = table.lower(alloc, ranks)?;
        Ok(Chordal {
            ranks,
            table,
            lower,
        })
    }

    /// How many ranks there are, at most `MAX_NODES` of `cu_model`.
    pub fn ranks(&self) -> u32
        ensures count { result ≡ self.now.ranks }
        ensures sound { IsChordal self.now }
    {
        self.ranks
    }

    /// How many edges there are, at most [`MAX_EDGES`].
    pub fn edges(&self) -> u32
        ensures count { result ≡ length self.now.edges }
        ensures sound { IsChordal self.now }
    {
        self.table.lows.len() as u32
    }

    /// The higher neighbours of a rank below the number of ranks, rising.
    pub fn up(&self, rank: u32) -> &[u32]
        requires { rank < self.now.ranks }
        ensures exact { result.now ≡ up_of self.now.edges rank }
        ensures members { (y : ℕ) → Contains result.now y ↔ HasEdge self.now.edges rank y }
        ensures rising { IsStrictlyIncreasing result.now }
        ensures sound { IsChordal self.now }
    {
        self.table.up(rank)
    }

    /// The lower neighbours of a rank below the number of ranks, rising.
    pub fn down(&self, rank: u32) -> &[u32]
        requires { rank < self.now.ranks }
        ensures exact { result.now ≡ down_of self.now.edges rank }
        ensures members { (x : ℕ) → Contains result.now x ↔ HasEdge self.now.edges x rank }
        ensures rising { IsStrictlyIncreasing result.now }
        ensures sound { IsChordal self.now }
    {
        self.lower.group(rank)
    }

    /// How many edges have a lower end below this rank, which is below the number of ranks. The edge to the rank's i-th
    /// higher neighbour, counted from 0, has this number and i.
    pub fn first_edge(&self, rank: u32) -> u32
        requires { rank < self.now.ranks }
        ensures count { result ≡ first_edge_of self.now.edges rank }
        ensures few { result + length (up_of self.now.edges rank) ≤ MAX_EDGES }
        ensures numbers { NumbersEdges self.now.edges rank result }
        ensures sound { IsChordal self.now }
    {
        self.table.starts[rank as usize]
    }

    /// The ends of the edge with this number, which is below the number of edges.
    pub fn ends(&self, edge: u32) -> Ends
        requires { edge < length self.now.edges }
        ensures there { slice_get self.now.edges edge ≡ Some result }
        ensures sound { IsChordal self.now }
    {
        Ends {
            low: self.table.lows[edge as usize],
            high: self.table.highs[edge as usize],
        }
    }

    /// The number of the edge between two ranks, of which the lower is below the number of ranks. None exactly where
    /// there is no such edge.
    pub fn edge(&self, low: u32, high: u32) -> Option<u32>
        requires { low < self.now.ranks }
        ensures found { FindsEdge self.now.edges low high result }
        ensures sound { IsChordal self.now }
    {
        let index = index_of(self.up(low), high)?;
        Some(self.first_edge(low) + index as u32)
    }
}

// The index of a number in a list that rises.
fn index_of(numbers: &[u32], number: u32) -> Option<usize>
    requires { IsStrictlyIncreasing numbers.now }
    ensures { FindsIndex numbers.now number result }
{
    numbers.binary_search(&number).ok()
}
