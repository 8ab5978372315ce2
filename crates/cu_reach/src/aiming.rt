//! Ranks that sweeps go down over, so that some nodes are reached: theirs, and all higher neighbours of each.

ghost use Rattle.std.specs.Prelude.{◌≡◌, ◌≤◌, ◌<◌, ◌+◌, ℕ, Bool, List, All, IfOk, length, take};
ghost use Rattle.std.specs.List.{Contains};
ghost use Rattle.cu_model.specs.declared.limits.TheConstants.{MAX_NODES};
ghost use Rattle.cu_interval.specs.Hierarchies.{IsHierarchyOf};
ghost use Rattle.cu_reach.specs.Aims.{HasRanks, IsPath};
ghost use Rattle.cu_reach.specs.Steps.Aiming.{AreGathered, AreMarked, IsMarked};

use crate::tables::NodeFields;
use cu_chordal::Chordal;
use cu_interval::Ways;
use cu_model::NoMemory;
use std::alloc::Global;
use std::marker::Model;

/// Room for the ranks that sweeps go down over, made once. Contracts see for how many nodes it was made, and these ranks.
#[derive(Drop)]
pub struct Aim {
    // Which ranks are still to be gathered.
    marks: Vec<bool>,
    ranks: Vec<u32>,
    // So many of them were gathered.
    count: usize,
}

impl Model for Aim {
    ghost use Rattle.std.specs.Prelude.{◌≡◌, ◌≤◌, length, take};
    ghost use Rattle.cu_reach.specs.Aims.{AimValue};

    ghost Value = { AimValue };

    ghost view = { λ aim. record {
      nodes = length aim.ranks.items;
      path = take aim.count aim.ranks.items;
    } };

    ghost invariant = { λ aim. (length aim.marks.items ≡ length aim.ranks.items)
        × (aim.count ≤ length aim.ranks.items) };
}

impl Aim {
    /// Room for so many nodes, which are at most `MAX_NODES` of `cu_model`.
    pub fn new(alloc: Global, nodes: u32) -> Result<Aim, NoMemory>
        requires { nodes ≤ MAX_NODES }
        ensures nodes { IfOk result (λ aim. aim.nodes ≡ nodes) }
    {
        Ok(Aim {
            marks: vec![in alloc; false; nodes as usize]?,
            ranks: vec![in alloc; 0u32; nodes as usize]?,
            count: 0,
        })
    }

    /// The ranks, rising.
    pub fn path(&self) -> &[u32]
        ensures { result.now ≡ self.now.path }
    {
        &self.ranks[..self.count]
    }

    /// Takes the ranks of these nodes, and with each rank all its higher neighbours: no others are needed to reach them. Nodes and
    /// graph are of the hierarchy, and there is room for as many nodes. Takes no memory.
    pub fn aim<W: Ways>(&mut self, ways: &W, graph: &Chordal, nodes: NodeFields<'_>)
        requires nodes { self.old.nodes ≡ graph.now.ranks }
        requires graph { IsHierarchyOf graph.now (W.hierarchy ways.now) }
        requires below { All (λ node. node < (W.hierarchy ways.now).network.nodes) nodes }
        ensures nodes { self.new.nodes ≡ self.old.nodes }
        ensures path { IsPath graph.now self.new.path }
        ensures aimed { HasRanks (W.hierarchy ways.now) nodes.entry self.new.path }
    {
        mark_nodes(&mut self.marks, ways, nodes);
        self.count = gather(&mut self.marks, &mut self.ranks, graph);
    }
}

// Marks the ranks of nodes.
fn mark_nodes<W: Ways>(marks: &mut [bool], ways: &W, nodes: NodeFields<'_>)
    requires marks { length marks.old ≡ (W.hierarchy ways.now).network.nodes }
    requires nodes { All (λ node. node < (W.hierarchy ways.now).network.nodes) nodes }
    ensures long { length marks.new ≡ length marks.old }
    ensures marked { AreMarked (W.hierarchy ways.now) nodes.entry marks.new }
{
    'nodes: for node in nodes {
        marks[ways.rank(node) as usize] = true;
    }
}

// Gathers marked ranks, rising, and with each its higher neighbours, and answers how many they are. Their marks are taken away.
fn gather(marks: &mut [bool], ranks: &mut [u32], graph: &Chordal) -> usize
    requires marks { length marks.old ≡ graph.now.ranks }
    requires ranks { length ranks.old ≡ graph.now.ranks }
    ensures marks { length marks.new ≡ length marks.old }
    ensures ranks { length ranks.new ≡ length ranks.old }
    ensures few { result ≤ length ranks.new }
    ensures path { IsPath graph.now (take result ranks.new) }
    ensures aimed { (rank : ℕ) → IsMarked marks.old rank → Contains (take result ranks.new) rank }
{
    let mut count = 0;
    'ranks: for rank in 0..graph.ranks() {
        count = gather_one(marks, ranks, graph, rank, count);
    }
    count
}

// Gathers a rank behind so many others where it is marked, and then marks its higher neighbours. Answers how many there are now.
fn gather_one(
    marks: &mut [bool],
    ranks: &mut [u32],
    graph: &Chordal,
    rank: u32,
    count: usize,
) -> usize
    requires rank { rank < graph.now.ranks }
    requires few { count ≤ rank }
    requires marks { length marks.old ≡ graph.now.ranks }
    requires ranks { length ranks.old ≡ graph.now.ranks }
    ensures marks { length marks.new ≡ length marks.old }
    ensures ranks { length ranks.new ≡ length ranks.old }
    ensures few { result ≤ rank + 1 }
    ensures gathered { (first : List Bool)
        → AreGathered graph.now first rank marks.old (take count ranks.old)
        → AreGathered graph.now first (rank + 1) marks.new (take result ranks.new) }
{
    if !marks[rank as usize] {
        return count;
    }
    marks[rank as usize] = false;
    mark_all(marks, graph.up(rank));
    ranks[count] = rank;
    count + 1
}

// Marks these ranks.
fn mark_all(marks: &mut [bool], ranks: &[u32])
    requires { All (λ rank. rank < length marks.old) ranks.now }
    ensures long { length marks.new ≡ length marks.old }
    ensures marked { (rank : ℕ) → Contains ranks.now rank → IsMarked marks.new rank }
    ensures kept { (rank : ℕ) → IsMarked marks.old rank → IsMarked marks.new rank }
{
    'ranks: for rank in ranks {
        marks[*rank as usize] = true;
    }
}
