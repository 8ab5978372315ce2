//! Parents and ancestors of ranks (Liu: "The role of elimination trees in sparse factorization", 1990).

ghost use Rattle.std.specs.Prelude.{◌≡◌, ◌<◌, ◌↔◌, Some, IsTrue, IfOk, All, length, slice_get};
ghost use Rattle.std.specs.List.{Contains};
ghost use Rattle.std.specs.List.Sorted.{IsStrictlyIncreasing};
ghost use Rattle.cu_elimtree.specs.SweepArcs.{parents_in};
ghost use Rattle.cu_elimtree.specs.Trees.{HoldsAncestorNeighbours, HoldsHigherNeighbours, IsTree, IsTreeOf, ancestors_of, flat};

use cu_chordal::Chordal;
use cu_model::NoMemory;
use std::alloc::Global;
use std::marker::Model;

/// The elimination tree of a chordal graph; a graph that isn't connected has several roots. Contracts see the parent of
/// each rank.
#[derive(Drop)]
pub struct Tree {
    parents: Vec<Option<u32>>,
}

impl Model for Tree {
    ghost use Rattle.std.specs.Prelude.{ℕ, List, Option};
    ghost use Rattle.cu_elimtree.specs.SweepArcs.{parents_in};
    ghost use Rattle.cu_elimtree.specs.Trees.{IsTree};

    ghost Value = { List (Option ℕ) };

    ghost view = { λ tree. tree.parents.items };

    ghost invariant = { λ tree. IsTree tree.parents.items };
}

impl Tree {
    /// The elimination tree of a chordal graph. All higher neighbours of a rank are among its ancestors, and so are those
    /// of its ancestors.
    pub fn of(alloc: Global, graph: &Chordal) -> Result<Tree, NoMemory>
        ensures parents { IfOk result (λ tree. IsTreeOf graph.now tree) }
        ensures named { IfOk result (λ tree. tree ≡ parents_in graph.now) }
        ensures holds { IfOk result (λ tree. HoldsHigherNeighbours graph.now tree) }
        ensures upwards { IfOk result (λ tree. HoldsAncestorNeighbours graph.now tree) }
        ensures sound { IfOk result (λ tree. IsTree tree) }
    {
        let parents = parents_of(alloc, graph)?;
        Ok(Tree { parents })
    }

    /// How many ranks there are, at most `MAX_NODES` of `cu_model`.
    pub fn ranks(&self) -> u32
        ensures count { result ≡ length self.now }
        ensures sound { IsTree self.now }
    {
        self.parents.len() as u32
    }

    /// The lowest higher neighbour of a rank, which is below the number of ranks. None exactly where it has none.
    pub fn parent(&self, rank: u32) -> Option<u32>
        requires { rank < length self.now }
        ensures there { slice_get self.now rank ≡ Some result }
        ensures sound { IsTree self.now }
    {
        self.parents[rank as usize]
    }

    /// The rank itself, its parent, the parent's parent and so on: they rise, and all are below the number of ranks, as
    /// the rank is.
    pub fn ancestors(&self, rank: u32) -> Ancestors<'_>
        requires { rank < length self.now }
        ensures left { result ≡ ancestors_of self.now rank }
        ensures rising { IsStrictlyIncreasing (ancestors_of self.now rank) }
        ensures below { All (λ ancestor. ancestor < length self.now) (ancestors_of self.now rank) }
        ensures sound { IsTree self.now }
    {
        Ancestors {
            parents: &self.parents,
            fuel: self.parents.len(),
            next: Some(rank),
        }
    }

    /// Whether one rank is an ancestor of another. Each is its own. Both are below the number of ranks.
    pub fn is_ancestor(&self, upper: u32, lower: u32) -> bool
        requires { (upper < length self.now) × (lower < length self.now) }
        ensures told { IsTrue result ↔ Contains (ancestors_of self.now lower) upper }
        ensures sound { IsTree self.now }
    {
        has(self.ancestors(lower), upper)
    }
}

/// The ancestors of a rank, from itself upwards. Contracts see the list of those that are left.
#[derive(Drop)]
pub struct Ancestors<'a> {
    parents: &'a [Option<u32>],
    fuel: usize,
    next: Option<u32>,
}

impl<'a> Model for Ancestors<'a> {
    ghost use Rattle.std.specs.Prelude.{ℕ, List};
    ghost use Rattle.cu_elimtree.specs.Trees.{climb};

    ghost Value = { List ℕ };

    ghost view = { λ ancestors. climb ancestors.fuel ancestors.parents.now ancestors.next };
}

impl Iterator for Ancestors<'_> {
    type Item = u32;

    ghost use Rattle.std.specs.Iterator.{YieldsFirst, item_count};

    ghost next_gives = { YieldsFirst (λ left. left) };

    ghost remaining = { item_count (λ left. left) };

    fn next(&mut self) -> Option<u32> {
        if self.fuel == 0 {
            return None;
        }
        let rank = self.next?;
        self.fuel -= 1;
        self.next = parent_at(self.parents, rank);
        Some(rank)
    }
}

// The parent that a list has for a rank; none past its end.
fn parent_at(parents: &[Option<u32>], rank: u32) -> Option<u32>
    ensures { result ≡ flat (slice_get parents.now rank) }
{
    *parents.get(rank as usize)?
}

// The parent of each rank of a graph.
fn parents_of(alloc: Global, graph: &Chordal) -> Result<Vec<Option<u32>>, NoMemory>
    ensures parents { IfOk result (λ parents. IsTreeOf graph.now parents.items) }
    ensures sound { IfOk result (λ parents. IsTree parents.items) }
    ensures holds { IfOk result (λ parents. HoldsHigherNeighbours graph.now parents.items) }
    ensures upwards { IfOk result (λ parents. HoldsAncestorNeighbours graph.now parents.items) }
{
    let ranks = graph.ranks();
    let mut parents = Vec::with_capacity(alloc, ranks as usize)?;
    for rank in 0..ranks {
        parents.push(graph.up(rank).first().copied())?;
    }
    Ok(parents)
}

// Whether a rank is among these, which rise: the first that isn't below the rank tells.
fn has(ancestors: Ancestors<'_>, rank: u32) -> bool
    requires { IsStrictlyIncreasing ancestors }
    ensures { IsTrue result ↔ Contains ancestors.entry rank }
{
    for ancestor in ancestors {
        if ancestor >= rank {
            return ancestor == rank;
        }
    }
    false
}
