//! Room for what is at least still to go to a query's end.

ghost use Rattle.std.specs.Prelude.{◌≡◌, ◌<◌, IfOk, length};
ghost use Rattle.cu_elimtree.specs.SweepArcs.{parents_in};
ghost use Rattle.cu_chordal.specs.Graphs.{IsChordal};
ghost use Rattle.cu_interval.specs.Hierarchies.{HierarchyValue, IsHierarchyOf, graph_of};
ghost use Rattle.cu_bounds.specs.Near.{AreNear};
ghost use Rattle.cu_sweep.specs.Outlooks.{FallsBy, IsAhead};

use crate::bounding::{Bounds, RelaxerBounds};
use crate::looking::{look_back, look_up, start_up};
use crate::querying::{Question, climb};
use crate::timing::InTime;
use cu_bounds::NearBounds;
use cu_chordal::Chordal;
use cu_elimtree::Tree;
use cu_interval::Relaxer;
use cu_model::NoMemory;
use std::alloc::Global;
use std::marker::Model;

/// Room for what is at least still to go to the end of a query, made once: 32 bytes a node. Contracts see for how many nodes it
/// was made, and what is said to be still to go.
#[derive(Drop)]
pub struct Outlook {
    // What is at least still to go from each rank, upwards and downwards, and over which edge.
    up: Vec<u64>,
    down: Vec<u64>,
    up_next: Vec<Option<u32>>,
    down_next: Vec<Option<u32>>,
}

impl Model for Outlook {
    ghost use Rattle.std.specs.Prelude.{◌≡◌, length};
    ghost use Rattle.cu_sweep.specs.Outlooks.{OutlookValue};
    ghost use Rattle.cu_sweep.specs.Outlooks.{IsNear};

    ghost Value = { OutlookValue };

    ghost view = { λ outlook. record {
      nodes = length outlook.up.items;
      up = outlook.up.items;
      down = outlook.down.items;
    } };

    ghost invariant = { λ outlook. (length outlook.down.items ≡ length outlook.up.items)
        × (length outlook.up_next.items ≡ length outlook.up.items)
        × (length outlook.down_next.items ≡ length outlook.up.items)
        × IsNear outlook.up.items × IsNear outlook.down.items };
}

impl Outlook {
    /// Room for queries over so many nodes.
    pub fn new(alloc: Global, nodes: u32) -> Result<Outlook, NoMemory>
        ensures nodes { IfOk result (λ outlook. outlook.nodes ≡ nodes) }
    {
        let places = nodes as usize;
        Ok(Outlook {
            up: vec![in alloc; 0u64; places]?,
            down: vec![in alloc; 0u64; places]?,
            up_next: vec![in alloc; None; places]?,
            down_next: vec![in alloc; None; places]?,
        })
    }

    /// Finds what is at least still to go to the end of a question from the ancestors of its start, upwards and then downwards,
    /// and from those of its end; the second doesn't matter. It was made for as many nodes as there are ranks, and the path is
    /// room for so many. Takes no memory.
    pub fn look<R: Relaxer>(
        &mut self,
        tree: &Tree,
        graph: &Chordal,
        path: &mut [u32],
        relaxer: &R,
        question: Question,
    )
        requires ranks { (question.from < graph.now.ranks) × (question.to < graph.now.ranks) }
        requires tree { tree.now ≡ parents_in graph.now }
        requires graph { IsHierarchyOf graph.now (R.hierarchy relaxer.now) }
        requires nodes { self.old.nodes ≡ graph.now.ranks }
        requires path { length path.old ≡ graph.now.ranks }
        ensures nodes { self.new.nodes ≡ self.old.nodes }
        ensures ahead { IsAhead (R.hierarchy relaxer.now) question.from question.to
            self.new.up self.new.down }
    {
        let bounds = RelaxerBounds { relaxer };
        self.look_by(tree, graph, path, &bounds, question);
    }

    /// The same by bounds in memory. There are as many as edges.
    pub fn look_near(
        &mut self,
        tree: &Tree,
        graph: &Chordal,
        path: &mut [u32],
        bounds: &NearBounds,
        question: Question,
    )
        requires ranks { (question.from < graph.now.ranks) × (question.to < graph.now.ranks) }
        requires tree { tree.now ≡ parents_in graph.now }
        requires graph { IsChordal graph.now }
        requires edges { length bounds.now.ups ≡ length graph.now.edges }
        requires nodes { self.old.nodes ≡ graph.now.ranks }
        requires path { length path.old ≡ graph.now.ranks }
        ensures nodes { self.new.nodes ≡ self.old.nodes }
        ensures ahead { (h : HierarchyValue) → graph.now ≡ graph_of h → AreNear h bounds.now
            → IsAhead h question.from question.to self.new.up self.new.down }
    {
        self.look_by(tree, graph, path, bounds, question);
    }

    // The same by any bounds.
    fn look_by<B: Bounds>(
        &mut self,
        tree: &Tree,
        graph: &Chordal,
        path: &mut [u32],
        bounds: &B,
        question: Question,
    )
        requires ranks { (question.from < graph.now.ranks) × (question.to < graph.now.ranks) }
        requires tree { tree.now ≡ parents_in graph.now }
        requires graph { IsChordal graph.now }
        requires edges { B.count bounds.now ≡ length graph.now.edges }
        requires nodes { self.old.nodes ≡ graph.now.ranks }
        requires path { length path.old ≡ graph.now.ranks }
        ensures nodes { self.new.nodes ≡ self.old.nodes }
        ensures ahead { FallsBy (B.bounds bounds.now) graph.now question.from question.to
            self.new.up self.new.down }
    {
        look_back(
            tree,
            graph,
            &mut self.down,
            &mut self.down_next,
            bounds,
            question,
        );
        start_up(tree, &self.down, &mut self.up, question);
        let count = climb(tree, question.from, path);
        look_up(
            graph,
            &mut self.up,
            &mut self.up_next,
            bounds,
            &path[..count],
        );
    }

    // The limit of calls that may be in time for the end to be reached by a second, with these bounds.
    pub(crate) fn within<'a>(&'a self, bounds: &'a NearBounds, by: u64) -> InTime<'a>
        ensures up { result.up.now ≡ self.now.up }
        ensures places { length result.up.now ≡ self.now.nodes }
        ensures down { result.down.now ≡ self.now.down }
        ensures bounds { result.bounds.now ≡ bounds.now }
    {
        InTime {
            up: &self.up,
            down: &self.down,
            by,
            bounds,
        }
    }

    /// What is at least still to go from each rank, upwards and then downwards.
    pub fn up(&self) -> &[u64]
        ensures all { result.now ≡ self.now.up }
        ensures places { length result.now ≡ self.now.nodes }
    {
        &self.up
    }

    /// The same downwards alone.
    pub fn down(&self) -> &[u64]
        ensures all { result.now ≡ self.now.down }
        ensures places { length result.now ≡ self.now.nodes }
    {
        &self.down
    }

    /// The edges over which the least is still to go upwards. Nothing is promised of them.
    pub fn up_next(&self) -> &[Option<u32>]
        ensures places { length result.now ≡ self.now.nodes }
    {
        &self.up_next
    }

    /// The same downwards.
    pub fn down_next(&self) -> &[Option<u32>]
        ensures places { length result.now ≡ self.now.nodes }
    {
        &self.down_next
    }
}
