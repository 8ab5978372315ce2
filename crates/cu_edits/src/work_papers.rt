//! What is kept of an edit in work beside its settler.

ghost use Rattle.std.specs.Prelude.{◌≡◌, ◌≤◌, ◌<◌, ◌-◌, ◌++◌, ◌∷◌, [], IfOk, Some, length, slice_get};
ghost use Rattle.cu_chordal.specs.declared.graph.TheConstants.{MAX_EDGES};

use cu_interval::TouchedEdge;
use cu_model::NoMemory;
use std::alloc::Global;
use std::marker::Model;

/// Whose edit is in work, the edges that it touches, and the lists of those settled, with room for all of them. Contracts see
/// these three.
#[derive(Drop)]
pub struct WorkPapers {
    client: u32,
    edges: Vec<u32>,
    lists: Vec<TouchedEdge>,
}

impl Model for WorkPapers {
    ghost use Rattle.std.specs.Prelude.{◌≤◌, length, vec_capacity};
    ghost use Rattle.cu_edits.specs.InWork.{PapersValue};

    ghost Value = { PapersValue };

    ghost view = { λ papers. record {
      client = papers.client;
      edges = papers.edges.items;
      lists = papers.lists.items;
    } };

    ghost invariant = { λ papers. length papers.edges.items ≤ vec_capacity papers.lists };
}

impl WorkPapers {
    /// Of an edit of a client that touches these edges, of which none is settled yet.
    pub(crate) fn new(alloc: Global, client: u32, edges: Vec<u32>) -> Result<WorkPapers, NoMemory>
        ensures { IfOk result (λ papers. papers
            ≡ record { client = client; edges = edges.items; lists = [] }) }
    {
        let lists = Vec::with_capacity(alloc, edges.len())?;
        Ok(WorkPapers {
            client,
            edges,
            lists,
        })
    }

    /// Whose edit it is. Takes no memory.
    pub fn client(&self) -> u32
        ensures { result ≡ self.now.client }
    {
        self.client
    }

    /// The lists of the edges settled, rising. Takes no memory.
    pub fn lists(&self) -> &[TouchedEdge]
        ensures { result.now ≡ self.now.lists }
    {
        &self.lists
    }

    /// How many edges are left.
    pub(crate) fn left(&self) -> u32
        requires within { length self.now.lists ≤ length self.now.edges }
        requires few { length self.now.edges ≤ MAX_EDGES }
        ensures { result ≡ length self.now.edges - length self.now.lists }
    {
        (self.edges.len() - self.lists.len()) as u32
    }

    /// The next edge.
    pub(crate) fn next(&self) -> u32
        requires { length self.now.lists < length self.now.edges }
        ensures { slice_get self.now.edges (length self.now.lists) ≡ Some result }
    {
        self.edges[self.lists.len()]
    }

    /// Keeps the lists of the next edge, for which there is room.
    pub(crate) fn add(&mut self, touched: TouchedEdge)
        requires { length self.old.lists < length self.old.edges }
        ensures { self.new ≡ record self.old { lists = self.old.lists ++ touched ∷ [] } }
    {
        match self.lists.push(touched) {
            Ok(()) => {}
            Err(_) => unreachable!(),
        }
    }
}
