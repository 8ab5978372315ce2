//! An edit in work: its touched edges are settled one a step.

ghost use Rattle.std.specs.Prelude.{◌≡◌, ◌<◌, ◌+◌, [], IfOk, OnErr};
ghost use Rattle.cu_resettled.specs.ResettlingAll.{IsResettledAll, NumbersTouchedBySome, edited_all, hierarchy_with_all};
ghost use Rattle.cu_model.specs.Networks.{IsNetwork};
ghost use Rattle.cu_interval.specs.Hierarchies.{IsHierarchy};
ghost use Rattle.cu_edits.specs.InWork.{IsInWork, SettlesNext, in_work_of, left_of};
ghost use Rattle.cu_edits.specs.Settling.{numbers_of};

use crate::settler::Settler;
use crate::work_papers::WorkPapers;
use cu_interval::TouchedEdge;
use cu_model::NoMemory;
use std::alloc::Global;
use std::marker::Model;

/// An edit of a client, whose touched edges a settler settles, one a step. Contracts see the client, these edges, and what the settler
/// settled.
#[derive(Drop)]
pub struct InWork<S: Settler> {
    papers: WorkPapers,
    settler: S,
}

impl<S: Settler> Model for InWork<S> {
    ghost use Rattle.std.specs.Prelude.{◌≡◌};
    ghost use Rattle.cu_edits.specs.InWork.{InWorkValue, IsInWork, in_work_of};

    ghost Value = { InWorkValue };

    ghost view = { λ work. in_work_of work.papers (S.state work.settler) };

    ghost invariant = { λ work. IsInWork (in_work_of work.papers (S.state work.settler))
        × (work.papers.lists ≡ (S.state work.settler).settled) };
}

impl<S: Settler + Drop> InWork<S> {
    /// Begins an edit by a settler that settled none yet, with room for the lists of all these edges: those that the edit touches, by
    /// rising number.
    pub fn begin(
        alloc: Global,
        client: u32,
        edges: Vec<u32>,
        settler: S,
    ) -> Result<InWork<S>, NoMemory>
        requires none { (S.state settler).settled ≡ [] }
        requires touched { NumbersTouchedBySome
            (S.state settler).before (S.state settler).edit edges.items }
        requires sound { IsHierarchy (S.state settler).before }
        ensures { IfOk result (λ work. work ≡ record {
          client = client;
          edges = edges.items;
          state = S.state settler;
        }) }
    {
        let papers = WorkPapers::new(alloc, client, edges)?;
        Ok(InWork { papers, settler })
    }

    /// Goes on with an edit in work, by what was kept of it and its settler. Takes no memory.
    pub fn resume(papers: WorkPapers, settler: S) -> InWork<S>
        requires work { IsInWork (in_work_of papers (S.state settler)) }
        requires lists { papers.lists ≡ (S.state settler).settled }
        ensures { result ≡ in_work_of papers (S.state settler) }
    {
        InWork { papers, settler }
    }

    /// What is to be kept of it, and its settler, to go on with later. Takes no memory.
    pub fn into_parts(self) -> (WorkPapers, S)
        ensures same { self ≡ in_work_of result.0 (S.state result.1) }
        ensures lists { result.0.lists ≡ (S.state result.1).settled }
        ensures work { IsInWork (in_work_of result.0 (S.state result.1)) }
    {
        let InWork { papers, settler } = self;
        (papers, settler)
    }

    /// Whose edit it is. Takes no memory.
    pub fn client(&self) -> u32
        ensures { result ≡ self.now.client }
    {
        self.papers.client()
    }

    /// How many edges are left. Takes no memory.
    pub fn left(&self) -> u32
        ensures { result ≡ left_of self.now }
    {
        self.papers.left()
    }

    /// Settles the next edge, of which one is left, and answers how many are left then. Where memory runs out nothing has changed.
    pub fn step(&mut self, alloc: Global) -> Result<u32, NoMemory>
        requires left { 0 < left_of self.old }
        ensures left { IfOk result (λ left. (left ≡ left_of self.new)
            × (left + 1 ≡ left_of self.old)) }
        ensures settled { IfOk result (λ left. SettlesNext self.old self.new) }
        ensures kept { OnErr result (self.new ≡ self.old) }
    {
        let edge = self.papers.next();
        let touched = self.settler.settle(alloc, edge)?;
        self.papers.add(touched);
        Ok(self.papers.left())
    }

    /// All touched edges with their lists, by rising number, once none is left: those of the resettled hierarchy. Takes no memory.
    pub fn lists(&self) -> &[TouchedEdge]
        requires left { left_of self.now ≡ 0 }
        ensures settled { result.now ≡ self.now.state.settled }
        ensures touched { NumbersTouchedBySome
            self.now.state.before self.now.state.edit (numbers_of result.now) }
        ensures resettled { IsResettledAll self.now.state.before self.now.state.edit
            (hierarchy_with_all self.now.state.before self.now.state.edit result.now) }
        ensures sound { IsNetwork (edited_all self.now.state.before.network self.now.state.edit)
            → IsHierarchy
            (hierarchy_with_all self.now.state.before self.now.state.edit result.now) }
    {
        self.papers.lists()
    }
}
