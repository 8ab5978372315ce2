//! Edges found one after the other, each once.

ghost use Rattle.std.specs.Prelude.{◌≡◌, ◌≢◌, ◌<◌, [], ℕ, true, All, IfOk, OnOk, Some, length, slice_get};
ghost use Rattle.std.specs.List.{AllPairs, Contains};
ghost use Rattle.cu_edits.specs.Steps.Found.{AddsFound, FoundValue};

use cu_model::NoMemory;
use std::alloc::Global;
use std::marker::Model;

/// Edges found one after the other, each once. Contracts see of how many edges, and those found in order.
#[derive(Drop)]
pub(crate) struct FoundEdges {
    marks: Vec<bool>,
    found: Vec<u32>,
    // The edge that was found last, maybe not for the first time.
    last: u32,
}

impl Model for FoundEdges {
    ghost use Rattle.std.specs.Prelude.{length};
    ghost use Rattle.cu_edits.specs.Steps.Found.{AreMarked, FoundValue};

    ghost Value = { FoundValue };

    ghost view = { λ edges. record {
      edges = length edges.marks.items;
      found = edges.found.items;
    } };

    ghost invariant = { λ edges. AreMarked edges.marks.items edges.found.items };
}

impl FoundEdges {
    /// Of so many edges none was found.
    pub(crate) fn none(alloc: Global, edges: u32) -> Result<FoundEdges, NoMemory>
        ensures { IfOk result (λ found. found ≡ record { edges = edges; found = [] }) }
    {
        Ok(FoundEdges {
            marks: vec![in alloc; false; edges as usize]?,
            found: Vec::new(alloc),
            last: 0,
        })
    }

    /// Those found, in order. Takes no memory.
    pub(crate) fn found(&self) -> &[u32]
        ensures same { result.now ≡ self.now.found }
        ensures once { AllPairs (λ x y. x ≢ y) result.now }
        ensures within { All (λ edge. edge < self.now.edges) result.now }
    {
        &self.found
    }

    /// The number behind that of the edge found last, which is often the next to be found. Takes no memory.
    pub(crate) fn behind_last(&self) -> u32 {
        self.last.saturating_add(1)
    }

    /// An edge, below the number of edges, is found, if it wasn't. Where memory runs out it isn't.
    pub(crate) fn add(&mut self, edge: u32) -> Result<(), NoMemory>
        requires edge { edge < self.old.edges }
        ensures added { OnOk result (AddsFound (λ e. e ≡ edge) self.old.found self.new.found) }
        ensures edges { self.new.edges ≡ self.old.edges }
    {
        self.last = edge;
        if self.marks[edge as usize] {
            return Ok(());
        }
        self.found.push(edge)?;
        self.marks[edge as usize] = true;
        Ok(())
    }

    /// None is found any more, in the time of those that were. Takes no memory.
    pub(crate) fn clear(&mut self)
        ensures { self.new ≡ record { edges = self.old.edges; found = [] } }
    {
        unmark(&mut self.marks, &self.found);
        self.found.clear();
    }
}

// Takes away the marks with these numbers.
fn unmark(marks: &mut [bool], numbers: &[u32])
    requires { All (λ number. number < length marks.old) numbers.now }
    ensures long { length marks.new ≡ length marks.old }
    ensures left { (k : ℕ) → slice_get marks.new k ≡ Some true
        → (slice_get marks.old k ≡ Some true) × (Contains numbers.now k → ⊥) }
{
    'numbers: for number in numbers {
        marks[*number as usize] = false;
    }
}
