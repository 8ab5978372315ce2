//! Settlers: what gives a touched edge its lists after an edit.

ghost use Rattle.std.specs.Prelude.{◌≡◌, ◌++◌, ◌∷◌, [], IfOk, OnErr};
ghost use Rattle.cu_resettled.specs.ResettlingAll.{IsTouchedEdgeBySome};
ghost use Rattle.cu_edits.specs.Settling.{HasFinalSides, IsResettledEdge, IsSettled, SettlingValue, settled_so_far};

use cu_interval::TouchedEdge;
use cu_model::NoMemory;
use std::alloc::Global;

/// Whatever settles the edges that an edit of a hierarchy touches. It stores which edges it settled, with their lists; the
/// hierarchy before the edit and the edit never change.
pub trait Settler {
    ghost state: { Self → SettlingValue };

    /// Settles the edge with this number: its lists are the resettled ones of the hierarchy with the edges settled so far.
    /// The edge is touched and wasn't settled before, and each touched edge of its lower triangles was. Where memory runs
    /// out nothing is settled.
    fn settle(&mut self, alloc: Global, edge: u32) -> Result<TouchedEdge, NoMemory>
        requires touched { IsTouchedEdgeBySome (state self.old).before (state self.old).edit edge }
        requires fresh { IsSettled (state self.old) edge → ⊥ }
        requires sides { HasFinalSides (state self.old) edge }
        ensures edge { IfOk result (λ touched. touched.edge ≡ edge) }
        ensures settled { IfOk result (λ touched. state self.new
            ≡ record (state self.old) { settled = (state self.old).settled ++ touched ∷ [] }) }
        ensures resettled { IfOk result (IsResettledEdge (settled_so_far (state self.new))) }
        ensures kept { OnErr result (state self.new ≡ state self.old) };
}
