//! A settler put aside between two steps.

ghost use Rattle.std.specs.Prelude.{IfSome, List};
ghost use Rattle.cu_model.specs.declared.roads.Edit.{Edit};
ghost use Rattle.cu_interval.specs.Hierarchies.{HierarchyValue};
ghost use Rattle.cu_edits.specs.Learned.{ArePackedOf};
ghost use Rattle.cu_edits.specs.Paused.{FitsPaused};

use crate::learned::Learned;
use crate::settler_state::SettlerState;
use cu_interval::TouchedEdge;
use std::marker::Model;

/// What a settler keeps from one step to the next, apart from what it borrows. Contracts see the edges settled, with their lists,
/// and the functions that are held.
#[derive(Drop)]
pub struct PausedSettler {
    pub(crate) settled: Vec<TouchedEdge>,
    pub(crate) state: SettlerState,
}

impl Model for PausedSettler {
    ghost use Rattle.cu_edits.specs.Paused.{PausedValue};

    ghost Value = { PausedValue };

    ghost view = { λ paused. record {
      settled = paused.settled.items;
      state = paused.state;
    } };
}

impl PausedSettler {
    /// What is known of lists of the hierarchy before the edit, where that isn't made. None where nothing is, since a way took longer
    /// than packed runs can say. Takes no memory.
    pub fn into_earlier(self) -> Option<Learned>
        ensures { (h : HierarchyValue) (edit : List Edit) → FitsPaused h edit self
            → IfSome result (ArePackedOf h) }
    {
        let PausedSettler { state, .. } = self;
        match state {
            SettlerState::Nothing(learned) => learned,
            SettlerState::Packed(packed) => Some(Learned::before(packed)),
            SettlerState::Plain(_plain) => None,
        }
    }
}
