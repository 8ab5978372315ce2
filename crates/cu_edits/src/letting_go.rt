//! Letting go of functions that no list settled later is made of.

ghost use Rattle.std.specs.Prelude.{◌≡◌, ◌≤◌, ◌<◌, ◌*◌, List, length};
ghost use Rattle.cu_interval.specs.declared.ways.TouchedEdge.{TouchedEdge};
ghost use Rattle.cu_unpack.specs.RebuiltRuns.{AreSpared, IsSized};
ghost use Rattle.cu_edits.specs.Steps.Moving.{IsListUpTo, LetsGo};
ghost use Rattle.cu_edits.specs.Steps.SettlerStates.{HoldsOver};

use crate::edit_parts::EditParts;
use crate::keeping::Keeping;
use crate::settler_state::{PackedState, SettlerState};
use cu_chordal::Chordal;
use cu_interval::Ways;

/// Lets go of the functions that no list of this edge or of a later one is made of, if edges are settled by rising number: those of
/// edges that lead up to ranks below its lower end. None is let go of where all are kept. Takes no memory.
pub fn let_go_below<W: Ways>(
    parts: &EditParts<'_, W>,
    state: &mut SettlerState,
    edge: u32,
    keeping: Keeping,
)
    requires edge { edge < length parts.now.graph.edges }
    requires holds { (settled : List TouchedEdge) × HoldsOver parts.now settled state.old }
    ensures { (settled : List TouchedEdge)
        → HoldsOver parts.now settled state.old → HoldsOver parts.now settled state.new }
{
    if let Keeping::All = keeping {
        return;
    }
    let SettlerState::Packed(packed) = state else {
        return;
    };
    let low = parts.ends(edge).low;
    let first = packed.moved.low();
    if low <= first {
        return;
    }
    packed.moved.rise_to(low);
    let_go_from(parts.graph(), first, packed);
}

// Lets go of the functions of edges that lead up to ranks from this one on and below those that stay.
fn let_go_from(graph: &Chordal, first: u32, state: &mut PackedState)
    requires low { state.old.moved.low ≤ graph.now.ranks }
    requires places { length state.old.moved.places ≡ 2 * length graph.now.edges }
    requires functions { IsSized (length graph.now.edges) state.old.functions }
    ensures moved { LetsGo (IsListUpTo graph.now.edges state.old.moved.low)
        state.old.moved state.new.moved }
    ensures spared { AreSpared state.old.functions state.new.functions }
{
    for rank in first..state.moved.low() {
        let_go_of_rank(graph, rank, state);
    }
}

// Lets go of the functions of edges that lead up to a rank, which is below those that stay.
fn let_go_of_rank(graph: &Chordal, rank: u32, state: &mut PackedState)
    requires rank { rank < graph.now.ranks }
    requires below { rank < state.old.moved.low }
    requires places { length state.old.moved.places ≡ 2 * length graph.now.edges }
    requires functions { IsSized (length graph.now.edges) state.old.functions }
    ensures moved { LetsGo (IsListUpTo graph.now.edges state.old.moved.low)
        state.old.moved state.new.moved }
    ensures spared { AreSpared state.old.functions state.new.functions }
{
    for low in graph.down(rank) {
        if let Some(edge) = graph.edge(*low, rank) {
            state.moved.let_go(edge);
            state.functions.forget(edge);
        }
    }
}
