//! The functions of roads, as packed runs.

ghost use Rattle.std.specs.Prelude.{◌≡◌, ◌≤◌, ◌<◌, ◌++◌, ℕ, IfOk, false, length, map};
ghost use Rattle.cu_model.specs.declared.limits.TheConstants.{DAY};
ghost use Rattle.cu_model.specs.Roads.{arc_value, is_closed_arc, pieces_of};
ghost use Rattle.cu_arrival.specs.Runs.{arrival_value};
ghost use Rattle.cu_arrival.specs.Steps.OfPieces.{run_of};
ghost use Rattle.cu_runs.specs.PackedRuns.{IsPackedFunction};

use crate::packed_runs::PackedRun;
use cu_model::{NoMemory, Piece, Roads, Rule};

/// Writes the function of a road over what `packed` holds. The road isn't closed. After a refusal for want of memory
/// `packed` may hold anything.
pub fn put_road<R: Roads>(roads: &R, arc: u32, packed: &mut Vec<PackedRun>) -> Result<(), NoMemory>
    requires road { arc < length (R.network roads.now).arcs }
    requires open { is_closed_arc (R.network roads.now) arc ≡ false }
    ensures function { IfOk result (λ _. IsPackedFunction packed.new.items) }
    ensures value { IfOk result (λ _. (t : ℕ) → t < DAY →
        arrival_value packed.new.items t ≡ arc_value (R.network roads.now) arc t) }
{
    packed.clear();
    put_pieces(roads, roads.arc(arc).profile, packed)?;
    packed.push(PackedRun::end())?;
    Ok(())
}

// Adds a run for each piece of a profile.
fn put_pieces<R: Roads>(
    roads: &R,
    profile: u32,
    packed: &mut Vec<PackedRun>,
) -> Result<(), NoMemory>
    requires { profile < length (R.network roads.now).profiles }
    ensures { IfOk result (λ _. packed.new.items
        ≡ packed.old.items ++ map run_of (pieces_of (R.network roads.now) profile)) }
{
    for index in 0..roads.pieces(profile) {
        packed.push(run_of_piece(roads.piece(profile, index)))?;
    }
    Ok(())
}

// The run that says what a piece says. A closed one is asked by nobody.
fn run_of_piece(piece: Piece) -> PackedRun
    requires { piece.from ≤ DAY }
    ensures { result ≡ run_of piece }
{
    match piece.rule {
        Rule::Travel(seconds) => PackedRun::of(u64::from(piece.from), false, u64::from(seconds)),
        Rule::Until(arrival) => PackedRun::of(u64::from(piece.from), true, u64::from(arrival)),
        Rule::Closed(_) => PackedRun::of(u64::from(piece.from), false, 0),
    }
}
