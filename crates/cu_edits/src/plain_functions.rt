//! Going over from packed runs to plain functions.

ghost use Rattle.std.specs.Prelude.{◌≡◌, ◌<◌, ◌*◌, All, IfOk, length};
ghost use Rattle.cu_interval.specs.declared.ways.TouchedEdge.{TouchedEdge};
ghost use Rattle.cu_unpack.specs.Rebuilds.{Keeps};
ghost use Rattle.cu_edits.specs.Steps.TurningPlain.{ArePlainOf, SaysList, SaysSame, SayLists};
ghost use Rattle.cu_edits.specs.Steps.Parts.{TellsLists};

use crate::edge_functions::{EdgeFunctions, nothing_known};
use crate::edit_parts::EditParts;
use crate::moved_lists::MovedLists;
use crate::settler_state::PlainState;
use cu_arrival::Arrival;
use cu_interval::{Dir, TouchedEdge, Ways};
use cu_model::NoMemory;
use cu_runs::DayFunction;
use cu_unpack::Rebuilt;
use std::alloc::Global;

/// The functions of these edges, which were settled by packed runs: of lists that were moved as packed runs say them, and of lists that
/// stand rebuilt from their ways. Nothing else is known.
pub fn plain_of_packed<W: Ways>(
    alloc: Global,
    parts: &EditParts<'_, W>,
    settled: &[TouchedEdge],
    moved: &MovedLists,
) -> Result<PlainState, NoMemory>
    requires moved { TellsLists parts.now moved.now }
    requires settled { All (λ (touched : TouchedEdge).
        touched.edge < length parts.now.graph.edges) settled.now }
    ensures { IfOk result (ArePlainOf parts.now.before settled.now moved.now) }
{
    let edges = parts.edges();
    let mut rebuilt = Rebuilt::new(alloc, edges)?;
    let mut known = nothing_known(alloc, edges)?;
    'edges: for touched in settled {
        let edge = touched.edge;
        let functions = edge_functions(alloc, parts, &mut rebuilt, moved, edge)?;
        known[edge as usize] = Some(functions);
    }
    Ok(PlainState { rebuilt, known })
}

// The functions of an edge.
fn edge_functions<W: Ways>(
    alloc: Global,
    parts: &EditParts<'_, W>,
    rebuilt: &mut Rebuilt,
    moved: &MovedLists,
    edge: u32,
) -> Result<EdgeFunctions, NoMemory>
    requires edge { edge < length parts.now.before.edges }
    requires moved { length moved.now.places ≡ 2 * length parts.now.before.edges }
    requires size { length rebuilt.old.kept ≡ 2 * length parts.now.before.edges }
    requires keeps { Keeps parts.now.before rebuilt.old }
    ensures functions { IfOk result (SayLists parts.now.before moved.now edge) }
    ensures size { length rebuilt.new.kept ≡ length rebuilt.old.kept }
    ensures keeps { Keeps parts.now.before rebuilt.new }
{
    let up = list_function(alloc, parts, rebuilt, moved, edge, Dir::Up)?;
    let down = list_function(alloc, parts, rebuilt, moved, edge, Dir::Down)?;
    Ok(EdgeFunctions { up, down })
}

// The function of a list.
fn list_function<W: Ways>(
    alloc: Global,
    parts: &EditParts<'_, W>,
    rebuilt: &mut Rebuilt,
    moved: &MovedLists,
    edge: u32,
    dir: Dir,
) -> Result<Option<Arrival>, NoMemory>
    requires edge { edge < length parts.now.before.edges }
    requires moved { length moved.now.places ≡ 2 * length parts.now.before.edges }
    requires size { length rebuilt.old.kept ≡ 2 * length parts.now.before.edges }
    requires keeps { Keeps parts.now.before rebuilt.old }
    ensures function { IfOk result (SaysList parts.now.before moved.now edge dir) }
    ensures size { length rebuilt.new.kept ≡ length rebuilt.old.kept }
    ensures keeps { Keeps parts.now.before rebuilt.new }
{
    match moved.function(edge, dir) {
        Some(function) => plain_function(alloc, function),
        None => parts.function_before(alloc, rebuilt, edge, dir),
    }
}

// The same function by runs, if there is one.
fn plain_function(
    alloc: Global,
    function: &Option<DayFunction>,
) -> Result<Option<Arrival>, NoMemory>
    ensures { IfOk result (SaysSame function.now) }
{
    let Some(function) = function else {
        return Ok(None);
    };
    Ok(Some(function.to_arrival(alloc)?))
}
