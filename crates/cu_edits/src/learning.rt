//! Learning the functions of edges that an edit leaves as they are.

ghost use Rattle.std.specs.Prelude.{◌≡◌, ◌<◌, ◌*◌, ℕ, IfOk, OnOk, length, slice_get};
ghost use Rattle.cu_unpack.specs.Rebuilds.{Keeps};
ghost use Rattle.cu_edits.specs.Steps.Known.{HasFunctions, IsSide, IsSideOver, Learns};

use crate::edge_functions::EdgeFunctions;
use crate::edit_parts::EditParts;
use cu_chordal::Ends;
use cu_interval::{Dir, Ways};
use cu_model::NoMemory;
use cu_unpack::Rebuilt;
use std::alloc::Global;

/// Makes sure that the functions of both lower sides of each lower triangle of an edge with these ends are known; those that
/// aren't are rebuilt over these ways. What was learnt stays after a refusal too.
pub fn learn_sides<W: Ways>(
    alloc: Global,
    parts: &EditParts<'_, W>,
    ends: Ends,
    rebuilt: &mut Rebuilt,
    known: &mut [Option<EdgeFunctions>],
) -> Result<(), NoMemory>
    requires ranks { (ends.low < parts.now.graph.ranks) × (ends.high < parts.now.graph.ranks) }
    requires size { length rebuilt.old.kept ≡ 2 * length parts.now.before.edges }
    requires keeps { Keeps parts.now.before rebuilt.old }
    requires known { length known.old ≡ length parts.now.before.edges }
    ensures learns { Learns parts.now.before (IsSide parts.now.graph.edges ends)
        known.old known.new }
    ensures sides { OnOk result ((side : ℕ) → IsSide parts.now.graph.edges ends side
        → HasFunctions known.new side) }
    ensures size { length rebuilt.new.kept ≡ length rebuilt.old.kept }
    ensures keeps { Keeps parts.now.before rebuilt.new }
{
    for middle in parts.down(ends.low) {
        learn_triangle(alloc, parts, ends, *middle, rebuilt, known)?;
    }
    Ok(())
}

// The same of the lower triangle over one rank, if there is one.
fn learn_triangle<W: Ways>(
    alloc: Global,
    parts: &EditParts<'_, W>,
    ends: Ends,
    middle: u32,
    rebuilt: &mut Rebuilt,
    known: &mut [Option<EdgeFunctions>],
) -> Result<(), NoMemory>
    requires middle { middle < parts.now.graph.ranks }
    requires size { length rebuilt.old.kept ≡ 2 * length parts.now.before.edges }
    requires keeps { Keeps parts.now.before rebuilt.old }
    requires known { length known.old ≡ length parts.now.before.edges }
    ensures learns { Learns parts.now.before (IsSideOver parts.now.graph.edges ends middle)
        known.old known.new }
    ensures sides { OnOk result ((side : ℕ) → IsSideOver parts.now.graph.edges ends middle side
        → HasFunctions known.new side) }
    ensures size { length rebuilt.new.kept ≡ length rebuilt.old.kept }
    ensures keeps { Keeps parts.now.before rebuilt.new }
{
    let Some(first) = parts.edge(middle, ends.low) else {
        return Ok(());
    };
    let Some(second) = parts.edge(middle, ends.high) else {
        return Ok(());
    };
    learn_edge(alloc, parts, first, rebuilt, known)?;
    learn_edge(alloc, parts, second, rebuilt, known)
}

// The same of one edge.
fn learn_edge<W: Ways>(
    alloc: Global,
    parts: &EditParts<'_, W>,
    edge: u32,
    rebuilt: &mut Rebuilt,
    known: &mut [Option<EdgeFunctions>],
) -> Result<(), NoMemory>
    requires edge { edge < length parts.now.before.edges }
    requires size { length rebuilt.old.kept ≡ 2 * length parts.now.before.edges }
    requires keeps { Keeps parts.now.before rebuilt.old }
    requires known { length known.old ≡ length parts.now.before.edges }
    ensures learns { Learns parts.now.before (λ (e : ℕ). e ≡ edge) known.old known.new }
    ensures known { OnOk result (HasFunctions known.new edge) }
    ensures size { length rebuilt.new.kept ≡ length rebuilt.old.kept }
    ensures keeps { Keeps parts.now.before rebuilt.new }
{
    if known[edge as usize].is_some() {
        return Ok(());
    }
    let up = parts.function_before(alloc, rebuilt, edge, Dir::Up)?;
    let down = parts.function_before(alloc, rebuilt, edge, Dir::Down)?;
    known[edge as usize] = Some(EdgeFunctions { up, down });
    Ok(())
}
