//! Whole days over a held file.

ghost use Rattle.std.specs.Prelude.{◌≡◌, ◌<◌, IfOk, IfSome};
ghost use Rattle.cu_edits.specs.Learned.{ArePackedOf};
ghost use Rattle.cu_interval.specs.Hierarchies.{HierarchyValue};
ghost use Rattle.cu_router.specs.Days.{IsHeldDay};
ghost use Rattle.cu_router.specs.Steps.Rooms.{FitsEdits, HasEditRoom};

use crate::edit_room::{EditRoom, fill_edit_room};
use crate::held_file::HeldFile;
use crate::learned_days::DayLearned;
use cu_arrival::Arrival;
use cu_day::{DayAsked, DayFunctions, led_day};
use cu_edits::Learned;
use cu_interval::{BoundedWays, Leg, Ways};
use cu_model::NoMemory;
use cu_unpack::{Unpacker, Work};
use std::alloc::Global;

/// The arrivals over a whole day between nodes below the number of nodes. None exactly where no chain of lists leads from the
/// one to the other; in a built hierarchy, where there is no walk. The functions that it learns are kept in the room for edits, which
/// is made if there is none; those of other days and edits are known. Where memory runs out, what was learned stays.
pub(crate) fn find_day(
    alloc: Global,
    held: &HeldFile,
    editing: &mut Option<EditRoom>,
    query: DayAsked,
) -> Result<Option<Arrival>, NoMemory>
    requires from { query.from < held.now.network.nodes }
    requires to { query.to < held.now.network.nodes }
    requires editing { FitsEdits held.now editing.old }
    ensures found { IfOk result (IsHeldDay held.now query) }
    ensures editing { FitsEdits held.now editing.new }
{
    fill_edit_room(alloc, held, editing)?;
    let Some(room) = editing else { unreachable!() };
    find_by(alloc, held, room, query)
}

// The same by the functions that are known in this room, if any are; those that it learns are known behind it.
fn find_by(
    alloc: Global,
    held: &HeldFile,
    room: &mut EditRoom,
    query: DayAsked,
) -> Result<Option<Arrival>, NoMemory>
    requires from { query.from < held.now.network.nodes }
    requires to { query.to < held.now.network.nodes }
    requires room { HasEditRoom held.now room.old }
    ensures found { IfOk result (IsHeldDay held.now query) }
    ensures room { HasEditRoom held.now room.new }
{
    let view = held.view();
    let learned = take_learned(alloc, &view, room.learned.take())?;
    let mut functions = DayLearned::new(alloc, &view, learned);
    let found = find_over(alloc, held, &view, &mut functions, query);
    room.learned = Some(functions.into_learned());
    found
}

// The same over these ways by these functions of theirs.
fn find_over<W: BoundedWays, F: DayFunctions>(
    alloc: Global,
    held: &HeldFile,
    ways: &W,
    functions: &mut F,
    query: DayAsked,
) -> Result<Option<Arrival>, NoMemory>
    requires ways { W.hierarchy ways.now ≡ held.now }
    requires functions { F.hierarchy functions.old ≡ W.hierarchy ways.now }
    requires from { query.from < held.now.network.nodes }
    requires to { query.to < held.now.network.nodes }
    ensures found { IfOk result (IsHeldDay held.now query) }
    ensures stays { F.hierarchy functions.new ≡ F.hierarchy functions.old }
{
    let from = ways.rank(query.from);
    let to = ways.rank(query.to);
    let (tree, graph) = (held.tree(), held.graph());
    let work = Work::new(alloc, graph.ranks())?;
    let unpacker = Unpacker::new(ways, work);
    led_day(alloc, tree, graph, functions, &unpacker, Leg { from, to })
}

// Functions that are known of these ways, if there are any, or none yet.
fn take_learned<W: Ways>(
    alloc: Global,
    ways: &W,
    known: Option<Learned>,
) -> Result<Learned, NoMemory>
    requires known { IfSome known (ArePackedOf (W.hierarchy ways.now)) }
    ensures learned { IfOk result (ArePackedOf (W.hierarchy ways.now)) }
{
    if let Some(learned) = known {
        return Ok(learned);
    }
    Learned::of(alloc, ways)
}
