//! The graph of a packed file: the edges of each rank are those of the roads and the order.

ghost use Rattle.std.specs.Prelude.{◌≡◌, IfOk, suc};
ghost use Rattle.cu_pack.specs.Checks.{FindsFirst, HasRoads, IsWrongRankUp};
ghost use Rattle.cu_pack.specs.Reading.{counts_in, order_in};

use crate::checked_roads::CheckedRoads;
use crate::cutting::Sections;
use cu_chordal::first_wrong;
use cu_model::{NoMemory, Order};
use std::alloc::Global;

/// The least rank whose edges upwards aren't those of the roads and the order; or the number behind the last, where edges
/// are left. Takes 4 bytes for each edge, and 16 for each node beside what the check itself takes.
pub fn wrong_part(alloc: Global, sections: &Sections<'_>) -> Result<Option<u32>, NoMemory>
    requires roads { HasRoads sections.now }
    ensures first { IfOk result
        (FindsFirst (IsWrongRankUp sections.now) (suc (counts_in sections.now).nodes)) }
{
    let order = read_order(alloc, sections)?;
    let starts = sections.edge_starts(alloc)?;
    let uppers = sections.uppers(alloc)?;
    let roads = CheckedRoads::of(sections);
    first_wrong(alloc, &roads, &order, &starts, &uppers)
}

// The order in memory.
fn read_order(alloc: Global, sections: &Sections<'_>) -> Result<Order, NoMemory>
    requires roads { HasRoads sections.now }
    ensures order { IfOk result (λ order. order ≡ order_in sections.now) }
{
    let nodes = sections.nodes_by_rank(alloc)?;
    Order::of(alloc, nodes)
}
