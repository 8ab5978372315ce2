//! Networks, orders, hierarchies and packed files of tables.

ghost use Rattle.std.specs.Prelude.{◌≡◌, ◌≤◌, IfOk, length};
ghost use Rattle.cu_model.specs.declared.limits.TheConstants.{MAX_NODES};
ghost use Rattle.cu_interval.specs.Hierarchies.{HierarchyValue, IsBuilt};
ghost use Rattle.cu_pack.specs.Checks.{Spells};

use crate::tables::Tables;
use cu_chordal::{CloseRefusal, close};
use cu_customize::customize;
use cu_interval::Hierarchy;
use cu_model::{Network, NoMemory, Order, Roads};
use cu_order::{OrderRefusal, read_order};
use cu_pack::pack;
use cu_roads::{RoadRefusal, read_network};
use std::alloc::Global;
use thiserror::Error;

/// A sample isn't made: its tables are refused, or memory ran out.
#[derive(Clone, Copy, Debug, PartialEq, Eq, Error)]
#[error("a sample isn't made")]
pub struct NotMade;

impl From<NoMemory> for NotMade {
    fn from(_error: NoMemory) -> NotMade {
        NotMade
    }
}

impl From<RoadRefusal> for NotMade {
    fn from(_refusal: RoadRefusal) -> NotMade {
        NotMade
    }
}

impl From<OrderRefusal> for NotMade {
    fn from(_refusal: OrderRefusal) -> NotMade {
        NotMade
    }
}

impl From<CloseRefusal> for NotMade {
    fn from(_refusal: CloseRefusal) -> NotMade {
        NotMade
    }
}

/// The network of these tables.
pub fn network(alloc: Global, tables: Tables<'_>) -> Result<Network, NotMade> {
    let (network, _places) = read_network(alloc, tables.nodes, tables.roads, tables.profiles)?;
    Ok(network)
}

/// The order of so many nodes, at most 262,144, that these tables name.
pub fn order(alloc: Global, tables: Tables<'_>, nodes: u32) -> Result<Order, NotMade>
    requires { nodes ≤ MAX_NODES }
    ensures { IfOk result (λ order. length order.node_at ≡ nodes) }
{
    Ok(read_order(alloc, tables.ranks, nodes)?)
}

/// The built hierarchy of these tables.
pub fn hierarchy(alloc: Global, tables: Tables<'_>) -> Result<Hierarchy, NotMade>
    ensures { IfOk result IsBuilt }
{
    let network = network(alloc, tables)?;
    let order = order(alloc, tables, network.nodes())?;
    let graph = close(alloc, &network, &order)?;
    Ok(customize(alloc, network, order, graph)?)
}

/// The packed file of their built hierarchy.
pub fn packed(alloc: Global, tables: Tables<'_>) -> Result<Vec<u8>, NotMade>
    ensures spelled { IfOk result (λ bytes. (h : HierarchyValue) × Spells bytes.items h) }
    ensures built { IfOk result
        (λ bytes. (h : HierarchyValue) → Spells bytes.items h → IsBuilt h) }
{
    let hierarchy = hierarchy(alloc, tables)?;
    Ok(pack(alloc, &hierarchy)?)
}
