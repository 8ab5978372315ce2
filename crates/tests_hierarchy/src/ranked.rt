//! Networks whose nodes are ordered.

ghost use Rattle.std.specs.Prelude.{◌≡◌, IfOk, length};

use cu_model::{Network, Order, Roads};
use cu_samples::{Tables, network, order};
use std::alloc::Global;
use std::test::Fail;

/// A network, and an order of its nodes.
#[derive(Drop)]
pub(crate) struct Ranked {
    pub(crate) network: Network,
    pub(crate) order: Order,
}

impl Ranked {
    /// The network and the order of these tables.
    pub(crate) fn of(alloc: Global, tables: Tables<'_>) -> Result<Ranked, Fail>
        ensures same { IfOk result
            (λ ranked. length ranked.order.node_at ≡ ranked.network.nodes) }
    {
        let network = network(alloc, tables)?;
        let order = order(alloc, tables, network.nodes())?;
        Ok(Ranked { network, order })
    }
}
