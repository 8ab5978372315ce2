//! Reading an order from a text.

ghost use Rattle.std.specs.Prelude.{◌≡◌, ◌≤◌, [], IfErr, IfOk, Ok, Some, length};
ghost use Rattle.cu_model.specs.declared.limits.TheConstants.{MAX_NODES};
ghost use Rattle.cu_model.specs.Orders.{IsOrder, ListsEachNodeOnce};
ghost use Rattle.cu_tables.specs.Checks.{Adds, Gives, IsRefused};
ghost use Rattle.cu_order.specs.OrderTexts.{node_fault, node_of_row, order_of};
ghost use Rattle.cu_order.specs.Steps.Listed.{IsListed};
ghost use Rattle.cu_order.specs.declared.refusals.OrderRefusal.TheVariants as refusal;

use crate::refusals::OrderRefusal;
use crate::rows::check_row;
use csv::ByteRecord;
use cu_model::{NoMemory, Order};
use cu_tables::{TakesRows, each_row};
use std::alloc::Global;

// The nodes of the rows so far, and a flag for each node that tells whether it is one of them.
#[derive(Drop)]
struct ListedNodes {
    nodes: Vec<u32>,
    seen: Vec<bool>,
    ghost limit: { length seen.items ≤ MAX_NODES },
    ghost listed: { IsListed seen.items nodes.items },
}

impl ListedNodes {
    // No rows yet, of a text for so many nodes.
    fn new(alloc: Global, nodes: u32) -> Result<ListedNodes, NoMemory>
        requires { nodes ≤ MAX_NODES }
        ensures none { IfOk result (λ rows. rows.nodes.items ≡ []) }
        ensures count { IfOk result (λ rows. length rows.seen.items ≡ nodes) }
    {
        let seen = vec![in alloc; false; nodes as usize]?;
        Ok(ListedNodes {
            nodes: Vec::new(alloc),
            seen,
        })
    }
}

impl TakesRows for ListedNodes {
    type Refusal = OrderRefusal;

    ghost takes = { λ s row t. (length t.seen.items ≡ length s.seen.items)
        × Adds (node_fault (length s.seen.items) s.nodes.items row) (node_of_row row)
        s.nodes.items t.nodes.items };

    ghost refuses = { λ s row why t. (node_fault (length s.seen.items) s.nodes.items row ≡ Some why)
        × (t ≡ s) };

    fn take_row(
        &mut self,
        _alloc: Global,
        row: &ByteRecord,
    ) -> Result<Result<(), OrderRefusal>, NoMemory> {
        let node = match check_row(row, self.nodes.len() as u32, &self.seen) {
            Ok(node) => node,
            Err(refusal) => return Ok(Err(refusal)),
        };
        self.nodes.push(node)?;
        self.seen[node as usize] = true;
        Ok(Ok(()))
    }
}

// The node at each rank.
fn read_nodes(alloc: Global, text: &[u8], nodes: u32) -> Result<Vec<u32>, OrderRefusal>
    requires { nodes ≤ MAX_NODES }
    ensures nodes { IfOk result (λ list. order_of nodes text.now ≡ Ok list.items) }
    ensures count { IfOk result (λ list. length list.items ≡ nodes) }
    ensures once { IfOk result (λ list. ListsEachNodeOnce list.items) }
    ensures refused { IfErr result (IsRefused refusal.NoMemory (order_of nodes text.now)) }
{
    let mut rows = ListedNodes::new(alloc, nodes)?;
    each_row(alloc, text, &mut rows)??;
    let count = rows.nodes.len() as u32;
    if count < nodes {
        return Err(OrderRefusal::Count { rows: count });
    }
    Ok(rows.nodes)
}

/// Reads the order of so many nodes, at most 262,144, from a text that has one node number a row and no header: row r
/// names the node of rank r.
///
/// The first row that fails a check is refused; the checks of a row are, in this order, `Number`, `Range`, `Twice`. `Count`
/// is answered exactly where each row passes and there are fewer rows than nodes. A number word is one or more ASCII
/// digits, with any leading zeros and of any length. No rows are the whole order of no nodes. `NoMemory` may come instead
/// of any answer, also where csv answers an error.
pub fn read_order(alloc: Global, bytes: &[u8], nodes: u32) -> Result<Order, OrderRefusal>
    requires { nodes ≤ MAX_NODES }
    ensures order { Gives refusal.NoMemory (λ order. order.node_at)
        (order_of nodes bytes.now) result }
    ensures count { IfOk result (λ order. length order.node_at ≡ nodes) }
    ensures sound { IfOk result (λ order. IsOrder order) }
{
    let list = read_nodes(alloc, bytes, nodes)?;
    let order = Order::of(alloc, list)?;
    Ok(order)
}
