//! Texts of orders.

ghost use Rattle.std.specs.Prelude.{◌≤◌};

use cu_model::{MAX_NODES, Order};
use cu_order::{OrderRefusal, read_order, write_order};
use std::alloc::Global;

// Why a text is refused as an order of so many nodes, none where it isn't.
fn refusal_of(alloc: Global, text: &[u8], nodes: u32) -> Option<OrderRefusal>
    requires { nodes ≤ MAX_NODES }
{
    match read_order(alloc, text, nodes) {
        Ok(_) => None,
        Err(refusal) => Some(refusal),
    }
}

// Texts, of how many nodes they are the order, and why they are refused.
const ORDERS: [(&[u8], u32, Option<OrderRefusal>); 16] = [
    (b"1\n0\n2\n", 3, None),
    (b"0002\r\n\n\"1\"\n00", 3, None),
    (b"", 0, None),
    (b"\n\n", 0, None),
    (b"", 3, Some(OrderRefusal::Count { rows: 0 })),
    (b"1\n0\n", 3, Some(OrderRefusal::Count { rows: 2 })),
    (b"0\n0\n2\n", 3, Some(OrderRefusal::Twice { row: 1 })),
    (b"1\n2\n01\nx\n", 3, Some(OrderRefusal::Twice { row: 2 })),
    (b"3\n", 3, Some(OrderRefusal::Range { row: 0 })),
    (b"2\n4294967296\n", 3, Some(OrderRefusal::Range { row: 1 })),
    (
        b"100000000000000000000\n",
        3,
        Some(OrderRefusal::Range { row: 0 }),
    ),
    (b"0\n", 0, Some(OrderRefusal::Range { row: 0 })),
    (b"x\n", 3, Some(OrderRefusal::Number { row: 0 })),
    (b"0\n1,2\n", 3, Some(OrderRefusal::Number { row: 1 })),
    (b" 1\n", 3, Some(OrderRefusal::Number { row: 0 })),
    (b"1\n0\n2\n2\n", 3, Some(OrderRefusal::Twice { row: 3 })),
];

#[test]
fn refuses_rows(rt: HostRuntime) {
    for (text, nodes, refusal) in &ORDERS {
        if *nodes <= 3 {
            assert!(rt; refusal_of(rt.alloc(), *text, *nodes) == *refusal);
        }
    }
}

// Is an order written so?
fn is_written(alloc: Global, order: &Order, wanted: &[u8]) -> bool {
    match write_order(alloc, order) {
        Ok(text) => text.as_slice() == wanted,
        Err(_) => false,
    }
}

#[test]
fn reads_and_writes(rt: HostRuntime) -> Result<(), OrderRefusal> {
    let order = read_order(rt.alloc(), b"01\n0\n2".as_slice(), 3)?;
    assert!(rt; order.nodes() == 3 && is_written(rt.alloc(), &order, b"1\n0\n2\n"));
    Ok(())
}
