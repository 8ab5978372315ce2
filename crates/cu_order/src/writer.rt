//! Writing an order as a text.

ghost use Rattle.std.specs.Prelude.{◌≡◌, Ok, IfOk, OnOk, length, map};
ghost use Rattle.csv.proofs.RoundTrip.{rows_text};
ghost use Rattle.cu_order.specs.OrderTexts.{order_of};
ghost use Rattle.cu_order.specs.Written.{node_row};
ghost use Rattle.cu_tables.specs.WrittenTexts.{AddsRow, MayFollow};

use cu_model::{NoMemory, Order};
use cu_tables::RowWriter;
use itoa::Buffer;
use std::alloc::Global;

/// Writes an order as the text that `read_order` reads as this order: the node of each rank in turn, in plain decimals,
/// each ended by LF.
pub fn write_order(alloc: Global, order: &Order) -> Result<Vec<u8>, NoMemory>
    ensures text { IfOk result (λ text. text.items ≡ rows_text (map node_row order.now.node_at)) }
    ensures again { IfOk result (λ text. order_of (length order.now.node_at) text.items
        ≡ Ok order.now.node_at) }
{
    let mut writer = RowWriter::new(alloc);
    for rank in 0..order.nodes() {
        write_node(&mut writer, order.node(rank))?;
    }
    writer.finish()
}

fn write_node(writer: &mut RowWriter, node: u32) -> Result<(), NoMemory>
    requires { MayFollow writer.old 1 }
    ensures { OnOk result (AddsRow writer.old writer.new (node_row node)) }
{
    let mut word = Buffer::new();
    writer.write_row(&[word.format(node).as_bytes()])
}
