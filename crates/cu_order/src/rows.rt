//! The checks of one row.

ghost use Rattle.std.specs.Prelude.{◌≡◌, ◌<◌, ◌≤◌, ℕ, List, IfOk, false, length, slice_index_or};
ghost use Rattle.csv.specs.Records.{fields_of};
ghost use Rattle.cu_model.specs.declared.limits.TheConstants.{MAX_NODES};
ghost use Rattle.cu_tables.specs.Checks.{Checked};
ghost use Rattle.cu_order.specs.OrderTexts.{node_fault, node_of_row};
ghost use Rattle.cu_order.specs.Steps.Listed.{IsListed, number_of_row};

use crate::refusals::OrderRefusal;
use csv::ByteRecord;
use cu_tables::number_at;

/// The node of the row with this number, or the first check that the row fails. The flags tell the nodes of the rows before
/// it.
pub(crate) fn check_row(row: &ByteRecord, number: u32, seen: &[bool]) -> Result<u32, OrderRefusal>
    requires { length seen.now ≤ MAX_NODES }
    ensures checked { (before : List ℕ) → IsListed seen.now before → number ≡ length before
        → Checked (node_fault (length seen.now) before (fields_of row.now))
        (node_of_row (fields_of row.now)) result }
    ensures range { IfOk result (λ node. node < length seen.now) }
    ensures unseen { IfOk result (λ node. slice_index_or seen.now node false ≡ false) }
{
    let Some(node) = number_of_row(row) else {
        return Err(OrderRefusal::Number { row: number });
    };
    if node as usize >= seen.len() {
        return Err(OrderRefusal::Range { row: number });
    }
    if seen[node as usize] {
        return Err(OrderRefusal::Twice { row: number });
    }
    Ok(node)
}

// The number of a row, none where the row isn't one number word.
fn number_of_row(row: &ByteRecord) -> Option<u32>
    ensures { result ≡ number_of_row (fields_of row.now) }
{
    if row.len() != 1 {
        return None;
    }
    number_at(row, 0)
}
