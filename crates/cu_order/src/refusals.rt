ghost use Rattle.std.specs.Prelude.{◌≡◌};
ghost use Rattle.cu_order.specs.declared.refusals.OrderRefusal.TheVariants as refusal;

use cu_model::NoMemory;
use thiserror::Error;

/// Why a text isn't an order of the nodes. Rows are numbered from 0.
#[derive(Clone, Copy, Debug, PartialEq, Eq, Error)]
pub enum OrderRefusal {
    /// A row that isn't one field that is a number word.
    #[error("row {row} isn't one number")]
    Number { row: u32 },
    /// A row whose number isn't below the number of nodes.
    #[error("row {row} is no node")]
    Range { row: u32 },
    /// A row whose node a row before it has.
    #[error("row {row} has the node of a row before it")]
    Twice { row: u32 },
    /// Each row passes its checks, but there are only this many rows, fewer than nodes.
    #[error("only {rows} rows, fewer than nodes")]
    Count { rows: u32 },
    /// Memory ran out. Nothing is known of the text.
    #[error("out of memory")]
    NoMemory,
}

impl From<NoMemory> for OrderRefusal {
    ghost from_gives = { λ _ e. e ≡ refusal.NoMemory };

    fn from(_error: NoMemory) -> OrderRefusal {
        OrderRefusal::NoMemory
    }
}
