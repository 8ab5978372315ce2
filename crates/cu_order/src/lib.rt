//! Order texts: which node has which rank, one node number a row.
//!
//! Its promise to the crates above: [`read_order`] gives exactly the order that a text names, or the first check that it
//! fails (`order_of` in `specs/OrderTexts.antt`), and what [`write_order`] writes is read back as the same. It stands on
//! `cu_model` and `cu_tables`. The checks of a row and what the reader keeps from row to row are its own; what only they cite
//! is in `specs/Steps`.
#![tactic(auto)]

mod reader;
mod refusals;
mod rows;
mod writer;

pub use reader::read_order;
pub use refusals::OrderRefusal;
pub use writer::write_order;
