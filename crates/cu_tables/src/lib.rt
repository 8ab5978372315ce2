//! Table texts: the rows that csv finds in a text, going through them in turn, and writing rows.
//!
//! Its promise to the crates above: a taker is handed exactly the rows of the text, until it refuses one
//! (`specs/Taking.antt`), and what a [`RowWriter`] wrote is read back. What a reader answers of its checks, whatever its
//! refusals are, is said once in `specs/Checks.antt`. It stands on `cu_model`, and on the crate `csv`, of whose reader and
//! writer nothing is seen above. How far csv's reader and writer have come is its own; what only its functions cite of that is
//! in `specs/Steps`.
#![tactic(auto)]

mod fields;
mod laws;
mod rows;
mod writing;

pub use fields::{field, number_at};
pub use laws::reads_back;
pub use rows::{TakesRows, each_row, each_row_below, each_row_below_telling};
pub use writing::RowWriter;
