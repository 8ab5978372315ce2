//! Texts of day profiles: the table `profile,from,kind,value`, one row for each piece.
//!
//! Its promise to the crates above: [`read_profiles`] gives exactly the profiles that a text names, or the first check that
//! it fails (`profiles_of_text` in `specs/ProfileTexts.antt`), and what [`write_profiles`] writes is read back as the same.
//! It stands on `cu_model` and `cu_tables`. The checks of a row and what the reader keeps from row to row are its own; what
//! only they cite is in `specs/Steps`.
#![tactic(auto)]

mod progress;
mod reader;
mod refusals;
mod rows;
mod writer;

pub use reader::read_profiles;
pub use refusals::ProfileRefusal;
pub use rows::{MAX_ROWS, RowNumbers, may_follow, piece_of, row_numbers};
pub use writer::write_profiles;
