//! Edit lines of a script: the checks of a line, and the edit that it makes.
//!
//! [`check_edit`] accepts exactly the lines that make an edit, and refuses each other line for the first check that it fails;
//! [`EditLine::take`] gives the edit (`edit_of` in `specs/EditLines.antt`).
//!
//! It stands on `cu_model`, `cu_tables` (how numbers are kept) and `cu_profile` (which words make a piece), and knows no
//! hierarchies. Private is how a line's fields and pieces are read in turn; `specs/Steps` is cited by private functions alone.
#![tactic(auto)]

mod lines;

pub use lines::{EditLine, EditRefusal, MAX_EDIT_LINE, check_edit};
