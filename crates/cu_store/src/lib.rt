//! Functions of lists of ways, kept in four bytes a run.
//!
//! A [`Store`] has a [`Row`] for each list, up to the last of which something is known, and one pool for the runs of all. The room
//! for both is taken when it is made, and used only as something is put, so that a store that knows nothing costs nothing. It says
//! nothing that wasn't put into it; `specs/Known.antt` says when what it knows is so of a hierarchy.
#![tactic(auto)]

mod rows;
mod store;

pub use rows::Row;
pub use store::{Found, Store};
