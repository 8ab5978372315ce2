//! Filling a store with the functions of lists, list by list, each by the functions of its halves.
//!
//! [`make_list`] makes that of one list, along its own entries, from what is known of its halves, and keeps what is known so in the
//! hierarchy. A list whose halves have no function that is known, where a later departure would arrive earlier, or for which there
//! is no room, is left out: so lists are best made by rising number. [`add_linked`] links both halves' functions in the stretch of
//! an entry, straight from the runs that the store keeps, so that the work is by the runs of what comes of it.
//!
//! `specs/Filling.antt` says what a way of a list drives; `proofs/ListDrives.antt` has the laws that it rests on: where no walk
//! is too long relaxing a list arrives as its way in force does, by a middle as the second half does from when the first one
//! arrives, and a day later a day later.
#![tactic(auto)]

mod linking;
mod making;
mod stretches;

pub use linking::add_linked;
pub use making::{Made, Scratch, make_list};
pub use stretches::{add_runs, is_function};
