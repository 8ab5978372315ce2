//! Road sequences: lists whose walk has the same roads at every second.
//!
//! A list whose only entry is a road is one, and so is one whose only entry has two halves that are: it has the roads of both, one
//! behind the other ([`sequences_join`], `specs/Sequences.antt`). [`Sequences`] keeps the roads of such lists by the number of the
//! list, up to 32 each, as long as there is room (`specs/Kept.antt`): whoever writes a walk need not part these lists. They are made
//! list by list ([`Sequences::make`]), in any order, but those of halves first, and after some lists were replaced those of these are
//! forgotten ([`Sequences::forget`]) and made again.
//!
//! It stands on `cu_model` and `cu_chordal`, on `cu_interval`, for hierarchies and what they unpack to, and on `cu_bounds`, for
//! finders of halves. `specs/Steps` is cited by private functions alone.
#![tactic(auto)]

mod laws;
mod making;
mod putting;
mod sequences;

pub use laws::sequences_join;
pub use sequences::{NO_START, Sequences};
