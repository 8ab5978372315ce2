//! The chordal supergraph of a road network under an order, and groups of values by key.
//!
//! [`close`] promises that the edges of the graph that it makes are exactly the pairs of ranks that are joined by a path
//! of roads whose inner nodes rank below both (`IsClosureOf` in `specs/Edges.antt`), and that it refuses exactly the
//! graphs of more than [`MAX_EDGES`] edges. That list of edges is one alone: `closure_unique` in `proofs/Unique.antt`.
//! The look-ups of [`Chordal`] are those of its list of edges (`specs/Graphs.antt`), and [`Groups`] holds of each key
//! the values with that key (`specs/Groups.antt`).
//!
//! A graph that stands in two lists, where each rank's part starts and the parts (`specs/Lists.antt`), is adopted
//! without a copy by [`Chordal::of_lists`]. [`first_wrong`] finds the least rank whose part isn't that of the chordal
//! supergraph (`specs/WrongParts.antt`); where it finds none, the lists may be adopted and are that graph: `adopted` in
//! `proofs/Claims.antt`.
//!
//! It stands on `cu_model`: the roads of any network, and orders of their nodes. Private are the flat arrays that edges
//! and groups lie in, and the steps of the closure and of the check; `specs/Steps` is cited by private functions alone.
#![tactic(auto)]

mod checking;
mod closure;
mod graph;
mod groups;
mod lists;
mod table;

pub use checking::first_wrong;
pub use closure::{CloseRefusal, close};
pub use graph::{Chordal, Ends, MAX_EDGES};
pub use groups::Groups;
