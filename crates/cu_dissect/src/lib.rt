//! Orders of a network's nodes by nested dissection (George: "Nested dissection of a regular finite element mesh", 1973).
//!
//! [`dissect`] promises the order and the splits of `dissected` in `specs/Dissection.antt`, which follow from the places and
//! the roads alone; that no road joins the two sides of a split; and that in the chordal supergraph under this order no rank
//! of one side is an ancestor of one of the other (`specs/Apart.antt`).
//!
//! It stands on `cu_model` for networks and orders, on `cu_roads` for places, on `cu_chordal` for flat groups and what a
//! chordal graph is, and on `cu_elimtree` for what ancestors are. Private is how a part is halved and what is kept on the way;
//! `specs/Steps` is cited by private functions alone.
#![tactic(auto)]

mod dissecting;
mod halving;
mod splits;
mod splitting;

pub use dissecting::{dissect, dissect_telling};
pub use splits::Split;
