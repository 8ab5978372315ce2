//! The elimination tree of a chordal graph: the parent of a rank is the lowest of its higher neighbours.
//!
//! [`Tree::of`] promises that the parents are those of the graph, and that a rank's ancestors hold all higher neighbours
//! of the rank and of each ancestor (`specs/Trees.antt`). So a sweep over the ancestors of a rank meets every edge that
//! leads upwards from them; `specs/SweepArcs.antt` says which edges those are.
//!
//! It stands on `cu_chordal`, whose graph it reads, and on `cu_model`. Private is how the parents are kept.
#![tactic(auto)]

mod tree;

pub use tree::{Ancestors, Tree};
