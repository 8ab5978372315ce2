//! Shortcuts of a hierarchy: which way each takes from which second of the day on.
//!
//! [`Ways`] is whatever stands for a hierarchy: a network, an order, the chordal graph of both and two way lists for each
//! edge. It promises that these are one, with ways that are well formed (`IsHierarchy` in `specs/Hierarchies.antt`), and
//! that each look-up is that of the edges and lists: a [`WayList`] answers the way in force at a second
//! (`specs/WayLists.antt`). [`Hierarchy`] is one in memory; it is built where each list is the maximal runs of the first
//! ways over a day (`IsBuilt`).
//!
//! A [`Shortcut`] is an edge in a direction, a [`Leg`] the ranks that it leads from and to; [`halves`] and [`find_halves`] are
//! the edges of its halves at a middle (`specs/Shortcuts.antt`).
//!
//! The least bound of a list is what no travel over it falls below (`specs/LeastBounds.antt`): [`BoundedWays`] knows those of a
//! hierarchy, and `relaxed_takes` in `proofs/BoundLaws.antt` is that no answer of a relaxation falls below its list's.
//!
//! [`EdgeArcs`] promises the roads of each edge in each direction, and that they are few (`specs/EdgeArcs.antt`).
//! [`Relaxer`] is whatever asks a shortcut at a second: it promises the drive of the unpacked walk, where that has fewer
//! roads than there are nodes (`specs/Unpacking.antt`).
//!
//! `specs/FirstWays.antt` says what a first way is, by walks alone. `proofs` has what crates above cite: in a built hierarchy
//! the unpacked walk arrives first of all low walks (`built_least`), visits no rank twice (`built_simple`) and has fewer roads
//! than there are nodes (`built_short`); way lists have one spelling (`same_list`, `runs_unique`).
//!
//! It stands on `cu_model`, for networks and orders, and on `cu_chordal`, for the edges and for groups of roads. How a list of
//! one entry is kept and how the roads of an edge are found are private; `specs/Steps` is cited by private functions alone.
#![tactic(auto)]

mod edge_arcs;
mod hierarchy;
mod relaxing;
mod shortcuts;
mod ways;

pub use edge_arcs::EdgeArcs;
pub use hierarchy::{BoundedWays, Hierarchy, Ways};
pub use relaxing::{Call, Relaxed, Relaxer};
pub use shortcuts::{Leg, Shortcut, find_halves, halves, leg_of};
pub use ways::{Dir, Entry, TouchedEdge, Way, WayList};
