//! Customization of a contraction hierarchy: the ways of every shortcut of a road network under an order.
//!
//! [`customize`] promises that the hierarchy that it makes is the built one (`IsBuilt` of `cu_interval`): each list
//! has the maximal runs, over the seconds of a day, of the first way that arrives earliest. It settles list after
//! list, by rising lower rank: the lower triangles of all edges up from a rank are found at once; the roads of a list
//! and the middles of its triangles are gathered in a merger, but middles where some candidate is known to be earlier:
//! at each second of the day, or in some windows of it, by what functions take there at least and at most; and from the
//! merger the list and its function are pulled. The functions of an edge go once all edges up from its higher end are
//! settled: no later list takes a half from them.
//!
//! [`settle`] makes one list from whatever functions it is handed ([`Functions`]): its clauses say the list and its
//! value by these functions (`specs/Settling.antt`), and that it is the built one where they are those of a network
//! and order (`specs/Functions.antt`). [`PackedSettling`] makes the same list as customization makes it, from packed
//! runs that are kept by list number (`LayeredFunctions` of `cu_runs`), as long as these can say how long its ways take. It
//! finds the lower triangles of an edge once for both its lists (`specs/Triangles.antt`), and hands them out.
//!
//! [`customize_telling`] is the same, and tells how much is settled as it goes.
//!
//! It stands on `cu_interval` and `cu_chordal`, for hierarchies, on `cu_runs`, for functions as packed runs, and on
//! `cu_arrival`, for what a run says and for functions that packed runs can't say. How lists are stepped through is
//! private; what only that cites is in `specs/Steps`.
#![tactic(auto)]

mod by_middles;
mod choosing;
mod customizing;
mod dropping;
mod functions;
mod gathering;
mod packed_settling;
mod pulling;
mod settling;
mod task;
mod triangles;

pub use customizing::{built_lists, built_lists_telling, customize, customize_telling};
pub use functions::Functions;
pub use packed_settling::PackedSettling;
pub use pulling::SettledRuns;
pub use settling::{Settled, settle};
pub use triangles::Triangle;
