//! Unpacking: the roads that a shortcut stands for at a second, found with no memory but a list made once.
//!
//! [`Unpacker`] relaxes the shortcuts of whatever holds a hierarchy, as `Relaxer` of `cu_interval` says, and writes their
//! walks, each road as a form of `cu_drive` says: it is a [`Walker`]. In a built hierarchy its answers are those over all low walks (`specs/Answers.antt`). [`relax_counted`] is the
//! same over [`CountedWays`], which count the look-ups (`specs/Counts.antt`). [`Listed`] tells the calls of a relaxer.
//! [`Rebuilt`] has the function over the day of a shortcut in any hierarchy, built or not (`specs/Rebuilds.antt`).
//! [`PackedFunctions`] has the same as packed runs of `cu_runs`, as far as these can say it (`specs/RebuiltRuns.antt`).
//!
//! Two laws speak of the definitions alone: in a built hierarchy a walk visits no node twice ([`walks_visit_once`]), and a
//! rebuilt function is that of the least arrivals ([`rebuilt_is_least`]).
//!
//! It stands on `cu_model`, `cu_io`, `cu_drive`, `cu_arrival`, `cu_chordal`, `cu_interval` and, for packed runs, `cu_runs`.
//! `specs/Steps` is cited by private functions alone.
#![tactic(auto)]

mod counted;
mod laws;
mod listed;
mod missing;
mod packed_rebuilding;
mod packed_table;
mod rebuilding;
mod room;
mod shortcuts;
mod unpacker;
mod unpacking;
mod walker;
mod work;

pub use counted::{Counted, CountedWays};
pub use cu_interval::{Relaxed, Relaxer};
pub use laws::{rebuilt_is_least, walks_visit_once};
pub use listed::Listed;
pub use packed_rebuilding::PackedFunctions;
pub use rebuilding::Rebuilt;
pub use unpacker::Unpacker;
pub use unpacking::relax_counted;
pub use walker::Walker;
pub use work::Work;
