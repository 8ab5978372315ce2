//! The least bounds of all lists of a hierarchy: the seconds below which no travel over a list falls.
//!
//! [`least_bounds`] promises those of each list, by its number (`bounds_of` in `specs/KeptBounds.antt`), and
//! [`first_wrong_bound`] the first list for which something else is kept (`FindsFirstWrong`). What keeps them is any
//! [`KeptBounds`]. Both go over all entries once, by rising number of list: the halves of a middle are lists of lower
//! numbers, so their bounds are kept already, and a road's bound is the least travel of its profile by its pieces.
//! [`first_wrong_bound_by`] asks any [`Halving`] for the halves, which may use that the edges rise.
//! [`renew_bounds`] goes over the entries of replaced lists alone, where all others have their bounds already, which
//! [`copy_bounds`] reads from ways that know them. [`NearBounds`] has those of a hierarchy in memory, in 8 bytes an edge
//! (`specs/Near.antt`).
//!
//! It stands on `cu_model`, for profiles, on `cu_chordal`, for the ends of edges, and on `cu_interval`, for hierarchies
//! and for what a least bound is (`specs/LeastBounds.antt`). `specs/Steps` is cited by private functions alone.
#![tactic(auto)]

mod finding;
mod halving;
mod kept;
mod list_bounds;
mod near_bounds;
mod renewing;
mod travels;

pub use finding::{first_wrong_bound, first_wrong_bound_by, least_bounds};
pub use halving::{Halving, Searching};
pub use kept::KeptBounds;
pub use near_bounds::NearBounds;
pub use renewing::{copy_bounds, renew_bounds};
