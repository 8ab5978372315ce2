//! Hierarchies none of whose walks is too long: no list unpacks, at any second, to a walk of as many roads as there are nodes.
//!
//! [`RoadCounts`] tells it by sums of roads: the most that a list may have are those of its halves together, whichever ways are
//! taken (`specs/Shortness.antt`). Where each list has fewer than there are nodes, no relaxation is answered by a walk that is too
//! long (`NeverLong`). [`RoadCounts::of`] goes over all entries once, by rising number of list: the halves of a middle are lists of
//! lower numbers, so their roads are counted already, and any finder of halves by rising edge will do. The counts are kept
//! (`specs/Counts.antt`): after some lists were replaced, [`RoadCounts::renew`] goes over the entries of these alone.
//!
//! It stands on `cu_model`, on `cu_chordal`, for the ends of edges, on `cu_interval`, for hierarchies and what they unpack to, and
//! on `cu_bounds`, for finders of halves. `specs/Steps` is cited by private functions alone.
#![tactic(auto)]

mod counting;
mod list_roads;
mod renewing;
mod road_counts;

pub use road_counts::RoadCounts;
