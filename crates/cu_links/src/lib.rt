//! Structures linked by index, in arrays that are made once.
//!
//! [`Chain`] holds a link into each of its places, and turns the chain that leads to one of them in its place. It promises
//! that what is followed from the chain's first place on are the places and labels of the chain as it was, in order, to
//! its last place (`specs/Chains.antt`), and that nothing is linked once it was cleared, in the time of the places that
//! were.
//!
//! [`RankBuckets`] holds edges by rank, and takes them out from the lowest rank on. It promises that an edge that comes out
//! is one that is held at the lowest rank of all, that each comes out once, and that none is left when none comes out
//! (`specs/Buckets.antt`).
//!
//! It stands on `cu_model`, for want of memory, and knows no roads and no hierarchies. Which places were linked, and which
//! edge is held behind which, is private; `specs/Steps` is cited by private functions alone.
#![tactic(auto)]

mod buckets;
mod chain;

pub use buckets::{EdgeState, RankBuckets};
pub use chain::Chain;
