//! Functions of the seconds of a day as brief runs, four bytes each.
//!
//! A brief run has its first second, its kind, and by how many seconds, below 16,384, it takes longer than the base of its
//! function when it leaves at that second. [`encode`] turns packed runs into them where they fit, and says where they don't;
//! [`value_at`] answers when they arrive, and [`in_force_at`] by which run, and until when. None takes memory.
#![tactic(auto)]

mod encoding;
mod in_force;
mod searching;

pub use encoding::{brief_of, encode};
pub use in_force::{Brief, RunInForce, in_force_at};
pub use searching::value_at;
