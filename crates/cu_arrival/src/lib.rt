//! Arrival functions over a day: the arrival of a road or shortcut at every departure, their composition and minimum.
//!
//! Its promise to the crates above: the function of a road that isn't closed has the road's arrival at every second;
//! composition and minimum are right at each second of the day, and so is how far one function is behind another; and every
//! function that it hands out arrives no earlier than it leaves, lets no later departure arrive earlier and is each day as on the
//! one before. It stands on `cu_model`, for roads and for what repeats by whole days. How the runs of a function are kept is
//! private, and so are the stretches of seconds that these step through; what only these cite is in `specs/Steps`.
#![tactic(auto)]

mod composition;
mod growing;
mod minimum;
mod packing;
mod runs;
mod slack;
mod stretches;

pub use composition::compose;
pub use minimum::{least, lesser};
pub use runs::{Arrival, Choice, Run, RunRule, Stretch};
pub use slack::slack_of;
