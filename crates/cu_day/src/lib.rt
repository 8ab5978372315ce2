//! Whole days: the arrival function over all seconds of the day from one rank to another, by two sweeps over functions.
//!
//! [`day`] promises, over any hierarchy, that its function gives at each second of the day the least that a day chain gives
//! from it, and that there is none exactly where there is no day chain (`specs/DayChains.antt`): sweep arcs of the one rank
//! taken upwards and then of the other taken downwards, each by its rebuilt function. Over a built hierarchy these are the
//! least arrivals over all walks (`specs/DayAnswers.antt`). It asks whatever has the functions ([`DayFunctions`]) for sweep arcs
//! alone, each at most once a sweep (`specs/DayCalls.antt`); [`DayRebuilt`] rebuilds them from the ways.
//!
//! [`led_day`] promises the same of its function, where the least bounds of lists are known, and asks for those arcs alone that may
//! be in time for the end at some second of the day. What is left out at a second couldn't be in time, or no earlier than what
//! stands, so the labels that are in time are those of all arcs (`specs/Steps/InTime.antt`). It too asks for sweep arcs alone: along
//! the chain that is driven first, and then of each sweep in its order (`specs/DayCalls.antt`).
//!
//! [`write_day`] writes such a function by its day form, of which there is one. [`check_day`] reads the line that asks for a day
//! (`specs/DayLines.antt`).
//!
//! It stands on `cu_model`, `cu_io`, `cu_forms`, `cu_arrival`, `cu_chordal`, `cu_elimtree`, `cu_interval` and `cu_unpack`, and on
//! `cu_sweep` for what is at least still to go, and for what its proofs say of walks between ranks. `specs/Steps` is cited by private functions alone.
#![tactic(auto)]

mod days;
mod driving;
mod functions;
mod leading;
mod lines;
mod rebuilding;
mod timing;
mod writing;

pub use days::day;
pub use functions::DayFunctions;
pub use leading::led_day;
pub use lines::{DayAsked, DayRefusal, check_day};
pub use rebuilding::DayRebuilt;
pub use writing::write_day;
