//! The day form of a function: the pieces that say its value at each second of a day, found stretch by stretch, and then
//! written as a line of text.
//!
//! Its promise to the crates above: what [`write_day`] writes is the day form of the function (`IsDayForm` in `cu_model`),
//! of which there is one. Its functions are given by [`DayValues`], whose stretches spare the
//! seconds between them. It stands on `cu_model` and `cu_io`.
#![tactic(auto)]

mod finding;
mod values;
mod writing;

pub use values::{DayRule, DayValues, Stretch};
pub use writing::write_day;
