//! Measured profiles: points of a day with a travel time each, which say when a road arrives and need not keep order; and
//! waiting, by which whoever meets such a road arrives earliest.
//!
//! Its promise to the crates above: [`read_measured`] gives exactly the measured profiles that a text names, each in the
//! pieces that stand for it, or the first check that the text fails (`measured_of_text` in `specs/MeasuredTexts.antt`); and a
//! network in such pieces answers as the measured one does over all walks and all waits ([`waiting_is_converted`]).
//! [`left_second`] says when one leaves who waits as little as serves, of which there is exactly one second
//! ([`left_is_one`]), and [`WithLeft`] writes the roads of a drive with it: a least arrival told so is told with waits by
//! which it is reached ([`waits_serve`], [`kept_points_tell`]). It stands on `cu_model`, `cu_io`, `cu_drive`, `cu_tables`,
//! `cu_profile` and `cu_forms`. How the least arrivals of a day are found, leg by leg, is
//! its own; what only its functions cite of that is in `specs/Steps`.
#![tactic(auto)]

mod checks;
mod converting;
mod hull;
mod laws;
mod left;
mod legs;
mod listing;
mod measured;
mod points;
mod progress;
mod reader;
mod refusals;
mod rows;
mod stretches;

pub use laws::{kept_points_tell, left_is_one, waiting_is_converted, waits_serve};
pub use left::left_second;
pub use measured::{MeasuredProfile, WithLeft};
pub use points::{Mode, Point};
pub use reader::{ReadProfiles, read_measured, read_measured_telling, read_with_points};
pub use refusals::MeasuredRefusal;
pub use rows::MAX_MEASURED;
