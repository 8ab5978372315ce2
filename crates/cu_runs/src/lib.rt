//! Functions of the seconds of a day as packed runs, eight bytes each: their composition, their least, and how long they
//! take.
//!
//! Its promise to the crates above: at each second of the day a composition ([`link`]) is what both functions say one
//! after the other, and what is merged ([`Merger`], [`PartMerger`]) is the least of the candidates, with the lowest
//! number of those that have it, exactly. [`DayFunction`] keeps a function with its least and its greatest travel time
//! over the day and maybe over each of some windows of it ([`Windows`]), so that candidates can be left out that are
//! never the least, over the whole day or in some windows; [`LayeredFunctions`] hands out functions by list number,
//! newer ones in the place of older ones. [`put_road`] writes the function of a road.
//!
//! It stands on `cu_model`, for roads, and on `cu_arrival`, for what a run says. How runs are packed, linked and merged
//! is private; what only that cites is in `specs/Steps`.
#![tactic(auto)]

mod choosing_windows;
mod compacting;
mod day_function;
mod layered_functions;
mod linking;
mod merger;
mod merging;
mod packed_runs;
mod roads;
mod windows;

pub use compacting::push_run;
pub use day_function::DayFunction;
pub use layered_functions::{LayeredFunctions, PlacedFunctions};
pub use linking::link;
pub use merger::Merger;
pub use merging::{PartMerger, WayRun};
pub use packed_runs::{MAX_NUMBER, PackedRun, function_of_run, least_travel, most_travel, staying};
pub use roads::put_road;
pub use windows::{Limits, NO_LIMIT, WINDOWS, Windows, fill};
