//! How far long work is. Whoever does it tells a [`Progress`] its stages and how much of each is done; that changes nothing of
//! what the work answers, since nothing is read back.
//!
//! [`Shown`] shows it on standard error. [`Telling`] tells at most once for each thousandth of a stage, so that telling
//! costs nothing that could be measured.
#![tactic(auto)]

mod shown;
mod stages;
mod telling;

pub use shown::{Showing, Shown, choose_showing};
pub use stages::{Progress, Silent, Stage, begin};
pub use telling::Telling;
