//! One-to-all, tables and latest departures over a hierarchy.
//!
//! [`reach`] labels all ranks. Where only some nodes are asked for and no walk is too long, [`reach_over`] labels them alike with
//! fewer calls, over the ranks that an [`Aim`] takes for them (`specs/Aims.antt`).
//!
//! [`latest`] searches the day for the greatest second from which a query arrives in time, by at most [`MOST_QUERIES`] queries
//! (`specs/Departures.antt`).
#![tactic(auto)]

mod aiming;
mod block;
mod departures;
mod lines;
mod reaching;
mod tables;
mod writing;

pub use aiming::Aim;
pub use departures::{Departure, MOST_QUERIES, latest};
pub use lines::{
    LATEST_BY, LatestAsked, MAX_TABLE, ManyRefusal, ReachAsked, check_latest, check_reach,
};
pub use reaching::{ReachDesk, Reached, Start, reach, reach_over};
pub use tables::{NodeFields, TableAsked, check_table};
pub use writing::{put_damage, put_dir, put_reach, put_row, put_times, put_word_and_long};
