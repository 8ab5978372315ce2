//! Small networks, orders, scripts and packed files that tests of more than one crate share, each once. What they come to was
//! worked out by hand, and the files were hashed by another program; tests compare with them.
//!
//! [`RUSH_HOUR`] is the network of most tests, and [`BUILT`] its packed file, which is [`FIRST_VERSION`] in version 1.
//! [`hierarchy`] and [`packed`] build what any other tables name.
#![tactic(auto)]

mod building;
mod files;
mod scripts;
mod stars;
mod tables;

pub use building::{NotMade, hierarchy, network, order, packed};
pub use files::{
    BUILT, FIRST_VERSION, FORGED, LATER_DIGEST, NOTHING, first_version, forged, later,
};
pub use scripts::{SCRIPTS, Script};
pub use stars::Star;
pub use tables::{EMPTY, NODES, RANKED, RANKS, ROADS, ROW, RUSH, RUSH_HOUR, Tables};
