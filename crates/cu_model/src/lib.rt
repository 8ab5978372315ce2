//! Road networks whose travel times depend on the hour: profiles, roads, walks, orders and queries, and what each of them
//! means.
//!
//! Its promise to the crates above: the arrival of a road that isn't closed is its profile value at every second, is never
//! before the departure, and leaving later never arrives earlier. It stands on no other crate of the product. What only its
//! own functions cite is in `specs/Steps`.
#![tactic(auto)]

mod checker;
mod copying;
mod fields;
mod limits;
mod memory;
mod numbers;
mod orders;
mod profiles;
mod queries;
mod roads;

pub use checker::{PieceChecker, check_pieces};
pub use copying::{copy_network, copy_profile};
pub use fields::cut_field;
pub use limits::{DAY, MAX_ARCS, MAX_NODES, MAX_PROFILES, MAX_TRAVEL, MAX_UNTIL};
pub use memory::NoMemory;
pub use numbers::{Number, parse_number};
pub use orders::Order;
pub use profiles::{Piece, PieceFault, PieceRefusal, Profile, Rule};
pub use queries::{Query, QueryRefusal, check_query};
pub use roads::{Edit, Network, RoadArc, Roads};
