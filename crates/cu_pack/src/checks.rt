//! The checks of a packed file, each over its sections.

pub mod bounds;
pub mod entries;
pub mod graph;
pub mod header;
pub mod order;
pub mod profiles;
pub mod roads;
pub mod ways;
