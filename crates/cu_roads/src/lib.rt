//! Network texts: the tables of nodes, profiles and roads that give a road network and the places of its nodes.
//!
//! Its promise to the crates above: [`read_network`] gives exactly the network and the places that the texts name, or the
//! first check that they fail (`network_of` in `specs/NetworkTexts.antt`), [`read_roads`] likewise with profiles that are there
//! already; [`draw_grid`] draws a grid network from a state of 64 bits (`grid_network` in `specs/Grids.antt`), and [`grid`]
//! writes its texts, which are read as exactly that network. It stands
//! on `cu_model`, `cu_tables` and `cu_profile`. The checks of a row, what the readers keep from row to row and the writing of
//! a table are its own; what only they cite is in `specs/Steps`.
#![tactic(auto)]

mod arcs;
mod draws;
mod grids;
mod nodes;
mod places;
mod reader;
mod refusals;
mod writer;

pub use draws::Draws;
pub use grids::{GridTexts, MAX_SIDE, draw_day, draw_grid, grid, grid_by_rows, grid_roads};
pub use places::{MAX_COORDINATE, Place, Places};
pub use reader::{read_network, read_roads};
pub use refusals::{File, RoadRefusal};
