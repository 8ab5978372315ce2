//! The places of the nodes.

use std::marker::Model;

/// The greatest x or y of a place.
pub const MAX_COORDINATE: u32 = 1_000_000_000;

/// Where a node lies: its x and y, each 0 to 1,000,000,000.
#[derive(Clone, Copy, PartialEq, Eq)]
pub struct Place {
    pub x: u32,
    pub y: u32,
}

/// The place of each node, by node number. Contracts see it as its list of places.
#[derive(Drop)]
pub struct Places {
    pub places: Vec<Place>,
}

impl Model for Places {
    ghost use Rattle.std.specs.Prelude.{List};
    ghost use Rattle.cu_roads.specs.declared.places.Place.{Place};

    ghost Value = { List Place };

    ghost view = { λ places. places.places.items };
}
