//! How large a road network and its times may be.

/// The seconds of a day, after which every profile repeats.
pub const DAY: u32 = 86_400;

/// The most nodes of a network.
pub const MAX_NODES: u32 = 262_144;

/// The most roads of a network.
pub const MAX_ARCS: u32 = 1_048_576;

/// The most profiles of a network.
pub const MAX_PROFILES: u32 = 1_048_576;

/// The most seconds that a `travel` piece takes: seven days.
pub const MAX_TRAVEL: u32 = 604_800;

/// The latest second, counted from the departure's midnight, at which an `until` piece arrives: eight days later.
pub const MAX_UNTIL: u32 = 691_200;
