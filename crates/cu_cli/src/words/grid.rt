//! The grid that words ask for. It stands apart from the other words, whose contracts name it.

ghost use Rattle.cu_roads.specs.Grids.{IsSide};

/// Where the draws of a grid start, and how many nodes it is wide and high, 1 to 512 each.
#[derive(Clone, Copy)]
pub struct GridWords {
    pub start: u64,
    pub width: u32,
    pub height: u32,
    ghost wide: { IsSide width },
    ghost high: { IsSide height },
}
