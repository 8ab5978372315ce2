//! The functions of edges that a settler holds.

use crate::edge_functions::EdgeFunctions;
use crate::learned::Learned;
use crate::moved_lists::MovedLists;
use cu_customize::PackedSettling;
use cu_unpack::{PackedFunctions, Rebuilt};

/// Functions of the hierarchy before the edit as packed runs, the lists that the edit moved, and the room that settling takes.
#[derive(Drop)]
pub struct PackedState {
    pub functions: PackedFunctions,
    pub moved: MovedLists,
    pub settling: PackedSettling,
}

/// Plain functions: those that were rebuilt of lists before the edit, and those of edges whose lists won't change any more, as
/// far as they are known.
#[derive(Drop)]
pub struct PlainState {
    pub rebuilt: Rebuilt,
    pub known: Vec<Option<EdgeFunctions>>,
}

/// What a settler holds: before it settles an edge what was learned earlier, then packed runs, and plain functions once a way takes
/// longer than packed runs can say.
#[derive(Drop)]
pub enum SettlerState {
    Nothing(Option<Learned>),
    Packed(PackedState),
    Plain(PlainState),
}
