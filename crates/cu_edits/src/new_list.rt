//! The list of an edge that is settled next.

use cu_interval::WayList;
use cu_runs::DayFunction;

/// What became of a list.
#[derive(Drop)]
pub enum Outcome {
    /// Its ways are those of before, and so is when they arrive.
    Stands,
    /// It may be another, and has this function; none where it is empty.
    Moves(Option<DayFunction>),
}

/// A list after an edit, what became of it, and the function of one that stands, if it is known.
#[derive(Drop)]
pub struct NewList {
    pub ways: WayList,
    pub outcome: Outcome,
    pub standing: Option<DayFunction>,
}
