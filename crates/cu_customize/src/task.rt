//! What one list is settled from, where functions are packed runs.

use crate::triangles::Triangle;
use cu_chordal::Chordal;
use cu_interval::Leg;
use cu_runs::{DayFunction, LayeredFunctions, PackedRun, Windows};

/// A list to be settled: between which ranks it leads; its candidates, which are these roads, by rising number, and the
/// lower triangles of its edge, by rising middle; and the functions of the lists before it, by list number. Staying is
/// the function of a road that takes no time. The roads' own functions are had from whatever stands for them.
/// Functions are bounded in these windows of the day.
#[derive(Clone, Copy)]
pub struct Task<'a> {
    pub graph: &'a Chordal,
    pub functions: &'a LayeredFunctions<'a>,
    pub stay: &'a [PackedRun],
    pub windows: Windows,
    pub leg: Leg,
    pub arcs: &'a [u32],
    pub triangles: &'a [Triangle],
}

/// The functions of both halves of a way by a middle: to the middle, and on from it.
#[derive(Clone, Copy)]
pub struct Halves<'a> {
    pub first: &'a DayFunction,
    pub second: &'a DayFunction,
}
