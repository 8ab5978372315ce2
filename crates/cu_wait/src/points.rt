//! The points of a measured profile, and the legs between them.

ghost use Rattle.std.specs.Prelude.{◌≡◌, All, IfOk};
ghost use Rattle.cu_wait.specs.Legs.{IsLeg, Tile, leg_behind, legs_of};
ghost use Rattle.cu_wait.specs.Measured.{IsMeasured};

use crate::legs::Leg;
use cu_model::{DAY, NoMemory};
use std::alloc::Global;

/// How travel times go on behind a point.
#[derive(Clone, Copy, PartialEq, Eq)]
pub enum Mode {
    /// On a straight line to the next point, rounded down to whole seconds.
    Line,
    /// The point's own, until the next point.
    Step,
}

/// A second of the day, 0 to 86,399, how long it takes to drive leaving then, 0 to 604,800 seconds, and how it goes on.
#[derive(Clone, Copy, PartialEq, Eq)]
pub struct Point {
    pub second: u32,
    pub mode: Mode,
    pub travel: u32,
}

// The legs of a measured profile, from the first point to the day's end, where the first travel time comes again.
pub(crate) fn legs_of(alloc: Global, points: &[Point]) -> Result<Vec<Leg>, NoMemory>
    requires { IsMeasured points.now }
    ensures legs { IfOk result (λ legs. legs.items ≡ legs_of points.now) }
    ensures tile { IfOk result (λ legs. Tile 0 legs.items) }
    ensures sound { IfOk result (λ legs. All IsLeg legs.items) }
{
    let mut legs = Vec::new(alloc);
    let mut point = points[0];
    'points: for next in &points[1..] {
        legs.push(leg_behind(point, next.second, next.travel))?;
        point = *next;
    }
    legs.push(leg_behind(point, DAY, points[0].travel))?;
    Ok(legs)
}

// The leg from a point to a second with this travel time.
pub(crate) fn leg_behind(point: Point, until: u32, next: u32) -> Leg
    ensures { result ≡ leg_behind point until next }
{
    let last = match point.mode {
        Mode::Line => next,
        Mode::Step => point.travel,
    };
    Leg {
        from: point.second,
        until,
        first: point.travel,
        last,
    }
}
