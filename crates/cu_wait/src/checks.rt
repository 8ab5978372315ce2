//! The checks of the points of one profile.

ghost use Rattle.std.specs.Prelude.{◌≡◌, ◌<◌, ◌+◌, ◌^◌, None, length, not, ◌&&◌, nat_le, nat_lt};
ghost use Rattle.cu_model.specs.Days.{day};
ghost use Rattle.cu_model.specs.declared.limits.TheConstants.{MAX_TRAVEL};
ghost use Rattle.cu_wait.specs.Measured.{IsMeasured};
ghost use Rattle.cu_wait.specs.MeasuredTexts.{fallen_from, first_that, started_late};
ghost use Rattle.cu_wait.specs.Steps.ReadRows.{is_later, is_point_past_limit, points_refusal, second_of};
ghost use Rattle.cu_wait.specs.declared.points.Point.{Point};

use crate::points::Point;
use crate::refusals::MeasuredRefusal;
use cu_model::{DAY, MAX_TRAVEL};

// Why these points, which stand in the rows from `first` on, are no measured profile. A wrong mode goes before their faults.
pub(crate) fn points_refusal(
    first: u32,
    wrong_mode: Option<u32>,
    points: &[Point],
) -> Option<MeasuredRefusal>
    requires { first + length points.now < 2 ^ 32 }
    ensures refusal { result ≡ points_refusal first wrong_mode points.now }
    ensures measured { result ≡ None → IsMeasured points.now }
{
    if let Some(row) = wrong_mode {
        return Some(MeasuredRefusal::Mode { row });
    }
    if let Some(row) = past_limit(first, points) {
        return Some(MeasuredRefusal::Limit { row });
    }
    if let Some(row) = started_late(first, points) {
        return Some(MeasuredRefusal::Start { row });
    }
    let row = fallen(first, points)?;
    Some(MeasuredRefusal::Rising { row })
}

// The first row whose point is past a limit.
fn past_limit(first: u32, points: &[Point]) -> Option<u32>
    requires { first + length points.now < 2 ^ 32 }
    ensures { result ≡ first_that is_point_past_limit first points.now }
{
    let mut row = first;
    'points: for point in points {
        if is_past_limit(*point) {
            return Some(row);
        }
        row += 1;
    }
    None
}

fn is_past_limit(point: Point) -> bool
    ensures { result ≡ is_point_past_limit point }
{
    point.second >= DAY || point.travel > MAX_TRAVEL
}

// This row, where no point is at the day's first second.
fn started_late(first: u32, points: &[Point]) -> Option<u32>
    ensures { result ≡ started_late second_of first points.now }
{
    match points.first() {
        Some(point) if point.second == 0 => None,
        _ => Some(first),
    }
}

// The first row whose point isn't at a later second than the one before.
fn fallen(first: u32, points: &[Point]) -> Option<u32>
    requires { first + length points.now < 2 ^ 32 }
    ensures { result ≡ fallen_from second_of first points.now }
{
    let mut row = first;
    let mut before = None;
    'points: for point in points {
        if !is_later(before, *point) {
            return Some(row);
        }
        before = Some(*point);
        row += 1;
    }
    None
}

// Whether a point is at a later second than the one before, where there is one.
fn is_later(before: Option<Point>, point: Point) -> bool
    ensures { result ≡ is_later before point }
{
    match before {
        None => true,
        Some(before) => before.second < point.second,
    }
}
