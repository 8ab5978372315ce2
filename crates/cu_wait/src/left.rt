//! When one leaves who waits as little as serves.

ghost use Rattle.std.specs.Prelude.{◌≡◌, ◌≤◌, ◌<◌, ◌+◌, ◌-◌, ◌*◌, ◌^◌, ℕ, length, nat_le, true, false};
ghost use Rattle.std.specs.List.Sorted.{IsNonDecreasingBy, IsPartitionPoint};
ghost use Rattle.cu_model.specs.Days.{day};
ghost use Rattle.cu_wait.specs.declared.points.Point.{Point};
ghost use Rattle.cu_wait.specs.LeftSeconds.{IsLeft, left_at};
ghost use Rattle.cu_wait.specs.Legs.{IsLeg, leg_arrival};
ghost use Rattle.cu_wait.specs.Measured.{IsMeasured, raw_arrival};
ghost use Rattle.cu_wait.specs.Steps.LeftLegs.{IsBestUntil, IsLegAt, begins};

use crate::legs::Leg;
use crate::points::{Point, leg_behind};
use cu_model::DAY;

// A second, and when one arrives who leaves then.
#[derive(Clone, Copy)]
pub(crate) struct Best {
    pub second: u32,
    pub arrival: u32,
}

/// When one leaves who enters a road with a measured profile at an absolute second of at most 2^62, and waits as little as
/// serves: the least second from then on at which who leaves arrives as early as anybody who leaves from then on. It is less
/// than a day later. Only legs of the day that begin before that arrival are looked at. Takes no memory.
pub fn left_second(points: &[Point], second: u64) -> u64
    requires measured { IsMeasured points.now }
    requires time { second ≤ 2 ^ 62 }
    ensures left { IsLeft (raw_arrival points.now) second result }
    ensures at { result ≡ left_at (raw_arrival points.now) second }
    ensures soon { result < second + day }
{
    let start = (second % u64::from(DAY)) as u32;
    let best = best_from(points, start);
    second - u64::from(start) + u64::from(best.second)
}

// The best of this day from one of its seconds on, and of the next.
fn best_from(points: &[Point], start: u32) -> Best
    requires measured { IsMeasured points.now }
    requires start { start < day }
    ensures { IsBestUntil (raw_arrival points.now) start (2 * day) result }
{
    let index = index_of(points, start);
    let best = best_in(leg_at(points, index), start);
    let best = best_behind(points, 0, index + 1, best);
    best_behind(points, 1, 0, best)
}

// The best once the legs of the day so many days later are looked at, from the one behind this point on.
fn best_behind(points: &[Point], days: u32, index: usize, best: Best) -> Best
    requires measured { IsMeasured points.now }
    requires days { days ≤ 1 }
    requires index { index ≤ length points.now }
    ensures { (second : ℕ)
        → IsBestUntil (raw_arrival points.now) second (days * day + begins points.now index) best
        → IsBestUntil (raw_arrival points.now) second (days * day + day) result }
{
    let later = days * DAY;
    let mut best = best;
    'legs: for next in index..points.len() {
        let leg = leg_at(points, next);
        if best.arrival <= later + leg.from {
            return best;
        }
        best = better_of(best, later, leg);
    }
    best
}

// The best once a leg is looked at, whose day begins at this second.
fn better_of(best: Best, later: u32, leg: Leg) -> Best
    requires leg { IsLeg leg }
    requires later { later ≤ day }
    ensures { (f : ℕ → ℕ) (second : ℕ)
        → ((s : ℕ) → leg.from ≤ s → s < leg.until → f (later + s) ≡ later + leg_arrival leg s)
        → IsBestUntil f second (later + leg.from) best
        → IsBestUntil f second (later + leg.until) result }
{
    let found = best_in(leg, leg.from);
    let arrival = later + found.arrival;
    if best.arrival <= arrival {
        return best;
    }
    Best {
        second: later + found.second,
        arrival,
    }
}

// The best of a leg from one of its seconds on.
fn best_in(leg: Leg, second: u32) -> Best
    requires leg { IsLeg leg }
    requires within { (leg.from ≤ second) × (second < leg.until) }
    ensures best { IsBestUntil (leg_arrival leg) second leg.until result }
    ensures limit { result.arrival < 2 ^ 31 }
{
    if leg.falls() {
        return first_as_last(leg, second);
    }
    Best {
        second,
        arrival: leg.arrival(second),
    }
}

// The first second of a leg, from this one on, at which who leaves arrives as early as at its last, where arrivals never rise.
fn first_as_last(leg: Leg, second: u32) -> Best
    requires leg { IsLeg leg }
    requires within { (leg.from ≤ second) × (second < leg.until) }
    requires falls { leg.last + (leg.until - leg.from) ≤ leg.first }
    ensures best { IsBestUntil (leg_arrival leg) second leg.until result }
    ensures limit { result.arrival < 2 ^ 31 }
{
    let arrival = leg.arrival(leg.until - 1);
    let mut low = second;
    let mut high = leg.until - 1;
    'halves: while low < high {
        let middle = low + (high - low) / 2;
        if leg.arrival(middle) <= arrival {
            high = middle;
        } else {
            low = middle + 1;
        }
    }
    Best {
        second: low,
        arrival,
    }
}

// The leg behind a point.
fn leg_at(points: &[Point], index: usize) -> Leg
    requires measured { IsMeasured points.now }
    requires index { index < length points.now }
    ensures { IsLegAt points.now index result }
{
    let point = points[index];
    let behind = index + 1;
    if behind < points.len() {
        let next = points[behind];
        return leg_behind(point, next.second, next.travel);
    }
    leg_behind(point, DAY, points[0].travel)
}

// The point behind which a second of the day is.
fn index_of(points: &[Point], second: u32) -> usize
    requires measured { IsMeasured points.now }
    requires second { second < day }
    ensures within { result < length points.now }
    ensures begun { begins points.now result ≤ second }
    ensures next { second < begins points.now (result + 1) }
{
    begun(points, second) - 1
}

// How many points are at this second of the day or before it.
fn begun(points: &[Point], second: u32) -> usize
    requires { IsNonDecreasingBy (λ (point : Point). point.second) points.now }
    ensures bound { result ≤ length points.now }
    ensures point { IsPartitionPoint
        (λ (point : Point). nat_le point.second second ≡ true)
        (λ (point : Point). nat_le point.second second ≡ false)
        points.now result }
{
    points.partition_point(|point| point.second <= second)
}
