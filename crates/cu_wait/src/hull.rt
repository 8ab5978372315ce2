//! The least arrivals of a measured profile from each second of the day on, in pieces.

ghost use Rattle.std.specs.Prelude.{◌≡◌, ◌≤◌, ◌<◌, ◌+◌, ◌^◌, ℕ, All, IfOk, OnOk, length, min};
ghost use Rattle.cu_model.specs.Days.{day};
ghost use Rattle.cu_model.specs.DayForms.{IsDayForm};
ghost use Rattle.cu_model.specs.declared.limits.TheConstants.{MAX_TRAVEL};
ghost use Rattle.cu_wait.specs.Legs.{IsLeg, Tile, arrival_in, bound_from, bounds_behind, hull_at, leg_least, legs_of};
ghost use Rattle.cu_wait.specs.Measured.{IsMeasured};
ghost use Rattle.cu_wait.specs.Steps.HullLegs.{IsHull};
ghost use Rattle.cu_wait.specs.Steps.Listed.{IsListed};

use crate::legs::Leg;
use crate::points::{Point, legs_of};
use crate::stretches::Listing;
use cu_model::{DAY, NoMemory, Piece};
use std::alloc::Global;

// The pieces of what arrives first from each second of the day on, however long one waits.
pub(crate) fn hull_pieces(alloc: Global, points: &[Point]) -> Result<Vec<Piece>, NoMemory>
    requires { IsMeasured points.now }
    ensures form { IfOk result (λ pieces. IsDayForm (hull_at (legs_of points.now)) pieces.items) }
{
    let legs = legs_of(alloc, points)?;
    let mut bounds = vec![in alloc; 0u32; legs.len()]?;
    // Behind the day's last leg comes the next day, and its least arrival is the least of this one, a day later.
    let least = set_bounds(&legs, first_arrival(&legs), &mut bounds);
    set_bounds(&legs, DAY + least, &mut bounds);
    list_legs(alloc, &legs, &bounds)
}

// The pieces of all legs, each with the least arrival of whoever waits until behind it.
fn list_legs(alloc: Global, legs: &[Leg], bounds: &[u32]) -> Result<Vec<Piece>, NoMemory>
    requires { IsHull legs.now bounds.now }
    ensures { IfOk result (λ pieces. IsDayForm (hull_at legs.now) pieces.items) }
{
    let mut listing = Listing::new(alloc);
    'legs: for (index, leg) in legs.iter().enumerate() {
        list_leg(*leg, bounds[index], &mut listing)?;
    }
    listing.finish()
}

// Goes on with a leg, behind which waiting allows this arrival.
fn list_leg(leg: Leg, bound: u32, listing: &mut Listing) -> Result<(), NoMemory>
    requires leg { IsLeg leg }
    requires bound { (leg.until ≤ bound) × (bound < 2 ^ 31) }
    requires begun { listing.old.last.from ≤ leg.from }
    ensures begun { OnOk result (listing.new.last.from ≤ leg.until) }
    ensures listed { OnOk result ((f : ℕ → ℕ)
        → ((t : ℕ) → leg.from ≤ t → t < leg.until → f t ≡ min (leg_least leg t) bound)
        → IsListed f listing.old leg.from → IsListed f listing.new leg.until) }
{
    let mut second = leg.from;
    'stretches: while second < leg.until {
        let stretch = leg.hull_from(bound, second);
        listing.add(second, stretch)?;
        second = stretch.end;
    }
    Ok(())
}

// The arrival at the day's first second.
fn first_arrival(legs: &[Leg]) -> u32
    requires tile { Tile 0 legs.now }
    requires sound { All IsLeg legs.now }
    ensures value { result ≡ arrival_in legs.now 0 }
    ensures limit { result ≤ MAX_TRAVEL }
{
    legs[0].arrival(0)
}

// Sets what later legs, and behind them this end, allow behind each leg, and answers the least of all.
fn set_bounds(legs: &[Leg], end: u32, bounds: &mut [u32]) -> u32
    requires sound { All IsLeg legs.now }
    requires count { length bounds.old ≡ length legs.now }
    ensures bounds { bounds.new ≡ bounds_behind end legs.now }
    ensures least { result ≡ bound_from end legs.now }
    ensures limit { result ≤ end }
{
    let mut bound = end;
    let mut behind = legs.len();
    'legs: while behind > 0 {
        behind -= 1;
        let leg = legs[behind];
        bounds[behind] = bound;
        bound = bound.min(leg.least(leg.from));
    }
    bound
}
