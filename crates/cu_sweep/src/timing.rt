//! Calls that may still be in time for a query's end, by bounds in memory.

ghost use Rattle.std.specs.Prelude.{◌≡◌, ◌≤◌, ◌<◌, ◌+◌, length, nat_le};
ghost use Rattle.cu_interval.specs.LeastBounds.{far, least_bound};
ghost use Rattle.cu_bounds.specs.Near.{AreNear};
ghost use Rattle.cu_sweep.specs.Steps.Ahead.{ahead_of, is_in_time};

use crate::bounding::Bounds;
use crate::limits::Limits;
use cu_bounds::NearBounds;
use cu_interval::{Dir, Relaxer};

// A bound that found no room is kept as this.
const NO_ROOM: u64 = u32::MAX as u64;

/// What is at least still to go from each rank, upwards and downwards, by when the end is to be reached, and the least bounds of
/// all lists.
#[derive(Clone, Copy)]
pub struct InTime<'a> {
    pub up: &'a [u64],
    pub down: &'a [u64],
    pub by: u64,
    pub bounds: &'a NearBounds,
}

impl<'a> Limits for InTime<'a> {
    ghost allows = { λ limits place soonest.
        is_in_time limits.up.now limits.down.now limits.by place soonest };

    ghost knows = { λ limits h. AreNear h limits.bounds.now };

    fn allow(&self, place: u32, soonest: u64) -> bool {
        is_by(
            ahead_at_place(self.up, self.down, place as usize),
            soonest,
            self.by,
        )
    }

    // The packed bytes of a bound are far apart, so they are read only where it found no room.
    #[inline(always)]
    fn least<R: Relaxer>(&self, relaxer: &R, edge: u32, dir: Dir) -> u64 {
        let bound = self.bounds.bound(edge, dir);
        if bound < NO_ROOM {
            return bound;
        }
        least_asked(relaxer, edge, dir)
    }
}

// What whoever relaxes says. It stands apart so that the sweeps' loops stay small.
#[cold]
#[inline(never)]
fn least_asked<R: Relaxer>(relaxer: &R, edge: u32, dir: Dir) -> u64
    requires edge { edge < length (R.hierarchy relaxer.now).edges }
    ensures bound { result ≡ least_bound (R.hierarchy relaxer.now) edge dir }
    ensures most { result ≤ far }
{
    relaxer.least(edge, dir)
}

// Whether what begins at a second and takes so long ends by another.
fn is_by(ahead: u64, soonest: u64, by: u64) -> bool
    ensures { result ≡ nat_le (soonest + ahead) by }
{
    soonest <= by && ahead <= by - soonest
}

// What is at least still to go from a place.
fn ahead_at_place(up: &[u64], down: &[u64], place: usize) -> u64
    ensures { result ≡ ahead_of up.now down.now place }
{
    if place < up.len() {
        return up[place];
    }
    match down.get(place - up.len()) {
        Some(ahead) => *ahead,
        None => 0,
    }
}
