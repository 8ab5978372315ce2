//! Which calls of a sweep may be made, and what each takes at least.

ghost use Rattle.std.specs.Prelude.{◌≡◌, ◌≤◌, ◌<◌, ⊤, ℕ, Bool, true, length};
ghost use Rattle.cu_interval.specs.Hierarchies.{HierarchyValue};
ghost use Rattle.cu_interval.specs.LeastBounds.{far, least_bound};

use cu_interval::{Dir, Relaxer};

/// Says of a call into a place that arrives no sooner than a second whether it may be made, and what a call takes at least, in
/// hierarchies that it knows.
pub trait Limits {
    ghost allows: { Self → ℕ → ℕ → Bool };

    ghost knows: { Self → HierarchyValue → Type 0 };

    /// Whether a call into this place that arrives no sooner than this second may be made. Takes no memory.
    fn allow(&self, place: u32, soonest: u64) -> bool
        ensures allowed { result ≡ allows self.now place soonest };

    /// The least bound of an edge in a direction, as whoever relaxes says too. Takes no memory.
    fn least<R: Relaxer>(&self, relaxer: &R, edge: u32, dir: Dir) -> u64
        requires edge { edge < length (R.hierarchy relaxer.now).edges }
        requires known { knows self.now (R.hierarchy relaxer.now) }
        ensures bound { result ≡ least_bound (R.hierarchy relaxer.now) edge dir }
        ensures most { result ≤ far };
}

/// Every call may be made, and whoever relaxes is asked for bounds.
#[derive(Drop)]
pub struct Always;

impl Limits for Always {
    ghost allows = { λ always place soonest. true };

    ghost knows = { λ always h. ⊤ };

    fn allow(&self, _place: u32, _soonest: u64) -> bool {
        true
    }

    #[inline(always)]
    fn least<R: Relaxer>(&self, relaxer: &R, edge: u32, dir: Dir) -> u64 {
        relaxer.least(edge, dir)
    }
}
