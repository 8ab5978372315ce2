//! What a call over an edge takes at least.

ghost use Rattle.std.specs.Prelude.{◌≡◌, ◌≤◌, ◌<◌, ℕ, length};
ghost use Rattle.cu_interval.specs.declared.ways.Dir.{Dir};
ghost use Rattle.cu_interval.specs.LeastBounds.{far, least_bound};
ghost use Rattle.cu_bounds.specs.Near.{kept_bound};

use cu_bounds::NearBounds;
use cu_interval::{Dir, Relaxer};

/// Says of each edge what a call over it takes at least.
pub trait Bounds {
    ghost count: { Self → ℕ };

    ghost bounds: { Self → ℕ → Dir → ℕ };

    /// The seconds that a call over this edge in a direction takes at least, no more than 2^60. Takes no memory.
    fn bound(&self, edge: u32, dir: Dir) -> u64
        requires edge { edge < count self.now }
        ensures bound { result ≡ bounds self.now edge dir }
        ensures most { result ≤ far };
}

/// The least bounds that whoever relaxes knows.
#[derive(Drop)]
pub struct RelaxerBounds<'a, R> {
    pub relaxer: &'a R,
}

impl<'a, R: Relaxer> Bounds for RelaxerBounds<'a, R> {
    ghost count = { λ known. length (R.hierarchy known.relaxer.now).edges };

    ghost bounds = { λ known edge dir. least_bound (R.hierarchy known.relaxer.now) edge dir };

    fn bound(&self, edge: u32, dir: Dir) -> u64 {
        self.relaxer.least(edge, dir)
    }
}

impl Bounds for NearBounds {
    ghost count = { λ bounds. length bounds.ups };

    ghost bounds = { λ bounds edge dir. kept_bound bounds edge dir };

    fn bound(&self, edge: u32, dir: Dir) -> u64 {
        self.get(edge, dir)
    }
}
