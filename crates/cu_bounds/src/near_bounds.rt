//! The least bounds of all lists, in memory.

ghost use Rattle.std.specs.Prelude.{◌≡◌, ◌<◌, ◌^◌, IfOk, length};
ghost use Rattle.cu_interval.specs.declared.ways.Dir.TheVariants.{Up, Down};
ghost use Rattle.cu_bounds.specs.Near.{AreNear, AreNearIn, kept_bound, near};

use cu_interval::{BoundedWays, Dir, Ways};
use cu_model::NoMemory;
use std::alloc::Global;
use std::marker::Model;

/// The least bounds of all lists of a hierarchy, in 8 bytes an edge, those of each direction side by side, so that a row of
/// edges is in few lines of memory. Each is kept as far as it finds room in 32 bits: a greater one, as that of a list without
/// ways, is kept as the greatest number of them. Contracts see those of each edge, upwards and downwards.
#[derive(Drop)]
pub struct NearBounds {
    ups: Vec<u32>,
    downs: Vec<u32>,
}

impl Model for NearBounds {
    ghost use Rattle.std.specs.Prelude.{◌≡◌, length};
    ghost use Rattle.cu_bounds.specs.Near.{NearValue};

    ghost Value = { NearValue };

    ghost view = { λ bounds. record {
      ups = bounds.ups.items;
      downs = bounds.downs.items;
    } };

    ghost invariant = { λ bounds. length bounds.downs.items ≡ length bounds.ups.items };
}

impl NearBounds {
    /// The bounds of a hierarchy.
    pub fn of<W: BoundedWays>(alloc: Global, ways: &W) -> Result<NearBounds, NoMemory>
        ensures { IfOk result (AreNear (W.Ways.hierarchy ways.now)) }
    {
        let edges = ways.edges() as usize;
        let mut ups = vec![in alloc; 0u32; edges]?;
        let mut downs = vec![in alloc; 0u32; edges]?;
        write_bounds(ways, Dir::Up, &mut ups);
        write_bounds(ways, Dir::Down, &mut downs);
        Ok(NearBounds { ups, downs })
    }

    /// The bounds of another hierarchy with as many edges, as must be found when the hierarchy was edited. Takes no memory.
    pub fn renew<W: BoundedWays>(&mut self, ways: &W)
        requires edges { length self.old.ups ≡ length (W.Ways.hierarchy ways.now).edges }
        ensures { AreNear (W.Ways.hierarchy ways.now) self.new }
    {
        write_bounds(ways, Dir::Up, &mut self.ups);
        write_bounds(ways, Dir::Down, &mut self.downs);
    }

    /// The bound that is kept of the list over an edge in a direction. Takes no memory.
    #[inline(always)]
    pub fn get(&self, edge: u32, dir: Dir) -> u64
        requires edge { edge < length self.now.ups }
        ensures kept { result ≡ kept_bound self.now edge dir }
        ensures most { result < 2 ^ 32 }
    {
        u64::from(match dir {
            Dir::Up => self.ups[edge as usize],
            Dir::Down => self.downs[edge as usize],
        })
    }
}

// Writes the least bounds of the lists in a direction.
fn write_bounds<W: BoundedWays>(ways: &W, dir: Dir, bounds: &mut [u32])
    requires edges { length bounds.old ≡ length (W.Ways.hierarchy ways.now).edges }
    ensures { AreNearIn (W.Ways.hierarchy ways.now) dir bounds.new }
{
    'edges: for edge in 0..ways.edges() {
        bounds[edge as usize] = near_of(ways.least(edge, dir));
    }
}

// A bound, as far as it finds room.
fn near_of(least: u64) -> u32
    ensures { result ≡ near least }
{
    least.min(u64::from(u32::MAX)) as u32
}
