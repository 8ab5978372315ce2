//! The least bounds after some lists were replaced.

ghost use Rattle.std.specs.Prelude.{◌≡◌, ◌<◌, ◌*◌, All, IfOk, OnErr, length, map, slice_index, slice_set};
ghost use Rattle.std.specs.List.Sorted.{IsStrictlyIncreasing};
ghost use Rattle.cu_interval.specs.declared.ways.TouchedEdge.{TouchedEdge};
ghost use Rattle.cu_interval.specs.Hierarchies.{IsHierarchy};
ghost use Rattle.cu_interval.specs.LeastBounds.{least_bound};
ghost use Rattle.cu_interval.specs.LeastPieces.{pieces_least};
ghost use Rattle.cu_interval.specs.Shortcuts.{number_of, ways_of};
ghost use Rattle.cu_bounds.specs.KeptBounds.{AreRightBelow, AreRightBut, HasListsOf, bounds_of};
ghost use Rattle.cu_bounds.specs.Steps.InTurn.{IsFinderUpTo};

use crate::halving::Halving;
use crate::kept::BoundsSoFar;
use crate::list_bounds::bound_of_entries;
use crate::travels::least_travels;
use cu_interval::{BoundedWays, Dir, Entry, Shortcut, TouchedEdge, Ways};
use cu_model::NoMemory;
use std::alloc::Global;

/// The least bounds that a hierarchy keeps, by the number of their list.
pub fn copy_bounds<W: BoundedWays>(alloc: Global, ways: &W) -> Result<Vec<u64>, NoMemory>
    ensures bounds { IfOk result
        (λ bounds. bounds.items ≡ bounds_of (W.Ways.hierarchy ways.now)) }
{
    let mut bounds = Vec::with_capacity(alloc, 2 * ways.edges() as usize)?;
    for edge in 0..ways.edges() {
        bounds.push(ways.least(edge, Dir::Up))?;
        bounds.push(ways.least(edge, Dir::Down))?;
    }
    Ok(bounds)
}

/// Finds the least bounds of the lists of some edges anew, in the place of their old ones, from these lists. The edges rise and are
/// below the number of edges, for each list of another edge its least bound is kept already, and the finder of halves has come to no
/// edge yet. Goes over the entries of these lists alone. Takes 4 bytes for each profile; where memory runs out the bounds are as they
/// were.
pub fn renew_bounds<W: Ways, F: Halving>(
    alloc: Global,
    ways: &W,
    bounds: &mut [u64],
    lists: &[TouchedEdge],
    finder: &mut F,
) -> Result<(), NoMemory>
    requires sound { IsHierarchy (W.hierarchy ways.now) }
    requires rising { IsStrictlyIncreasing
        (map (λ (touched : TouchedEdge). touched.edge) lists.now) }
    requires lists { All (HasListsOf (W.hierarchy ways.now)) lists.now }
    requires long { length bounds.old ≡ 2 * length (W.hierarchy ways.now).edges }
    requires kept { AreRightBut (W.hierarchy ways.now) (slice_index bounds.old)
        (map (λ (touched : TouchedEdge). touched.edge) lists.now) }
    requires same { F.hierarchy finder.old ≡ W.hierarchy ways.now }
    requires begins { F.reached finder.old ≡ 0 }
    ensures bounds { IfOk result (λ _. bounds.new ≡ bounds_of (W.hierarchy ways.now)) }
    ensures unchanged { OnErr result (bounds.new ≡ bounds.old) }
{
    let travels = least_travels(alloc, ways)?;
    renew_all(ways, &travels, bounds, lists, finder);
    Ok(())
}

// The same, by the least travel of each profile.
fn renew_all<W: Ways, F: Halving>(
    ways: &W,
    travels: &[u32],
    bounds: &mut [u64],
    lists: &[TouchedEdge],
    finder: &mut F,
)
    requires sound { IsHierarchy (W.hierarchy ways.now) }
    requires travels { travels.now ≡ map pieces_least (W.hierarchy ways.now).network.profiles }
    requires rising { IsStrictlyIncreasing
        (map (λ (touched : TouchedEdge). touched.edge) lists.now) }
    requires lists { All (HasListsOf (W.hierarchy ways.now)) lists.now }
    requires long { length bounds.old ≡ 2 * length (W.hierarchy ways.now).edges }
    requires kept { AreRightBut (W.hierarchy ways.now) (slice_index bounds.old)
        (map (λ (touched : TouchedEdge). touched.edge) lists.now) }
    requires finder { IsFinderUpTo (W.hierarchy ways.now) 0 (F.hierarchy finder.old)
        (F.reached finder.old) }
    ensures bounds { bounds.new ≡ bounds_of (W.hierarchy ways.now) }
{
    for touched in lists {
        let edge = touched.edge;
        let up = Shortcut { edge, dir: Dir::Up };
        renew_bound(ways, travels, bounds, finder, up, touched.up.entries());
        let down = Shortcut {
            edge,
            dir: Dir::Down,
        };
        renew_bound(ways, travels, bounds, finder, down, touched.down.entries());
    }
}

// Finds the least bound of a list with these entries anew. All lists before it have theirs.
fn renew_bound<W: Ways, F: Halving>(
    ways: &W,
    travels: &[u32],
    bounds: &mut [u64],
    finder: &mut F,
    shortcut: Shortcut,
    entries: &[Entry],
)
    requires sound { IsHierarchy (W.hierarchy ways.now) }
    requires edge { shortcut.edge < length (W.hierarchy ways.now).edges }
    requires entries { entries.now ≡ ways_of (W.hierarchy ways.now) shortcut }
    requires travels { travels.now ≡ map pieces_least (W.hierarchy ways.now).network.profiles }
    requires long { length bounds.old ≡ 2 * length (W.hierarchy ways.now).edges }
    requires right { AreRightBelow (W.hierarchy ways.now) (slice_index bounds.old)
        (number_of shortcut) }
    requires finder { IsFinderUpTo (W.hierarchy ways.now) shortcut.edge (F.hierarchy finder.old)
        (F.reached finder.old) }
    ensures bounds { bounds.new ≡ slice_set bounds.old (number_of shortcut)
        (least_bound (W.hierarchy ways.now) shortcut.edge shortcut.dir) }
    ensures finder { IsFinderUpTo (W.hierarchy ways.now) shortcut.edge (F.hierarchy finder.new)
        (F.reached finder.new) }
{
    let so_far = BoundsSoFar { bounds: &*bounds };
    let bound = bound_of_entries(ways, travels, &so_far, finder, shortcut, entries);
    bounds[shortcut.list()] = bound;
}
