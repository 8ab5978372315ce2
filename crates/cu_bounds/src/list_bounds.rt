//! The least bound of one list, by those of the lists before it.

ghost use Rattle.std.specs.Prelude.{◌≡◌, ◌≤◌, ◌<◌, Some, length, map, slice_get};
ghost use Rattle.cu_chordal.specs.declared.graph.Ends.{Ends};
ghost use Rattle.cu_interval.specs.Hierarchies.{IsHierarchy, end_of, start_of};
ghost use Rattle.cu_interval.specs.LeastBounds.{bound_from, least_bound, way_bound};
ghost use Rattle.cu_interval.specs.LeastPieces.{pieces_least, road_pieces};
ghost use Rattle.cu_interval.specs.Shortcuts.{number_of, ways_of};
ghost use Rattle.cu_bounds.specs.KeptBounds.{AreRightBelow};
ghost use Rattle.cu_bounds.specs.Steps.InTurn.{IsFinderUpTo, IsWayOf};

use crate::halving::Halving;
use crate::kept::KeptBounds;
use crate::travels::FAR;
use cu_interval::{Entry, Shortcut, Way, Ways};

/// The least bound of a list: the least over its entries, by the least travel of each profile and by what is kept of
/// the lists before it. The finder of halves has come no further than to its edge, and comes no further.
pub fn list_bound<W: Ways, K: KeptBounds, F: Halving>(
    ways: &W,
    travels: &[u32],
    kept: &K,
    finder: &mut F,
    shortcut: Shortcut,
) -> u64
    requires edge { shortcut.edge < length (W.hierarchy ways.now).edges }
    requires travels { travels.now ≡ map pieces_least (W.hierarchy ways.now).network.profiles }
    requires lists { number_of shortcut ≤ K.lists kept.now }
    requires right { AreRightBelow (W.hierarchy ways.now) (K.kept kept.now) (number_of shortcut) }
    requires finder { IsFinderUpTo (W.hierarchy ways.now) shortcut.edge
        (F.hierarchy finder.old) (F.reached finder.old) }
    ensures bound { result ≡ least_bound (W.hierarchy ways.now) shortcut.edge shortcut.dir }
    ensures finder { IsFinderUpTo (W.hierarchy ways.now) shortcut.edge
        (F.hierarchy finder.new) (F.reached finder.new) }
{
    let mut least = FAR;
    for index in 0..ways.entries(shortcut.edge, shortcut.dir) {
        let entry = ways.entry(shortcut.edge, shortcut.dir, index);
        least = least.min(bound_of_way(ways, travels, kept, finder, shortcut, entry.way));
    }
    least
}

/// The same, by the entries of the list as they lie.
pub fn bound_of_entries<W: Ways, K: KeptBounds, F: Halving>(
    ways: &W,
    travels: &[u32],
    kept: &K,
    finder: &mut F,
    shortcut: Shortcut,
    entries: &[Entry],
) -> u64
    requires sound { IsHierarchy (W.hierarchy ways.now) }
    requires edge { shortcut.edge < length (W.hierarchy ways.now).edges }
    requires entries { entries.now ≡ ways_of (W.hierarchy ways.now) shortcut }
    requires travels { travels.now ≡ map pieces_least (W.hierarchy ways.now).network.profiles }
    requires lists { number_of shortcut ≤ K.lists kept.now }
    requires right { AreRightBelow (W.hierarchy ways.now) (K.kept kept.now) (number_of shortcut) }
    requires finder { IsFinderUpTo (W.hierarchy ways.now) shortcut.edge
        (F.hierarchy finder.old) (F.reached finder.old) }
    ensures bound { result ≡ least_bound (W.hierarchy ways.now) shortcut.edge shortcut.dir }
    ensures finder { IsFinderUpTo (W.hierarchy ways.now) shortcut.edge
        (F.hierarchy finder.new) (F.reached finder.new) }
{
    let mut least = FAR;
    for entry in entries {
        least = least.min(bound_of_way(ways, travels, kept, finder, shortcut, entry.way));
    }
    least
}

// The bound of a way: the least travel of its road, or both bounds of its halves together, up to `FAR`.
fn bound_of_way<W: Ways, K: KeptBounds, F: Halving>(
    ways: &W,
    travels: &[u32],
    kept: &K,
    finder: &mut F,
    shortcut: Shortcut,
    way: Way,
) -> u64
    requires sound { IsHierarchy (W.hierarchy ways.now) }
    requires travels { travels.now ≡ map pieces_least (W.hierarchy ways.now).network.profiles }
    requires lists { number_of shortcut ≤ K.lists kept.now }
    requires right { AreRightBelow (W.hierarchy ways.now) (K.kept kept.now) (number_of shortcut) }
    requires finder { IsFinderUpTo (W.hierarchy ways.now) shortcut.edge
        (F.hierarchy finder.old) (F.reached finder.old) }
    requires way { IsWayOf (W.hierarchy ways.now) shortcut way }
    ensures bound { (ends : Ends) → slice_get (W.hierarchy ways.now).edges shortcut.edge ≡ Some ends
        → result ≡ way_bound (road_pieces (W.hierarchy ways.now).network)
        (bound_from (W.hierarchy ways.now)) (start_of ends shortcut.dir) (end_of ends shortcut.dir) way }
    ensures finder { IsFinderUpTo (W.hierarchy ways.now) shortcut.edge
        (F.hierarchy finder.new) (F.reached finder.new) }
{
    match way {
        Way::Road(arc) => u64::from(travels[ways.arc(arc).profile as usize]),
        Way::Via(middle) => {
            let (first, second) = finder.halves(shortcut, middle);
            let sum = kept.kept(first.list() as u32) + kept.kept(second.list() as u32);
            sum.min(FAR)
        }
    }
}
