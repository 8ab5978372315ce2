//! The most roads of one list, by those of the lists before it.

ghost use Rattle.std.specs.Prelude.{◌≡◌, ◌≤◌, ◌<◌, Some, length, max, slice_get, slice_index};
ghost use Rattle.cu_bounds.specs.Steps.InTurn.{IsFinderUpTo, IsWayOf};
ghost use Rattle.cu_chordal.specs.declared.graph.Ends.{Ends};
ghost use Rattle.cu_interval.specs.Hierarchies.{IsHierarchy, end_of, start_of};
ghost use Rattle.cu_interval.specs.Shortcuts.{number_of};
ghost use Rattle.cu_short.specs.Shortness.{most_roads, way_roads};
ghost use Rattle.cu_short.specs.Steps.Counted.{AreCountedBelow};

use cu_bounds::Halving;
use cu_interval::{Shortcut, Way, Ways};

/// The most roads of a list, by those of the lists before it. The finder of halves has come no further than to its edge, and comes
/// no further.
pub fn list_roads<W: Ways, F: Halving>(
    ways: &W,
    counts: &[u32],
    finder: &mut F,
    shortcut: Shortcut,
) -> u32
    requires edge { shortcut.edge < length (W.hierarchy ways.now).edges }
    requires lists { number_of shortcut ≤ length counts.now }
    requires right { AreCountedBelow (W.hierarchy ways.now) (slice_index counts.now)
        (number_of shortcut) }
    requires finder { IsFinderUpTo (W.hierarchy ways.now) shortcut.edge
        (F.hierarchy finder.old) (F.reached finder.old) }
    ensures most { (ends : Ends) → slice_get (W.hierarchy ways.now).edges shortcut.edge ≡ Some ends
        → result ≡ most_roads (W.hierarchy ways.now) (start_of ends shortcut.dir)
        (end_of ends shortcut.dir) }
    ensures finder { IsFinderUpTo (W.hierarchy ways.now) shortcut.edge
        (F.hierarchy finder.new) (F.reached finder.new) }
{
    let mut most = 0;
    for index in 0..ways.entries(shortcut.edge, shortcut.dir) {
        let entry = ways.entry(shortcut.edge, shortcut.dir, index);
        most = greater_of(
            most,
            roads_of_way(ways, counts, finder, shortcut, entry.way),
        );
    }
    most
}

// The greater of two counts.
fn greater_of(first: u32, second: u32) -> u32
    ensures { result ≡ max first second }
{
    if first < second { second } else { first }
}

// The most roads of a way: one, or those of both halves together.
fn roads_of_way<W: Ways, F: Halving>(
    ways: &W,
    counts: &[u32],
    finder: &mut F,
    shortcut: Shortcut,
    way: Way,
) -> u32
    requires sound { IsHierarchy (W.hierarchy ways.now) }
    requires lists { number_of shortcut ≤ length counts.now }
    requires right { AreCountedBelow (W.hierarchy ways.now) (slice_index counts.now)
        (number_of shortcut) }
    requires finder { IsFinderUpTo (W.hierarchy ways.now) shortcut.edge
        (F.hierarchy finder.old) (F.reached finder.old) }
    requires way { IsWayOf (W.hierarchy ways.now) shortcut way }
    ensures most { (ends : Ends) → slice_get (W.hierarchy ways.now).edges shortcut.edge ≡ Some ends
        → result ≡ way_roads (most_roads (W.hierarchy ways.now)) (start_of ends shortcut.dir)
        (end_of ends shortcut.dir) way }
    ensures finder { IsFinderUpTo (W.hierarchy ways.now) shortcut.edge
        (F.hierarchy finder.new) (F.reached finder.new) }
{
    match way {
        Way::Road(_) => 1,
        Way::Via(middle) => {
            let (first, second) = finder.halves(shortcut, middle);
            counts[first.list()] + counts[second.list()]
        }
    }
}
