//! The most roads of lists after some were replaced.

ghost use Rattle.std.specs.Prelude.{◌≡◌, ◌<◌, ◌*◌, All, length, map, slice_index};
ghost use Rattle.std.specs.List.Sorted.{IsStrictlyIncreasing};
ghost use Rattle.cu_interval.specs.declared.ways.TouchedEdge.{TouchedEdge};
ghost use Rattle.cu_interval.specs.Shortcuts.{number_of};
ghost use Rattle.cu_short.specs.Counts.{AreRoadCountsBut};
ghost use Rattle.cu_short.specs.Steps.Counted.{AreCountedBelow, CountsAll};
ghost use Rattle.cu_short.specs.Steps.Recounted.{RecountsEdge, RecountsList};

use crate::list_roads::list_roads;
use cu_bounds::Searching;
use cu_interval::{Dir, Shortcut, TouchedEdge, Ways};

/// Counts the most roads of the lists of some edges anew, in the place of their old ones, and answers whether those of all lists
/// are fewer than there are nodes. Stops behind the first list that has as many.
pub fn renew_lists<W: Ways>(ways: &W, counts: &mut [u32], lists: &[TouchedEdge]) -> bool
    requires rising { IsStrictlyIncreasing
        (map (λ (touched : TouchedEdge). touched.edge) lists.now) }
    requires edges { All
        (λ (touched : TouchedEdge). touched.edge < length (W.hierarchy ways.now).edges)
        lists.now }
    requires kept { AreRoadCountsBut (W.hierarchy ways.now) counts.old
        (map (λ (touched : TouchedEdge). touched.edge) lists.now) }
    ensures counted { CountsAll (W.hierarchy ways.now) counts.new result }
{
    for touched in lists {
        if !renew_edge(ways, counts, touched.edge) {
            return false;
        }
    }
    true
}

// Counts the most roads of both lists of an edge anew, and answers whether they are fewer than there are nodes. All lists before
// these are counted.
fn renew_edge<W: Ways>(ways: &W, counts: &mut [u32], edge: u32) -> bool
    requires edge { edge < length (W.hierarchy ways.now).edges }
    requires long { length counts.old ≡ 2 * length (W.hierarchy ways.now).edges }
    requires right { AreCountedBelow (W.hierarchy ways.now) (slice_index counts.old) (2 * edge) }
    ensures { RecountsEdge (W.hierarchy ways.now) counts.old counts.new edge result }
{
    let up = Shortcut { edge, dir: Dir::Up };
    if !renew_list(ways, counts, up) {
        return false;
    }
    let down = Shortcut {
        edge,
        dir: Dir::Down,
    };
    renew_list(ways, counts, down)
}

// Counts the most roads of a list anew, and answers whether they are fewer than there are nodes. All lists before it are counted.
fn renew_list<W: Ways>(ways: &W, counts: &mut [u32], shortcut: Shortcut) -> bool
    requires edge { shortcut.edge < length (W.hierarchy ways.now).edges }
    requires long { length counts.old ≡ 2 * length (W.hierarchy ways.now).edges }
    requires right { AreCountedBelow (W.hierarchy ways.now) (slice_index counts.old)
        (number_of shortcut) }
    ensures { RecountsList (W.hierarchy ways.now) counts.old counts.new shortcut result }
{
    let most = list_roads(ways, &*counts, &mut Searching { ways }, shortcut);
    counts[shortcut.list()] = most;
    most < ways.nodes()
}
