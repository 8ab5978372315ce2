//! Making the sequence of a list, and forgetting those of lists.

ghost use Rattle.std.specs.Prelude.{◌≡◌, ◌≢◌, ◌<◌, ℕ, List, Some, length, map, slice_get};
ghost use Rattle.cu_bounds.specs.Steps.InTurn.{IsFinderUpTo, IsWayOf};
ghost use Rattle.cu_interval.specs.declared.ways.TouchedEdge.{TouchedEdge};
ghost use Rattle.cu_interval.specs.Hierarchies.{HierarchyValue, IsHierarchy};
ghost use Rattle.cu_sequences.specs.Kept.{AreSequences};
ghost use Rattle.cu_sequences.specs.Steps.Putting.{Forgets, Grows, PutsWay};

use crate::putting::{put_both, put_road};
use crate::sequences::NO_START;
use cu_bounds::Halving;
use cu_interval::{Shortcut, TouchedEdge, Way, Ways};

/// Makes the sequence of a list, where its only entry has one that finds room.
pub fn make_list<W: Ways, F: Halving>(
    ways: &W,
    finder: &mut F,
    starts: &mut [u32],
    roads: &mut Vec<u32>,
    shortcut: Shortcut,
)
    requires edge { shortcut.edge < length (W.hierarchy ways.now).edges }
    requires holds { AreSequences (W.hierarchy ways.now)
        (record { starts = starts.old; roads = roads.old.items }) }
    requires finder { IsFinderUpTo (W.hierarchy ways.now) shortcut.edge (F.hierarchy finder.old)
        (F.reached finder.old) }
    ensures holds { AreSequences (W.hierarchy ways.now)
        (record { starts = starts.new; roads = roads.new.items }) }
    ensures finder { IsFinderUpTo (W.hierarchy ways.now) shortcut.edge (F.hierarchy finder.new)
        (F.reached finder.new) }
{
    let list = shortcut.list();
    if list >= starts.len() || ways.entries(shortcut.edge, shortcut.dir) != 1 {
        return;
    }
    let entry = ways.entry(shortcut.edge, shortcut.dir, 0);
    let start = put_way(ways, finder, starts, roads, shortcut, entry.way);
    starts[list] = start;
}

/// Makes the places of the lists up to one of them, where they aren't there yet and there is room: nothing stands there. Takes no
/// memory.
pub fn make_places(starts: &mut Vec<u32>, list: usize)
    ensures { (h : HierarchyValue) (roads : List ℕ)
        → AreSequences h (record { starts = starts.old.items; roads = roads })
        → AreSequences h (record { starts = starts.new.items; roads = roads }) }
{
    if list < starts.len() || list >= starts.capacity() {
        return;
    }
    match starts.resize(list + 1, NO_START) {
        Ok(()) => {}
        Err(_) => {}
    }
}

// Adds the roads of a way, where both halves have a sequence that is kept and there is room, and answers where they stand.
fn put_way<W: Ways, F: Halving>(
    ways: &W,
    finder: &mut F,
    starts: &[u32],
    roads: &mut Vec<u32>,
    shortcut: Shortcut,
    way: Way,
) -> u32
    requires sound { IsHierarchy (W.hierarchy ways.now) }
    requires holds { AreSequences (W.hierarchy ways.now)
        (record { starts = starts.now; roads = roads.old.items }) }
    requires finder { IsFinderUpTo (W.hierarchy ways.now) shortcut.edge (F.hierarchy finder.old)
        (F.reached finder.old) }
    requires way { IsWayOf (W.hierarchy ways.now) shortcut way }
    ensures puts { PutsWay (W.hierarchy ways.now) shortcut way roads.new.items result }
    ensures grows { Grows roads.old.items roads.new.items }
    ensures finder { IsFinderUpTo (W.hierarchy ways.now) shortcut.edge (F.hierarchy finder.new)
        (F.reached finder.new) }
{
    match way {
        Way::Road(road) => put_road(roads, road),
        Way::Via(middle) => {
            let (first, second) = finder.halves(shortcut, middle);
            let one = start_at(starts, first.list());
            let two = start_at(starts, second.list());
            put_both(roads, one, two)
        }
    }
}

// Where the roads of a list stand, if any are kept.
#[inline(always)]
pub fn start_at(starts: &[u32], list: usize) -> u32
    ensures there { result ≢ NO_START → slice_get starts.now list ≡ Some result }
    ensures is { (start : ℕ) → slice_get starts.now list ≡ Some start → result ≡ start }
{
    if list >= starts.len() {
        return NO_START;
    }
    starts[list]
}

/// Forgets where the roads of the lists of some edges stand.
pub fn forget_lists(starts: &mut [u32], lists: &[TouchedEdge])
    ensures { Forgets starts.old starts.new
        (map (λ (touched : TouchedEdge). touched.edge) lists.now) }
{
    'lists: for touched in lists {
        let up = 2 * touched.edge as usize;
        forget(starts, up);
        forget(starts, up + 1);
    }
}

// Forgets where the roads of a list stand, if it is there.
fn forget(starts: &mut [u32], list: usize)
    ensures size { length starts.new ≡ length starts.old }
    ensures gone { (start : ℕ) → slice_get starts.new list ≡ Some start → start ≡ NO_START }
    ensures stay { (other : ℕ) → other ≢ list → slice_get starts.new other ≡ slice_get starts.old other }
{
    if list < starts.len() {
        starts[list] = NO_START;
    }
}
