//! The least bounds of all lists, and the first list for which another number is kept.

ghost use Rattle.std.specs.Prelude.{◌≡◌, ◌<◌, ◌+◌, ◌*◌, ◌↔◌, IfOk, IsTrue, length, map};
ghost use Rattle.cu_interval.specs.Hierarchies.{IsHierarchy};
ghost use Rattle.cu_interval.specs.LeastBounds.{least_bound};
ghost use Rattle.cu_interval.specs.LeastPieces.{pieces_least};
ghost use Rattle.cu_interval.specs.Shortcuts.{number_of};
ghost use Rattle.cu_bounds.specs.KeptBounds.{AreRightBelow, FindsFirstWrong, bounds_of};
ghost use Rattle.cu_bounds.specs.Steps.InTurn.{AreFirstBounds, FindsWrongBelow, IsFinderUpTo};

use crate::halving::{Halving, Searching};
use crate::kept::{BoundsSoFar, KeptBounds};
use crate::list_bounds::list_bound;
use crate::travels::least_travels;
use cu_interval::{Dir, Shortcut, Ways};
use cu_model::NoMemory;
use std::alloc::Global;

/// The least bound of each list of a hierarchy, by its number: in seconds, and 2^60 where the list has no entry.
pub fn least_bounds<W: Ways>(alloc: Global, ways: &W) -> Result<Vec<u64>, NoMemory>
    ensures bounds { IfOk result (λ bounds. bounds.items ≡ bounds_of (W.hierarchy ways.now)) }
{
    let travels = least_travels(alloc, ways)?;
    let mut bounds = Vec::with_capacity(alloc, 2 * ways.edges() as usize)?;
    for edge in 0..ways.edges() {
        let up = Shortcut { edge, dir: Dir::Up };
        push_bound(ways, &travels, &mut bounds, up)?;
        let down = Shortcut {
            edge,
            dir: Dir::Down,
        };
        push_bound(ways, &travels, &mut bounds, down)?;
    }
    Ok(bounds)
}

// Adds the least bound of a list to those of all lists before it.
fn push_bound<W: Ways>(
    ways: &W,
    travels: &[u32],
    bounds: &mut Vec<u64>,
    shortcut: Shortcut,
) -> Result<(), NoMemory>
    requires edge { shortcut.edge < length (W.hierarchy ways.now).edges }
    requires travels { travels.now ≡ map pieces_least (W.hierarchy ways.now).network.profiles }
    requires first { AreFirstBounds (W.hierarchy ways.now) bounds.old.items (number_of shortcut) }
    ensures { IfOk result (λ _.
        AreFirstBounds (W.hierarchy ways.now) bounds.new.items (number_of shortcut + 1)) }
{
    let so_far = BoundsSoFar {
        bounds: bounds.as_slice(),
    };
    let finder = &mut Searching { ways };
    let bound = list_bound(ways, travels, &so_far, finder, shortcut);
    bounds.push(bound)?;
    Ok(())
}

/// The first list, by number, whose kept number isn't its least bound; none where all are. Two lists are kept for each
/// edge.
pub fn first_wrong_bound<W: Ways, K: KeptBounds>(
    alloc: Global,
    ways: &W,
    kept: &K,
) -> Result<Option<Shortcut>, NoMemory>
    requires lists { K.lists kept.now ≡ 2 * length (W.hierarchy ways.now).edges }
    ensures first { IfOk result
        (λ found. FindsFirstWrong (W.hierarchy ways.now) (K.kept kept.now) found) }
{
    first_wrong_bound_by(alloc, ways, kept, &mut Searching { ways })
}

/// The same, by a finder of this hierarchy's halves that has come to no edge yet.
pub fn first_wrong_bound_by<W: Ways, K: KeptBounds, F: Halving>(
    alloc: Global,
    ways: &W,
    kept: &K,
    finder: &mut F,
) -> Result<Option<Shortcut>, NoMemory>
    requires lists { K.lists kept.now ≡ 2 * length (W.hierarchy ways.now).edges }
    requires same { F.hierarchy finder.old ≡ W.hierarchy ways.now }
    requires begins { F.reached finder.old ≡ 0 }
    ensures first { IfOk result
        (λ found. FindsFirstWrong (W.hierarchy ways.now) (K.kept kept.now) found) }
{
    let travels = least_travels(alloc, ways)?;
    Ok(first_wrong(ways, &travels, kept, finder))
}

// The same, by the least travel of each profile.
fn first_wrong<W: Ways, K: KeptBounds, F: Halving>(
    ways: &W,
    travels: &[u32],
    kept: &K,
    finder: &mut F,
) -> Option<Shortcut>
    requires lists { K.lists kept.now ≡ 2 * length (W.hierarchy ways.now).edges }
    requires travels { travels.now ≡ map pieces_least (W.hierarchy ways.now).network.profiles }
    requires finder { IsFinderUpTo (W.hierarchy ways.now) 0 (F.hierarchy finder.old)
        (F.reached finder.old) }
    ensures { FindsFirstWrong (W.hierarchy ways.now) (K.kept kept.now) result }
{
    for edge in 0..ways.edges() {
        let wrong = wrong_list(ways, travels, kept, finder, edge);
        if wrong.is_some() {
            return wrong;
        }
    }
    None
}

// The first list of an edge whose kept number isn't its least bound. All lists of the edges before it are right.
fn wrong_list<W: Ways, K: KeptBounds, F: Halving>(
    ways: &W,
    travels: &[u32],
    kept: &K,
    finder: &mut F,
    edge: u32,
) -> Option<Shortcut>
    requires sound { IsHierarchy (W.hierarchy ways.now) }
    requires edge { edge < length (W.hierarchy ways.now).edges }
    requires lists { K.lists kept.now ≡ 2 * length (W.hierarchy ways.now).edges }
    requires travels { travels.now ≡ map pieces_least (W.hierarchy ways.now).network.profiles }
    requires right { AreRightBelow (W.hierarchy ways.now) (K.kept kept.now) (2 * edge) }
    requires finder { IsFinderUpTo (W.hierarchy ways.now) edge (F.hierarchy finder.old)
        (F.reached finder.old) }
    ensures wrong { FindsWrongBelow (W.hierarchy ways.now) (K.kept kept.now) (2 * edge + 2) result }
    ensures finder { IsFinderUpTo (W.hierarchy ways.now) edge (F.hierarchy finder.new)
        (F.reached finder.new) }
{
    let up = Shortcut { edge, dir: Dir::Up };
    if !is_right(ways, travels, kept, finder, up) {
        return Some(up);
    }
    let down = Shortcut {
        edge,
        dir: Dir::Down,
    };
    if !is_right(ways, travels, kept, finder, down) {
        return Some(down);
    }
    None
}

// Whether the least bound of a list is kept for it. So it is for all lists before it.
fn is_right<W: Ways, K: KeptBounds, F: Halving>(
    ways: &W,
    travels: &[u32],
    kept: &K,
    finder: &mut F,
    shortcut: Shortcut,
) -> bool
    requires sound { IsHierarchy (W.hierarchy ways.now) }
    requires edge { shortcut.edge < length (W.hierarchy ways.now).edges }
    requires lists { K.lists kept.now ≡ 2 * length (W.hierarchy ways.now).edges }
    requires travels { travels.now ≡ map pieces_least (W.hierarchy ways.now).network.profiles }
    requires right { AreRightBelow (W.hierarchy ways.now) (K.kept kept.now) (number_of shortcut) }
    requires finder { IsFinderUpTo (W.hierarchy ways.now) shortcut.edge (F.hierarchy finder.old)
        (F.reached finder.old) }
    ensures right { IsTrue result ↔ (K.kept kept.now (number_of shortcut)
        ≡ least_bound (W.hierarchy ways.now) shortcut.edge shortcut.dir) }
    ensures finder { IsFinderUpTo (W.hierarchy ways.now) shortcut.edge (F.hierarchy finder.new)
        (F.reached finder.new) }
{
    let bound = list_bound(ways, travels, kept, finder, shortcut);
    kept.kept(shortcut.list() as u32) == bound
}
