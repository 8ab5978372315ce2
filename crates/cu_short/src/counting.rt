//! The most roads of all lists, counted in turn.

ghost use Rattle.std.specs.Prelude.{◌≡◌, ◌<◌, ◌+◌, [], IfOk, length};
ghost use Rattle.cu_bounds.specs.Steps.InTurn.{IsFinderUpTo};
ghost use Rattle.cu_interval.specs.Shortcuts.{number_of};
ghost use Rattle.cu_short.specs.Steps.Counted.{AreFirstCounts, CountsAll, CountsOn};

use crate::list_roads::list_roads;
use cu_bounds::Halving;
use cu_interval::{Dir, Shortcut, Ways};
use cu_model::NoMemory;

/// Adds the most roads of each list to no counts, and answers whether those of all lists are fewer than there are nodes. Stops
/// behind the first list that has as many.
pub fn count_lists<W: Ways, F: Halving>(
    ways: &W,
    finder: &mut F,
    counts: &mut Vec<u32>,
) -> Result<bool, NoMemory>
    requires none { counts.old.items ≡ [] }
    requires finder { IsFinderUpTo (W.hierarchy ways.now) 0 (F.hierarchy finder.old)
        (F.reached finder.old) }
    ensures counted { IfOk result (CountsAll (W.hierarchy ways.now) counts.new.items) }
{
    for edge in 0..ways.edges() {
        let up = Shortcut { edge, dir: Dir::Up };
        if !count_list(ways, finder, counts, up)? {
            return Ok(false);
        }
        let down = Shortcut {
            edge,
            dir: Dir::Down,
        };
        if !count_list(ways, finder, counts, down)? {
            return Ok(false);
        }
    }
    Ok(true)
}

// Adds the most roads of a list to those of all lists before it, and answers whether they are fewer than there are nodes.
fn count_list<W: Ways, F: Halving>(
    ways: &W,
    finder: &mut F,
    counts: &mut Vec<u32>,
    shortcut: Shortcut,
) -> Result<bool, NoMemory>
    requires edge { shortcut.edge < length (W.hierarchy ways.now).edges }
    requires first { AreFirstCounts (W.hierarchy ways.now) counts.old.items (number_of shortcut) }
    requires finder { IsFinderUpTo (W.hierarchy ways.now) shortcut.edge (F.hierarchy finder.old)
        (F.reached finder.old) }
    ensures counted { IfOk result (CountsOn (W.hierarchy ways.now) counts.new.items
        (number_of shortcut + 1)) }
    ensures finder { IsFinderUpTo (W.hierarchy ways.now) shortcut.edge (F.hierarchy finder.new)
        (F.reached finder.new) }
{
    let most = list_roads(ways, counts.as_slice(), finder, shortcut);
    counts.push(most)?;
    Ok(most < ways.nodes())
}
