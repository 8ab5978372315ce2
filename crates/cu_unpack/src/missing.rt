//! Whatever knows shortcuts, and the search for a half that isn't known.

ghost use Rattle.std.specs.Prelude.{◌≡◌, ◌<◌, ◌*◌, ◌↔◌, ℕ, IsTrue, length};
ghost use Rattle.cu_interval.specs.Hierarchies.{IsHierarchy};
ghost use Rattle.cu_interval.specs.declared.shortcuts.Shortcut.{Shortcut};
ghost use Rattle.cu_interval.specs.Shortcuts.{number_of, ways_of};
ghost use Rattle.cu_unpack.specs.Steps.Rebuilding.{FindsHalf, FindsMissing, IsWayOf};

use cu_interval::{Shortcut, Way, Ways, halves};

/// Whatever knows some of so many lists, by number. No call takes memory.
pub trait Known {
    ghost lists: { Self → ℕ };

    ghost knows: { Self → Shortcut → Type 0 };

    /// Whether a shortcut is known. The number of its list is below the number of lists.
    fn is_known(&self, shortcut: Shortcut) -> bool
        requires { number_of shortcut < lists self.now }
        ensures { IsTrue result ↔ knows self.now shortcut };
}

/// A half of a shortcut, of a lower edge, that isn't known. None where all halves of all its ways are.
pub fn missing_half<W: Ways, K: Known>(ways: &W, known: &K, shortcut: Shortcut) -> Option<Shortcut>
    requires edge { shortcut.edge < length (W.hierarchy ways.now).edges }
    requires size { K.lists known.now ≡ 2 * length (W.hierarchy ways.now).edges }
    ensures missing { FindsMissing (W.hierarchy ways.now) (K.knows known.now) shortcut
        (ways_of (W.hierarchy ways.now) shortcut) result }
{
    for index in 0..ways.entries(shortcut.edge, shortcut.dir) {
        let entry = ways.entry(shortcut.edge, shortcut.dir, index);
        let half = missing_half_of(ways, known, shortcut, entry.way);
        if half.is_some() {
            return half;
        }
    }
    None
}

// The same of one way.
fn missing_half_of<W: Ways, K: Known>(
    ways: &W,
    known: &K,
    shortcut: Shortcut,
    way: Way,
) -> Option<Shortcut>
    requires sound { IsHierarchy (W.hierarchy ways.now) }
    requires way { IsWayOf (W.hierarchy ways.now) shortcut way }
    requires size { K.lists known.now ≡ 2 * length (W.hierarchy ways.now).edges }
    ensures missing { FindsHalf (W.hierarchy ways.now) (K.knows known.now) shortcut way result }
{
    let Way::Via(middle) = way else {
        return None;
    };
    let (first, second) = halves(ways, shortcut, middle);
    if !known.is_known(first) {
        return Some(first);
    }
    if !known.is_known(second) {
        return Some(second);
    }
    None
}
