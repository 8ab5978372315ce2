//! Shortcuts that wait for a half, and the ways that a list has had already.

ghost use Rattle.std.specs.Prelude.{◌≤◌, ◌<◌, IsTrue, length};
ghost use Rattle.cu_interval.specs.Shortcuts.{ways_of};
ghost use Rattle.cu_unpack.specs.Steps.Rebuilding.{IsAmong, Takes};

use cu_interval::{Shortcut, Way, Ways};

/// Takes the last that waits; this shortcut where none waits.
pub fn take_next(waiting: &mut Vec<Shortcut>, shortcut: Shortcut) -> Shortcut
    ensures { Takes waiting.old.items shortcut waiting.new.items result }
{
    waiting.pop().unwrap_or(shortcut)
}

/// Whether a way is one of a shortcut's first, so many of them.
pub fn is_among<W: Ways>(ways: &W, shortcut: Shortcut, count: u32, way: Way) -> bool
    requires edge { shortcut.edge < length (W.hierarchy ways.now).edges }
    requires count { count ≤ length (ways_of (W.hierarchy ways.now) shortcut) }
    ensures { IsTrue result → IsAmong (ways_of (W.hierarchy ways.now) shortcut) count way }
{
    for index in 0..count {
        if ways.entry(shortcut.edge, shortcut.dir, index).way == way {
            return true;
        }
    }
    false
}
