//! Shortcuts, the ranks that they lead from and to, and their halves at a middle.

ghost use Rattle.std.specs.Prelude.{◌≡◌, ◌<◌, Some, slice_get};
ghost use Rattle.cu_chordal.specs.Graphs.{HasEdge, IsChordal};
ghost use Rattle.cu_interval.specs.Hierarchies.{IsHierarchy, end_of, start_of};
ghost use Rattle.cu_interval.specs.Shortcuts.{AreHalves, FindsHalves, IsMiddle, number_of};

use crate::hierarchy::Ways;
use crate::ways::Dir;
use cu_chordal::{Chordal, Ends};

/// A shortcut: the number of an edge, and a direction.
#[derive(Clone, Copy, PartialEq, Eq)]
pub struct Shortcut {
    pub edge: u32,
    pub dir: Dir,
}

impl Shortcut {
    /// The number of its list: twice its edge's number upwards, and one more downwards.
    pub fn list(self) -> usize
        ensures number { result ≡ number_of self }
    {
        match self.dir {
            Dir::Up => 2 * self.edge as usize,
            Dir::Down => 2 * self.edge as usize + 1,
        }
    }
}

/// The ranks that a shortcut leads from and to.
#[derive(Clone, Copy, PartialEq, Eq)]
pub struct Leg {
    pub from: u32,
    pub to: u32,
}

/// The ranks that an edge with these ends leads from and to in a direction.
pub fn leg_of(ends: Ends, dir: Dir) -> Leg
    ensures from { result.from ≡ start_of ends dir }
    ensures to { result.to ≡ end_of ends dir }
{
    match dir {
        Dir::Up => Leg {
            from: ends.low,
            to: ends.high,
        },
        Dir::Down => Leg {
            from: ends.high,
            to: ends.low,
        },
    }
}

/// The halves of a shortcut at a middle, which edges join to both of its ends: downwards to it, and upwards from it. Takes
/// no memory.
pub fn halves<W: Ways>(ways: &W, shortcut: Shortcut, middle: u32) -> (Shortcut, Shortcut)
    requires sound { IsHierarchy (W.hierarchy ways.now) }
    requires middle { IsMiddle (W.hierarchy ways.now) shortcut.edge shortcut.dir middle }
    ensures halves { AreHalves (W.hierarchy ways.now) shortcut middle result.0 result.1 }
{
    let leg = leg_of(ways.ends(shortcut.edge), shortcut.dir);
    let first = Shortcut {
        edge: edge_to(ways, middle, leg.from),
        dir: Dir::Down,
    };
    let second = Shortcut {
        edge: edge_to(ways, middle, leg.to),
        dir: Dir::Up,
    };
    (first, second)
}

// The edge between two ranks, which there is.
fn edge_to<W: Ways>(ways: &W, low: u32, high: u32) -> u32
    requires sound { IsHierarchy (W.hierarchy ways.now) }
    requires there { HasEdge (W.hierarchy ways.now).edges low high }
    ensures edge { slice_get (W.hierarchy ways.now).edges result
        ≡ Some (record { low = low; high = high }) }
{
    let Some(edge) = ways.edge(low, high) else {
        unreachable!()
    };
    edge
}

/// The edges between a middle, below the number of ranks, and the rank that an edge with these ends leads from in a
/// direction, and between it and the rank that it leads to. None where one of them isn't there. Takes no memory.
pub fn find_halves(graph: &Chordal, ends: Ends, dir: Dir, middle: u32) -> Option<(u32, u32)>
    requires { middle < graph.now.ranks }
    ensures found { FindsHalves graph.now.edges ends dir middle result }
    ensures sound { IsChordal graph.now }
{
    let leg = leg_of(ends, dir);
    let first = graph.edge(middle, leg.from)?;
    let second = graph.edge(middle, leg.to)?;
    Some((first, second))
}
