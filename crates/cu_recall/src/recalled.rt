//! The ways of a packed file, by what queries keep of them.

ghost use Rattle.std.specs.Prelude.{◌≡◌, ◌<◌, ◌*◌, length};
ghost use Rattle.cu_interval.specs.Hierarchies.{IsHierarchy, IsHierarchyOf, graph_of, list_of};
ghost use Rattle.cu_interval.specs.WayLists.{way_at};
ghost use Rattle.cu_recall.specs.Spans.{Knows};

use crate::looking::met_last;
use crate::recall::asked_of;
use crate::spans::{Parts, Row};
use cu_chordal::{Chordal, Ends};
use cu_interval::{BoundedWays, Dir, Entry, Way, Ways};
use cu_model::{Piece, RoadArc, Roads};
use cu_pack::PackedView;
use std::marker::Model;

/// The ways of a packed file, where queries met them by the rows that they keep of them, and its edges by its graph. Contracts
/// see the hierarchy.
#[derive(Drop)]
pub struct RecalledWays<'a> {
    view: &'a PackedView<'a>,
    graph: &'a Chordal,
    rows: &'a [Row],
}

impl<'a> Model for RecalledWays<'a> {
    ghost use Rattle.cu_interval.specs.Hierarchies.{HierarchyValue, IsHierarchyOf};
    ghost use Rattle.cu_recall.specs.Spans.{Knows};

    ghost Value = { HierarchyValue };

    ghost view = { λ ways. ways.view.now };

    ghost invariant = { λ ways. IsHierarchyOf ways.graph.now ways.view.now
        × Knows ways.view.now ways.rows.now };
}

impl<'a> RecalledWays<'a> {
    /// The ways of this file, whose graph this is, by the rows of its first lists, or of none, which say nothing but what is
    /// so of its hierarchy. Takes no memory.
    pub fn new(view: &'a PackedView<'a>, graph: &'a Chordal, rows: &'a [Row]) -> RecalledWays<'a>
        requires graph { IsHierarchyOf graph.now view.now }
        requires knows { Knows view.now rows.now }
        ensures view { result ≡ view.now }
    {
        RecalledWays { view, graph, rows }
    }
}

impl<'a> Roads for RecalledWays<'a> {
    ghost network = { λ h. h.network };

    fn nodes(&self) -> u32 {
        self.view.nodes()
    }

    fn arcs(&self) -> u32 {
        self.view.arcs()
    }

    fn profiles(&self) -> u32 {
        self.view.profiles()
    }

    fn arc(&self, arc: u32) -> RoadArc {
        self.view.arc(arc)
    }

    fn closed(&self, arc: u32) -> bool {
        self.view.closed(arc)
    }

    fn drive(&self, arc: u32, second: u64) -> u64 {
        self.view.drive(arc, second)
    }

    fn pieces(&self, profile: u32) -> u32 {
        self.view.pieces(profile)
    }

    fn piece(&self, profile: u32, index: u32) -> Piece {
        self.view.piece(profile, index)
    }
}

impl<'a> Ways for RecalledWays<'a> {
    ghost hierarchy = { λ h. h };

    ghost same_network = { λ h i. h.network };

    fn rank(&self, node: u32) -> u32 {
        self.view.rank(node)
    }

    fn node(&self, rank: u32) -> u32 {
        self.view.node(rank)
    }

    fn ranks(&self) -> u32 {
        self.view.ranks()
    }

    fn edges(&self) -> u32 {
        self.view.edges()
    }

    #[inline(always)]
    fn ends(&self, edge: u32) -> Ends {
        self.graph.ends(edge)
    }

    #[inline(always)]
    fn edge(&self, low: u32, high: u32) -> Option<u32> {
        self.graph.edge(low, high)
    }

    #[inline(always)]
    fn way(&self, edge: u32, dir: Dir, second: u64) -> Option<Way> {
        way_over(self.view, self.graph, self.rows, edge, dir, second)
    }

    fn entries(&self, edge: u32, dir: Dir) -> u32 {
        self.view.entries(edge, dir)
    }

    fn entry(&self, edge: u32, dir: Dir, index: u32) -> Entry {
        self.view.entry(edge, dir, index)
    }
}

impl<'a> BoundedWays for RecalledWays<'a> {
    fn least(&self, edge: u32, dir: Dir) -> u64 {
        self.view.least(edge, dir)
    }
}

// The way that is taken at a second, by the entry met last where that is in force, or else by the bytes.
#[inline(always)]
fn way_over(
    view: &PackedView<'_>,
    graph: &Chordal,
    rows: &[Row],
    edge: u32,
    dir: Dir,
    second: u64,
) -> Option<Way>
    requires graph { graph.now ≡ graph_of view.now }
    requires edge { edge < length view.now.edges }
    requires knows { Knows view.now rows.now }
    requires sound { IsHierarchy view.now }
    ensures way { result ≡ way_at (list_of view.now edge dir) second }
{
    let asked = asked_of(edge, dir, second);
    if asked.list as usize >= rows.len() {
        return view.way(edge, dir, second);
    }
    let Some(met) = met_last(rows, asked) else {
        return view.way(edge, dir, second);
    };
    // A middle is below both ends of what it parts, so it is the lower end of each half.
    match met.parts {
        Parts::Road(road) => Some(Way::Road(road)),
        Parts::Halves { first, .. } => Some(Way::Via(graph.ends(first / 2).low)),
    }
}
