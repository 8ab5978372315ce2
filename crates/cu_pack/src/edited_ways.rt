//! A view's hierarchy as edits leave it, before it is packed.

ghost use Rattle.std.specs.Prelude.{◌≡◌, ◌≤◌, IfNone, IfSome, length, map, nat_le, true, false};
ghost use Rattle.std.specs.List.Sorted.{IsNonDecreasingBy, IsPartitionPoint, IsStrictlyIncreasing};
ghost use Rattle.cu_interval.specs.declared.ways.TouchedEdge.{TouchedEdge};
ghost use Rattle.cu_pack.specs.Repacking.{with_roads};
ghost use Rattle.cu_pack.specs.Steps.Replacing.{FitsLists, IsNewList, IsUntouched, list_after};

use crate::view::PackedView;
use cu_chordal::Ends;
use cu_interval::{Dir, Entry, TouchedEdge, Way, WayList, Ways};
use cu_model::{Piece, RoadArc, Roads};
use std::marker::Model;

/// The hierarchy of a view with other roads, and with the lists of some edges replaced. Contracts see the hierarchy.
#[derive(Drop)]
pub struct EditedWays<'a, 'b, R: Roads> {
    view: &'a PackedView<'b>,
    roads: &'a R,
    lists: &'a [TouchedEdge],
}

impl<'a, 'b, R: Roads> Model for EditedWays<'a, 'b, R> {
    ghost use Rattle.cu_interval.specs.Hierarchies.{HierarchyValue};
    ghost use Rattle.cu_pack.specs.Repacking.{with_roads};
    ghost use Rattle.cu_pack.specs.Steps.Replacing.{FitsLists};

    ghost Value = { HierarchyValue };

    ghost view = { λ after. with_roads after.view.now (R.network after.roads.now) after.lists.now };

    ghost invariant = { λ after. FitsLists after.view.now (R.network after.roads.now) after.lists.now };
}

impl<'a, 'b, R: Roads> EditedWays<'a, 'b, R> {
    /// The hierarchy with these roads and lists. Takes no memory.
    pub fn of(
        view: &'a PackedView<'b>,
        roads: &'a R,
        lists: &'a [TouchedEdge],
    ) -> EditedWays<'a, 'b, R>
        requires fits { FitsLists view.now (R.network roads.now) lists.now }
        ensures { result ≡ with_roads view.now (R.network roads.now) lists.now }
    {
        EditedWays { view, roads, lists }
    }
}

impl<'a, 'b, R: Roads> Roads for EditedWays<'a, 'b, R> {
    ghost network = { λ h. h.network };

    fn nodes(&self) -> u32 {
        self.roads.nodes()
    }

    fn arcs(&self) -> u32 {
        self.roads.arcs()
    }

    fn profiles(&self) -> u32 {
        self.roads.profiles()
    }

    fn arc(&self, arc: u32) -> RoadArc {
        self.roads.arc(arc)
    }

    fn closed(&self, arc: u32) -> bool {
        self.roads.closed(arc)
    }

    fn drive(&self, arc: u32, second: u64) -> u64 {
        self.roads.drive(arc, second)
    }

    fn pieces(&self, profile: u32) -> u32 {
        self.roads.pieces(profile)
    }

    fn piece(&self, profile: u32, index: u32) -> Piece {
        self.roads.piece(profile, index)
    }
}

impl<'a, 'b, R: Roads> Ways for EditedWays<'a, 'b, R> {
    ghost hierarchy = { λ h. h };

    ghost same_network = { λ h i. h.network };

    fn rank(&self, node: u32) -> u32 {
        self.view.rank(node)
    }

    fn node(&self, rank: u32) -> u32 {
        self.view.node(rank)
    }

    fn ranks(&self) -> u32 {
        self.view.ranks()
    }

    fn edges(&self) -> u32 {
        self.view.edges()
    }

    fn ends(&self, edge: u32) -> Ends {
        self.view.ends(edge)
    }

    fn edge(&self, low: u32, high: u32) -> Option<u32> {
        self.view.edge(low, high)
    }

    fn way(&self, edge: u32, dir: Dir, second: u64) -> Option<Way> {
        let Some(list) = find_list(self.lists, edge, dir) else {
            return self.view.way(edge, dir, second);
        };
        list.at(second)
    }

    fn entries(&self, edge: u32, dir: Dir) -> u32 {
        let Some(list) = find_list(self.lists, edge, dir) else {
            return self.view.entries(edge, dir);
        };
        list.entries().len() as u32
    }

    fn entry(&self, edge: u32, dir: Dir, index: u32) -> Entry {
        let Some(list) = find_list(self.lists, edge, dir) else {
            return self.view.entry(edge, dir, index);
        };
        list.entries()[index as usize]
    }
}

// The new list of an edge in a direction, where it has one.
fn find_list<'a>(lists: &'a [TouchedEdge], edge: u32, dir: Dir) -> Option<&'a WayList>
    requires rising { IsStrictlyIncreasing
        (map (λ (touched : TouchedEdge). touched.edge) lists.now) }
    ensures found { IfSome result (λ list. IsNewList lists.now edge dir list.now) }
    ensures none { IfNone result (IsUntouched lists.now edge) }
{
    let count = count_up_to(lists, edge);
    if count == 0 {
        return None;
    }
    let touched = &lists[count - 1];
    if touched.edge != edge {
        return None;
    }
    Some(list_of(touched, dir))
}

// The new list of an edge in a direction.
fn list_of(touched: &TouchedEdge, dir: Dir) -> &WayList
    ensures { result.now ≡ list_after touched.now dir }
{
    match dir {
        Dir::Up => &touched.up,
        Dir::Down => &touched.down,
    }
}

// How many of the edges are at most another.
fn count_up_to(lists: &[TouchedEdge], edge: u32) -> usize
    requires { IsNonDecreasingBy (λ (touched : TouchedEdge). touched.edge) lists.now }
    ensures bound { result ≤ length lists.now }
    ensures point { IsPartitionPoint
        (λ (touched : TouchedEdge). nat_le touched.edge edge ≡ true)
        (λ (touched : TouchedEdge). nat_le touched.edge edge ≡ false)
        lists.now result }
{
    lists.partition_point(|touched| touched.edge <= edge)
}
