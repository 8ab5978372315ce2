//! What is known of the list downwards over one edge, for passes that go down over many ranks.

ghost use Rattle.std.specs.Prelude.{◌≡◌, ◌≤◌, ◌<◌, ◌*◌, ◌%◌, ◌↔◌, ℕ, IsTrue, length, vec_capacity};
ghost use Rattle.cu_interval.specs.declared.ways.Dir.TheVariants.{Down};
ghost use Rattle.cu_interval.specs.Hierarchies.{HierarchyValue, IsHierarchy, list_number};
ghost use Rattle.cu_interval.specs.LeastBounds.{least_bound};
ghost use Rattle.cu_recall.specs.Downs.{HasDriven, HoldsDown, KnowsDowns};
ghost use Rattle.cu_recall.specs.Windows.{HoldsDriven, IsWindow};

use crate::spans::{Driven, THIRDS};
use cu_interval::{BoundedWays, Dir, Ways};
use cu_pack::PackedView;
use std::mem::size_of;

/// What is known of the list downwards over one edge: its least bound, where that is below [`NO_BOUND`], and the latest span at
/// which it was driven: `seconds` seconds of the day from `from` on, at each of which its walk takes `travel` seconds. Where
/// there are none the span says nothing.
///
/// An edge has one in each of three tables, for the passes that leave in one third of the day: those that leave at other times
/// drive most lists at seconds so far away that they would only write over its span. A pass over all edges reads one for each, in
/// 16 bytes, where a row of all that is known has 64 and the file's bound 8 more.
#[derive(Clone, Copy, PartialEq, Eq)]
pub struct DownSpan {
    pub least: u32,
    pub from: u32,
    pub seconds: u32,
    pub travel: u32,
}

/// In place of a least bound that finds no room, as that of a list without ways: the file has it.
pub const NO_BOUND: u32 = 4_294_967_295;

/// An edge by its number, and its place in one of the three tables.
#[derive(Clone, Copy)]
pub struct DownPlace {
    pub edge: u32,
    pub place: usize,
}

const _: () = prove!(size_of::<DownSpan>() == 16);

impl DownSpan {
    /// One that says nothing.
    pub const NOTHING: DownSpan = DownSpan {
        least: NO_BOUND,
        from: 0,
        seconds: 0,
        travel: 0,
    };

    /// Whether its span has this second of the day.
    #[inline(always)]
    pub fn has(&self, second: u32) -> bool
        ensures { IsTrue result ↔ HasDriven self.now second }
    {
        self.from <= second && second - self.from < self.seconds
    }

    /// Takes in what driving the list from a second of the day took, over fewer roads than there are nodes, as its span, where it
    /// finds room. One that says what is so of the list over an edge goes on to do so.
    pub fn keep(&mut self, second: u32, driven: Driven)
        requires window { IsWindow second driven.back driven.ahead }
        ensures holds { (h : HierarchyValue) (edge : ℕ) → driven.roads < h.network.nodes
            → HoldsDriven h (list_number edge Down) second driven → HoldsDown h edge self.old
            → HoldsDown h edge self.new }
    {
        if driven.travel > 4_294_967_295 {
            return;
        }
        self.from = second - driven.back;
        self.seconds = driven.back + driven.ahead;
        self.travel = driven.travel as u32;
    }
}

/// The least bound of the list downwards over the edge of a place, as it is kept there or else by the file.
#[inline(always)]
pub fn least_down(view: &PackedView<'_>, downs: &[DownSpan], at: DownPlace) -> u64
    requires edge { at.edge < length view.now.edges }
    requires place { at.place % length view.now.edges ≡ at.edge }
    requires there { at.place < length downs.now }
    requires knows { KnowsDowns view.now downs.now }
    ensures bound { result ≡ least_bound view.now at.edge Down }
{
    let least = downs[at.place].least;
    if least == NO_BOUND {
        return view.least(at.edge, Dir::Down);
    }
    u64::from(least)
}

/// Writes what is kept of the lists downwards where it isn't there yet: their least bounds, in all three tables. There is room
/// for all edges in each.
#[inline(always)]
pub fn make_downs(view: &PackedView<'_>, downs: &mut Vec<DownSpan>)
    requires room { 3 * length view.now.edges ≤ vec_capacity downs.old }
    requires knows { KnowsDowns view.now downs.old.items }
    ensures whole { 3 * length view.now.edges ≤ length downs.new.items }
    ensures knows { KnowsDowns view.now downs.new.items }
    ensures room { vec_capacity downs.old ≤ vec_capacity downs.new }
{
    if downs.len() < THIRDS as usize * view.edges() as usize {
        write_downs(view, downs);
    }
}

// The same, once for many passes.
#[cold]
#[inline(never)]
fn write_downs(view: &PackedView<'_>, downs: &mut Vec<DownSpan>)
    requires room { 3 * length view.now.edges ≤ vec_capacity downs.old }
    ensures whole { length downs.new.items ≡ 3 * length view.now.edges }
    ensures knows { KnowsDowns view.now downs.new.items }
    ensures room { vec_capacity downs.old ≤ vec_capacity downs.new }
{
    downs.clear();
    let places = THIRDS as usize * view.edges() as usize;
    match downs.resize(places, DownSpan::NOTHING) {
        Ok(()) => {}
        Err(_) => unreachable!(),
    }
    write_bounds(view, downs);
}

// Writes the least bounds of the lists downwards in all three tables, where they find room.
fn write_bounds(view: &PackedView<'_>, downs: &mut [DownSpan])
    requires whole { length downs.old ≡ 3 * length view.now.edges }
    requires knows { KnowsDowns view.now downs.old }
    ensures knows { KnowsDowns view.now downs.new }
{
    let edges = view.edges() as usize;
    'places: for place in 0..downs.len() {
        let edge = (place % edges) as u32;
        downs[place].least = bound_in(view.least(edge, Dir::Down));
    }
}

// A least bound, where it finds room.
fn bound_in(least: u64) -> u32
    ensures { result < NO_BOUND → result ≡ least }
{
    least.min(u64::from(NO_BOUND)) as u32
}
