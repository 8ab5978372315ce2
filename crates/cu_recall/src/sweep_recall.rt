//! Relaxations over a packed file that remember, for passes that go down over many ranks.

ghost use Rattle.std.specs.Prelude.{◌≡◌, ◌≤◌, ◌<◌, ◌+◌, ◌%◌, ◌^◌, ℕ, None, length};
ghost use Rattle.cu_model.specs.Days.{day};
ghost use Rattle.cu_interval.specs.Calls.{Adds, IfAt};
ghost use Rattle.cu_interval.specs.declared.ways.Dir.TheVariants.{Down};
ghost use Rattle.cu_interval.specs.Hierarchies.{IsHierarchy, IsHierarchyOf, graph_of};
ghost use Rattle.cu_interval.specs.LeastBounds.{far, least_bound};
ghost use Rattle.cu_interval.specs.Unpacking.{relaxed};
ghost use Rattle.cu_unpack.specs.Answers.{IsLowWhereBuilt};
ghost use Rattle.cu_recall.specs.Rooms.{Fits};

use crate::downs::{DownPlace, least_down, make_downs};
use crate::looking::known;
use crate::recall::{asked_of, relax_over};
use crate::room::Room;
use crate::spans::third_of;
use cu_chordal::Chordal;
use cu_interval::{BoundedWays, Dir, Relaxed, Relaxer, Ways};
use cu_model::{DAY, Roads};
use cu_pack::PackedView;
use std::marker::Model;

/// Relaxes the shortcuts of a packed file as [`Recall`](crate::Recall) does, and keeps of each list downwards its least bound
/// and the latest span at which it was driven side by side, by the number of its edge. So a pass that goes down over all ranks
/// reads few bytes an edge. There are three tables of them, one for each third of the day in which a sweep leaves, so that the
/// spans of a sweep in the morning are still there when the next one leaves in the morning. Contracts see the hierarchy. It
/// doesn't tell its calls.
#[derive(Drop)]
pub struct SweepRecall<'a> {
    view: &'a PackedView<'a>,
    graph: &'a Chordal,
    room: Room,
    // The place of the first edge in the table that is used.
    first: usize,
}

impl<'a> Model for SweepRecall<'a> {
    ghost use Rattle.std.specs.Prelude.{◌≡◌, ◌≤◌, ◌<◌, ◌+◌, ◌*◌, ◌%◌, ℕ, length};
    ghost use Rattle.cu_interval.specs.Hierarchies.{HierarchyValue, IsHierarchyOf};
    ghost use Rattle.cu_recall.specs.Rooms.{Fits};

    ghost Value = { HierarchyValue };

    ghost view = { λ recall. recall.view.now };

    ghost invariant = { λ recall. IsHierarchyOf recall.graph.now recall.view.now
        × Fits recall.view.now recall.room
        × (recall.first ≤ 2 * length recall.view.now.edges)
        × (recall.first + length recall.view.now.edges ≤ length recall.room.downs)
        × ((edge : ℕ) → edge < length recall.view.now.edges
        → (recall.first + edge) % length recall.view.now.edges ≡ edge) };
}

impl<'a> SweepRecall<'a> {
    /// Relaxations over this file, whose graph this is, with room that was made for as many nodes and edges, and knows nothing
    /// but what is so of its hierarchy, for a sweep that leaves at this second of the day, by which one of three tables is used:
    /// what is answered doesn't depend on it. Where the room has no least bounds yet they are written. Takes no memory.
    pub fn new(
        view: &'a PackedView<'a>,
        graph: &'a Chordal,
        room: Room,
        second: u32,
    ) -> SweepRecall<'a>
        requires graph { IsHierarchyOf graph.now view.now }
        requires fits { Fits view.now room }
        ensures view { result ≡ view.now }
    {
        let mut room = room;
        make_downs(view, &mut room.downs);
        let first = third_of(second) as usize * view.edges() as usize;
        SweepRecall {
            view,
            graph,
            room,
            first,
        }
    }

    /// Gives the room back, for the next relaxations. Takes no memory.
    pub fn into_room(self) -> Room
        ensures fits { Fits self.entry result }
    {
        self.room
    }
}

impl<'a> Relaxer for SweepRecall<'a> {
    ghost hierarchy = { λ recall. recall };

    ghost calls = { λ recall. None };

    #[inline(always)]
    fn relax(&mut self, edge: u32, dir: Dir, at: u64) -> Relaxed
        requires edge { edge < length self.old.edges }
        requires time { at < 2 ^ 61 }
        ensures answer { result ≡ relaxed self.old edge dir at }
        ensures near { IfAt result (λ (arrival : ℕ). (at ≤ arrival) × (arrival ≤ at + 2 ^ 38)) }
        ensures sound { IsHierarchy self.old }
        ensures stays { self.new ≡ self.old }
        ensures told { Adds None None (record { edge = edge; dir = dir; second = at }) }
        ensures built { IsLowWhereBuilt self.old edge dir at result }
    {
        let view = self.view;
        let graph = self.graph;
        let place = self.first + edge as usize;
        let room = &mut self.room;
        relax_in(view, graph, room, DownPlace { edge, place }, dir, at)
    }

    #[inline(always)]
    fn least(&self, edge: u32, dir: Dir) -> u64
        requires edge { edge < length self.now.edges }
        ensures bound { result ≡ least_bound self.now edge dir }
        ensures most { result ≤ far }
    {
        let place = self.first + edge as usize;
        least_in(self.view, &self.room, DownPlace { edge, place }, dir)
    }
}

// The least bound of a list, downwards as it is kept.
#[inline(always)]
fn least_in(view: &PackedView<'_>, room: &Room, down: DownPlace, dir: Dir) -> u64
    requires edge { down.edge < length view.now.edges }
    requires place { down.place % length view.now.edges ≡ down.edge }
    requires there { down.place < length room.now.downs }
    requires fits { Fits view.now room.now }
    ensures bound { result ≡ least_bound view.now down.edge dir }
{
    match dir {
        Dir::Up => view.least(down.edge, dir),
        Dir::Down => least_down(view, &room.downs, down),
    }
}

// The answer of a relaxation, downwards by the latest span of its list first.
#[inline(always)]
fn relax_in(
    view: &PackedView<'_>,
    graph: &Chordal,
    room: &mut Room,
    down: DownPlace,
    dir: Dir,
    at: u64,
) -> Relaxed
    requires graph { graph.now ≡ graph_of view.now }
    requires edge { down.edge < length view.now.edges }
    requires place { down.place % length view.now.edges ≡ down.edge }
    requires there { down.place < length room.old.downs }
    requires time { at < 2 ^ 61 }
    requires fits { Fits view.now room.old }
    requires sound { IsHierarchy view.now }
    ensures answer { result ≡ relaxed view.now down.edge dir at }
    ensures near { IfAt result (λ (arrival : ℕ). (at ≤ arrival) × (arrival ≤ at + 2 ^ 38)) }
    ensures fits { Fits view.now room.new }
    ensures there { length room.new.downs ≡ length room.old.downs }
{
    match dir {
        Dir::Up => relax_over(view, graph, room, down.edge, dir, at),
        Dir::Down => relax_down(view, graph, room, down, at),
    }
}

// The answer of a relaxation downwards, by the latest span of its list where that has the second.
#[inline(always)]
fn relax_down(
    view: &PackedView<'_>,
    graph: &Chordal,
    room: &mut Room,
    down: DownPlace,
    at: u64,
) -> Relaxed
    requires graph { graph.now ≡ graph_of view.now }
    requires edge { down.edge < length view.now.edges }
    requires place { down.place % length view.now.edges ≡ down.edge }
    requires there { down.place < length room.old.downs }
    requires time { at < 2 ^ 61 }
    requires fits { Fits view.now room.old }
    requires sound { IsHierarchy view.now }
    ensures answer { result ≡ relaxed view.now down.edge Down at }
    ensures near { IfAt result (λ (arrival : ℕ). (at ≤ arrival) × (arrival ≤ at + 2 ^ 38)) }
    ensures fits { Fits view.now room.new }
    ensures there { length room.new.downs ≡ length room.old.downs }
{
    let latest = room.downs[down.place];
    if latest.has((at % u64::from(DAY)) as u32) {
        return Relaxed::At(at + u64::from(latest.travel));
    }
    ask_down(view, graph, room, down, at)
}

// The answer of a relaxation downwards by all that is known, or else by unpacking. What its list took is then its latest span.
#[inline(never)]
fn ask_down(
    view: &PackedView<'_>,
    graph: &Chordal,
    room: &mut Room,
    down: DownPlace,
    at: u64,
) -> Relaxed
    requires graph { graph.now ≡ graph_of view.now }
    requires edge { down.edge < length view.now.edges }
    requires place { down.place % length view.now.edges ≡ down.edge }
    requires there { down.place < length room.old.downs }
    requires time { at < 2 ^ 61 }
    requires fits { Fits view.now room.old }
    requires sound { IsHierarchy view.now }
    ensures answer { result ≡ relaxed view.now down.edge Down at }
    ensures near { IfAt result (λ (arrival : ℕ). (at ≤ arrival) × (arrival ≤ at + 2 ^ 38)) }
    ensures fits { Fits view.now room.new }
    ensures there { length room.new.downs ≡ length room.old.downs }
{
    let answer = relax_over(view, graph, room, down.edge, Dir::Down, at);
    keep_down(view, room, down, at);
    answer
}

// Takes in what is known of driving the list downwards over an edge as its latest span, at its place.
fn keep_down(view: &PackedView<'_>, room: &mut Room, down: DownPlace, at: u64)
    requires edge { down.edge < length view.now.edges }
    requires place { down.place % length view.now.edges ≡ down.edge }
    requires there { down.place < length room.old.downs }
    requires fits { Fits view.now room.old }
    requires sound { IsHierarchy view.now }
    ensures fits { Fits view.now room.new }
    ensures there { length room.new.downs ≡ length room.old.downs }
{
    let asked = asked_of(down.edge, Dir::Down, at);
    if asked.list as usize >= room.rows.len() {
        return;
    }
    let Some(driven) = known(&room.rows, asked) else {
        return;
    };
    if driven.roads < view.nodes() {
        room.downs[down.place].keep(asked.second, driven);
    }
}
