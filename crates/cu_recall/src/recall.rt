//! Relaxations over a packed file that remember.

ghost use Rattle.std.specs.Prelude.{◌≡◌, ◌≤◌, ◌<◌, ◌+◌, ◌*◌, ◌%◌, ◌^◌, ℕ, None, length};
ghost use Rattle.cu_io.specs.Sinks.{Wrote};
ghost use Rattle.cu_model.specs.Days.{day};
ghost use Rattle.cu_chordal.specs.declared.graph.TheConstants.{MAX_EDGES};
ghost use Rattle.cu_interval.specs.Calls.{Adds, IfAt};
ghost use Rattle.cu_interval.specs.Hierarchies.{IsHierarchy, IsHierarchyOf, graph_of, list_number};
ghost use Rattle.cu_interval.specs.LeastBounds.{far, least_bound};
ghost use Rattle.cu_interval.specs.Unpacking.{relaxed, unpacked_walk};
ghost use Rattle.cu_drive.specs.RoadTexts.{driven_text};
ghost use Rattle.cu_unpack.specs.Answers.{IsLowWhereBuilt};
ghost use Rattle.cu_recall.specs.Rooms.{Fits};
ghost use Rattle.cu_recall.specs.Spans.{IsListFrom};
ghost use Rattle.cu_recall.specs.Windows.{HoldsDriven};
ghost use Rattle.cu_recall.specs.Steps.Looks.{edge_asked};
ghost use Rattle.cu_recall.specs.Steps.Walks.{IsGround, IsShortWalk};
ghost use Rattle.cu_sequences.specs.Kept.{AreSequences};
ghost use Rattle.cu_store.specs.Known.{Knows};

use crate::looking::known;
use crate::pending::Asked;
use crate::room::{Room, make_rows};
use crate::spans::Driven;
use crate::unpacking::unpack;
use crate::walking::{Ground, WalkStart, write_walk};
use cu_chordal::Chordal;
use cu_drive::WalkForm;
use cu_interval::{BoundedWays, Call, Dir, Relaxed, Relaxer, Shortcut, Ways};
use cu_io::{Sink, SinkFailed};
use cu_model::{DAY, Roads};
use cu_pack::PackedView;
use cu_sequences::Sequences;
use cu_store::Store;
use cu_unpack::Walker;
use std::marker::Model;

/// Relaxes the shortcuts of a packed file, with room of its own for what it learns of their lists. Contracts see the
/// hierarchy. It doesn't tell its calls.
#[derive(Drop)]
pub struct Recall<'a> {
    view: &'a PackedView<'a>,
    graph: &'a Chordal,
    sequences: &'a Sequences,
    store: &'a Store,
    room: Room,
}

impl<'a> Model for Recall<'a> {
    ghost use Rattle.cu_interval.specs.Hierarchies.{HierarchyValue, IsHierarchyOf};
    ghost use Rattle.cu_recall.specs.Rooms.{Fits};
    ghost use Rattle.std.specs.Prelude.{◌≡◌, ◌*◌, length};
    ghost use Rattle.cu_sequences.specs.Kept.{AreSequences};
    ghost use Rattle.cu_store.specs.Known.{Knows};

    ghost Value = { HierarchyValue };

    ghost view = { λ recall. recall.view.now };

    ghost invariant = { λ recall. IsHierarchyOf recall.graph.now recall.view.now
        × Fits recall.view.now recall.room
        × AreSequences recall.view.now recall.sequences.now
        × (length recall.store.now.known ≡ 2 * length recall.view.now.edges)
        × Knows recall.view.now recall.store.now.known };
}

impl<'a> Recall<'a> {
    /// Relaxations over this file, whose graph this is, with room that was made for as many nodes and edges; walks are written by
    /// sequences of its lists and by a store of their functions. All of these know nothing but what is so of its hierarchy. Takes no
    /// memory.
    pub fn new(
        view: &'a PackedView<'a>,
        graph: &'a Chordal,
        sequences: &'a Sequences,
        store: &'a Store,
        room: Room,
    ) -> Recall<'a>
        requires graph { IsHierarchyOf graph.now view.now }
        requires sequences { AreSequences view.now sequences.now }
        requires size { length store.now.known ≡ 2 * length view.now.edges }
        requires knows { Knows view.now store.now.known }
        requires fits { Fits view.now room }
        ensures view { result ≡ view.now }
    {
        Recall {
            view,
            graph,
            sequences,
            store,
            room,
        }
    }

    /// Gives the room back, for the next relaxations. Takes no memory.
    pub fn into_room(self) -> Room
        ensures fits { Fits self.entry result }
    {
        self.room
    }
}

impl<'a> Relaxer for Recall<'a> {
    ghost hierarchy = { λ recall. recall };

    ghost calls = { λ recall. None };

    fn relax(&mut self, edge: u32, dir: Dir, at: u64) -> Relaxed
        requires edge { edge < length self.old.edges }
        requires time { at < 2 ^ 61 }
        ensures answer { result ≡ relaxed self.old edge dir at }
        ensures near { IfAt result (λ (arrival : ℕ). (at ≤ arrival) × (arrival ≤ at + 2 ^ 38)) }
        ensures sound { IsHierarchy self.old }
        ensures stays { self.new ≡ self.old }
        ensures told { Adds None None (record { edge = edge; dir = dir; second = at }) }
        ensures built { IsLowWhereBuilt self.old edge dir at result }
    {
        let view = self.view;
        let graph = self.graph;
        let room = &mut self.room;
        relax_over(view, graph, room, edge, dir, at)
    }

    fn least(&self, edge: u32, dir: Dir) -> u64
        requires edge { edge < length self.now.edges }
        ensures bound { result ≡ least_bound self.now edge dir }
        ensures most { result ≤ far }
    {
        self.view.least(edge, dir)
    }
}

impl<'a> Walker for Recall<'a> {
    fn write_walk<P: WalkForm, K: Sink>(
        &mut self,
        call: Call,
        first: bool,
        form: &P,
        sink: &mut K,
    ) -> Result<(), SinkFailed> {
        let ground = Ground {
            view: self.view,
            graph: self.graph,
            sequences: self.sequences,
            store: self.store,
        };
        let room = &mut self.room;
        let asked = asked_of(call.edge, call.dir, call.second);
        let start = WalkStart {
            asked,
            at: call.second,
            first,
        };
        walk_in(&ground, room, start, form, sink)
    }
}

/// The answer of a relaxation, by what is known or else by unpacking.
pub fn relax_over(
    view: &PackedView<'_>,
    graph: &Chordal,
    room: &mut Room,
    edge: u32,
    dir: Dir,
    at: u64,
) -> Relaxed
    requires graph { graph.now ≡ graph_of view.now }
    requires edge { edge < length view.now.edges }
    requires time { at < 2 ^ 61 }
    requires fits { Fits view.now room.old }
    requires sound { IsHierarchy view.now }
    ensures answer { result ≡ relaxed view.now edge dir at }
    ensures near { IfAt result (λ (arrival : ℕ). (at ≤ arrival) × (arrival ≤ at + 2 ^ 38)) }
    ensures fits { Fits view.now room.new }
    ensures downs { room.new.downs ≡ room.old.downs }
{
    let asked = asked_of(edge, dir, at);
    make_rows(&mut room.rows, room.lists);
    if let Some(driven) = known(&room.rows, asked) {
        return answer(view, edge, dir, at, driven);
    }
    if view.entries(edge, dir) == 0 {
        return Relaxed::NoWay;
    }
    match unpack(view, graph, &mut room.rows, &mut room.pending, asked) {
        Some(driven) => answer(view, edge, dir, at, driven),
        None => Relaxed::Long,
    }
}

// Writes the walk of a list, in the room's places.
fn walk_in<P: WalkForm, K: Sink>(
    ground: &Ground<'_>,
    room: &mut Room,
    start: WalkStart,
    form: &P,
    sink: &mut K,
) -> Result<(), SinkFailed>
    requires ground { IsGround ground.now }
    requires short { IsShortWalk ground.now.view.now start.asked }
    requires at { start.at % day ≡ start.asked.second }
    requires time { start.at < 2 ^ 61 }
    requires fits { Fits ground.now.view.now room.old }
    ensures wrote { (u v : ℕ) → IsListFrom ground.now.view.now start.asked.list u v
        → Wrote (K.state sink.old) (K.state sink.new) result
        (driven_text (P.text form.now) ground.now.view.now.network start.first
        (unpacked_walk ground.now.view.now u v start.asked.second) start.at) }
    ensures fits { Fits ground.now.view.now room.new }
{
    make_rows(&mut room.rows, room.lists);
    let (rows, waiting) = (&mut room.rows, &mut room.waiting);
    write_walk(ground, rows, waiting, start, form, sink)
}

/// The list of an edge in a direction, asked at the second of the day of an absolute second.
#[inline(always)]
pub fn asked_of(edge: u32, dir: Dir, at: u64) -> Asked
    requires edge { edge < MAX_EDGES }
    ensures { result ≡ edge_asked edge dir at }
{
    Asked {
        list: Shortcut { edge, dir }.list() as u32,
        second: (at % u64::from(DAY)) as u32,
    }
}

// The answer of a list that takes this.
fn answer(view: &PackedView<'_>, edge: u32, dir: Dir, at: u64, driven: Driven) -> Relaxed
    requires edge { edge < length view.now.edges }
    requires time { at < 2 ^ 61 }
    requires driven { HoldsDriven view.now (list_number edge dir) (at % day) driven }
    requires sound { IsHierarchy view.now }
    ensures answer { result ≡ relaxed view.now edge dir at }
    ensures near { IfAt result (λ (arrival : ℕ). (at ≤ arrival) × (arrival ≤ at + 2 ^ 38)) }
{
    if driven.roads >= view.nodes() {
        return Relaxed::Long;
    }
    Relaxed::At(at + driven.travel)
}
