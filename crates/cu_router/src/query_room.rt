//! What answers queries beside a held file.

ghost use Rattle.std.specs.Prelude.{◌≡◌, ◌≤◌, ◌<◌, ◌*◌, ◌^◌, Some, IfOk, IfSome, length, slice_get};
ghost use Rattle.cu_io.specs.Sinks.{Wrote};
ghost use Rattle.cu_chordal.specs.declared.graph.TheConstants.{MAX_EDGES};
ghost use Rattle.cu_model.specs.declared.limits.TheConstants.{DAY, MAX_NODES};
ghost use Rattle.cu_drive.specs.RoadTexts.{arrival_text};
ghost use Rattle.cu_interval.specs.Hierarchies.{HierarchyValue, IsBuilt, IsHierarchy};
ghost use Rattle.cu_recall.specs.Downs.{KnowsDowns};
ghost use Rattle.cu_recall.specs.Rooms.{Fits};
ghost use Rattle.cu_recall.specs.Spans.{Knows};
ghost use Rattle.cu_router.specs.Answers.{FindsArrival, IsHeldAnswer, IsHeldDrive, IsHeldWaits};
ghost use Rattle.cu_router.specs.Lists.{FitsLists};
ghost use Rattle.cu_router.specs.Swept.{swept_as, swept_drive, swept_reply, swept_waits};

use crate::held_file::HeldFile;
use crate::known_lists::KnownLists;
use crate::sweeps::Sweeps;
use cu_drive::{NumberAlone, WalkForm, WithSecond};
use cu_interval::Ways;
use cu_io::{Sink, SinkFailed};
use cu_model::{NoMemory, Query};
use cu_recall::{Recall, Room, Row};
use cu_stored::Stored;
use cu_sweep::{Found, Question};
use cu_wait::{MeasuredProfile, WithLeft};
use std::alloc::Global;
use std::marker::Model;

/// Room for the queries of a hierarchy, in which they keep what they learn of it. They are answered by what is known of lists, and
/// else by what they learn. Contracts see for how many nodes it was made,
/// and what is kept of each list, and of the lists downwards by edge.
#[derive(Drop)]
pub struct QueryRoom {
    pub(crate) sweeps: Sweeps,
    // It is there but while a query is answered, which owns it.
    pub(crate) room: Option<Room>,
    // How many relaxations the last query that was replied to asked.
    asked: u32,
}

impl Model for QueryRoom {
    ghost use Rattle.cu_recall.specs.Rooms.{RoomValue};
    ghost use Rattle.cu_router.specs.Steps.Rooms.{IsWholeRoom, kept_in};

    ghost Value = { RoomValue };

    ghost view = { λ queries. kept_in queries.room };

    ghost invariant = { λ queries. IsWholeRoom queries.sweeps queries.room };
}

impl QueryRoom {
    /// Room for the queries of a hierarchy of so many nodes and edges. Nothing is known, so it fits every such hierarchy.
    pub fn new(alloc: Global, nodes: u32, edges: u32) -> Result<QueryRoom, NoMemory>
        requires nodes { nodes ≤ MAX_NODES }
        requires edges { edges ≤ MAX_EDGES }
        ensures nodes { IfOk result (λ queries. queries.nodes ≡ nodes) }
        ensures lists { IfOk result (λ queries. length queries.rows ≡ 2 * edges) }
        ensures knows { IfOk result (λ queries. (h : HierarchyValue) → Knows h queries.rows) }
        ensures downs { IfOk result (λ queries. (h : HierarchyValue)
            → KnowsDowns h queries.downs) }
    {
        Ok(QueryRoom {
            sweeps: Sweeps::new(alloc, nodes)?,
            room: Some(Room::new(alloc, nodes, edges)?),
            asked: 0,
        })
    }

    /// What is kept of the first lists, or of none. Takes no memory.
    pub fn rows(&self) -> &[Row]
        ensures knows { (h : HierarchyValue) → Knows h self.now.rows → Knows h result.now }
    {
        let Some(room) = &self.room else {
            unreachable!()
        };
        room.rows()
    }

    /// How many relaxations the last query that was replied to asked. Takes no memory.
    pub fn asked(&self) -> u32 {
        self.asked
    }

    /// Forgets what was learnt, as must be done when the held file changes over. Takes no memory.
    pub fn forget(&mut self)
        ensures nodes { self.new.nodes ≡ self.old.nodes }
        ensures lists { length self.new.rows ≡ length self.old.rows }
        ensures knows { (h : HierarchyValue) → Knows h self.new.rows }
        ensures downs { (h : HierarchyValue) → KnowsDowns h self.new.downs }
    {
        let Some(room) = &mut self.room else {
            unreachable!()
        };
        room.forget();
    }

    /// Writes the reply of a held file to a query between nodes below the number of nodes, leaving at a second of the day.
    /// Takes no memory.
    pub fn put_answer<K: Sink>(
        &mut self,
        held: &HeldFile,
        lists: &KnownLists,
        query: Query,
        sink: &mut K,
    ) -> Result<(), SinkFailed>
        requires fits { Fits held.now self.old }
        requires lists { FitsLists held.now lists.now }
        requires from { query.from < held.now.network.nodes }
        requires to { query.to < held.now.network.nodes }
        requires second { query.second < DAY }
        ensures answer { IsHeldAnswer held.now query (swept_reply held.now query) }
        ensures wrote { Wrote (K.state sink.old) (K.state sink.new) result
            (swept_reply held.now query) }
        ensures fits { Fits held.now self.new }
    {
        self.put_in(held, lists, query, &NumberAlone, sink)
    }

    /// The same with the drive of the walk: each of its roads with the absolute second at which it is entered.
    pub fn put_drive<K: Sink>(
        &mut self,
        held: &HeldFile,
        lists: &KnownLists,
        query: Query,
        sink: &mut K,
    ) -> Result<(), SinkFailed>
        requires fits { Fits held.now self.old }
        requires lists { FitsLists held.now lists.now }
        requires from { query.from < held.now.network.nodes }
        requires to { query.to < held.now.network.nodes }
        requires second { query.second < DAY }
        ensures answer { IsHeldDrive held.now query (swept_drive held.now query) }
        ensures wrote { Wrote (K.state sink.old) (K.state sink.new) result
            (swept_drive held.now query) }
        ensures fits { Fits held.now self.new }
    {
        self.put_in(held, lists, query, &WithSecond, sink)
    }

    /// The same where profiles are measured, of which these are kept: behind each road the second at which one comes to it, and
    /// that at which one leaves who waits as little as serves.
    pub fn put_waits<K: Sink>(
        &mut self,
        held: &HeldFile,
        lists: &KnownLists,
        kept: &[Option<MeasuredProfile>],
        query: Query,
        sink: &mut K,
    ) -> Result<(), SinkFailed>
        requires fits { Fits held.now self.old }
        requires lists { FitsLists held.now lists.now }
        requires from { query.from < held.now.network.nodes }
        requires to { query.to < held.now.network.nodes }
        requires second { query.second < DAY }
        ensures answer { IsHeldWaits kept.now held.now query (swept_waits kept.now held.now query) }
        ensures wrote { Wrote (K.state sink.old) (K.state sink.new) result
            (swept_waits kept.now held.now query) }
        ensures fits { Fits held.now self.new }
    {
        let view = held.view();
        self.put_in(held, lists, query, &WithLeft::of(&view, kept), sink)
    }

    // Writes the reply of a held file to a query, the roads of a walk in this form.
    fn put_in<P: WalkForm, K: Sink>(
        &mut self,
        held: &HeldFile,
        lists: &KnownLists,
        query: Query,
        form: &P,
        sink: &mut K,
    ) -> Result<(), SinkFailed>
        requires fits { Fits held.now self.old }
        requires lists { FitsLists held.now lists.now }
        requires from { query.from < held.now.network.nodes }
        requires to { query.to < held.now.network.nodes }
        requires second { query.second < DAY }
        ensures wrote { Wrote (K.state sink.old) (K.state sink.new) result
            (swept_as (arrival_text (P.word form.now) (P.text form.now)
            held.now.network query.second) held.now query) }
        ensures sound { IsHierarchy held.now }
        ensures fits { Fits held.now self.new }
    {
        let Some(room) = self.room.take() else {
            unreachable!()
        };
        let view = held.view();
        let from = view.rank(query.from);
        let to = view.rank(query.to);
        let second = query.second;
        let recall = Recall::new(&view, held.graph(), &lists.sequences, &lists.store, room);
        let mut stored = Stored::new(&lists.store, recall);
        let question = Question { from, to, second };
        let sweeps = &mut self.sweeps;
        let outcome = sweeps.answer(held, &mut stored, question, form, sink);
        self.asked = stored.asked();
        self.room = Some(stored.into_other().into_room());
        outcome
    }

    /// The least arrival of a query between nodes below the number of nodes, leaving at a second of the day, where the held
    /// hierarchy is built. None exactly where there is no walk. Takes no memory.
    pub fn find(&mut self, held: &HeldFile, lists: &KnownLists, query: Query) -> Option<u64>
        requires fits { Fits held.now self.old }
        requires lists { FitsLists held.now lists.now }
        requires built { IsBuilt held.now }
        requires from { query.from < held.now.network.nodes }
        requires to { query.to < held.now.network.nodes }
        requires second { query.second < DAY }
        ensures found { FindsArrival held.now.network query result }
        ensures near { IfSome result (λ arrival. arrival ≤ 2 ^ 39) }
        ensures fits { Fits held.now self.new }
    {
        let Some(room) = self.room.take() else {
            unreachable!()
        };
        let view = held.view();
        let from = view.rank(query.from);
        let to = view.rank(query.to);
        let second = query.second;
        let mut recall = Recall::new(&view, held.graph(), &lists.sequences, &lists.store, room);
        let question = Question { from, to, second };
        let arrival = find_swept(held, &mut self.sweeps, &mut recall, question, query);
        self.room = Some(recall.into_room());
        arrival
    }
}

// Sweeps for the least arrival of a query between the ranks of its nodes, in a built hierarchy.
fn find_swept(
    held: &HeldFile,
    sweeps: &mut Sweeps,
    recall: &mut Recall<'_>,
    question: Question,
    query: Query,
) -> Option<u64>
    requires built { IsBuilt recall.old }
    requires held { recall.old ≡ held.now }
    requires nodes { sweeps.old.nodes ≡ held.now.network.nodes }
    requires start { slice_get recall.old.order.rank_of query.from ≡ Some question.from }
    requires stop { slice_get recall.old.order.rank_of query.to ≡ Some question.to }
    requires from { question.from < held.now.network.nodes }
    requires to { question.to < held.now.network.nodes }
    requires same { question.second ≡ query.second }
    requires second { query.second < DAY }
    ensures found { FindsArrival recall.old.network query result }
    ensures near { IfSome result (λ arrival. arrival ≤ 2 ^ 39) }
    ensures nodes { sweeps.new.nodes ≡ sweeps.old.nodes }
    ensures stays { recall.new ≡ recall.old }
{
    match sweeps.find(held, recall, question) {
        Found::Arrive(arrival) => Some(arrival),
        Found::NoWalk => None,
        Found::Long { .. } => unreachable!(),
    }
}
