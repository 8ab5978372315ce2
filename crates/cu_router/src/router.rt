//! What a script is answered from: the packed bytes of a hierarchy, and the room that queries and edits need beside them.

ghost use Rattle.std.specs.Prelude.{◌≡◌, ◌≤◌, ◌<◌, ◌-◌, ◌^◌, ◌∷◌, ◌++◌, ℕ, [], All, IfErr, IfOk, IfSome, List, OnErr, OnOk, length};
ghost use Rattle.cu_io.specs.Sinks.{Wrote};
ghost use Rattle.cu_model.specs.declared.limits.TheConstants.{DAY};
ghost use Rattle.cu_model.specs.Edits.{IsEditInRange};
ghost use Rattle.cu_model.specs.Networks.{IsNetwork};
ghost use Rattle.cu_chordal.specs.declared.graph.TheConstants.{MAX_EDGES};
ghost use Rattle.cu_interval.specs.Hierarchies.{HierarchyValue, IsBuilt, IsHierarchy};
ghost use Rattle.cu_interval.specs.Touching.{NumbersTouched};
ghost use Rattle.cu_resettled.specs.ResettlingAll.{edited_all};
ghost use Rattle.cu_edits.specs.EditLists.{CountsTouched, FitsList};
ghost use Rattle.cu_pack.specs.Checks.{Spells};
ghost use Rattle.cu_reach.specs.Departures.{latest_by};
ghost use Rattle.cu_reach.specs.ReachTexts.{reach_reply, table_reply};
ghost use Rattle.cu_recall.specs.Rooms.{Fits};
ghost use Rattle.cu_router.specs.Answers.{FindsArrival, IsHeldAnswer, IsHeldDrive, IsHeldWaits};
ghost use Rattle.cu_router.specs.Days.{IsHeldDay};
ghost use Rattle.cu_router.specs.Edited.{IsEdited, IsEditedAll};
ghost use Rattle.cu_router.specs.Reaches.{IsHeldLatestReply};
ghost use Rattle.cu_router.specs.Swept.{swept_drive, swept_reply, swept_waits};
ghost use Rattle.cu_router.specs.Working.{FitsBusy, edges_left};

use crate::busy::Busy;
use crate::days::find_day;
use crate::edit_room::{EditRoom, edit_all_held, edit_held, fill_edit_room};
use crate::held_file::HeldFile;
use crate::known_lists::KnownLists;
use crate::list_room::ListRoom;
use crate::query_room::QueryRoom;
use crate::working::{begin_held, finish, give_back, plan_held, settle_next};
use cu_arrival::Arrival;
use cu_day::DayAsked;
use cu_edits::{EditList, Edits};
use cu_interval::Ways;
use cu_io::{Sink, SinkFailed};
use cu_model::{Edit, NoMemory, Query, Roads};
use cu_pack::PackedView;
use cu_progress::Progress;
use cu_reach::{LatestAsked, ReachAsked, ReachDesk, TableAsked};
use cu_wait::MeasuredProfile;
use std::alloc::Global;
use std::marker::Model;

/// The packed bytes of a hierarchy, built or not, what is known of its lists beside them, and the room for its queries and edits.
/// Contracts see the hierarchy.
#[derive(Drop)]
pub struct Router {
    held: HeldFile,
    queries: QueryRoom,
    lists: KnownLists,
    reaches: ReachDesk,
    // Made by the first edit or whole day, so that a session of queries pays nothing for it.
    editing: Option<EditRoom>,
}

impl Model for Router {
    ghost use Rattle.std.specs.Prelude.{◌≡◌, length};
    ghost use Rattle.cu_interval.specs.Hierarchies.{HierarchyValue};
    ghost use Rattle.cu_recall.specs.Rooms.{Fits};
    ghost use Rattle.cu_router.specs.Lists.{FitsLists};
    ghost use Rattle.cu_router.specs.Steps.Rooms.{FitsEdits};

    ghost Value = { HierarchyValue };

    ghost view = { λ router. router.held };

    ghost invariant = { λ router. Fits router.held router.queries
        × FitsEdits router.held router.editing
        × (length router.reaches ≡ router.held.network.nodes)
        × FitsLists router.held router.lists };
}

impl Router {
    /// Room for the queries and edits of the hierarchy whose packed file these bytes are, and so much for what is known of its lists.
    pub fn new(alloc: Global, bytes: Vec<u8>, room: ListRoom) -> Result<Router, NoMemory>
        requires spelled { (h : HierarchyValue) × Spells bytes.items h }
        ensures held { IfOk result (λ router. Spells bytes.items router) }
    {
        let held = HeldFile::new(alloc, bytes)?;
        Router::over(alloc, held, room)
    }

    /// [`Router::new`], where the hierarchy is built: an edit settles the lists of an edge that it touches only where something
    /// that they may be made of has changed.
    pub fn built(alloc: Global, bytes: Vec<u8>, room: ListRoom) -> Result<Router, NoMemory>
        requires spelled { (h : HierarchyValue) × Spells bytes.items h }
        requires built { (h : HierarchyValue) → Spells bytes.items h → IsBuilt h }
        ensures held { IfOk result (λ router. Spells bytes.items router) }
    {
        let held = HeldFile::built(alloc, bytes)?;
        Router::over(alloc, held, room)
    }

    // Room for the queries and edits of a held file.
    fn over(alloc: Global, held: HeldFile, room: ListRoom) -> Result<Router, NoMemory>
        ensures same { IfOk result (λ router. router ≡ held) }
    {
        let (queries, reaches) = rooms_over(alloc, &held)?;
        let lists = KnownLists::new(alloc, &held, room)?;
        Ok(Router {
            held,
            queries,
            lists,
            reaches,
            editing: None,
        })
    }

    /// The hierarchy over its bytes. Takes no memory.
    pub fn view(&self) -> PackedView<'_>
        ensures same { result ≡ self.now }
        ensures sound { IsHierarchy self.now }
    {
        self.held.view()
    }

    /// What it holds. Takes no memory.
    pub fn held(&self) -> &HeldFile
        ensures { result.now ≡ self.now }
    {
        &self.held
    }

    /// The packed file of the hierarchy as it is now. Takes no memory.
    pub fn into_file(self) -> Vec<u8>
        ensures spelled { Spells result.items self }
    {
        self.held.into_file()
    }

    /// Writes the reply to a query between nodes below the number of nodes, leaving at a second of the day. Takes no memory.
    pub fn put_answer<K: Sink>(&mut self, query: Query, sink: &mut K) -> Result<(), SinkFailed>
        requires from { query.from < self.old.network.nodes }
        requires to { query.to < self.old.network.nodes }
        requires second { query.second < DAY }
        ensures answer { IsHeldAnswer self.old query (swept_reply self.old query) }
        ensures wrote { Wrote (K.state sink.old) (K.state sink.new) result
            (swept_reply self.old query) }
        ensures stays { self.new ≡ self.old }
    {
        let outcome = self
            .queries
            .put_answer(&self.held, &self.lists, query, sink);
        self.lists.go_on(&self.held, self.queries.asked());
        outcome
    }

    /// The same with the drive of the walk: each of its roads with the absolute second at which it is entered. Takes no memory.
    pub fn put_drive<K: Sink>(&mut self, query: Query, sink: &mut K) -> Result<(), SinkFailed>
        requires from { query.from < self.old.network.nodes }
        requires to { query.to < self.old.network.nodes }
        requires second { query.second < DAY }
        ensures answer { IsHeldDrive self.old query (swept_drive self.old query) }
        ensures wrote { Wrote (K.state sink.old) (K.state sink.new) result
            (swept_drive self.old query) }
        ensures stays { self.new ≡ self.old }
    {
        let outcome = self.queries.put_drive(&self.held, &self.lists, query, sink);
        self.lists.go_on(&self.held, self.queries.asked());
        outcome
    }

    /// The same where profiles are measured, of which these are kept: behind each road the second at which one comes to it, and
    /// that at which one leaves who waits as little as serves. Takes no memory.
    pub fn put_waits<K: Sink>(
        &mut self,
        kept: &[Option<MeasuredProfile>],
        query: Query,
        sink: &mut K,
    ) -> Result<(), SinkFailed>
        requires from { query.from < self.old.network.nodes }
        requires to { query.to < self.old.network.nodes }
        requires second { query.second < DAY }
        ensures answer { IsHeldWaits kept.now self.old query (swept_waits kept.now self.old query) }
        ensures wrote { Wrote (K.state sink.old) (K.state sink.new) result
            (swept_waits kept.now self.old query) }
        ensures stays { self.new ≡ self.old }
    {
        let outcome = self
            .queries
            .put_waits(&self.held, &self.lists, kept, query, sink);
        self.lists.go_on(&self.held, self.queries.asked());
        outcome
    }

    /// The least arrival of a query between nodes below the number of nodes, leaving at a second of the day, in a built
    /// hierarchy. None exactly where there is no walk. Takes no memory.
    pub fn find(&mut self, query: Query) -> Option<u64>
        requires built { IsBuilt self.old }
        requires from { query.from < self.old.network.nodes }
        requires to { query.to < self.old.network.nodes }
        requires second { query.second < DAY }
        ensures found { FindsArrival self.old.network query result }
        ensures near { IfSome result (λ arrival. arrival ≤ 2 ^ 39) }
        ensures stays { self.new ≡ self.old }
    {
        self.queries.find(&self.held, &self.lists, query)
    }

    /// Writes the reply to a question for all nodes, from one below the number of nodes, leaving at a second of the day. Takes no
    /// memory.
    pub fn put_reach<K: Sink>(&mut self, asked: ReachAsked, sink: &mut K) -> Result<(), SinkFailed>
        requires from { asked.from < self.old.network.nodes }
        requires second { asked.second < DAY }
        ensures wrote { Wrote (K.state sink.old) (K.state sink.new) result
            (reach_reply self.old asked) }
        ensures stays { self.new ≡ self.old }
    {
        self.queries
            .put_reach(&self.held, &mut self.reaches, asked, sink)
    }

    /// Writes the reply to a question for a table of nodes below the number of nodes, leaving at a second of the day. Takes no
    /// memory.
    pub fn put_table<K: Sink>(
        &mut self,
        asked: &TableAsked<'_>,
        sink: &mut K,
    ) -> Result<(), SinkFailed>
        requires sources { All (λ node. node < self.old.network.nodes) asked.now.sources }
        requires targets { All (λ node. node < self.old.network.nodes) asked.now.targets }
        requires second { asked.now.second < DAY }
        ensures wrote { Wrote (K.state sink.old) (K.state sink.new) result
            (table_reply self.old asked.now) }
        ensures stays { self.new ≡ self.old }
    {
        self.queries
            .put_table(&self.held, &mut self.reaches, asked, sink)
    }

    /// Writes the reply to a question for the latest departure between nodes below the number of nodes. Takes no memory.
    pub fn put_latest<K: Sink>(
        &mut self,
        asked: LatestAsked,
        sink: &mut K,
    ) -> Result<(), SinkFailed>
        requires from { asked.from < self.old.network.nodes }
        requires to { asked.to < self.old.network.nodes }
        requires by { asked.by ≤ latest_by }
        ensures reply { (reply : List ℕ) × IsHeldLatestReply self.old asked reply
            × Wrote (K.state sink.old) (K.state sink.new) result reply }
        ensures stays { self.new ≡ self.old }
    {
        self.queries
            .put_latest(&self.held, &self.lists, asked, sink)
    }

    /// The arrivals over a whole day between nodes below the number of nodes, each the least over all walks where the hierarchy is
    /// built. None exactly where no chain of lists leads from the one to the other; in a built hierarchy, where there is no walk.
    /// What it learns of lists is kept for days and edits to come.
    pub fn find_day(&mut self, alloc: Global, query: DayAsked) -> Result<Option<Arrival>, NoMemory>
        requires from { query.from < self.old.network.nodes }
        requires to { query.to < self.old.network.nodes }
        ensures found { IfOk result (IsHeldDay self.old query) }
        ensures stays { self.new ≡ self.old }
    {
        find_day(alloc, &self.held, &mut self.editing, query)
    }

    /// Makes an edit, whose numbers are in range, and answers how many edges it touches. Where memory runs out nothing has
    /// changed.
    pub fn edit(&mut self, alloc: Global, edit: Edit) -> Result<usize, NoMemory>
        requires range { IsEditInRange self.old.network edit }
        ensures edited { IfOk result (IsEdited self.old edit self.new) }
        ensures kept { OnErr result (self.new ≡ self.old) }
    {
        let rows = self.queries.rows();
        let (bytes, touched) = edit_held(alloc, &self.held, rows, edit, &mut self.editing)?;
        let lists = touched.lists.as_slice();
        self.held.change_over(bytes, lists);
        self.queries.forget();
        self.lists.forget(lists);
        Ok(lists.len())
    }

    /// A list of edits that are to be made together, with none in it yet.
    pub fn begin_edits(&self, alloc: Global) -> Result<EditList, NoMemory>
        ensures none { IfOk result (λ edits. edits.edits ≡ []) }
        ensures fits { IfOk result (FitsList self.now) }
    {
        self.held.begin_edits(alloc)
    }

    /// Adds an edit to a list of edits, behind the others, and answers how many edges it touches over the network as they leave it.
    /// Its numbers are in range. Nothing changes of what is held; where memory runs out the list is as before.
    pub fn add_edit(&self, alloc: Global, edits: &mut EditList, edit: Edit) -> Result<u32, NoMemory>
        requires edits { FitsList self.now edits.old }
        requires range { IsEditInRange (edited_all self.now.network edits.old.edits) edit }
        ensures fits { FitsList self.now edits.new }
        ensures made { IfOk result (λ count. edits.new.edits ≡ edits.old.edits ++ edit ∷ []) }
        ensures count { IfOk result
            (CountsTouched self.now (edited_all self.now.network edits.old.edits) edit) }
        ensures sound { IfOk result
            (λ count. IsNetwork (edited_all self.now.network edits.new.edits)) }
        ensures kept { OnErr result (edits.new ≡ edits.old) }
    {
        self.held.add_edit(alloc, edits, edit)
    }

    /// Makes all edits of a list: each edge that some of them touches is settled once, and the file is packed once. Where memory
    /// runs out nothing has changed. How many of the edges are settled is told as it goes.
    pub fn edit_all<P: Progress>(
        &mut self,
        alloc: Global,
        edits: &EditList,
        progress: &mut P,
    ) -> Result<(), NoMemory>
        requires edits { FitsList self.old edits.now }
        ensures edited { OnOk result (IsEditedAll self.old edits.now.edits self.new) }
        ensures kept { OnErr result (self.new ≡ self.old) }
    {
        let rows = self.queries.rows();
        let editing = &mut self.editing;
        let (bytes, lists) = edit_all_held(alloc, &self.held, rows, edits, editing, progress)?;
        self.held.change_over(bytes, lists.as_slice());
        self.queries.forget();
        self.lists.forget(lists.as_slice());
        Ok(())
    }

    /// The edges that an edit touches, whose numbers are in range, by rising number. Nothing changes of what is held.
    pub fn plan(&mut self, alloc: Global, edit: &Edit) -> Result<Vec<u32>, NoMemory>
        requires range { IsEditInRange self.old.network edit.now }
        ensures touched { IfOk result (λ edges. NumbersTouched self.old edit.now edges.items) }
        ensures few { IfOk result (λ edges. length edges.items ≤ MAX_EDGES) }
        ensures stays { self.new ≡ self.old }
    {
        fill_edit_room(alloc, &self.held, &mut self.editing)?;
        let Some(room) = &mut self.editing else {
            unreachable!()
        };
        plan_held(alloc, &self.held, edit, room)
    }

    /// Begins an edit of a client, whose numbers are in range and which touches these edges. None of them is settled yet, and nothing
    /// changes of what is held.
    pub fn begin(
        &mut self,
        alloc: Global,
        client: u32,
        edges: Vec<u32>,
        edit: Edit,
    ) -> Result<Busy, NoMemory>
        requires range { IsEditInRange self.old.network edit }
        requires touched { NumbersTouched self.old edit edges.items }
        ensures fits { IfOk result (FitsBusy self.old) }
        ensures edit { IfOk result (λ busy. busy.edit ≡ edit) }
        ensures papers { IfOk result (λ busy. busy.papers
            ≡ record { client = client; edges = edges.items; lists = [] }) }
        ensures stays { self.new ≡ self.old }
    {
        fill_edit_room(alloc, &self.held, &mut self.editing)?;
        let Some(room) = &mut self.editing else {
            unreachable!()
        };
        begin_held(alloc, &self.held, room, client, edges, edit)
    }

    /// Settles the next edge of an edit in work, if one is left, and answers how many are left then. Where memory runs out none is
    /// settled. Nothing changes of what is held.
    pub fn go_on(&mut self, alloc: Global, busy: Busy) -> (Busy, Result<u32, NoMemory>)
        requires fits { FitsBusy self.old busy }
        ensures fits { FitsBusy self.old result.0 }
        ensures edit { result.0.edit ≡ busy.edit }
        ensures client { result.0.papers.client ≡ busy.papers.client }
        ensures edges { result.0.papers.edges ≡ busy.papers.edges }
        ensures left { IfOk result.1 (λ left. (left ≡ edges_left result.0)
            × (left ≡ edges_left busy - 1)) }
        ensures kept { OnErr result.1 (result.0.papers.lists ≡ busy.papers.lists) }
        ensures stays { self.new ≡ self.old }
    {
        let Ok(()) = fill_edit_room(alloc, &self.held, &mut self.editing) else {
            return (busy, Err(NoMemory));
        };
        let Some(room) = &self.editing else {
            unreachable!()
        };
        settle_next(alloc, &self.held, self.queries.rows(), room, busy)
    }

    /// Makes an edit in work, none of whose edges is left. Where memory runs out it is handed back as it was, and nothing has
    /// changed.
    pub fn publish(&mut self, alloc: Global, busy: Busy) -> Result<(), Busy>
        requires fits { FitsBusy self.old busy }
        requires none { edges_left busy ≡ 0 }
        ensures published { OnOk result
            (IsEdited self.old busy.edit self.new (length busy.papers.edges)) }
        ensures kept { OnErr result (self.new ≡ self.old) }
        ensures same { IfErr result (λ back. back ≡ busy) }
    {
        let Ok(()) = fill_edit_room(alloc, &self.held, &mut self.editing) else {
            return Err(busy);
        };
        let Ok(bytes) = self
            .held
            .repacked(alloc, Edits::One(&busy.edit), busy.papers.lists())
        else {
            return Err(busy);
        };
        let Some(room) = &mut self.editing else {
            unreachable!()
        };
        let papers = finish(alloc, &self.held, self.queries.rows(), room, busy);
        self.held.change_over(bytes, papers.lists());
        self.queries.forget();
        self.lists.forget(papers.lists());
        Ok(())
    }

    /// Lets go of an edit in work, which isn't made. What it learned of the hierarchy is kept for edits to come. Takes no memory.
    pub fn cancel(&mut self, busy: Busy)
        requires fits { FitsBusy self.old busy }
        ensures stays { self.new ≡ self.old }
    {
        let Busy { settler, .. } = busy;
        give_back(&mut self.editing, settler);
    }
}

// Room for the queries and the reaches of a held file.
fn rooms_over(alloc: Global, held: &HeldFile) -> Result<(QueryRoom, ReachDesk), NoMemory>
    ensures fits { IfOk result (λ rooms. Fits held.now rooms.0) }
    ensures nodes { IfOk result (λ rooms. length rooms.1 ≡ held.now.network.nodes) }
{
    let view = held.view();
    let (nodes, edges) = (view.nodes(), view.edges());
    let reaches = ReachDesk::new(alloc, nodes)?;
    let queries = QueryRoom::new(alloc, nodes, edges)?;
    Ok((queries, reaches))
}
