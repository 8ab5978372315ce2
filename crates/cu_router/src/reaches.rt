//! Reaches, tables and latest departures over a held file.

ghost use Rattle.std.specs.Prelude.{◌≡◌, ◌≤◌, ◌<◌, ℕ, All, List, Some, length, slice_get};
ghost use Rattle.cu_io.specs.Sinks.{Wrote};
ghost use Rattle.cu_model.specs.declared.limits.TheConstants.{DAY};
ghost use Rattle.cu_interval.specs.Hierarchies.{IsHierarchy, graph_of};
ghost use Rattle.cu_short.specs.Shortness.{NeverLong};
ghost use Rattle.cu_reach.specs.Aims.{HasRanks, IsPath};
ghost use Rattle.cu_reach.specs.Departures.{HoldsDeparture, IsDeparture, latest_by};
ghost use Rattle.cu_reach.specs.ReachTexts.{reach_reply, table_reply, table_rows};
ghost use Rattle.cu_recall.specs.Rooms.{Fits};
ghost use Rattle.cu_router.specs.Lists.{FitsLists};
ghost use Rattle.cu_router.specs.Reaches.{IsHeldLatestReply};
ghost use Rattle.cu_router.specs.Steps.Departing.{departure_text};

use crate::held_file::HeldFile;
use crate::known_lists::KnownLists;
use crate::query_room::QueryRoom;
use crate::sweeps::put_found;
use cu_drive::NumberAlone;
use cu_interval::Ways;
use cu_io::{Sink, SinkFailed, put_all};
use cu_reach::{
    Aim, Departure, LatestAsked, ReachAsked, ReachDesk, Reached, Start, TableAsked, latest,
    put_damage, put_row, put_times, put_word_and_long, reach, reach_over,
};
use cu_recall::{Recall, SweepRecall};
use cu_sweep::{Found, Question, SweepDesk};

// The ranks of the nodes between which a departure is asked.
#[derive(Clone, Copy)]
struct Ranks {
    from: u32,
    to: u32,
}

impl QueryRoom {
    /// Writes the reply of a held file to a question for all nodes, from one below the number of nodes, leaving at a second of the
    /// day; the desk was made for as many. Takes no memory.
    pub fn put_reach<K: Sink>(
        &mut self,
        held: &HeldFile,
        desk: &mut ReachDesk,
        asked: ReachAsked,
        sink: &mut K,
    ) -> Result<(), SinkFailed>
        requires fits { Fits held.now self.old }
        requires desk { length desk.old ≡ held.now.network.nodes }
        requires from { asked.from < held.now.network.nodes }
        requires second { asked.second < DAY }
        ensures wrote { Wrote (K.state sink.old) (K.state sink.new) result
            (reach_reply held.now asked) }
        ensures fits { Fits held.now self.new }
        ensures desk { length desk.new ≡ length desk.old }
    {
        let Some(room) = self.room.take() else {
            unreachable!()
        };
        let view = held.view();
        let from = view.rank(asked.from);
        let tree = held.tree();
        let graph = held.graph();
        let mut recall = SweepRecall::new(&view, graph, room, asked.second);
        let reached = reach(tree, graph, desk, &mut recall, from, asked.second);
        self.room = Some(recall.into_room());
        cu_reach::put_reach(&view, desk, reached, sink)
    }

    /// Writes the reply of a held file to a question for a table of nodes below the number of nodes, leaving at a second of the
    /// day; the desk was made for as many. The targets are read again for each source, whose row is written as it is found.
    /// Takes no memory.
    pub fn put_table<K: Sink>(
        &mut self,
        held: &HeldFile,
        desk: &mut ReachDesk,
        asked: &TableAsked<'_>,
        sink: &mut K,
    ) -> Result<(), SinkFailed>
        requires fits { Fits held.now self.old }
        requires desk { length desk.old ≡ held.now.network.nodes }
        requires sources { All (λ node. node < held.now.network.nodes) asked.now.sources }
        requires targets { All (λ node. node < held.now.network.nodes) asked.now.targets }
        requires second { asked.now.second < DAY }
        ensures wrote { Wrote (K.state sink.old) (K.state sink.new) result
            (table_reply held.now asked.now) }
        ensures fits { Fits held.now self.new }
        ensures desk { length desk.new ≡ length desk.old }
    {
        put_all(sink, b"table")?;
        let mut targets = asked.targets();
        if targets.next().is_none() {
            return Ok(());
        }
        self.put_table_rows(held, desk, asked, sink)
    }

    // Writes the rows of a table that has targets.
    fn put_table_rows<K: Sink>(
        &mut self,
        held: &HeldFile,
        desk: &mut ReachDesk,
        asked: &TableAsked<'_>,
        sink: &mut K,
    ) -> Result<(), SinkFailed>
        requires fits { Fits held.now self.old }
        requires desk { length desk.old ≡ held.now.network.nodes }
        requires sources { All (λ node. node < held.now.network.nodes) asked.now.sources }
        requires targets { All (λ node. node < held.now.network.nodes) asked.now.targets }
        requires second { asked.now.second < DAY }
        ensures wrote { Wrote (K.state sink.old) (K.state sink.new) result
            (table_rows held.now asked.now.second asked.now.targets asked.now.sources) }
        ensures fits { Fits held.now self.new }
        ensures desk { length desk.new ≡ length desk.old }
    {
        let Some(room) = self.room.take() else {
            unreachable!()
        };
        let view = held.view();
        let mut recall = SweepRecall::new(&view, held.graph(), room, asked.second());
        let aim = &mut self.sweeps.aim;
        let outcome = put_aimed_rows(held, desk, aim, &mut recall, asked, sink);
        self.room = Some(recall.into_room());
        outcome
    }

    /// Writes the reply of a held file to a question for the latest departure between nodes below the number of nodes. Takes no
    /// memory.
    pub fn put_latest<K: Sink>(
        &mut self,
        held: &HeldFile,
        lists: &KnownLists,
        asked: LatestAsked,
        sink: &mut K,
    ) -> Result<(), SinkFailed>
        requires fits { Fits held.now self.old }
        requires lists { FitsLists held.now lists.now }
        requires from { asked.from < held.now.network.nodes }
        requires to { asked.to < held.now.network.nodes }
        requires by { asked.by ≤ latest_by }
        ensures reply { (reply : List ℕ) × IsHeldLatestReply held.now asked reply
            × Wrote (K.state sink.old) (K.state sink.new) result reply }
        ensures fits { Fits held.now self.new }
    {
        let Some(room) = self.room.take() else {
            unreachable!()
        };
        let view = held.view();
        let from = view.rank(asked.from);
        let to = view.rank(asked.to);
        let tree = held.tree();
        let graph = held.graph();
        let desk = &mut self.sweeps.desk;
        let mut recall = Recall::new(&view, graph, &lists.sequences, &lists.store, room);
        let departure = latest(tree, graph, desk, &mut recall, from, to, asked.by);
        let ranks = Ranks { from, to };
        let outcome = put_departure(departure, desk, &mut recall, ranks, asked, sink);
        self.room = Some(recall.into_room());
        outcome
    }
}

// Writes the rows of a table that has targets. Where no walk is too long, its sweeps go down over what its targets need alone.
fn put_aimed_rows<K: Sink>(
    held: &HeldFile,
    desk: &mut ReachDesk,
    aim: &mut Aim,
    recall: &mut SweepRecall<'_>,
    asked: &TableAsked<'_>,
    sink: &mut K,
) -> Result<(), SinkFailed>
    requires same { recall.old ≡ held.now }
    requires desk { length desk.old ≡ held.now.network.nodes }
    requires aim { aim.old.nodes ≡ held.now.network.nodes }
    requires sources { All (λ node. node < held.now.network.nodes) asked.now.sources }
    requires targets { All (λ node. node < held.now.network.nodes) asked.now.targets }
    requires second { asked.now.second < DAY }
    ensures wrote { Wrote (K.state sink.old) (K.state sink.new) result
        (table_rows held.now asked.now.second asked.now.targets asked.now.sources) }
    ensures stays { recall.new ≡ recall.old }
    ensures desk { length desk.new ≡ length desk.old }
    ensures aim { aim.new.nodes ≡ aim.old.nodes }
{
    if !held.is_led() {
        return put_rows(held, desk, recall, asked, sink);
    }
    aim.aim(&held.view(), held.graph(), asked.targets());
    put_led_rows(held, desk, aim.path(), recall, asked, sink)
}

// Writes the rows of a table where no walk is too long, each as its source is asked, over a path that has its targets' ranks.
fn put_led_rows<K: Sink>(
    held: &HeldFile,
    desk: &mut ReachDesk,
    path: &[u32],
    recall: &mut SweepRecall<'_>,
    asked: &TableAsked<'_>,
    sink: &mut K,
) -> Result<(), SinkFailed>
    requires same { recall.old ≡ held.now }
    requires desk { length desk.old ≡ held.now.network.nodes }
    requires path { IsPath (graph_of held.now) path.now }
    requires aimed { HasRanks held.now asked.now.targets path.now }
    requires short { NeverLong held.now }
    requires sources { All (λ node. node < held.now.network.nodes) asked.now.sources }
    requires targets { All (λ node. node < held.now.network.nodes) asked.now.targets }
    requires second { asked.now.second < DAY }
    ensures wrote { Wrote (K.state sink.old) (K.state sink.new) result
        (table_rows held.now asked.now.second asked.now.targets asked.now.sources) }
    ensures stays { recall.new ≡ recall.old }
    ensures desk { length desk.new ≡ length desk.old }
{
    let view = held.view();
    let tree = held.tree();
    let graph = held.graph();
    let second = asked.second();
    'rows: for source in asked.sources() {
        let from = view.rank(source);
        reach_over(tree, graph, desk, recall, Start { from, second }, path);
        put_times(&view, desk, asked.targets(), sink)?;
    }
    Ok(())
}

// Writes the rows of a table that has targets, each as its source is asked, up to the first call whose walk is too long.
fn put_rows<K: Sink>(
    held: &HeldFile,
    desk: &mut ReachDesk,
    recall: &mut SweepRecall<'_>,
    asked: &TableAsked<'_>,
    sink: &mut K,
) -> Result<(), SinkFailed>
    requires same { recall.old ≡ held.now }
    requires desk { length desk.old ≡ held.now.network.nodes }
    requires sources { All (λ node. node < held.now.network.nodes) asked.now.sources }
    requires targets { All (λ node. node < held.now.network.nodes) asked.now.targets }
    requires second { asked.now.second < DAY }
    ensures wrote { Wrote (K.state sink.old) (K.state sink.new) result
        (table_rows held.now asked.now.second asked.now.targets asked.now.sources) }
    ensures stays { recall.new ≡ recall.old }
    ensures desk { length desk.new ≡ length desk.old }
{
    let view = held.view();
    let tree = held.tree();
    let graph = held.graph();
    let second = asked.second();
    'rows: for source in asked.sources() {
        let from = view.rank(source);
        let reached = reach(tree, graph, desk, recall, from, second);
        put_row(&view, desk, reached, asked.targets(), sink)?;
        if let Reached::Long { .. } = reached {
            return Ok(());
        }
    }
    Ok(())
}

// Writes a departure between the ranks of the nodes of which it is asked, with the answer to the query at its second.
fn put_departure<K: Sink>(
    departure: Departure,
    desk: &mut SweepDesk,
    recall: &mut Recall<'_>,
    ranks: Ranks,
    asked: LatestAsked,
    sink: &mut K,
) -> Result<(), SinkFailed>
    requires departs { IsDeparture recall.old ranks.from ranks.to asked.by departure }
    requires holds { HoldsDeparture recall.old ranks.from ranks.to departure desk.old }
    requires sound { IsHierarchy recall.old }
    requires start { slice_get recall.old.order.rank_of asked.from ≡ Some ranks.from }
    requires stop { slice_get recall.old.order.rank_of asked.to ≡ Some ranks.to }
    ensures wrote { Wrote (K.state sink.old) (K.state sink.new) result
        (departure_text recall.old asked departure) }
    ensures desk { desk.new.nodes ≡ desk.old.nodes }
    ensures stays { recall.new ≡ recall.old }
{
    match departure {
        Departure::Depart { second, arrive } => {
            put_word_and_long(sink, b"depart=", second)?;
            put_all(sink, b" ")?;
            let Ranks { from, to } = ranks;
            let second = second as u32;
            let question = Question { from, to, second };
            let found = Found::Arrive(arrive);
            put_found(found, desk, recall, question, &NumberAlone, sink)
        }
        Departure::TooLate => put_all(sink, b"too late"),
        Departure::NoWalk => put_all(sink, b"unreachable"),
        Departure::Long { edge, dir, second } => put_damage(edge, dir, second, sink),
    }
}
