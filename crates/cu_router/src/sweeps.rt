//! The sweeps of queries over a held file, and what is written of what they find.

ghost use Rattle.std.specs.Prelude.{◌≡◌, ◌≤◌, ◌<◌, ℕ, IfOk, false};
ghost use Rattle.cu_io.specs.Sinks.{Wrote};
ghost use Rattle.cu_model.specs.declared.limits.TheConstants.{DAY, MAX_NODES};
ghost use Rattle.cu_drive.specs.RoadTexts.{arrival_text};
ghost use Rattle.cu_interval.specs.Hierarchies.{IsHierarchy};
ghost use Rattle.cu_sweep.specs.Answers.{IsLeastWhereBuilt, IsReal};
ghost use Rattle.cu_sweep.specs.Desks.{AreArriving, AreChained, HoldsFound, roads_of};
ghost use Rattle.cu_sweep.specs.Sweeps.{found};
ghost use Rattle.cu_router.specs.Swept.{swept_between};
ghost use Rattle.cu_router.specs.Steps.Asking.{AddsQuery};

use crate::held_file::HeldFile;
use cu_drive::WalkForm;
use cu_interval::Relaxer;
use cu_io::{Sink, SinkFailed, put_all, put_number};
use cu_model::NoMemory;
use cu_reach::{Aim, put_damage};
use cu_sweep::{Found, Ground, Outlook, Question, SweepDesk, led_query, query, route_by};
use cu_unpack::Walker;
use std::alloc::Global;
use std::marker::Model;

/// What the sweeps of queries need. Contracts see the desk.
#[derive(Drop)]
pub(crate) struct Sweeps {
    pub(crate) desk: SweepDesk,
    outlook: Outlook,
    // The ranks that the sweeps of a table go down over.
    pub(crate) aim: Aim,
}

impl Model for Sweeps {
    ghost use Rattle.std.specs.Prelude.{◌≡◌};
    ghost use Rattle.cu_sweep.specs.Desks.{DeskValue};

    ghost Value = { DeskValue };

    ghost view = { λ sweeps. sweeps.desk };

    ghost invariant = { λ sweeps. (sweeps.outlook.nodes ≡ sweeps.desk.nodes)
        × (sweeps.aim.nodes ≡ sweeps.desk.nodes) };
}

impl Sweeps {
    /// Room for the sweeps over hierarchies of so many nodes.
    pub(crate) fn new(alloc: Global, nodes: u32) -> Result<Sweeps, NoMemory>
        requires { nodes ≤ MAX_NODES }
        ensures nodes { IfOk result (λ sweeps. sweeps.nodes ≡ nodes) }
    {
        Ok(Sweeps {
            desk: SweepDesk::new(alloc, nodes)?,
            outlook: Outlook::new(alloc, nodes)?,
            aim: Aim::new(alloc, nodes)?,
        })
    }

    /// What a query's sweeps over a held file find. Where no walk is known to be too long, the query is led to its end.
    pub(crate) fn find<R: Relaxer>(
        &mut self,
        held: &HeldFile,
        relaxer: &mut R,
        question: Question,
    ) -> Found
        requires held { R.hierarchy relaxer.old ≡ held.now }
        requires sound { IsHierarchy held.now }
        requires nodes { self.old.nodes ≡ held.now.network.nodes }
        requires from { question.from < held.now.network.nodes }
        requires to { question.to < held.now.network.nodes }
        requires second { question.second < DAY }
        ensures found { result ≡ found (R.hierarchy relaxer.old)
            question.from question.to question.second }
        ensures told { AddsQuery (R.hierarchy relaxer.old)
            question.from question.to question.second
            (R.calls relaxer.old) (R.calls relaxer.new) }
        ensures stays { R.hierarchy relaxer.new ≡ R.hierarchy relaxer.old }
        ensures nodes { self.new.nodes ≡ self.old.nodes }
        ensures holds { HoldsFound (R.hierarchy relaxer.old)
            question.from question.to question.second result self.new }
        ensures least { IsLeastWhereBuilt (R.hierarchy relaxer.old)
            question.from question.to question.second result }
        ensures real { IsReal (R.hierarchy relaxer.old)
            question.from question.to question.second self.new.calls result }
    {
        let tree = held.tree();
        let graph = held.graph();
        let desk = &mut self.desk;
        if held.is_led() {
            let ground = Ground {
                tree,
                graph,
                bounds: held.bounds(),
            };
            return led_query(ground, desk, &mut self.outlook, relaxer, question);
        }
        let Question { from, to, second } = question;
        query(tree, graph, desk, relaxer, from, to, second)
    }

    /// Asks one query of a held file, and writes what its sweeps find, the roads of a walk in this form. Their seconds come as the
    /// walk is written, so nothing more is asked for them.
    pub(crate) fn answer<W: Walker, P: WalkForm, K: Sink>(
        &mut self,
        held: &HeldFile,
        walker: &mut W,
        question: Question,
        form: &P,
        sink: &mut K,
    ) -> Result<(), SinkFailed>
        requires held { W.hierarchy walker.old ≡ held.now }
        requires sound { IsHierarchy held.now }
        requires nodes { self.old.nodes ≡ held.now.network.nodes }
        requires from { question.from < held.now.network.nodes }
        requires to { question.to < held.now.network.nodes }
        requires second { question.second < DAY }
        ensures wrote { Wrote (K.state sink.old) (K.state sink.new) result
            (swept_between (arrival_text (P.word form.now) (P.text form.now)
            (W.hierarchy walker.old).network question.second)
            (W.hierarchy walker.old) question.from question.to question.second) }
        ensures told { AddsQuery (W.hierarchy walker.old)
            question.from question.to question.second
            (W.calls walker.old) (W.calls walker.new) }
        ensures stays { W.hierarchy walker.new ≡ W.hierarchy walker.old }
        ensures nodes { self.new.nodes ≡ self.old.nodes }
    {
        let found = self.find(held, walker, question);
        put_found(found, &mut self.desk, walker, question, form, sink)
    }
}

/// Writes what the sweeps of a query found, the roads of a walk in this form.
pub(crate) fn put_found<W: Walker, P: WalkForm, K: Sink>(
    swept: Found,
    desk: &mut SweepDesk,
    walker: &mut W,
    question: Question,
    form: &P,
    sink: &mut K,
) -> Result<(), SinkFailed>
    requires found { swept ≡ found (W.hierarchy walker.old)
        question.from question.to question.second }
    requires holds { HoldsFound (W.hierarchy walker.old)
        question.from question.to question.second swept desk.old }
    requires sound { IsHierarchy (W.hierarchy walker.old) }
    ensures wrote { Wrote (K.state sink.old) (K.state sink.new) result
        (swept_between (arrival_text (P.word form.now) (P.text form.now)
        (W.hierarchy walker.old).network question.second)
        (W.hierarchy walker.old) question.from question.to question.second) }
    ensures desk { desk.new.nodes ≡ desk.old.nodes }
    ensures stays { W.hierarchy walker.new ≡ W.hierarchy walker.old }
    ensures quiet { W.calls walker.new ≡ W.calls walker.old }
{
    match swept {
        Found::Arrive(arrival) => put_arrival(arrival, desk, walker, form, sink),
        Found::NoWalk => put_all(sink, b"unreachable"),
        Found::Long { edge, dir, second } => put_damage(edge, dir, second, sink),
    }
}

// Writes an arrival and the roads of the walk that the desk found, in this form.
fn put_arrival<W: Walker, P: WalkForm, K: Sink>(
    arrival: u64,
    desk: &mut SweepDesk,
    walker: &mut W,
    form: &P,
    sink: &mut K,
) -> Result<(), SinkFailed>
    requires unturned { desk.old.turned ≡ false }
    requires sound { IsHierarchy (W.hierarchy walker.old) }
    requires arriving { AreArriving (W.hierarchy walker.old) desk.old.calls }
    ensures wrote { (second : ℕ) → AreChained (W.hierarchy walker.old) second desk.old.calls
        → Wrote (K.state sink.old) (K.state sink.new) result
        (arrival_text (P.word form.now) (P.text form.now)
        (W.hierarchy walker.old).network second arrival
        (roads_of (W.hierarchy walker.old) desk.old.calls)) }
    ensures desk { desk.new.nodes ≡ desk.old.nodes }
    ensures stays { W.hierarchy walker.new ≡ W.hierarchy walker.old }
    ensures quiet { W.calls walker.new ≡ W.calls walker.old }
{
    put_all(sink, b"arrive=")?;
    put_number(sink, arrival)?;
    put_all(sink, form.word())?;
    route_by(desk, walker, form, sink)
}
