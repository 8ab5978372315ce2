//! Relaxations over borrowed ways.

ghost use Rattle.std.specs.Prelude.{◌≡◌, ◌≤◌, ◌<◌, ◌+◌, ◌^◌, ℕ, None, IfOk, length};
ghost use Rattle.cu_io.specs.Sinks.{Wrote};
ghost use Rattle.cu_interval.specs.declared.relaxing.Relaxed.TheVariants.{At};
ghost use Rattle.cu_interval.specs.Calls.{Adds, IfAt};
ghost use Rattle.cu_interval.specs.Hierarchies.{IsHierarchy};
ghost use Rattle.cu_interval.specs.LeastBounds.{far, least_bound};
ghost use Rattle.cu_interval.specs.Unpacking.{relaxed};
ghost use Rattle.cu_drive.specs.RoadTexts.{driven_text, number_text};
ghost use Rattle.cu_unpack.specs.Answers.{IsArriving, IsLowWhereBuilt, walk_over};

use crate::counted::Counted;
use crate::unpacking::{relax_counted, write_walk};
use crate::walker::Walker;
use crate::work::Work;
use cu_drive::{NumberAlone, WalkForm};
use cu_interval::{BoundedWays, Call, Dir, Relaxed, Relaxer, Ways};
use cu_io::{Sink, SinkFailed};
use std::marker::Model;

/// Relaxes the shortcuts of borrowed ways, where these know the least bound of each list, with room of its own, and writes
/// their walks. Contracts see the hierarchy. It doesn't tell its calls.
#[derive(Drop)]
pub struct Unpacker<'a, W: Ways> {
    ways: &'a W,
    work: Work,
}

impl<'a, W: Ways> Model for Unpacker<'a, W> {
    ghost use Rattle.std.specs.Prelude.{◌≡◌};
    ghost use Rattle.cu_interval.specs.Hierarchies.{HierarchyValue};

    ghost Value = { HierarchyValue };

    ghost view = { λ unpacker. W.hierarchy unpacker.ways.now };

    ghost invariant = { λ unpacker. unpacker.work
        ≡ (W.hierarchy unpacker.ways.now).network.nodes };
}

impl<'a, W: Ways> Unpacker<'a, W> {
    /// An unpacker over these ways, with room that was made for as many nodes. Takes no memory.
    pub fn new(ways: &'a W, work: Work) -> Unpacker<'a, W>
        requires { work ≡ (W.hierarchy ways.now).network.nodes }
        ensures { result ≡ W.hierarchy ways.now }
    {
        Unpacker { ways, work }
    }

    /// Gives the room back, for the next unpacker. Takes no memory.
    pub fn into_work(self) -> Work
        ensures room { result ≡ self.entry.network.nodes }
    {
        self.work
    }

    /// Writes the roads of the walk of a relaxation that arrives, in plain decimal, a blank before each, but not before the
    /// first where that is the first of all; and answers when the walk arrives. The edge's number is below the number of
    /// edges, and the second below 2^61. Takes no memory.
    ///
    /// Refused only where a write is: the sink's count of faults rose, and some first bytes were written.
    pub fn walk<K: Sink>(
        &mut self,
        edge: u32,
        dir: Dir,
        at: u64,
        first: bool,
        sink: &mut K,
    ) -> Result<u64, SinkFailed>
        requires edge { edge < length self.old.edges }
        requires time { at < 2 ^ 61 }
        requires answers { IsArriving self.old edge dir at }
        ensures wrote { Wrote (K.state sink.old) (K.state sink.new) result
            (driven_text number_text self.old.network first
            (walk_over self.old edge dir at) at) }
        ensures arrival { IfOk result (λ arrival. relaxed self.old edge dir at ≡ At arrival) }
        ensures sound { IsHierarchy self.old }
        ensures stays { self.new ≡ self.old }
    {
        let ways = self.ways;
        let work = &mut self.work;
        let call = Call {
            edge,
            dir,
            second: at,
        };
        walk_over_ways(ways, work, call, first, &NumberAlone, sink)
    }
}

impl<'a, W: BoundedWays> Relaxer for Unpacker<'a, W> {
    ghost hierarchy = { λ unpacker. unpacker };

    ghost calls = { λ unpacker. None };

    fn relax(&mut self, edge: u32, dir: Dir, at: u64) -> Relaxed
        requires edge { edge < length self.old.edges }
        requires time { at < 2 ^ 61 }
        ensures answer { result ≡ relaxed self.old edge dir at }
        ensures near { IfAt result (λ (arrival : ℕ). (at ≤ arrival) × (arrival ≤ at + 2 ^ 38)) }
        ensures sound { IsHierarchy self.old }
        ensures stays { self.new ≡ self.old }
        ensures told { Adds None None (record { edge = edge; dir = dir; second = at }) }
        ensures built { IsLowWhereBuilt self.old edge dir at result }
    {
        let ways = self.ways;
        let work = &mut self.work;
        relax_over(ways, work, edge, dir, at)
    }

    fn least(&self, edge: u32, dir: Dir) -> u64
        requires edge { edge < length self.now.edges }
        ensures bound { result ≡ least_bound self.now edge dir }
        ensures most { result ≤ far }
    {
        self.ways.least(edge, dir)
    }
}

impl<'a, W: BoundedWays> Walker for Unpacker<'a, W> {
    fn write_walk<P: WalkForm, K: Sink>(
        &mut self,
        call: Call,
        first: bool,
        form: &P,
        sink: &mut K,
    ) -> Result<(), SinkFailed> {
        let ways = self.ways;
        let work = &mut self.work;
        walk_over_ways(ways, work, call, first, form, sink)?;
        Ok(())
    }
}

// The answer of a relaxation over these ways.
fn relax_over<W: Ways>(ways: &W, work: &mut Work, edge: u32, dir: Dir, at: u64) -> Relaxed
    requires edge { edge < length (W.hierarchy ways.now).edges }
    requires time { at < 2 ^ 61 }
    requires room { work.old ≡ (W.hierarchy ways.now).network.nodes }
    ensures answer { result ≡ relaxed (W.hierarchy ways.now) edge dir at }
    ensures near { IfAt result (λ (arrival : ℕ). (at ≤ arrival) × (arrival ≤ at + 2 ^ 38)) }
    ensures sound { IsHierarchy (W.hierarchy ways.now) }
    ensures work { work.new ≡ work.old }
{
    relax_counted(&mut Counted::of(ways), work, edge, dir, at)
}

// Writes the walk of a call over these ways.
fn walk_over_ways<W: Ways, P: WalkForm, K: Sink>(
    ways: &W,
    work: &mut Work,
    call: Call,
    first: bool,
    form: &P,
    sink: &mut K,
) -> Result<u64, SinkFailed>
    requires edge { call.edge < length (W.hierarchy ways.now).edges }
    requires time { call.second < 2 ^ 61 }
    requires room { work.old ≡ (W.hierarchy ways.now).network.nodes }
    requires answers { IsArriving (W.hierarchy ways.now) call.edge call.dir call.second }
    ensures wrote { Wrote (K.state sink.old) (K.state sink.new) result
        (driven_text (P.text form.now) (W.hierarchy ways.now).network first
        (walk_over (W.hierarchy ways.now) call.edge call.dir call.second) call.second) }
    ensures arrival { IfOk result (λ arrival.
        relaxed (W.hierarchy ways.now) call.edge call.dir call.second ≡ At arrival) }
    ensures sound { IsHierarchy (W.hierarchy ways.now) }
    ensures work { work.new ≡ work.old }
{
    write_walk(&mut Counted::of(ways), work, call, first, form, sink)
}
