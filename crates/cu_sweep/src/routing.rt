//! Routes: the roads of the walk that a query found.

ghost use Rattle.std.specs.Prelude.{◌≡◌, ◌≤◌, ◌<◌, ◌*◌, true, false, IfOk, length};
ghost use Rattle.cu_io.specs.Sinks.{Wrote};
ghost use Rattle.cu_chordal.specs.declared.graph.TheConstants.{MAX_EDGES};
ghost use Rattle.cu_drive.specs.RoadTexts.{number_text};
ghost use Rattle.cu_sweep.specs.Desks.{AreArriving, IsArrivingCall, call_text, first_after, routed_text};
ghost use Rattle.cu_sweep.specs.Places.{calls_found, calls_of_some, calls_over, dir_between};
ghost use Rattle.cu_sweep.specs.Steps.Ready.{IsChainReady};

use crate::desk::SweepDesk;
use crate::labels::Labels;
use cu_drive::{NumberAlone, WalkForm};
use cu_interval::{Call, Dir};
use cu_io::{Sink, SinkFailed};
use cu_links::Chain;
use cu_unpack::Walker;

/// Writes the roads of the walk that the desk found, each by its number, in the order in which they are driven. The desk holds
/// calls over this hierarchy that all arrive, and was not turned since its last query. Its chain is turned in place, so one route
/// follows a query. Takes no memory; a fault of the sink is handed on, and the roads written before it stay.
pub fn route<W: Walker, K: Sink>(
    desk: &mut SweepDesk,
    walker: &mut W,
    sink: &mut K,
) -> Result<(), SinkFailed>
    requires unturned { desk.old.turned ≡ false }
    requires arriving { AreArriving (W.hierarchy walker.old) desk.old.calls }
    ensures wrote { Wrote (K.state sink.old) (K.state sink.new) result
        (routed_text (call_text number_text (W.hierarchy walker.old)) true desk.old.calls) }
    ensures nodes { desk.new.nodes ≡ desk.old.nodes }
    ensures turned { desk.new.turned ≡ true }
    ensures stays { W.hierarchy walker.new ≡ W.hierarchy walker.old }
    ensures quiet { W.calls walker.new ≡ W.calls walker.old }
{
    route_by(desk, walker, &NumberAlone, sink)
}

/// [`route`], where each road is written as the form says of it and of the second at which it is entered.
pub fn route_by<W: Walker, P: WalkForm, K: Sink>(
    desk: &mut SweepDesk,
    walker: &mut W,
    form: &P,
    sink: &mut K,
) -> Result<(), SinkFailed>
    requires unturned { desk.old.turned ≡ false }
    requires arriving { AreArriving (W.hierarchy walker.old) desk.old.calls }
    ensures wrote { Wrote (K.state sink.old) (K.state sink.new) result
        (routed_text (call_text (P.text form.now) (W.hierarchy walker.old)) true desk.old.calls) }
    ensures nodes { desk.new.nodes ≡ desk.old.nodes }
    ensures turned { desk.new.turned ≡ true }
    ensures stays { W.hierarchy walker.new ≡ W.hierarchy walker.old }
    ensures quiet { W.calls walker.new ≡ W.calls walker.old }
{
    let end = desk.end;
    desk.labels.write_to(end, walker, form, sink)
}

impl Labels<Chain> {
    // Turns the chain that leads to a place, and writes the roads of its calls from its first place on.
    fn write_to<W: Walker, P: WalkForm, K: Sink>(
        &mut self,
        end: u32,
        walker: &mut W,
        form: &P,
        sink: &mut K,
    ) -> Result<(), SinkFailed>
        requires end { end ≤ 2 * self.old.nodes }
        requires unturned { self.old.turned ≡ false }
        requires arriving { AreArriving (W.hierarchy walker.old)
            (calls_found self.old.nodes self.old.seconds self.old.links end) }
        ensures wrote { Wrote (K.state sink.old) (K.state sink.new) result
            (routed_text (call_text (P.text form.now) (W.hierarchy walker.old)) true
            (calls_found self.old.nodes self.old.seconds self.old.links end)) }
        ensures nodes { self.new.nodes ≡ self.old.nodes }
        ensures turned { self.new.turned ≡ true }
        ensures stays { W.hierarchy walker.new ≡ W.hierarchy walker.old }
        ensures quiet { W.calls walker.new ≡ W.calls walker.old }
    {
        let reached = Reached {
            nodes: self.nodes(),
            seconds: &self.seconds,
        };
        write_chain(reached, &mut self.chain, end, walker, form, sink)
    }
}

// When the places of so many nodes are reached, upwards and then downwards.
#[derive(Clone, Copy)]
struct Reached<'a> {
    nodes: u32,
    seconds: &'a [Option<u64>],
}

// The same, in places for labels and links.
fn write_chain<W: Walker, P: WalkForm, K: Sink>(
    reached: Reached<'_>,
    chain: &mut Chain,
    end: u32,
    walker: &mut W,
    form: &P,
    sink: &mut K,
) -> Result<(), SinkFailed>
    requires ready { IsChainReady reached.nodes reached.seconds.now chain.old }
    requires end { end ≤ 2 * reached.nodes }
    requires unturned { chain.old.turned ≡ false }
    requires arriving { AreArriving (W.hierarchy walker.old)
        (calls_found reached.nodes reached.seconds.now chain.old.links end) }
    ensures wrote { Wrote (K.state sink.old) (K.state sink.new) result
        (routed_text (call_text (P.text form.now) (W.hierarchy walker.old)) true
        (calls_found reached.entry.nodes reached.entry.seconds.now chain.old.links end)) }
    ensures ready { IsChainReady reached.entry.nodes reached.entry.seconds.now chain.new }
    ensures turned { chain.new.turned ≡ true }
    ensures stays { W.hierarchy walker.new ≡ W.hierarchy walker.old }
    ensures quiet { W.calls walker.new ≡ W.calls walker.old }
{
    let mut place = chain.reverse_from(end);
    let mut first = true;
    'links: while let Some((next, edge)) = chain.follow(place) {
        let call = call_of(reached, place, next, edge);
        first = write_some(call, first, walker, form, sink)?;
        place = next;
    }
    Ok(())
}

// The call of a link between two places, at the second of the place that it comes from.
fn call_of(reached: Reached<'_>, from: u32, place: u32, edge: u64) -> Option<Call>
    requires from { from < length reached.seconds.now }
    requires edge { edge < MAX_EDGES }
    ensures { calls_of_some result ≡ calls_over reached.entry.nodes reached.entry.seconds.now from place edge }
{
    let dir = direction(reached.nodes, from, place)?;
    let second = reached.seconds[from as usize]?;
    Some(Call {
        edge: edge as u32,
        dir,
        second,
    })
}

// Which direction a link between two places leads in. None where a downward label begins as the upward one.
fn direction(nodes: u32, from: u32, place: u32) -> Option<Dir>
    ensures { result ≡ dir_between nodes from place }
{
    if place < nodes {
        return Some(Dir::Up);
    }
    if from < nodes {
        return None;
    }
    Some(Dir::Down)
}

// Writes the roads of a call, where there is one, and answers whether the next road is still the first of all.
fn write_some<W: Walker, P: WalkForm, K: Sink>(
    call: Option<Call>,
    first: bool,
    walker: &mut W,
    form: &P,
    sink: &mut K,
) -> Result<bool, SinkFailed>
    requires arriving { AreArriving (W.hierarchy walker.old) (calls_of_some call) }
    ensures wrote { Wrote (K.state sink.old) (K.state sink.new) result
        (routed_text (call_text (P.text form.now) (W.hierarchy walker.old)) first (calls_of_some call)) }
    ensures first { IfOk result (λ next. next ≡ first_after first (calls_of_some call)) }
    ensures stays { W.hierarchy walker.new ≡ W.hierarchy walker.old }
    ensures quiet { W.calls walker.new ≡ W.calls walker.old }
{
    let Some(call) = call else {
        return Ok(first);
    };
    write_call(call, first, walker, form, sink)?;
    Ok(false)
}

// Writes the roads of a call that arrives.
fn write_call<W: Walker, P: WalkForm, K: Sink>(
    call: Call,
    first: bool,
    walker: &mut W,
    form: &P,
    sink: &mut K,
) -> Result<(), SinkFailed>
    requires arriving { IsArrivingCall (W.hierarchy walker.old) call }
    ensures wrote { Wrote (K.state sink.old) (K.state sink.new) result
        (call_text (P.text form.now) (W.hierarchy walker.old) first call) }
    ensures stays { W.hierarchy walker.new ≡ W.hierarchy walker.old }
    ensures quiet { W.calls walker.new ≡ W.calls walker.old }
{
    walker.write_walk(call, first, form, sink)
}
