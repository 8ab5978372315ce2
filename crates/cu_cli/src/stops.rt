//! Why a run stops before all is done: one type, one line for each reason, and one place that says it.

ghost use Rattle.std.specs.Prelude.{◌≡◌, ◌++◌};
ghost use Rattle.cu_io.specs.Sinks.{WroteLine};
ghost use Rattle.cu_cli.specs.Stops.{role_word, said_of, status_of};
ghost use Rattle.cu_cli.specs.Steps.Outcomes.{Refuses, Said};

use crate::faults::{
    put_difference_line, put_file_line, put_measured_line, put_network_line, put_order_line,
};
use crate::saying::put_numbers_line;
use cu_chordal::CloseRefusal;
use cu_interval::{Dir, Way};
use cu_io::{Sink, SinkFailed, put_all, put_line};
use cu_model::NoMemory;
use cu_order::OrderRefusal;
use cu_pack::PackRefusal;
use cu_roads::RoadRefusal;
use cu_session::SessionStop;
use cu_wait::MeasuredRefusal;

/// Whose word of a command names a file.
#[derive(Clone, Copy, PartialEq, Eq)]
pub enum Role {
    Nodes,
    Roads,
    Profiles,
    Order,
    Hierarchy,
    Edits,
    Out,
}

impl Role {
    fn word(self) -> &'static [u8]
        ensures { result.now ≡ role_word self }
    {
        match self {
            Role::Nodes => b"nodes",
            Role::Roads => b"roads",
            Role::Profiles => b"profiles",
            Role::Order => b"order",
            Role::Hierarchy => b"hierarchy",
            Role::Edits => b"edits",
            Role::Out => b"out",
        }
    }
}

/// Where a hierarchy first differs from the built one: in the list of this edge in this direction, from this second of the day on,
/// at which it takes the way `stored` and the built one the way `built`; none where the list is empty.
#[derive(Clone, Copy, PartialEq, Eq)]
pub struct Difference {
    pub edge: u32,
    pub dir: Dir,
    pub second: u32,
    pub stored: Option<Way>,
    pub built: Option<Way>,
}

/// Why a run stops before all is done.
#[derive(Clone, Copy, PartialEq, Eq)]
pub enum Stop {
    /// The words are no command's.
    Words,
    /// A file could not be loaded or stored.
    Fault(Role),
    /// A file has more bytes than the shelf's limit.
    TooLong(Role),
    /// The network texts are refused.
    Network(RoadRefusal),
    /// The text of measured profiles is refused.
    Measured(MeasuredRefusal),
    /// The order text is refused.
    Order(OrderRefusal),
    /// The loaded bytes are the packed file of no hierarchy.
    File(PackRefusal),
    /// The chordal supergraph has more than 16,777,216 edges.
    TooManyEdges,
    /// The source failed.
    Source,
    /// The sink failed.
    Sink,
    /// Memory ran out: before anything was written to the sink, or, in a file of edits, at a line of it.
    NoMemory,
    /// As many bytes were taken from the source as a run takes, and the end not seen.
    TakeLimit,
    /// A packed file would have so many bytes, more than the shelf's limit.
    TooLarge(u64),
    /// A hierarchy isn't the built one.
    Differs(Difference),
}

impl Stop {
    /// The program's exit status.
    pub fn status(self) -> u8
        ensures { result ≡ status_of self }
    {
        match self {
            Stop::Words => 2,
            Stop::Fault(_) | Stop::TooLong(_) => 3,
            Stop::Network(_) | Stop::Measured(_) => 4,
            Stop::Order(_) => 5,
            Stop::File(_) => 6,
            Stop::Source => 7,
            Stop::Sink => 8,
            Stop::NoMemory => 9,
            Stop::Differs(_) => 10,
            Stop::TooManyEdges => 11,
            Stop::TakeLimit => 12,
            Stop::TooLarge(_) => 13,
        }
    }
}

impl From<RoadRefusal> for Stop {
    ghost use Rattle.std.specs.Prelude.{◌≡◌};
    ghost use Rattle.cu_cli.specs.Steps.Outcomes.{stop_of_network};

    ghost from_gives = { λ refusal stop. stop ≡ stop_of_network refusal };

    fn from(refusal: RoadRefusal) -> Stop {
        match refusal {
            RoadRefusal::NoMemory => Stop::NoMemory,
            other => Stop::Network(other),
        }
    }
}

impl From<MeasuredRefusal> for Stop {
    ghost use Rattle.std.specs.Prelude.{◌≡◌};
    ghost use Rattle.cu_cli.specs.Steps.Outcomes.{stop_of_measured};

    ghost from_gives = { λ refusal stop. stop ≡ stop_of_measured refusal };

    fn from(refusal: MeasuredRefusal) -> Stop {
        match refusal {
            MeasuredRefusal::NoMemory => Stop::NoMemory,
            other => Stop::Measured(other),
        }
    }
}

impl From<OrderRefusal> for Stop {
    ghost use Rattle.std.specs.Prelude.{◌≡◌};
    ghost use Rattle.cu_cli.specs.Steps.Outcomes.{stop_of_order};

    ghost from_gives = { λ refusal stop. stop ≡ stop_of_order refusal };

    fn from(refusal: OrderRefusal) -> Stop {
        match refusal {
            OrderRefusal::NoMemory => Stop::NoMemory,
            other => Stop::Order(other),
        }
    }
}

impl From<CloseRefusal> for Stop {
    ghost use Rattle.std.specs.Prelude.{◌≡◌};
    ghost use Rattle.cu_cli.specs.Steps.Outcomes.{stop_of_close};

    ghost from_gives = { λ refusal stop. stop ≡ stop_of_close refusal };

    fn from(refusal: CloseRefusal) -> Stop {
        match refusal {
            CloseRefusal::NoMemory => Stop::NoMemory,
            CloseRefusal::TooManyEdges => Stop::TooManyEdges,
        }
    }
}

impl From<PackRefusal> for Stop {
    ghost use Rattle.std.specs.Prelude.{◌≡◌};
    ghost use Rattle.cu_cli.specs.Steps.Outcomes.{stop_of_file};

    ghost from_gives = { λ refusal stop. stop ≡ stop_of_file refusal };

    fn from(refusal: PackRefusal) -> Stop {
        match refusal {
            PackRefusal::NoMemory => Stop::NoMemory,
            other => Stop::File(other),
        }
    }
}

impl From<SessionStop> for Stop {
    ghost use Rattle.std.specs.Prelude.{◌≡◌};
    ghost use Rattle.cu_cli.specs.Endings.{ending_of};
    ghost use Rattle.std.specs.Prelude.{Some};

    ghost from_gives = { λ session stop. Some stop ≡ ending_of (Some session) };

    fn from(stop: SessionStop) -> Stop {
        match stop {
            SessionStop::Source => Stop::Source,
            SessionStop::Sink => Stop::Sink,
            SessionStop::NoMemory => Stop::NoMemory,
            SessionStop::TakeLimit => Stop::TakeLimit,
        }
    }
}

impl From<NoMemory> for Stop {
    ghost use Rattle.std.specs.Prelude.{◌≡◌};
    ghost use Rattle.cu_cli.specs.declared.stops.Stop.TheVariants as stop;

    ghost from_gives = { λ _ why. why ≡ stop.NoMemory };

    fn from(_error: NoMemory) -> Stop {
        Stop::NoMemory
    }
}

impl From<SinkFailed> for Stop {
    ghost use Rattle.std.specs.Prelude.{◌≡◌};
    ghost use Rattle.cu_cli.specs.declared.stops.Stop.TheVariants as stop;

    ghost from_gives = { λ _ why. why ≡ stop.Sink };

    fn from(_failed: SinkFailed) -> Stop {
        Stop::Sink
    }
}

/// Says the one line of a stop, where it has one, and answers the run's status: that of the stop, or of a sink that
/// fails meanwhile.
pub fn refuse<K: Sink>(stop: Stop, sink: &mut K) -> u8
    ensures refuses { Refuses stop (K.state sink.old) (K.state sink.new) result }
{
    match say(stop, sink) {
        Ok(()) => stop.status(),
        Err(SinkFailed) => Stop::Sink.status(),
    }
}

// Says the one line of a stop, where it has one.
#[tactic(auto, using(crate::proofs::StopLaws::said_line, crate::proofs::StopLaws::said_nothing))]
fn say<K: Sink>(stop: Stop, sink: &mut K) -> Result<(), SinkFailed>
    ensures said { Said (K.state sink.old) (K.state sink.new) result (said_of stop) }
{
    match stop {
        Stop::Words => put_line(sink, b"words"),
        Stop::Fault(role) => put_role_line(sink, b"shelf: fault ", role),
        Stop::TooLong(role) => put_role_line(sink, b"shelf: long ", role),
        Stop::Network(refusal) => put_network_line(sink, refusal),
        Stop::Measured(refusal) => put_measured_line(sink, refusal),
        Stop::Order(refusal) => put_order_line(sink, refusal),
        Stop::File(refusal) => put_file_line(sink, refusal),
        Stop::TooManyEdges => put_line(sink, b"too many shortcuts"),
        Stop::TooLarge(bytes) => put_numbers_line(sink, b"too large", &[bytes]),
        Stop::Differs(found) => put_difference_line(sink, found),
        Stop::Source | Stop::Sink | Stop::NoMemory | Stop::TakeLimit => Ok(()),
    }
}

fn put_role_line<K: Sink>(sink: &mut K, words: &[u8], role: Role) -> Result<(), SinkFailed>
    ensures wrote { WroteLine (K.state sink.old) (K.state sink.new) result
        (words.now ++ role_word role) }
{
    put_all(sink, words)?;
    put_line(sink, role.word())
}
