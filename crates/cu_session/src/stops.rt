//! Why the answering of lines stops.

ghost use Rattle.std.specs.Prelude.{◌≡◌, Some};
ghost use Rattle.cu_session.specs.Sessions.{session_status};

use cu_io::SinkFailed;
use cu_model::NoMemory;

/// Why the answering of lines stops before the last of them.
#[derive(Clone, Copy, PartialEq, Eq)]
pub enum SessionStop {
    /// The source failed.
    Source,
    /// The sink failed.
    Sink,
    /// Memory ran out: for a script before its first reply, for edits at a line.
    NoMemory,
    /// As many bytes were taken from the source as a run takes, 2^40, and the end not seen.
    TakeLimit,
}

impl SessionStop {
    /// The status of a session that stops so.
    pub fn status(self) -> u8
        ensures { result ≡ session_status (Some self) }
    {
        match self {
            SessionStop::Source => 7,
            SessionStop::Sink => 8,
            SessionStop::NoMemory => 9,
            SessionStop::TakeLimit => 12,
        }
    }
}

impl From<NoMemory> for SessionStop {
    ghost use Rattle.std.specs.Prelude.{◌≡◌};
    ghost use Rattle.cu_session.specs.declared.stops.SessionStop.TheVariants as stop;

    ghost from_gives = { λ _ why. why ≡ stop.NoMemory };

    fn from(_error: NoMemory) -> SessionStop {
        SessionStop::NoMemory
    }
}

impl From<SinkFailed> for SessionStop {
    ghost use Rattle.std.specs.Prelude.{◌≡◌};
    ghost use Rattle.cu_session.specs.declared.stops.SessionStop.TheVariants as stop;

    ghost from_gives = { λ _ why. why ≡ stop.Sink };

    fn from(_failed: SinkFailed) -> SessionStop {
        SessionStop::Sink
    }
}
