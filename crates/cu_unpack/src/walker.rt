//! Whoever writes the walks of relaxations.

ghost use Rattle.std.specs.Prelude.{◌≡◌, ◌<◌, ◌^◌, length};
ghost use Rattle.cu_io.specs.Sinks.{Wrote};
ghost use Rattle.cu_drive.specs.RoadTexts.{driven_text};
ghost use Rattle.cu_unpack.specs.Answers.{IsArriving, walk_over};

use cu_drive::WalkForm;
use cu_interval::{Call, Relaxer};
use cu_io::{Sink, SinkFailed};

/// A relaxer that also writes the walks of its hierarchy's shortcuts.
pub trait Walker: Relaxer {
    /// Writes the roads of the walk of a call that arrives, each as the form says of it and of the absolute second at which it is
    /// entered: the first at the call's, each other when the road before it arrives. The call's edge is below the number of edges,
    /// and its second below 2^61. This is no call of a relaxation. Takes no memory.
    ///
    /// Refused only where a write is: the sink's count of faults rose, and some first bytes were written.
    fn write_walk<P: WalkForm, K: Sink>(
        &mut self,
        call: Call,
        first: bool,
        form: &P,
        sink: &mut K,
    ) -> Result<(), SinkFailed>
        requires edge { call.edge < length (Self.hierarchy self.old).edges }
        requires time { call.second < 2 ^ 61 }
        requires answers { IsArriving (Self.hierarchy self.old) call.edge call.dir call.second }
        ensures wrote { Wrote (K.state sink.old) (K.state sink.new) result
            (driven_text (P.text form.now) (Self.hierarchy self.old).network first
            (walk_over (Self.hierarchy self.old) call.edge call.dir call.second) call.second) }
        ensures stays { Self.hierarchy self.new ≡ Self.hierarchy self.old }
        ensures quiet { Self.calls self.new ≡ Self.calls self.old };
}
