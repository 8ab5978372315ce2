//! What answers lines.

ghost use Rattle.std.specs.Prelude.{◌≤◌, ℕ, List, length};
ghost use Rattle.cu_io.specs.Sinks.{WroteLine};
ghost use Rattle.cu_session.specs.Scripts.{line_limit};

use cu_io::{Sink, SinkFailed};
use std::alloc::Global;

/// What answers the text of a line, and may change by it.
pub trait LineAnswerer {
    /// Which replies the text of a line may get, and what is left behind each.
    ghost replies: { Self → List ℕ → List ℕ → Self → Type 0 };

    /// Writes the reply to the text of a line, ends it by a line feed and flushes the sink. The line has at most 4,194,304 bytes.
    fn answer_line<K: Sink>(
        &mut self,
        alloc: Global,
        line: &[u8],
        sink: &mut K,
    ) -> Result<(), SinkFailed>
        requires few { length line.now ≤ line_limit }
        ensures reply { (reply : List ℕ) × replies self.old line.now reply self.new
            × WroteLine (K.state sink.old) (K.state sink.new) result reply };
}
