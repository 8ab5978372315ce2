//! Sources of bytes.
ghost use Rattle.std.specs.Prelude.{◌≡◌, ◌<◌, ◌≤◌, length, is_some, IfOk, OnOk, OnErr};
ghost use Rattle.cu_io.specs.Counts.{Rose};
ghost use Rattle.cu_io.specs.Sources.{SourceState};
ghost use Rattle.cu_io.specs.Transfers.{Moves};

use thiserror::Error;

/// A source could not be read.
#[derive(Clone, Copy, Debug, PartialEq, Eq, Error)]
#[error("the source could not be read")]
pub struct SourceFailed;

/// Where bytes come from.
pub trait Source {
    /// The bytes left, where the source tells them, and how many faults it has met. That count stops at 2^64 - 1.
    ghost state: { Self → SourceState };

    /// Moves the next bytes to the front of `into`, which isn't empty, and answers how many: at most its length, and 0
    /// at the end of input. The rest of `into` may hold anything afterwards.
    ///
    /// Refused only for a fault, which the count shows: it stays where the read is not refused. The bytes left are then as
    /// before.
    fn read(&mut self, into: &mut [u8]) -> Result<usize, SourceFailed>
        requires { 0 < length into.old }
        ensures within { IfOk result (λ n. n ≤ length into.new) }
        ensures moves { IfOk result (Moves (state self.old).left (state self.new).left into.new) }
        ensures err { OnErr result ((state self.new).left ≡ (state self.old).left) }
        ensures tells { is_some (state self.new).left ≡ is_some (state self.old).left }
        ensures later { (state self.old).faults ≤ (state self.new).faults }
        ensures cause { OnErr result (Rose (state self.old).faults (state self.new).faults) }
        ensures quiet { OnOk result ((state self.new).faults ≡ (state self.old).faults) };
}
