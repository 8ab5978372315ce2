//! Sinks of bytes.
ghost use Rattle.std.specs.Prelude.{◌≡◌, ◌<◌, ◌≤◌, length, take, is_some, IfSome, IfOk, OnOk, OnErr};
ghost use Rattle.cu_io.specs.Counts.{Rose};
ghost use Rattle.cu_io.specs.Sinks.{SinkState, IsFlushed, Wrote};
ghost use Rattle.cu_io.specs.Transfers.{Appends};

use thiserror::Error;

/// A sink could not be written or flushed.
#[derive(Clone, Copy, Debug, PartialEq, Eq, Error)]
#[error("the sink could not be written")]
pub struct SinkFailed;

/// Where bytes go.
pub trait Sink {
    /// The bytes written, where the sink tells them, how many of them were flushed, and how many faults it has met. That
    /// count stops at 2^64 - 1.
    ghost state: { Self → SinkState };

    /// Appends the first bytes of `piece` and answers how many: from 1 to its length, and 0 for an empty piece.
    ///
    /// Refused only for a fault, which the count shows. The bytes written are then as before. A device that takes
    /// nothing of a piece that isn't empty has failed.
    fn write(&mut self, piece: &[u8]) -> Result<usize, SinkFailed>
        ensures some { IfOk result (λ n. 0 < length piece.now → 0 < n) }
        ensures within { IfOk result (λ n. n ≤ length piece.now) }
        ensures appends { IfOk result (λ n. Appends (state self.old).written
            (state self.new).written (take n piece.now)) }
        ensures err { OnErr result ((state self.new).written ≡ (state self.old).written) }
        ensures tells { is_some (state self.new).written ≡ is_some (state self.old).written }
        ensures rises { (state self.old).flushed ≤ (state self.new).flushed }
        ensures bounded { IfSome (state self.new).written
            (λ bytes. (state self.new).flushed ≤ length bytes) }
        ensures later { (state self.old).faults ≤ (state self.new).faults }
        ensures cause { OnErr result (Rose (state self.old).faults (state self.new).faults) }
        ensures quiet { OnOk result ((state self.new).faults ≡ (state self.old).faults) };

    /// Makes sure that all bytes written have left, and leaves the bytes written as they are.
    ///
    /// Refused only for a fault, which the count shows.
    fn flush(&mut self) -> Result<(), SinkFailed>
        ensures all { OnOk result (IsFlushed (state self.new)) }
        ensures same { (state self.new).written ≡ (state self.old).written }
        ensures rises { (state self.old).flushed ≤ (state self.new).flushed }
        ensures bounded { IfSome (state self.new).written
            (λ bytes. (state self.new).flushed ≤ length bytes) }
        ensures later { (state self.old).faults ≤ (state self.new).faults }
        ensures cause { OnErr result (Rose (state self.old).faults (state self.new).faults) }
        ensures quiet { OnOk result ((state self.new).faults ≡ (state self.old).faults) };
}

/// Writes a whole piece, in as many writes as it takes. Takes no memory.
///
/// Refused only where a write is: the count of faults rose, and some first bytes of the piece were appended.
pub fn put_all<K: Sink>(sink: &mut K, piece: &[u8]) -> Result<(), SinkFailed>
    ensures wrote { Wrote (K.state sink.old) (K.state sink.new) result piece.now }
{
    let mut put = 0;
    while put < piece.len() {
        put += sink.write(&piece[put..])?;
    }
    Ok(())
}
