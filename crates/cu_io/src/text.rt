//! Numbers and line ends, written to a sink without taking memory.
ghost use Rattle.std.specs.Prelude.{[], decimal};
ghost use Rattle.cu_io.specs.Sinks.{Wrote, WroteLine};

use crate::sink::{Sink, SinkFailed, put_all};
use itoa::Buffer;

/// Writes a number in plain decimal.
pub fn put_number<K: Sink>(sink: &mut K, number: u64) -> Result<(), SinkFailed>
    ensures wrote { Wrote (K.state sink.old) (K.state sink.new) result (decimal number) }
{
    let mut buffer = Buffer::new();
    put_all(sink, buffer.format(number).as_bytes())
}

/// Ends a line, and flushes the sink.
pub fn end_line<K: Sink>(sink: &mut K) -> Result<(), SinkFailed>
    ensures wrote { WroteLine (K.state sink.old) (K.state sink.new) result [] }
{
    put_all(sink, b"\n")?;
    sink.flush()
}

/// Writes a line and ends it, and flushes the sink.
pub fn put_line<K: Sink>(sink: &mut K, line: &[u8]) -> Result<(), SinkFailed>
    ensures wrote { WroteLine (K.state sink.old) (K.state sink.new) result line.now }
{
    put_all(sink, line)?;
    end_line(sink)
}
