//! A source and a sink over the standard library's readers and writers.
ghost use Rattle.std.specs.Prelude.{◌≡◌, ◌≢◌, ◌<◌, ◌≤◌, length, take, None, is_some, IfOk, IfErr, IfSome, OnOk, OnErr};
ghost use Rattle.std.specs.Io.KnownBytes.{Keeps, ReadConsumes, WriteAppends};
ghost use Rattle.std.specs.IoError.{error_kind};
ghost use Rattle.std.specs.declared.io.ErrorKind.TheVariants as ErrorKind;
ghost use Rattle.cu_io.specs.Adapters.{source_remaining, source_state, sink_contents, sink_state};
ghost use Rattle.cu_io.specs.Counts.{Rose};
ghost use Rattle.cu_io.specs.Sinks.{IsFlushed};
ghost use Rattle.cu_io.specs.Transfers.{Appends, Moves};

use crate::faults::Faults;
use crate::sink::{Sink, SinkFailed};
use crate::source::{Source, SourceFailed};
use std::io;
use std::io::{Error, ErrorKind, Read, Write};

// Answers what a call of a device answers, once no signal interrupts it.
macro_rules! retried {
    ($call:expr) => {{
        for _ in 0..u64::MAX {
            match $call {
                Err(error) if error.kind() == ErrorKind::Interrupted => {}
                answer => return answer,
            }
        }
        Err(Error::from(ErrorKind::TimedOut))
    }};
}

/// A source over a reader, as standard input. It tells no bytes; each refusal is a fault. A read that a signal
/// interrupts is tried again.
#[derive(Drop)]
pub struct StdSource<R: Read + Drop> {
    reader: R,
    faults: Faults,
}

impl<R: Read + Drop> StdSource<R> {
    /// A source of what the reader gives, which has met no fault.
    pub fn new(reader: R) -> StdSource<R>
        ensures faults { (source_state result).faults ≡ 0 }
        ensures reader { source_remaining R.remaining result ≡ R.remaining reader }
    {
        StdSource {
            reader,
            faults: Faults::none(),
        }
    }
}

impl<R: Read + Drop> Source for StdSource<R> {
    ghost state = { source_state };

    fn read(&mut self, into: &mut [u8]) -> Result<usize, SourceFailed>
        requires { 0 < length into.old }
        ensures within { IfOk result (λ n. n ≤ length into.new) }
        ensures moves { IfOk result (Moves (source_state self.old).left
            (source_state self.new).left into.new) }
        ensures err { OnErr result ((source_state self.new).left ≡ (source_state self.old).left) }
        ensures tells { is_some (source_state self.new).left
            ≡ is_some (source_state self.old).left }
        ensures later { (source_state self.old).faults ≤ (source_state self.new).faults }
        ensures cause { OnErr result (Rose (source_state self.old).faults
            (source_state self.new).faults) }
        ensures bytes { ReadConsumes (source_remaining R.remaining self.old)
            (source_remaining R.remaining self.new) result into.new }
        ensures quiet { OnOk result ((source_state self.new).faults
            ≡ (source_state self.old).faults) }
    {
        match self.faults.note(read_some(&mut self.reader, into)) {
            Some(count) => Ok(count),
            None => Err(SourceFailed),
        }
    }
}

// Reads once, and again while a signal interrupts the read.
pub(crate) fn read_some<R: Read>(reader: &mut R, into: &mut [u8]) -> io::Result<usize>
    ensures within { IfOk result (λ n. n ≤ length into.new) }
    ensures bytes { ReadConsumes (R.remaining reader.old) (R.remaining reader.new) result into.new }
    ensures retried { IfErr result (λ error. error_kind error ≢ ErrorKind.Interrupted) }
    ensures same { length into.new ≡ length into.old }
{
    retried!(reader.read(into))
}

/// A sink over a writer, as standard output. It tells no bytes; each refusal is a fault, and so is a write that takes
/// nothing of a piece that isn't empty. A write that a signal interrupts is tried again.
#[derive(Drop)]
pub struct StdSink<W: Write + Drop> {
    writer: W,
    faults: Faults,
}

impl<W: Write + Drop> StdSink<W> {
    /// A sink for what the writer takes, which has met no fault.
    pub fn new(writer: W) -> StdSink<W>
        ensures faults { (sink_state result).faults ≡ 0 }
        ensures writer { sink_contents W.contents result ≡ W.contents writer }
    {
        StdSink {
            writer,
            faults: Faults::none(),
        }
    }
}

impl<W: Write + Drop> Sink for StdSink<W> {
    ghost state = { sink_state };

    fn write(&mut self, piece: &[u8]) -> Result<usize, SinkFailed>
        ensures some { IfOk result (λ n. 0 < length piece.now → 0 < n) }
        ensures within { IfOk result (λ n. n ≤ length piece.now) }
        ensures appends { IfOk result (λ n. Appends (sink_state self.old).written
            (sink_state self.new).written (take n piece.now)) }
        ensures err { OnErr result ((sink_state self.new).written
            ≡ (sink_state self.old).written) }
        ensures tells { is_some (sink_state self.new).written
            ≡ is_some (sink_state self.old).written }
        ensures rises { (sink_state self.old).flushed ≤ (sink_state self.new).flushed }
        ensures bounded { IfSome (sink_state self.new).written
            (λ bytes. (sink_state self.new).flushed ≤ length bytes) }
        ensures later { (sink_state self.old).faults ≤ (sink_state self.new).faults }
        ensures cause { OnErr result (Rose (sink_state self.old).faults
            (sink_state self.new).faults) }
        ensures bytes { WriteAppends (sink_contents W.contents self.old)
            (sink_contents W.contents self.new) result piece.now }
        ensures quiet { OnOk result ((sink_state self.new).faults
            ≡ (sink_state self.old).faults) }
    {
        if piece.is_empty() {
            return Ok(0);
        }
        match self.faults.note(write_some(&mut self.writer, piece)) {
            Some(count) => Ok(count),
            None => Err(SinkFailed),
        }
    }

    fn flush(&mut self) -> Result<(), SinkFailed>
        ensures all { OnOk result (IsFlushed (sink_state self.new)) }
        ensures same { (sink_state self.new).written ≡ (sink_state self.old).written }
        ensures rises { (sink_state self.old).flushed ≤ (sink_state self.new).flushed }
        ensures bounded { IfSome (sink_state self.new).written
            (λ bytes. (sink_state self.new).flushed ≤ length bytes) }
        ensures later { (sink_state self.old).faults ≤ (sink_state self.new).faults }
        ensures cause { OnErr result (Rose (sink_state self.old).faults
            (sink_state self.new).faults) }
        ensures bytes { Keeps (sink_contents W.contents self.old)
            (sink_contents W.contents self.new) }
        ensures quiet { OnOk result ((sink_state self.new).faults
            ≡ (sink_state self.old).faults) }
    {
        match self.faults.note(flush_all(&mut self.writer)) {
            Some(()) => Ok(()),
            None => Err(SinkFailed),
        }
    }
}

// Writes once, and again while a signal interrupts the write. A writer that takes nothing has failed.
fn write_some<W: Write>(writer: &mut W, piece: &[u8]) -> io::Result<usize>
    ensures some { IfOk result (λ n. 0 < n) }
    ensures within { IfOk result (λ n. n ≤ length piece.now) }
    ensures bytes { WriteAppends (W.contents writer.old) (W.contents writer.new) result piece.now }
{
    match write_once(writer, piece) {
        Ok(0) => Err(Error::from(ErrorKind::WriteZero)),
        answer => answer,
    }
}

// Writes once, and again while a signal interrupts the write.
fn write_once<W: Write>(writer: &mut W, piece: &[u8]) -> io::Result<usize>
    ensures within { IfOk result (λ n. n ≤ length piece.now) }
    ensures bytes { WriteAppends (W.contents writer.old) (W.contents writer.new) result piece.now }
    ensures retried { IfErr result (λ error. error_kind error ≢ ErrorKind.Interrupted) }
{
    retried!(writer.write(piece))
}

// Flushes, and again while a signal interrupts the flush.
fn flush_all<W: Write>(writer: &mut W) -> io::Result<()>
    ensures bytes { Keeps (W.contents writer.old) (W.contents writer.new) }
    ensures retried { IfErr result (λ error. error_kind error ≢ ErrorKind.Interrupted) }
{
    retried!(writer.flush())
}
