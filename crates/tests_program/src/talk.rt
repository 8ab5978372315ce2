//! A talk: who asks hands out the next line only where the reply to the one before was flushed.

ghost use Rattle.std.specs.Prelude.{None};

use crate::runs::{PLAIN, shelf_of, words_of};
use cu_cli::run;
use cu_io::{Sink, SinkFailed, Source, SourceFailed};
use std::cell::Cell;
use std::test::Fail;

// Asks the same line a few times. A read before the reply to the last line was flushed is a fault.
#[derive(Drop)]
struct Asker<'a> {
    flushes: &'a Cell<u64>,
    asked: u64,
    questions: u64,
    faults: u64,
}

impl Source for Asker<'_> {
    ghost state = { λ s. record { left = None; faults = s.faults } };

    fn read(&mut self, into: &mut [u8]) -> Result<usize, SourceFailed> {
        let line = b"q,0,2,0\n";
        if self.flushes.get() != self.asked || into.len() < line.len() {
            self.faults = self.faults.saturating_add(1);
            return Err(SourceFailed);
        }
        if self.asked >= self.questions {
            return Ok(0);
        }
        self.asked += 1;
        into[..line.len()].copy_from_slice(line);
        Ok(line.len())
    }
}

// Counts the flushes, and keeps nothing.
#[derive(Drop)]
struct Listener<'a> {
    flushes: &'a Cell<u64>,
}

impl Sink for Listener<'_> {
    ghost state = { λ s. record { written = None; flushed = 0; faults = 0 } };

    fn write(&mut self, piece: &[u8]) -> Result<usize, SinkFailed> {
        Ok(piece.len())
    }

    fn flush(&mut self) -> Result<(), SinkFailed> {
        self.flushes.set(self.flushes.get().saturating_add(1));
        Ok(())
    }
}

#[test]
fn a_reply_is_flushed_before_the_next_line_is_read(rt: HostRuntime) -> Result<(), Fail> {
    let alloc = rt.alloc();
    let mut shelf = shelf_of(alloc, PLAIN)?;
    let words = words_of(alloc, "serve nodes roads profiles identity")?;
    let flushes = Cell::new(0);
    let mut source = Asker {
        flushes: &flushes,
        asked: 0,
        questions: 5,
        faults: 0,
    };
    let mut sink = Listener { flushes: &flushes };
    let status = run(alloc, &words, &mut shelf, &mut source, &mut sink);
    assert_eq!(rt; status, 0);
    assert_eq!(rt; flushes.get(), 5);
    Ok(())
}
