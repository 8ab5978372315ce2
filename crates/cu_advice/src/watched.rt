//! A writer that remembers its last line.

use std::io;
use std::io::Write;

// How many bytes of a line are kept. No line that says why a run ended is as long.
const KEPT: usize = 256;

/// A writer that hands on all that is written to it, and remembers what was written behind the last but one flush: the last line, as
/// each line is flushed. Of a longer one than 256 bytes nothing is kept. It takes no memory. It belongs below a buffer, where a line
/// is one write.
#[derive(Drop)]
pub struct Watched<W: Write + Drop> {
    writer: W,
    line: [u8; KEPT],
    length: usize,
    // Whether the line has ended, so that the next byte is of another.
    ended: bool,
}

impl<W: Write + Drop> Watched<W> {
    /// Watches a writer to which nothing was written yet.
    pub fn new(writer: W) -> Watched<W> {
        Watched {
            writer,
            line: [0; KEPT],
            length: 0,
            ended: false,
        }
    }

    /// The last line with its line feed; empty where there is none, or where it has more than 256 bytes.
    pub fn last_line(&self) -> &[u8] {
        if self.length > KEPT {
            return &[];
        }
        &self.line[..self.length]
    }

    // Keeps bytes that were written.
    fn keep(&mut self, written: &[u8]) {
        if self.ended {
            self.length = 0;
            self.ended = false;
        }
        let from = self.length.min(KEPT);
        let count = written.len().min(KEPT - from);
        self.line[from..from + count].copy_from_slice(&written[..count]);
        self.length = self.length.saturating_add(written.len());
    }
}

impl<W: Write + Drop> Write for Watched<W> {
    fn write(&mut self, piece: &[u8]) -> io::Result<usize> {
        let count = self.writer.write(piece)?;
        self.keep(&piece[..count]);
        Ok(count)
    }

    fn flush(&mut self) -> io::Result<()> {
        self.ended = true;
        self.writer.flush()
    }
}
