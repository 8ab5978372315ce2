//! What a program reads from, writes to and keeps its files on: sources, sinks and shelves, as traits whose meanings
//! say which bytes moved and why a call failed; objects in memory that tell all they hold, and such as never fail; and
//! adapters over standard input, standard output and the file system, which tell nothing.
//!
//! Its promise to the crates above: a call answers a fault only where the object's own count of faults rose; a write of a
//! text leaves all of it or first bytes of it (`Wrote` in `specs/Sinks.antt`); and a [`LineReader`] hands out the lines of
//! the bytes (`specs/Lines.antt`, `specs/LineReading.antt`), however a source cuts them. It stands on `cu_model` alone.
//! Private is how the adapters call the system, and how a line reader keeps its bytes.
#![tactic(auto)]

mod content;
mod disk;
mod faults;
mod fresh;
mod line_reader;
mod memory;
mod shelf;
mod shelf_file;
mod sink;
mod source;
mod standard;
mod sure;
mod text;

pub use content::Content;
pub use disk::DiskShelf;
pub use line_reader::{Line, LineReader, MAX_LINE};
pub use memory::{MemoryShelf, MemorySink, MemorySource};
pub use shelf::{LoadFailed, Shelf, StoreFailed};
pub use shelf_file::{Lock, ShelfFile};
pub use sink::{Sink, SinkFailed, put_all};
pub use source::{Source, SourceFailed};
pub use standard::{StdSink, StdSource};
pub use sure::{SureShelf, SureSink, SureSource};
pub use text::{end_line, put_line, put_number};
