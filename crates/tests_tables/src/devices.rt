//! What files, readers and writers get and give.
mod disk_files;
mod interrupted;
mod lines;
mod watched;

use cu_io::{
    DiskShelf, LoadFailed, MemoryShelf, MemorySink, MemorySource, Shelf, ShelfFile, Sink,
    SinkFailed, Source, SourceFailed, StdSink, StdSource, StoreFailed, SureShelf, SureSink,
    SureSource, end_line, put_all, put_line, put_number,
};
use cu_model::NoMemory;
use std::alloc::{AllocError, Global};
use std::fs::Files;
use std::test::Fail;
use std::{fs, io};

// A source in memory of these bytes, whose reads fail as told.
fn source_of(alloc: Global, bytes: &[u8], fails: &[u64]) -> Result<MemorySource, AllocError> {
    let bytes = Vec::from_slice(alloc, bytes)?;
    Ok(MemorySource::of(bytes, Vec::from_slice(alloc, fails)?))
}

// A sink in memory with room for so many bytes, whose flushes and writes fail as told.
fn sink_of(alloc: Global, room: usize, fails: &[u64]) -> Result<MemorySink, NoMemory> {
    let fails = Vec::from_slice(alloc, fails)?;
    MemorySink::new(alloc, room, fails)
}

// Whether the reads of a source answer so, each with these bytes in a buffer of two behind it.
fn gives<S: Source>(source: &mut S, wanted: &[(Result<usize, SourceFailed>, [u8; 2])]) -> bool {
    let mut part = [0; 2];
    for (answer, bytes) in wanted {
        if source.read(&mut part) != *answer || part != *bytes {
            return false;
        }
    }
    true
}

// Whether a sink takes a piece and flushes it, and refuses a flush and another piece then.
fn takes_once<K: Sink>(sink: &mut K, piece: &[u8], other: &[u8]) -> bool {
    put_all(sink, piece).is_ok()
        && sink.flush().is_ok()
        && sink.flush().is_err()
        && put_all(sink, other).is_err()
}

// Whether a load of a name answers so.
fn loads<S: Shelf>(
    shelf: &mut S,
    alloc: Global,
    name: &str,
    wanted: Result<&[u8], LoadFailed>,
) -> bool {
    let mut bytes = Vec::new(alloc);
    let loaded = match shelf.load(alloc, name, &mut bytes) {
        Ok(()) => Ok(bytes.as_slice()),
        Err(refusal) => Err(refusal),
    };
    loaded == wanted
}

// Whether a load of a name from a shelf over these files answers so.
fn loads_from<R: Files + Drop>(
    files: R,
    alloc: Global,
    name: &str,
    wanted: Result<&[u8], LoadFailed>,
) -> bool
where
    R::File: ShelfFile,
{
    loads(&mut DiskShelf::new(files), alloc, name, wanted)
}

// Whether a load of a name from a shelf on disk answers so.
fn loads_from_disk(rt: &HostRuntime, name: &str, wanted: Result<&[u8], LoadFailed>) -> bool {
    loads_from(rt, rt.alloc(), name, wanted)
}

// What a store under a name on a shelf over these files answers.
fn store_on<R: Files + Drop>(
    files: R,
    alloc: Global,
    name: &str,
    text: &[u8],
) -> Result<(), StoreFailed>
where
    R::File: ShelfFile,
{
    DiskShelf::new(files).store(alloc, name, text)
}

// Whether a store under a name on a shelf over these files and a load of it then answer so.
fn answers_on<R: Files + Drop>(
    files: R,
    alloc: Global,
    name: &str,
    text: &[u8],
    stored: Result<(), StoreFailed>,
    loaded: Result<&[u8], LoadFailed>,
) -> bool
where
    R::File: ShelfFile,
{
    let mut shelf = DiskShelf::new(files);
    shelf.store(alloc, name, text) == stored && loads(&mut shelf, alloc, name, loaded)
}

// Writes a text to a file of the file system.
fn write(rt: &HostRuntime, name: &str, text: &str) -> io::Result<()> {
    fs::write(rt, name, text)
}

#[test]
fn source_gives_its_bytes_and_fails_where_told(rt: HostRuntime) -> Result<(), Fail> {
    let mut source = source_of(rt.alloc(), &[1, 2, 3], &[1])?;
    let wanted = [
        (Ok(2), [1, 2]),
        (Err(SourceFailed), [1, 2]),
        (Ok(1), [3, 2]),
        (Ok(0), [3, 2]),
    ];
    assert!(rt; gives(&mut source, &wanted));
    Ok(())
}

// Whether a sink with room for five bytes takes a piece, and a part of the next.
fn takes_a_part(sink: &mut MemorySink) -> bool {
    takes_once(sink, b"cat", b"chup") && sink.bytes() == b"catch".as_slice()
}

#[test]
fn sink_takes_what_finds_room(rt: HostRuntime) -> Result<(), Fail> {
    let mut sink = sink_of(rt.alloc(), 5, &[2])?;
    assert!(rt; takes_a_part(&mut sink));
    Ok(())
}

// Whether a shelf that is told to fail at its calls 3 and 5, and to load no more than 4 bytes, does so.
fn works_as_told(shelf: &mut MemoryShelf, alloc: Global) -> bool {
    shelf.limit() == 4
        && shelf.store(alloc, "short", b"four").is_ok()
        && shelf.store(alloc, "long", b"fives").is_ok()
        && loads(shelf, alloc, "short", Ok(b"four"))
        && loads(shelf, alloc, "short", Err(LoadFailed::Fault))
        && loads(shelf, alloc, "long", Err(LoadFailed::TooLong))
        && shelf.store(alloc, "short", b"") == Err(StoreFailed::Fault)
        && loads(shelf, alloc, "absent", Err(LoadFailed::Fault))
}

#[test]
fn shelf_holds_files_and_fails_where_told(rt: HostRuntime) -> Result<(), Fail> {
    let fails = Vec::from_slice(rt.alloc(), &[3, 5])?;
    let mut shelf = MemoryShelf::new(rt.alloc(), 4, fails);
    assert!(rt; works_as_told(&mut shelf, rt.alloc()));
    Ok(())
}

// Writes numbers and lines, each function once.
fn write_all_kinds(sink: &mut MemorySink) -> Result<(), SinkFailed> {
    put_number(sink, 0)?;
    end_line(sink)?;
    put_number(sink, u64::MAX)?;
    put_line(sink, b" done")
}

fn is_all_written(sink: &mut MemorySink) -> bool {
    write_all_kinds(sink).is_ok() && sink.bytes() == b"0\n18446744073709551615 done\n".as_slice()
}

#[test]
fn numbers_and_lines_are_written(rt: HostRuntime) -> Result<(), Fail> {
    let mut sink = sink_of(rt.alloc(), 40, &[])?;
    assert!(rt; is_all_written(&mut sink));
    Ok(())
}

// Whether a sink over a buffer of four bytes takes an empty piece, and refuses a longer one than finds room.
fn takes_four(room: &mut [u8; 4]) -> bool {
    let mut sink = StdSink::new(room.as_mut_slice());
    sink.write(b"") == Ok(0) && put_all(&mut sink, b"catchup").is_err() && sink.flush().is_ok()
}

#[test]
fn reader_and_writer_are_source_and_sink(rt: HostRuntime) {
    let mut source = StdSource::new(b"abc".as_slice());
    let wanted = [(Ok(2), *b"ab"), (Ok(1), *b"cb"), (Ok(0), *b"cb")];
    assert!(rt; gives(&mut source, &wanted));
    let mut room = [0; 4];
    assert!(rt; takes_four(&mut room));
    assert_eq!(rt; room, *b"catc");
}

#[test]
fn sure_source_gives_its_bytes(rt: HostRuntime) -> Result<(), Fail> {
    let mut source = SureSource::of(Vec::from_slice(rt.alloc(), &[1, 2, 3])?);
    let wanted = [(Ok(2), [1, 2]), (Ok(1), [3, 2]), (Ok(0), [3, 2])];
    assert!(rt; gives(&mut source, &wanted));
    Ok(())
}

#[test]
fn sure_sink_takes_each_piece(rt: HostRuntime) -> Result<(), Fail> {
    let mut sink = SureSink::new();
    assert!(rt; put_all(&mut sink, b"abc").is_ok() && sink.flush().is_ok());
    assert_eq!(rt; sink.write(b"de"), Ok(2));
    Ok(())
}

// Whether an empty shelf of files of at most two bytes holds what is stored.
fn holds_what_was_stored(shelf: &mut SureShelf, alloc: Global) -> bool {
    shelf.limit() == 2
        && loads(shelf, alloc, "a", Ok(b""))
        && shelf.store(alloc, "a", b"12").is_ok()
        && shelf.store(alloc, "b", b"345").is_ok()
        && loads(shelf, alloc, "a", Ok(b"12"))
        && loads(shelf, alloc, "b", Err(LoadFailed::TooLong))
        && loads(shelf, alloc, "c", Ok(b""))
}

#[test]
fn sure_shelf_holds_what_was_stored(rt: HostRuntime) -> Result<(), Fail> {
    let mut shelf = SureShelf::new(rt.alloc(), 2);
    assert!(rt; holds_what_was_stored(&mut shelf, rt.alloc()));
    Ok(())
}
