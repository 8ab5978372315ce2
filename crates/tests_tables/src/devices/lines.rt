//! Lines of sources that give their bytes in one cut or another.
ghost use Rattle.std.specs.Prelude.{◌≡◌, ◌<◌, true, false, IfOk};

use super::source_of;
use cu_io::{Line, LineReader, MemorySource};
use std::alloc::{AllocError, Global};
use std::test::Fail;

// Adds what a reader answers: `t`, a text and `|`, or the answer's first letter. Whether it may be called again.
fn add_answer(
    reader: &mut LineReader,
    source: &mut MemorySource,
    out: &mut Vec<u8>,
) -> Result<bool, AllocError>
    requires { reader.old.over ≡ false }
    ensures { IfOk result (λ going. going ≡ true → reader.new.over ≡ false) }
{
    match reader.next_line(source) {
        Line::Text(line) => {
            out.push(b't')?;
            out.extend_from_slice(line)?;
            out.push(b'|')?;
            return Ok(true);
        }
        Line::Long => {
            out.push(b'l')?;
            return Ok(true);
        }
        Line::End => out.push(b'e')?,
        Line::Fault => out.push(b'f')?,
        Line::Spent => out.push(b's')?,
    }
    Ok(false)
}

// Adds what a reader answers to call after call, until its last answer.
fn add_answers(
    reader: &mut LineReader,
    source: &mut MemorySource,
    out: &mut Vec<u8>,
) -> Result<(), AllocError>
    requires { reader.old.over ≡ false }
{
    for _ in 0..9 {
        if !add_answer(reader, source, out)? {
            break;
        }
    }
    Ok(())
}

// Whether a reader answers so.
fn answers(reader: &mut LineReader, source: &mut MemorySource, alloc: Global, wanted: &[u8]) -> bool
    requires { reader.old.over ≡ false }
{
    let mut out = Vec::new(alloc);
    add_answers(reader, source, &mut out).is_ok() && out.as_slice() == wanted
}

// Whether one with line limit 8 does so.
fn reads(source: &mut MemorySource, alloc: Global, take: u64, wanted: &[u8]) -> bool {
    match LineReader::open(alloc, 8, take) {
        Ok(mut reader) => answers(&mut reader, source, alloc, wanted),
        Err(_) => false,
    }
}

// Whether it does so where each read gives at most so many bytes.
fn reads_in_cut(
    alloc: Global,
    text: &[u8],
    cut: usize,
    take: u64,
    wanted: &[u8],
) -> Result<bool, AllocError>
    requires { 0 < cut }
{
    let mut source = source_of(alloc, text, &[])?.cut(cut);
    Ok(reads(&mut source, alloc, take, wanted))
}

fn reads_in_any_cut(
    alloc: Global,
    text: &[u8],
    take: u64,
    wanted: &[u8],
) -> Result<bool, AllocError> {
    for cut in [1, 2, 7, usize::MAX] {
        if !reads_in_cut(alloc, text, cut, take, wanted)? {
            return Ok(false);
        }
    }
    Ok(true)
}

// Bytes, how many of them are taken, and what a reader answers.
const LINES: [(&[u8], u64, &[u8]); 8] = [
    (b"123456789\nab", 100, b"ltab|e"),
    (b"ab\ncdef", 5, b"tab|s"),
    (b"ab\ncdef", 7, b"tab|s"),
    (b"ab\ncdef", 8, b"tab|tcdef|e"),
    (b"", 8, b"e"),
    (
        b"\n\r\na\rb\r\r\n12345678\nc\r",
        100,
        b"t|t|ta\rb\r|t12345678|tc|e",
    ),
    (
        b"12345678\r\n\n123456789012345678901234567890",
        100,
        b"lt|le",
    ),
    (b"1234567890123", 12, b"s"),
];

#[test]
fn lines_are_those_of_the_bytes(rt: HostRuntime) -> Result<(), Fail> {
    for (text, take, wanted) in &LINES {
        assert!(rt; reads_in_any_cut(rt.alloc(), *text, *take, *wanted)?);
    }
    Ok(())
}

// Whether it answers so where these reads of a text fail.
fn reads_to_a_fault(alloc: Global, fails: &[u64], wanted: &[u8]) -> Result<bool, AllocError> {
    let mut source = source_of(alloc, b"a\n123456789\n\n", fails)?.cut(7);
    Ok(reads(&mut source, alloc, 100, wanted))
}

// A read that fails, and what a reader answers.
const FAULTS: [(u64, &[u8]); 4] = [(0, b"f"), (2, b"ta|f"), (3, b"ta|lt|f"), (4, b"ta|lt|e")];

#[test]
fn lines_end_at_a_fault(rt: HostRuntime) -> Result<(), Fail> {
    for (fails, wanted) in &FAULTS {
        assert!(rt; reads_to_a_fault(rt.alloc(), &[*fails], *wanted)?);
    }
    Ok(())
}
