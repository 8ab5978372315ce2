//! The edge of the program: [`end_by_run`] is its last step over any shelf, source and sink, with all that `run` says said of the
//! process's exit status; and [`catchup`] makes the real ones, files, standard input and standard output, and no more. That these are
//! the real ones is trusted. It stands apart from the programs, so that the gate runs it in more than one.
#![tactic(auto)]

ghost use Rattle.std.specs.Prelude.{◌≡◌, ◌≢◌, ◌⊎◌, OnErr, OnOk, map, string_bytes};
ghost use Rattle.std.specs.Process.{exit_status};
ghost use Rattle.std.specs.IoError.{error_kind};
ghost use Rattle.cu_cli.specs.Commands.{meaning_of};
ghost use Rattle.cu_cli.specs.Endings.{Ending};
ghost use Rattle.cu_cli.specs.Numbers.{AreTheNumbers};
ghost use Rattle.cu_cli.specs.Runs.{EndsRun, IsShort, MayStop, MeetsNoFault, Moves};
ghost use Rattle.cu_cli.specs.Stops.{status_at};
ghost use Rattle.cu_cli.specs.Storing.{Stores};
ghost use Rattle.cu_session.specs.Sessions.{Leaves};

use cu_advice::{Ended, Fault, Noted, Watched, advise, brief, look};
use cu_cli::{Manner, run_within};
use cu_io::{DiskShelf, Shelf, Sink, Source, StdSink, StdSource};
use cu_model::{NoMemory, Number, parse_number};
use cu_progress::{Progress, Shown, choose_showing};
use cu_session::ListRoom;
use std::alloc::{AllocError, Global};
use std::io::{self, BufWriter, ErrorKind, IsTerminal, Read, Write};
use std::process::ExitCode;
use std::{env, str};

/// The status for want of memory before the program's own work begins.
const NO_MEMORY: u8 = 9;

/// The status for an output that failed.
const WRITE_FAILED: u8 = 8;

/// The greatest status.
const LAST_STATUS: u8 = 13;

/// Does what the words after the program's name ask for, over the real files, standard input and standard output. The process's exit
/// status is that of [`end_by_run`], or 9 where memory runs out before. Where it isn't 0, standard error says what to do then.
pub fn catchup(rt: HostRuntime) -> ExitCode {
    let Ok(words) = words(&rt) else {
        return without_memory(&rt);
    };
    let input = Fault::none();
    let output = Fault::none();
    let mut watched = Watched::new(Noted::new(io::writer(&rt), &output));
    let Ok(code) = run_over_streams(&rt, &words, Noted::new(rt.reader(), &input), &mut watched)
    else {
        return without_memory(&rt);
    };
    let status = status_of(code);
    // Whoever reads no longer is told nothing.
    if status != WRITE_FAILED || !output.is_closed_pipe() {
        let fault = if status == WRITE_FAILED {
            &output
        } else {
            &input
        };
        say(&rt, status, words.as_slice(), watched.last_line(), fault);
    }
    code
}

// Does what the words ask for, over the real files, a reader and a writer. Refused where there is no memory for the writer's buffer.
fn run_over_streams<R: Read + Drop, W: Write + Drop>(
    rt: &HostRuntime,
    words: &Vec<String>,
    reader: R,
    writer: W,
) -> io::Result<ExitCode> {
    let writer = BufWriter::new(rt.alloc(), writer)?;
    let mut shelf = DiskShelf::new(rt);
    let mut source = StdSource::new(reader);
    let mut sink = StdSink::new(writer);
    let how = choose_showing(rt, &rt.stderr());
    let mut shown = Shown::new(rt, how, rt.stdout().is_terminal());
    let manner = Manner {
        progress: &mut shown,
        room: choose_room(rt),
    };
    Ok(end_by_run(
        rt.alloc(),
        words,
        &mut shelf,
        &mut source,
        &mut sink,
        manner,
    ))
}

// How much memory may be taken for what is known of shortcuts: so many MiB where the variable `CATCHUP_MEMORY` is a number.
fn choose_room(rt: &HostRuntime) -> ListRoom {
    match env::var(rt, "CATCHUP_MEMORY") {
        Ok(value) => match parse_number(value.as_bytes()) {
            Some(Number::Value(count)) => ListRoom::of_mib(count),
            Some(Number::Huge) | None => ListRoom::as_ever(),
        },
        Err(_) => ListRoom::as_ever(),
    }
}

/// The last step of a process: does what these words ask for, over the files of the shelf and the script of the source, with the
/// replies, and the line that says what was stored, written to the sink; in a manner, on which no reply depends. The exit status is
/// the answer of `run_within`.
pub fn end_by_run<H: Shelf, S: Source, K: Sink, P: Progress>(
    alloc: Global,
    words: &Vec<String>,
    shelf: &mut H,
    source: &mut S,
    sink: &mut K,
    manner: Manner<'_, P>,
) -> ExitCode
    ensures ended { (ending : Ending) × (exit_status result ≡ status_at ending.stop)
        × EndsRun (H.state shelf.old) (H.state shelf.new) (S.state source.old) (S.state source.new)
        (map string_bytes words.now.items) ending
        × Moves (S.state source.old) (S.state source.new) (K.state sink.old) (K.state sink.new)
        ending
        × Stores (H.state shelf.old).held ending.stored (H.state shelf.new).held }
    ensures leaves { Leaves
        (meaning_of (map string_bytes words.now.items)).script
        (exit_status result)
        (S.state source.old)
        (S.state source.new)
        (K.state sink.old)
        (K.state sink.new) }
    ensures numbers { AreTheNumbers }
    ensures complete { (meaning_of (map string_bytes words.now.items)).can (H.state shelf.old)
        → IsShort (S.state source.old)
        → MeetsNoFault (H.state shelf.old) (H.state shelf.new) (S.state source.old)
        (S.state source.new) (K.state sink.old) (K.state sink.new)
        → (exit_status result ≡ 0) ⊎ (exit_status result ≡ 9)
        ⊎ MayStop (meaning_of (map string_bytes words.now.items)) (exit_status result) }
{
    let status = run_within(alloc, words, shelf, source, sink, manner);
    ExitCode::from(status)
}

// The end of a process that found no memory before its own work began.
fn without_memory(rt: &HostRuntime) -> ExitCode
    ensures { exit_status result ≡ 9 }
{
    let _ = rt.eprint(brief(NO_MEMORY));
    ExitCode::from(NO_MEMORY)
}

// The number of a status of the program.
fn status_of(code: ExitCode) -> u8 {
    for status in 1..=LAST_STATUS {
        if code == ExitCode::from(status) {
            return status;
        }
    }
    0
}

// Says on standard error why a process ends with a status, and what to do.
fn say<'a>(rt: &HostRuntime, status: u8, words: &'a [String], line: &'a [u8], fault: &Fault) {
    if status == 0 {
        return;
    }
    let Ok(text) = advice(rt, status, words, line, fault) else {
        let _ = rt.eprint(brief(status));
        return;
    };
    if let Ok(text) = str::from_utf8(&text) {
        let _ = rt.eprint(text);
    }
}

// The text of it.
fn advice<'a>(
    rt: &HostRuntime,
    status: u8,
    words: &'a [String],
    line: &'a [u8],
    fault: &Fault,
) -> Result<Vec<u8>, NoMemory> {
    let no_text = words.is_empty() && env::args(rt).is_err();
    let line = str::from_utf8(line).unwrap_or("");
    let ended = Ended {
        status,
        words: if no_text { None } else { Some(words) },
        line: line.trim_end(),
    };
    let texts = look(rt.alloc(), rt, ended, fault)?;
    advise(rt.alloc(), ended, &texts)
}

// The words after the program's name; none where one of them is no text, which no command has.
fn words(rt: &HostRuntime) -> Result<Vec<String>, AllocError> {
    let mut words = Vec::new(rt.alloc());
    match env::args(rt) {
        Ok(args) => {
            for word in args.skip(1) {
                words.push(word)?;
            }
        }
        Err(error) => unless_memory_ran_out(error)?,
    }
    Ok(words)
}

// That memory ran out while the words were gathered; any other error is a word that is no text.
fn unless_memory_ran_out(error: io::Error) -> Result<(), AllocError>
    ensures memory { OnErr result (error_kind error ≡ ErrorKind.OutOfMemory) }
    ensures text { OnOk result (error_kind error ≢ ErrorKind.OutOfMemory) }
{
    if error.kind() == ErrorKind::OutOfMemory {
        return Err(AllocError);
    }
    Ok(())
}
