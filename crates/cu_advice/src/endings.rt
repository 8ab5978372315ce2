//! Runs that end for another reason than their words and files.

use crate::commands::path_of;
use crate::ended::{Ended, Texts};
use crate::texts::{Advice, clock, number, word};
use cu_chordal::MAX_EDGES;
use cu_model::NoMemory;
use std::alloc::Global;

// The most bytes of a packed file.
const MOST_BYTES: u64 = 4_294_967_296;

// The bytes of input at which a run ends.
const MOST_INPUT: u64 = 1_099_511_627_776;

/// What is said where the input failed.
pub fn advise_input(alloc: Global, texts: &Texts) -> Result<Advice, NoMemory> {
    let reason = because(texts);
    let why = texts.reason.as_str();
    let first = format!(in alloc;
        "cannot read standard input{reason}{why}. The replies so far stand; the lines behind them were not answered"
    )?;
    Ok(Advice::of(alloc, first))
}

/// What is said where the output failed.
pub fn advise_output(alloc: Global, texts: &Texts) -> Result<Advice, NoMemory> {
    let reason = because(texts);
    let why = texts.reason.as_str();
    let first = format!(in alloc;
        "cannot write standard output{reason}{why}. What was written may end in the middle of a line"
    )?;
    Ok(Advice::of(alloc, first))
}

// What stands before a reason, if there is one.
fn because(texts: &Texts) -> &'static str {
    if texts.reason.is_empty() { "" } else { ": " }
}

/// What is said where memory ran out.
pub fn advise_memory(alloc: Global, ended: Ended<'_>, texts: &Texts) -> Result<Advice, NoMemory> {
    let command = ended.command();
    let reason = texts.reason.as_str();
    let first = if reason.is_empty() {
        format!(in alloc; "out of memory in {command}. Allow it more, or take a smaller network")?
    } else {
        format!(in alloc;
            "out of memory in {command} ({reason}). Allow it more, or take a smaller network"
        )?
    };
    Ok(Advice::of(alloc, first))
}

/// What is said where `verify` found a difference.
pub fn advise_difference(alloc: Global, ended: Ended<'_>) -> Result<Advice, NoMemory> {
    let path = path_of(&ended, "HIERARCHY");
    let edge = number(ended.line, 1);
    let dir = word(ended.line, 2);
    let time = clock(alloc, number(ended.line, 3))?;
    let first = format!(in alloc;
        "{path} is not as a new build makes it: shortcut {edge} {dir} first differs at {time}. Build it again: catchup build .."
    )?;
    Ok(Advice::of(alloc, first))
}

/// What is said where the closed graph is too large.
pub fn advise_closed_graph(alloc: Global, ended: Ended<'_>) -> Result<Advice, NoMemory> {
    let order = path_of(&ended, "ORDER");
    let first = format!(in alloc;
        "under the order {order} there are more than {MAX_EDGES} shortcuts, the most that catchup takes. Take another order, as dissect"
    )?;
    Ok(Advice::of(alloc, first))
}

/// What is said where the input was too long.
pub fn advise_long_input(alloc: Global) -> Result<Advice, NoMemory> {
    let first = format!(in alloc;
        "standard input has {MOST_INPUT} bytes or more, and a run reads fewer. Cut it into several runs"
    )?;
    Ok(Advice::of(alloc, first))
}

/// What is said where the packed file would be too large.
pub fn advise_size(alloc: Global, ended: Ended<'_>) -> Result<Advice, NoMemory> {
    let path = path_of(&ended, "OUT");
    let bytes = number(ended.line, 2);
    let first = format!(in alloc;
        "{path} would have {bytes} bytes, and at most {MOST_BYTES} are stored (4 GiB). Take a smaller network, or another order"
    )?;
    Ok(Advice::of(alloc, first))
}
