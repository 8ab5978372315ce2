//! Files that can't be read or stored.

use crate::commands::{path_of, profiles_path};
use crate::ended::{Ended, Texts};
use crate::texts::{Advice, word};
use cu_model::NoMemory;
use std::alloc::Global;

// The most bytes of a file that is read.
const LIMIT: u64 = 4_294_967_296;

/// What is said of a file that can't be read or stored.
pub fn advise_shelf(alloc: Global, ended: Ended<'_>, texts: &Texts) -> Result<Advice, NoMemory> {
    let path = role_path(&ended);
    let first = if word(ended.line, 1) == "long" {
        format!(in alloc;
            "{path} has more than {LIMIT} bytes (4 GiB), the most that is read. Is it the right file?"
        )?
    } else if is_store(&ended) {
        store_line(alloc, path, texts.reason.as_str())?
    } else {
        load_line(alloc, &ended, path, texts.reason.as_str())?
    };
    Ok(Advice::of(alloc, first))
}

/// The path of the file that a line of status 3 names by its role.
pub fn role_path<'a>(ended: &Ended<'a>) -> &'a str {
    match word(ended.line, 2) {
        "nodes" => path_of(ended, "NODES"),
        "roads" => path_of(ended, "ROADS"),
        "profiles" => profiles_path(ended),
        "order" => path_of(ended, "ORDER"),
        "hierarchy" => path_of(ended, "HIERARCHY"),
        "edits" => path_of(ended, "EDITS"),
        _ => path_of(ended, "OUT"),
    }
}

/// Whether it was to be stored.
pub fn is_store(ended: &Ended<'_>) -> bool {
    word(ended.line, 2) == "out" || ended.command() == "make"
}

fn store_line(alloc: Global, path: &str, reason: &str) -> Result<String, NoMemory> {
    if reason.is_empty() {
        return Ok(format!(in alloc;
            "cannot store {path}, though its folder can be written: is there room for it on the disk?"
        )?);
    }
    Ok(format!(in alloc;
        "cannot store {path}: {reason}. Name a file in a folder that is there and may be written"
    )?)
}

fn load_line(
    alloc: Global,
    ended: &Ended<'_>,
    path: &str,
    reason: &str,
) -> Result<String, NoMemory> {
    let remedy = remedy_of(ended);
    if reason.is_empty() {
        return Ok(format!(in alloc; "cannot read {path} to its end{remedy}")?);
    }
    Ok(format!(in alloc; "cannot read {path}: {reason}{remedy}")?)
}

// What to do where a file can't be read.
fn remedy_of(ended: &Ended<'_>) -> &'static str {
    match word(ended.line, 2) {
        "order" => ". For the built-in orders write identity or dissect",
        "hierarchy" => ". To make it: catchup build ..",
        _ => "",
    }
}
