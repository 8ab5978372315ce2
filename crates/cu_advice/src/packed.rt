//! Packed files that are refused.

use crate::commands::path_of;
use crate::ended::Ended;
use crate::texts::{Advice, number, word};
use cu_chordal::MAX_EDGES;
use cu_model::{MAX_ARCS, MAX_NODES, MAX_PROFILES, NoMemory};
use std::alloc::Global;

// The most pieces of a file.
const MAX_PIECES: u64 = 90_596_966_400;

// The most entries of a file.
const MAX_ENTRIES: u64 = 2_899_102_924_800;

/// What is said of a packed file that is refused.
pub fn advise_packed(alloc: Global, ended: Ended<'_>) -> Result<Advice, NoMemory> {
    let path = path_of(&ended, "HIERARCHY");
    let line = ended.line;
    let first = match word(line, 1) {
        "short" => damaged(alloc, path, "it has fewer than 84 bytes")?,
        "magic" => damaged(alloc, path, "it doesn't begin with CATCHUPH")?,
        "digest" => damaged(alloc, path, "its checksum does not match")?,
        "version" => {
            let version = number(line, 2);
            format!(in alloc;
                "{path} is of version {version}, and versions 1 and 2 are read. Build it again: catchup build .."
            )?
        }
        "length" => {
            let (said, found) = (number(line, 2), number(line, 3));
            let why = format!(in alloc; "it should have {said} bytes and has {found}")?;
            damaged(alloc, path, why.as_str())?
        }
        "size" => {
            let (counted, found) = (number(line, 2), number(line, 3));
            let why = format!(in alloc; "what it counts takes {counted} bytes and it has {found}")?;
            damaged(alloc, path, why.as_str())?
        }
        "limit" => limit_line(alloc, path, word(line, 2))?,
        _ => place_line(alloc, path, line)?,
    };
    Ok(Advice::of(alloc, first))
}

fn damaged(alloc: Global, path: &str, why: &str) -> Result<String, NoMemory> {
    Ok(format!(in alloc;
        "{path} is no packed hierarchy, or a damaged one ({why}). Build it again: catchup build .."
    )?)
}

// What is said of a file with too many of something.
fn limit_line(alloc: Global, path: &str, field: &str) -> Result<String, NoMemory> {
    let (what, most) = match field {
        "nodes" => ("nodes", u64::from(MAX_NODES)),
        "arcs" => ("roads", u64::from(MAX_ARCS)),
        "profiles" => ("profiles", u64::from(MAX_PROFILES)),
        "edges" => ("shortcuts", u64::from(MAX_EDGES)),
        "pieces" => ("pieces", MAX_PIECES),
        _ => ("entries", MAX_ENTRIES),
    };
    Ok(format!(in alloc; "{path} has more than {most} {what}, the most that catchup takes")?)
}

// What is said of a file whose checksum is right and in which something isn't as `build` makes it.
fn place_line(alloc: Global, path: &str, line: &str) -> Result<String, NoMemory> {
    let place = number(line, 2);
    let what = match word(line, 1) {
        "order" => format!(in alloc; "no node has rank {place} as it should")?,
        "arc" => format!(in alloc; "road {place} has a node or a profile that isn't there")?,
        "profile" => format!(in alloc; "profile {place} is none")?,
        "graph" => format!(in alloc; "the shortcuts of rank {place} are not those of its roads")?,
        "ways" => {
            let dir = word(line, 3);
            format!(in alloc; "the ways of shortcut {place} {dir} are not its own")?
        }
        _ => {
            let dir = word(line, 3);
            format!(in alloc; "the bound of shortcut {place} {dir} is wrong")?
        }
    };
    Ok(format!(in alloc;
        "{path} has a right checksum, but catchup did not make it: {what}. Build it: catchup build .."
    )?)
}
