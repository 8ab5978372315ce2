//! What advice looks up once more: texts of tables, and what the system says.

use crate::commands::{path_of, profiles_path};
use crate::ended::{Ended, Texts};
use crate::noted::Fault;
use crate::shelf::{is_store, role_path};
use cu_io::{DiskShelf, Shelf, ShelfFile};
use cu_model::NoMemory;
use std::alloc::Global;
use std::fs::{Files, OpenOptions};
use std::io::{Error, Read};
use std::{fs, str};

/// Looks up what advice on a run that ended so goes by. `fault` is why its input failed, or its output.
///
/// Only regular files are read again: a pipe would be waited for. To learn why a file wasn't stored an empty one is made beside it,
/// and removed.
pub fn look<R: Files>(
    alloc: Global,
    files: &R,
    ended: Ended<'_>,
    fault: &Fault,
) -> Result<Texts, NoMemory>
where
    R::File: ShelfFile,
{
    let mut texts = Texts::none(alloc);
    match ended.status {
        3 => texts.reason = why_file(alloc, files, &ended)?,
        4 | 5 => read_tables(alloc, files, &ended, &mut texts),
        7 | 8 => texts.reason = why_fault(alloc, fault)?,
        9 => texts.reason = memory(alloc, files)?,
        _ => {}
    }
    Ok(texts)
}

// Reads the tables and the order again.
fn read_tables<R: Files>(alloc: Global, files: &R, ended: &Ended<'_>, texts: &mut Texts)
where
    R::File: ShelfFile,
{
    let nodes = path_of(ended, "NODES");
    let roads = path_of(ended, "ROADS");
    let profiles = profiles_path(ended);
    let order = path_of(ended, "ORDER");
    read_again(alloc, files, nodes, &mut texts.nodes);
    read_again(alloc, files, roads, &mut texts.roads);
    read_again(alloc, files, profiles, &mut texts.profiles);
    read_again(alloc, files, order, &mut texts.order);
}

// Reads a regular file again; else there are no bytes.
fn read_again<R: Files>(alloc: Global, files: &R, path: &str, into: &mut Vec<u8>)
where
    R::File: ShelfFile,
{
    if matches!(fs::metadata(files, path), Ok(metadata) if metadata.is_file()) {
        let _ = DiskShelf::new(files).load(alloc, path, into);
    }
}

// Why the file that a line of status 3 names can't be read, or stored.
fn why_file<R: Files>(alloc: Global, files: &R, ended: &Ended<'_>) -> Result<String, NoMemory> {
    let path = role_path(ended);
    if is_store(ended) {
        why_not_stored(alloc, files, path)
    } else {
        why_not_read(alloc, files, path)
    }
}

fn why_not_read<R: Files>(alloc: Global, files: &R, path: &str) -> Result<String, NoMemory> {
    match fs::metadata(files, path) {
        Err(error) => message(alloc, &error),
        Ok(metadata) if metadata.is_dir() => Ok(String::from_str(alloc, "Is a directory")?),
        Ok(metadata) if metadata.is_file() => why_not_opened(alloc, files, path),
        Ok(_) => Ok(String::new(alloc)),
    }
}

fn why_not_opened<R: Files>(alloc: Global, files: &R, path: &str) -> Result<String, NoMemory> {
    match fs::open(files, path) {
        Err(error) => message(alloc, &error),
        Ok(mut file) => why_not_begun(alloc, &mut file),
    }
}

fn why_not_begun<F: Read>(alloc: Global, file: &mut F) -> Result<String, NoMemory> {
    let mut byte = [0; 1];
    match file.read(&mut byte) {
        Err(error) => message(alloc, &error),
        Ok(_) => Ok(String::new(alloc)),
    }
}

fn why_not_stored<R: Files>(alloc: Global, files: &R, path: &str) -> Result<String, NoMemory> {
    match fs::metadata(files, path) {
        Ok(metadata) if metadata.is_dir() => Ok(String::from_str(alloc, "Is a directory")?),
        Ok(metadata) if !metadata.is_file() => Ok(String::new(alloc)),
        _ => why_not_beside(alloc, files, path),
    }
}

// Why no file can be made beside a path.
fn why_not_beside<R: Files>(alloc: Global, files: &R, path: &str) -> Result<String, NoMemory> {
    let folder = match path.rfind('/') {
        Some(place) => path.get(..place).unwrap_or(""),
        None => ".",
    };
    let beside = format!(in alloc; "{folder}/.catchup-tried")?;
    match OpenOptions::new()
        .write(true)
        .create_new(true)
        .open(files, beside.as_str())
    {
        Err(error) => message(alloc, &error),
        Ok(_) => {
            let _ = fs::remove_file(files, beside.as_str());
            Ok(String::new(alloc))
        }
    }
}

fn why_fault(alloc: Global, fault: &Fault) -> Result<String, NoMemory> {
    match fault.error() {
        Some(error) => message(alloc, &error),
        None => Ok(String::new(alloc)),
    }
}

// The words of the system for an error, without their number.
fn message(alloc: Global, error: &Error) -> Result<String, NoMemory> {
    let text = format!(in alloc; "{error}")?;
    match text.split_once(" (os error") {
        Some((words, _)) => Ok(String::from_str(alloc, words)?),
        None => Ok(text),
    }
}

// How much memory the process may have, and the most that it had, as far as the system tells.
fn memory<R: Files>(alloc: Global, files: &R) -> Result<String, NoMemory>
where
    R::File: ShelfFile,
{
    let limit = system_number(alloc, files, "/proc/self/limits", "Max address space", 3);
    let used = system_number(alloc, files, "/proc/self/status", "VmPeak:", 1);
    let used = match used {
        Some(kilobytes) => amount(alloc, kilobytes.saturating_mul(1024))?,
        None => return Ok(String::new(alloc)),
    };
    match limit {
        Some(bytes) => {
            let limit = amount(alloc, bytes)?;
            Ok(format!(in alloc; "limit {limit}, in use {used}")?)
        }
        None => Ok(format!(in alloc; "in use {used}")?),
    }
}

// The number in this place of the line that begins so, in a file of the system.
fn system_number<R: Files>(
    alloc: Global,
    files: &R,
    path: &str,
    begins: &str,
    place: usize,
) -> Option<u64>
where
    R::File: ShelfFile,
{
    let mut bytes = Vec::new(alloc);
    read_again(alloc, files, path, &mut bytes);
    let Ok(text) = str::from_utf8(&bytes) else {
        return None;
    };
    for line in text.lines() {
        if line.starts_with(begins) {
            return line.split_whitespace().nth(place)?.parse::<u64>().ok();
        }
    }
    None
}

// Bytes in GiB, or in MiB where they are fewer.
fn amount(alloc: Global, bytes: u64) -> Result<String, NoMemory> {
    let mebibytes = bytes / 1_048_576;
    if mebibytes < 1024 {
        return Ok(format!(in alloc; "{mebibytes} MiB")?);
    }
    let whole = mebibytes / 1024;
    let tenths = mebibytes % 1024 * 10 / 1024;
    Ok(format!(in alloc; "{whole}.{tenths} GiB")?)
}
