//! Fresh files beside the one that a store replaces, under names that carry their kind: `.catchup-stored-N`.
//!
//! Each is locked while it is open. So a file of such a name that isn't locked was left by a store whose process ended, and
//! the next store in its folder removes it.

ghost use Rattle.std.specs.Prelude.{◌≡◌, ◌≢◌, None, Ok, Some, IfErr, IfOk, IsErr};
ghost use Rattle.std.specs.IoError.{error_kind};
ghost use Rattle.std.specs.declared.io.ErrorKind.TheVariants as ErrorKind;

use crate::disk::stored;
use crate::shelf::StoreFailed;
use crate::shelf_file::{Lock, ShelfFile};
use std::alloc::{AllocError, Global};
use std::fs::{Files, Metadata, OpenFile, OpenOptions};
use std::io::ErrorKind;
use std::os::unix::fs::MetadataExt;
use std::{fs, io};

// How many names of fresh files are looked at for left ones: as many as stores that run at once in one folder leave.
const LOOKED_AT: u32 = 64;

// How many names may be taken before a store fails.
const NAMES: u32 = 1_048_576;

// How many fresh files a store may lose to others before it fails. Each is lost in the moment between its making and its
// lock, so a second one is rare.
const LOST: u32 = 16;

// Makes a fresh file under a name that is free in the folder, so that none is lost, and answers its path too. Its name is
// short, so that it is no longer than may be where the name that it will take isn't.
//
// Where the system can't tell whether the file still stands under its name, it is removed again, and the store fails.
pub(crate) fn fresh_file<R: Files>(
    alloc: Global,
    files: &R,
    folder: &str,
) -> Result<(R::File, String), StoreFailed>
where
    R::File: ShelfFile,
{
    remove_left_files(alloc, files, folder)?;
    for _ in 0..LOST {
        let (file, path) = new_file(alloc, files, folder)?;
        match is_ours(files, &file, path.as_str()) {
            Ok(true) => return Ok((file, path)),
            Ok(false) => {}
            Err(error) => {
                let _ = fs::remove_file(files, path.as_str());
                return stored(Err(error));
            }
        }
    }
    Err(StoreFailed::Fault)
}

// Makes a file under the first name that is free.
fn new_file<R: Files>(
    alloc: Global,
    files: &R,
    folder: &str,
) -> Result<(R::File, String), StoreFailed>
where
    R::File: ShelfFile,
{
    for number in 0..NAMES {
        let path = fresh_path(alloc, folder, number)?;
        if let Some(file) = unless_taken(create_new(files, path.as_str()))? {
            return Ok((file, path));
        }
    }
    Err(StoreFailed::Fault)
}

// The file that was made, or none where its name is taken: then alone another name is tried.
fn unless_taken<F: Drop>(answer: io::Result<F>) -> Result<Option<F>, StoreFailed>
    ensures made { IfOk answer (λ file. result ≡ Ok (Some file)) }
    ensures taken { IfErr answer
        (λ error. error_kind error ≡ ErrorKind.AlreadyExists → result ≡ Ok None) }
    ensures ends { IfErr answer
        (λ error. error_kind error ≢ ErrorKind.AlreadyExists → IsErr result) }
{
    match answer {
        Ok(file) => Ok(Some(file)),
        Err(error) if error.kind() == ErrorKind::AlreadyExists => Ok(None),
        Err(error) => stored(Err(error)),
    }
}

// Removes what stores that have ended left in the folder.
fn remove_left_files<R: Files>(alloc: Global, files: &R, folder: &str) -> Result<(), AllocError>
where
    R::File: ShelfFile,
{
    for number in 0..LOOKED_AT {
        let path = fresh_path(alloc, folder, number)?;
        remove_left(files, path.as_str());
    }
    Ok(())
}

fn fresh_path(alloc: Global, folder: &str, number: u32) -> Result<String, AllocError> {
    format!(in alloc; "{folder}.catchup-stored-{number}")
}

fn create_new<R: Files>(files: &R, path: &str) -> io::Result<R::File> {
    OpenOptions::new()
        .write(true)
        .create_new(true)
        .open(files, path)
}

// Locks a file that was just made. Before it is locked another store may take it for a left one; then it is given up.
fn is_ours<R: Files>(files: &R, file: &R::File, path: &str) -> io::Result<bool>
where
    R::File: ShelfFile,
{
    match file.lock_if_free() {
        Lock::Held => is_under(files, file, path),
        Lock::Busy => Ok(false),
        Lock::Unknown => Ok(true),
    }
}

// Removes the file under a name, if it was left by a store that has ended: no other one holds its lock.
fn remove_left<R: Files>(files: &R, path: &str)
where
    R::File: ShelfFile,
{
    if !matches!(fs::symlink_metadata(files, path), Ok(metadata) if metadata.is_file()) {
        return;
    }
    let Ok(file) = fs::open(files, path) else {
        return;
    };
    if file.lock_if_free() == Lock::Held && matches!(is_under(files, &file, path), Ok(true)) {
        let _ = fs::remove_file(files, path);
    }
}

// Whether an opened file still stands under this name. It may have been renamed or removed since.
fn is_under<R: Files>(files: &R, file: &R::File, path: &str) -> io::Result<bool> {
    let own = file.metadata()?;
    match fs::symlink_metadata(files, path) {
        Ok(there) => Ok(is_same(&own, &there)),
        Err(error) if error.kind() == ErrorKind::NotFound => Ok(false),
        Err(error) => Err(error),
    }
}

fn is_same(one: &Metadata, other: &Metadata) -> bool {
    one.dev() == other.dev() && one.ino() == other.ino()
}
