//! A shelf of the files of a file system.
ghost use Rattle.std.specs.Prelude.{◌≡◌, ℕ, ◌+◌, ◌<◌, ◌≤◌, List, [], ◌++◌, length, is_some, Ok, IsOk, IfOk, IfSome, OnOk, OnErr};
ghost use Rattle.std.specs.Io.KnownBytes.{Appends};
ghost use Rattle.cu_io.specs.Adapters.{SomeGives, SomeGivesMore, SomeTakes, disk_state};
ghost use Rattle.cu_io.specs.Counts.{Rose};
ghost use Rattle.cu_io.specs.Holdings.{Holds, HoldsMore, KeepsOthers, OnTooLong, OnLoadFault, OnStoreFault, UnlessLoadFault, UnlessStoreFault};

use crate::content::Content;
use crate::faults::Faults;
use crate::fresh::fresh_file;
use crate::shelf::{LoadFailed, Shelf, StoreFailed};
use crate::shelf_file::ShelfFile;
use crate::standard::read_some;
use std::alloc::Global;
use std::fs::{Files, OpenFile, Permissions};
use std::io::{ErrorKind, Read, Write};
use std::{fs, io};

// The most bytes of a file that can be loaded, 2^32.
const LIMIT: u64 = 4_294_967_296;

// How many bytes a read asks for at most. They stand on the stack.
const PART: u64 = 16_384;

/// A shelf of the files that `R` opens, under their paths, of which those with more than 2^32 bytes can't be loaded. It
/// tells no bytes. Each fault of a load is in the one count of loads that all names share, and each fault of a store in
/// that of stores.
#[derive(Drop)]
pub struct DiskShelf<R: Files + Drop> {
    files: R,
    load_faults: Faults,
    store_faults: u64,
}

impl<R: Files + Drop> DiskShelf<R>
where
    R::File: ShelfFile,
{
    /// A shelf of these files, which has met no fault.
    pub fn new(files: R) -> DiskShelf<R>
        ensures loads { (name : List ℕ) → (⟦<DiskShelf<R> as Shelf>⟧.state result).load_faults name
            ≡ 0 }
        ensures stores { (name : List ℕ) →
            (⟦<DiskShelf<R> as Shelf>⟧.state result).store_faults name ≡ 0 }
    {
        DiskShelf {
            files,
            load_faults: Faults::none(),
            store_faults: 0,
        }
    }
}

impl<R: Files + Drop> Shelf for DiskShelf<R>
where
    R::File: ShelfFile,
{
    ghost state = { disk_state };

    fn limit(&self) -> u64
        ensures { result ≡ (disk_state self.now).most }
    {
        LIMIT
    }

    /// A file whose length is past the limit isn't read, and of one that tells no length one byte past the limit is read.
    ///
    /// No clause says that the file under the name is the one that is opened: the system's calls promise nothing of names.
    fn load(&mut self, _alloc: Global, name: &str, into: &mut Vec<u8>) -> Result<(), LoadFailed>
        ensures limit { (disk_state self.new).most ≡ (disk_state self.old).most }
        ensures files { (disk_state self.new).held ≡ (disk_state self.old).held }
        ensures stores { (disk_state self.new).store_faults ≡ (disk_state self.old).store_faults }
        ensures ok { OnOk result (Holds (disk_state self.old).held name.now into.new.items) }
        ensures short { OnOk result (length into.new.items ≤ (disk_state self.old).most) }
        ensures long { OnTooLong result (HoldsMore (disk_state self.old).held name.now
            (disk_state self.old).most) }
        ensures empty { OnErr result (into.new.items ≡ []) }
        ensures later { (other : List ℕ) → (disk_state self.old).load_faults other
            ≤ (disk_state self.new).load_faults other }
        ensures counts { UnlessLoadFault result
            ((disk_state self.new).load_faults ≡ (disk_state self.old).load_faults) }
        ensures cause { OnLoadFault result
            (Rose ((disk_state self.old).load_faults name.now)
            ((disk_state self.new).load_faults name.now)) }
        ensures given { OnOk result (SomeGives R.File.remaining into.new.items) }
        ensures over { OnTooLong result (SomeGivesMore R.File.remaining LIMIT) }
    {
        let loaded = load_file(&self.files, name, into, &mut self.load_faults);
        if loaded.is_err() {
            into.clear();
        }
        loaded
    }

    fn store(&mut self, alloc: Global, name: &str, bytes: &[u8]) -> Result<(), StoreFailed>
        ensures limit { (disk_state self.new).most ≡ (disk_state self.old).most }
        ensures loads { (disk_state self.new).load_faults ≡ (disk_state self.old).load_faults }
        ensures tells { is_some (disk_state self.new).held
            ≡ is_some (disk_state self.old).held }
        ensures ok { OnOk result (Holds (disk_state self.new).held name.now bytes.now) }
        ensures others { KeepsOthers (disk_state self.old).held
            (disk_state self.new).held name.now }
        ensures later { (other : List ℕ) → (disk_state self.old).store_faults other
            ≤ (disk_state self.new).store_faults other }
        ensures counts { UnlessStoreFault result
            ((disk_state self.new).store_faults ≡ (disk_state self.old).store_faults) }
        ensures cause { OnStoreFault result
            (Rose ((disk_state self.old).store_faults name.now)
            ((disk_state self.new).store_faults name.now)) }
        ensures taken { OnOk result (SomeTakes R.File.contents bytes.now) }
    {
        self.store_content(alloc, name, &bytes)
    }

    /// Where the name is a regular file, a link to one, or nothing is there, a fresh file is made in the same folder,
    /// under a name `.catchup-stored-N` that is free: it is given the old file's mode, written, synced and renamed over
    /// the old file, and then the folder is synced, where its file system can do so. Where the fresh file can't be filled
    /// or renamed, it is removed. It is locked while it is open, where its file system has locks; so a file of such a
    /// name that isn't locked was left by a store that was killed, and the next store in the folder removes it. A link
    /// stays as it is, and what it leads to is replaced. Anything else, as a device, a pipe or a link to nothing, is
    /// written in place.
    ///
    /// Of all this a clause says that some opened file took the bytes. The order of these steps, that mode and links
    /// stay, and what a name holds after a store that met no fault are tested. What each step does is trusted to the
    /// system: so the fresh file belongs to who runs the program, other hard links to the old file keep the old bytes,
    /// and an old file that may not be written is replaced too, where its folder may be written.
    fn store_content<C: Content>(
        &mut self,
        alloc: Global,
        name: &str,
        content: &C,
    ) -> Result<(), StoreFailed>
        ensures limit { (disk_state self.new).most ≡ (disk_state self.old).most }
        ensures loads { (disk_state self.new).load_faults ≡ (disk_state self.old).load_faults }
        ensures tells { is_some (disk_state self.new).held
            ≡ is_some (disk_state self.old).held }
        ensures ok { OnOk result (Holds (disk_state self.new).held name.now (C.bytes content.now)) }
        ensures others { KeepsOthers (disk_state self.old).held
            (disk_state self.new).held name.now }
        ensures later { (other : List ℕ) → (disk_state self.old).store_faults other
            ≤ (disk_state self.new).store_faults other }
        ensures counts { UnlessStoreFault result
            ((disk_state self.new).store_faults ≡ (disk_state self.old).store_faults) }
        ensures cause { OnStoreFault result
            (Rose ((disk_state self.old).store_faults name.now)
            ((disk_state self.new).store_faults name.now)) }
        ensures taken { OnOk result (SomeTakes R.File.contents (C.bytes content.now)) }
    {
        let stored = store_file(alloc, &self.files, name, content);
        if stored == Err(StoreFailed::Fault) {
            self.store_faults = self.store_faults.saturating_add(1);
        }
        stored
    }
}

// Replaces `into` by the bytes of a file.
fn load_file<R: Files>(
    files: &R,
    name: &str,
    into: &mut Vec<u8>,
    faults: &mut Faults,
) -> Result<(), LoadFailed>
where
    R::File: ShelfFile,
    ensures short { OnOk result (length into.new.items ≤ LIMIT) }
    ensures given { OnOk result (SomeGives R.File.remaining into.new.items) }
    ensures over { OnTooLong result (SomeGivesMore R.File.remaining LIMIT) }
    ensures later { faults.old ≤ faults.new }
    ensures cause { OnLoadFault result (Rose faults.old faults.new) }
    ensures quiet { UnlessLoadFault result (faults.new ≡ faults.old) }
{
    into.clear();
    let Some(mut file) = faults.note(fs::open(files, name)) else {
        return Err(LoadFailed::Fault);
    };
    if file.least_length() > LIMIT {
        return Err(LoadFailed::TooLong);
    }
    read_whole(&mut file, into, faults)
}

// Adds what the reader gives up to its end, or one byte past the limit. An answer that is an error is a fault, and
// nothing else is one.
fn read_whole<R: Read>(
    reader: &mut R,
    into: &mut Vec<u8>,
    faults: &mut Faults,
) -> Result<(), LoadFailed>
    requires { length into.old.items ≤ LIMIT }
    ensures short { OnOk result (length into.new.items ≤ LIMIT) }
    ensures whole { OnOk result (IfSome (R.remaining reader.old)
        (λ bytes. into.new.items ≡ into.old.items ++ bytes)) }
    ensures long { OnTooLong result (IfSome (R.remaining reader.old)
        (λ bytes. LIMIT < length into.old.items + length bytes)) }
    ensures later { faults.old ≤ faults.new }
    ensures cause { OnLoadFault result (Rose faults.old faults.new) }
    ensures quiet { UnlessLoadFault result (faults.new ≡ faults.old) }
{
    let mut part = [0; PART as usize];
    loop {
        let room = LIMIT - into.len() as u64;
        let most = PART.min(room + 1) as usize;
        let Some(count) = faults.note(read_some(reader, &mut part[..most])) else {
            return Err(LoadFailed::Fault);
        };
        if count == 0 {
            return Ok(());
        }
        if count as u64 > room {
            return Err(LoadFailed::TooLong);
        }
        into.extend_from_slice(&part[..count])?;
    }
}

// What a file system answers, as a store answers it.
pub(crate) fn stored<T: Drop>(answer: io::Result<T>) -> Result<T, StoreFailed>
    ensures { IfOk result (λ value. answer ≡ Ok value) }
{
    match answer {
        Ok(value) => Ok(value),
        Err(error) if error.kind() == ErrorKind::OutOfMemory => Err(StoreFailed::NoMemory),
        Err(_) => Err(StoreFailed::Fault),
    }
}

// Sets the bytes of what stands under a name; a link is followed.
fn store_file<R: Files, C: Content>(
    alloc: Global,
    files: &R,
    name: &str,
    content: &C,
) -> Result<(), StoreFailed>
where
    R::File: ShelfFile,
    ensures { OnOk result (SomeTakes R.File.contents (C.bytes content.now)) }
{
    if !stored(is_link(files, name))? {
        return store_at(alloc, files, name, content);
    }
    match files.canonicalize(alloc, name) {
        Ok(path) => store_at(alloc, files, path.as_str(), content),
        Err(error) if error.kind() == ErrorKind::NotFound => {
            stored(write(alloc, files, name, content))
        }
        Err(error) => stored(Err(error)),
    }
}

fn is_link<R: Files>(files: &R, name: &str) -> io::Result<bool> {
    match fs::symlink_metadata(files, name) {
        Ok(metadata) => Ok(metadata.is_symlink()),
        Err(error) if error.kind() == ErrorKind::NotFound => Ok(false),
        Err(error) => Err(error),
    }
}

// What stands under a name, as far as a store minds.
#[derive(Drop)]
enum Standing {
    Nothing,
    File(Permissions),
    // A folder, a device or a pipe.
    Other,
}

fn standing_of<R: Files>(files: &R, name: &str) -> io::Result<Standing> {
    match fs::metadata(files, name) {
        Ok(metadata) if metadata.is_file() => Ok(Standing::File(metadata.permissions())),
        Ok(_) => Ok(Standing::Other),
        Err(error) if error.kind() == ErrorKind::NotFound => Ok(Standing::Nothing),
        Err(error) => Err(error),
    }
}

// Sets the bytes under a name that is no link.
fn store_at<R: Files, C: Content>(
    alloc: Global,
    files: &R,
    name: &str,
    content: &C,
) -> Result<(), StoreFailed>
where
    R::File: ShelfFile,
    ensures { OnOk result (SomeTakes R.File.contents (C.bytes content.now)) }
{
    match stored(standing_of(files, name))? {
        Standing::Nothing => replace(alloc, files, name, None, content),
        Standing::File(permissions) => replace(alloc, files, name, Some(permissions), content),
        Standing::Other => stored(write(alloc, files, name, content)),
    }
}

// Writes the bytes in place.
fn write<R: Files, C: Content>(alloc: Global, files: &R, name: &str, content: &C) -> io::Result<()>
    ensures { OnOk result (SomeTakes R.File.contents (C.bytes content.now)) }
{
    let mut file = fs::create(files, name)?;
    content.put_in(alloc, &mut file)
}

// Writes a new file beside `name`, and lets it take that name.
fn replace<R: Files, C: Content>(
    alloc: Global,
    files: &R,
    name: &str,
    permissions: Option<Permissions>,
    content: &C,
) -> Result<(), StoreFailed>
where
    R::File: ShelfFile,
    ensures { OnOk result (SomeTakes R.File.contents (C.bytes content.now)) }
{
    let folder = folder_of(name);
    let (mut file, fresh) = fresh_file(alloc, files, folder)?;
    let path = fresh.as_str();
    let filled = fill(alloc, &mut file, permissions, content);
    let moved = rename_filled(files, filled, path, name);
    if let Err(error) = moved {
        let _ = fs::remove_file(files, path);
        return stored(Err(error));
    }
    stored(sync_folder(files, folder))
}

// Lets a new file take a name, if it could be filled.
fn rename_filled<R: Files>(
    files: &R,
    filled: io::Result<()>,
    path: &str,
    name: &str,
) -> io::Result<()>
    ensures { OnOk result (IsOk filled) }
{
    filled?;
    fs::rename(files, path, name)
}

// The text of the folder that a name stands in, up to its last slash; empty where it has none.
fn folder_of(name: &str) -> &str {
    match name.rfind('/') {
        Some(at) => &name[..at + 1],
        None => "",
    }
}

// Gives a new file its permissions and bytes, and syncs it.
fn fill<F: Write + OpenFile, C: Content>(
    alloc: Global,
    file: &mut F,
    permissions: Option<Permissions>,
    content: &C,
) -> io::Result<()>
    ensures { OnOk result
        (Appends (F.contents file.old) (F.contents file.new) (C.bytes content.now)) }
{
    if let Some(permissions) = permissions {
        file.set_permissions(permissions)?;
    }
    content.put_in(alloc, file)?;
    file.sync_all()
}

// Syncs a folder, where its file system can do so.
fn sync_folder<R: Files>(files: &R, folder: &str) -> io::Result<()> {
    let folder = if folder.is_empty() { "." } else { folder };
    let opened = fs::open(files, folder)?;
    match opened.sync_all() {
        Err(error) if error.kind() == ErrorKind::InvalidInput => Ok(()),
        answer => answer,
    }
}
