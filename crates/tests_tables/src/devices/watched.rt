//! Files under a shelf, and what the shelf asks of them, in order.
use super::{answers_on, loads_from_disk, store_on, write};
use cu_io::{LoadFailed, ShelfFile, StoreFailed};
use std::alloc::Allocator;
use std::cell::Cell;
use std::fs::{File, Files, Metadata, OpenFile, OpenOptions, Permissions};
use std::io::{Error, ErrorKind, Read, Seek, SeekFrom, Write};
use std::os::unix::fs::PermissionsExt;
use std::path::PathBuf;
use std::test::Fail;
use std::{fs, io};

// What is asked of files, as a digit.
const OPEN: u64 = 1;

const MODE: u64 = 2;

const WRITE: u64 = 3;

const SYNC: u64 = 4;

const RENAME: u64 = 5;

const REMOVE: u64 = 6;

// What was asked for, as the digits of a number, and what fails.
#[derive(Drop)]
struct Log {
    digits: Cell<u64>,
    fails: Cell<u64>,
}

impl Log {
    fn note(&self, asked: u64) -> io::Result<()> {
        self.digits
            .set(self.digits.get().saturating_mul(10).saturating_add(asked));
        if asked == self.fails.get() {
            return Err(Error::from(ErrorKind::Other));
        }
        Ok(())
    }
}

// The files of the file system, which write down what is asked of them.
#[derive(Drop)]
struct Watched<'a> {
    files: &'a HostRuntime,
    log: &'a Log,
}

#[derive(Drop)]
struct WatchedFile<'a> {
    file: File,
    log: &'a Log,
}

impl<'a> Files for Watched<'a> {
    type File = WatchedFile<'a>;

    type Dir = <HostRuntime as Files>::Dir;

    fn open_file(&self, how: &OpenOptions, path: &str) -> io::Result<WatchedFile<'a>> {
        self.log.note(OPEN)?;
        let file = self.files.open_file(how, path)?;
        Ok(WatchedFile {
            file,
            log: self.log,
        })
    }

    fn open_dir(&self, path: &str) -> io::Result<<HostRuntime as Files>::Dir> {
        self.files.open_dir(path)
    }

    fn metadata(&self, path: &str) -> io::Result<Metadata> {
        self.files.metadata(path)
    }

    fn symlink_metadata(&self, path: &str) -> io::Result<Metadata> {
        self.files.symlink_metadata(path)
    }

    fn copy(&self, from: &str, to: &str) -> io::Result<u64> {
        self.files.copy(from, to)
    }

    fn rename(&self, from: &str, to: &str) -> io::Result<()> {
        self.log.note(RENAME)?;
        self.files.rename(from, to)
    }

    fn remove_file(&self, path: &str) -> io::Result<()> {
        self.log.note(REMOVE)?;
        self.files.remove_file(path)
    }

    fn create_dir(&self, path: &str) -> io::Result<()> {
        self.files.create_dir(path)
    }

    fn remove_dir(&self, path: &str) -> io::Result<()> {
        self.files.remove_dir(path)
    }

    fn remove_dir_all<B: Allocator>(&self, alloc: B, path: &str) -> io::Result<()> {
        self.files.remove_dir_all(alloc, path)
    }

    fn canonicalize<B: Allocator>(&self, alloc: B, path: &str) -> io::Result<PathBuf<B>> {
        self.files.canonicalize(alloc, path)
    }
}

impl Read for WatchedFile<'_> {
    fn read(&mut self, into: &mut [u8]) -> io::Result<usize> {
        self.file.read(into)
    }
}

impl Write for WatchedFile<'_> {
    fn write(&mut self, piece: &[u8]) -> io::Result<usize> {
        self.log.note(WRITE)?;
        self.file.write(piece)
    }

    fn flush(&mut self) -> io::Result<()> {
        self.file.flush()
    }
}

impl Seek for WatchedFile<'_> {
    fn seek(&mut self, to: SeekFrom) -> io::Result<u64> {
        self.file.seek(to)
    }
}

impl OpenFile for WatchedFile<'_> {
    fn metadata(&self) -> io::Result<Metadata> {
        self.file.metadata()
    }

    fn set_len(&self, size: u64) -> io::Result<()> {
        self.file.set_len(size)
    }

    fn sync_all(&self) -> io::Result<()> {
        self.log.note(SYNC)?;
        self.file.sync_all()
    }

    fn sync_data(&self) -> io::Result<()> {
        self.file.sync_data()
    }

    fn set_permissions(&self, permissions: Permissions) -> io::Result<()> {
        self.log.note(MODE)?;
        self.file.set_permissions(permissions)
    }
}

impl ShelfFile for WatchedFile<'_> {}

// Whether a store under a name and a load of it then answer so.
fn answers(
    rt: &HostRuntime,
    name: &str,
    text: &[u8],
    stored: Result<(), StoreFailed>,
    loaded: Result<&[u8], LoadFailed>,
) -> bool {
    answers_on(rt, rt.alloc(), name, text, stored, loaded)
}

fn keeps(rt: &HostRuntime, name: &str, text: &[u8]) -> bool {
    answers(rt, name, text, Ok(()), Ok(text))
}

fn refuses(rt: &HostRuntime, name: &str) -> bool {
    answers(
        rt,
        name,
        b"x",
        Err(StoreFailed::Fault),
        Err(LoadFailed::Fault),
    )
}

fn holds(rt: &HostRuntime, name: &str, bytes: &[u8]) -> bool {
    loads_from_disk(rt, name, Ok(bytes))
}

// Whether a store of a text answers so and asks for this, where what `fails` names fails.
fn asks(
    rt: &HostRuntime,
    fails: u64,
    text: &[u8],
    asked: u64,
    answer: Result<(), StoreFailed>,
) -> bool {
    let log = Log {
        digits: Cell::new(0),
        fails: Cell::new(fails),
    };
    let watched = Watched {
        files: rt,
        log: &log,
    };
    store_on(watched, rt.alloc(), "file", text) == answer && log.digits.get() == asked
}

// Whether these files are there to be removed, and are then.
fn removes(rt: &HostRuntime, names: &[&str]) -> bool {
    for name in names {
        if fs::remove_file(rt, *name).is_err() {
            return false;
        }
    }
    true
}

// What fails, what is stored then, what that asks for, and how it ends.
type Store = (u64, &'static [u8], u64, Result<(), StoreFailed>);

const STORES: [Store; 5] = [
    (0, b"old", 11134514, Ok(())),
    (0, b"new", 111234514, Ok(())),
    (RENAME, b"lost", 11123456, Err(StoreFailed::Fault)),
    (WRITE, b"lost", 111236, Err(StoreFailed::Fault)),
    (OPEN, b"lost", 11, Err(StoreFailed::Fault)),
];

// Whether they all ask for this and answer so, one after another.
fn asks_for_all(rt: &HostRuntime) -> bool {
    for (fails, text, asked, answer) in &STORES {
        if !asks(rt, *fails, *text, *asked, *answer) {
            return false;
        }
    }
    true
}

fn is_absent(rt: &HostRuntime, name: &str) -> bool {
    matches!(fs::exists(rt, name), Ok(false))
}

#[test]
fn store_asks_in_this_order(rt: HostRuntime) {
    assert!(rt; write(&rt, ".catchup-stored-0", "a name that is taken").is_ok());
    assert!(rt; asks_for_all(&rt));
    assert!(rt; holds(&rt, "file", b"new"));
    assert!(rt; is_absent(&rt, ".catchup-stored-1"));
    assert!(rt; removes(&rt, &[".catchup-stored-0", "file"]));
}

// Whether a longer and then a shorter text are kept under each of these names, and none where there is no folder or one stands; and
// whether the files are then removed.
fn keeps_files(rt: &HostRuntime, names: &[&str]) -> bool {
    for name in names {
        if !keeps(rt, name, b"longer text") || !keeps(rt, name, b"text") {
            return false;
        }
    }
    refuses(rt, "absent/disk") && refuses(rt, "folder") && removes(rt, names)
}

#[test]
fn disk_keeps_whole_files(rt: HostRuntime) -> Result<(), Fail> {
    let long = "n".repeat(rt.alloc(), 255)?;
    fs::create_dir(&rt, "folder")?;
    assert!(rt; keeps_files(&rt, &["disk", "folder/disk", long.as_str()]));
    fs::remove_dir(&rt, "folder")?;
    Ok(())
}

// Leaves files in a folder, as crashes do, under the names that a store there tries first.
fn leave_behind(rt: &HostRuntime, count: u32) -> Result<(), Fail> {
    fs::create_dir(rt, "crashed")?;
    for number in 0..count {
        let name = format!(in rt.alloc(); "crashed/.stored-{number}")?;
        write(rt, name.as_str(), "left")?;
    }
    Ok(())
}

#[test]
fn leftovers_of_crashes_keep_no_file_out(rt: HostRuntime) -> Result<(), Fail> {
    leave_behind(&rt, 20)?;
    assert!(rt; keeps(&rt, "crashed/file", b"text"));
    assert!(rt; holds(&rt, "crashed/.stored-19", b"left"));
    fs::remove_dir_all(&rt, "crashed")?;
    Ok(())
}

// Makes a link to a file with a mode of its own.
fn make_link(rt: &HostRuntime) -> io::Result<()> {
    write(rt, "target", "old")?;
    fs::set_permissions(rt, "target", Permissions::from_mode(0o100640))?;
    rt.symlink("target", "link")
}

// Whether a store under a link leaves the link, and replaces what it leads to, which keeps its mode.
fn follows_link(rt: &HostRuntime) -> io::Result<bool> {
    make_link(rt)?;
    if !keeps(rt, "link", b"new") || !holds(rt, "target", b"new") {
        return Ok(false);
    }
    let mode = fs::metadata(rt, "target")?.permissions().mode() & 0o777;
    Ok(mode == 0o640 && fs::symlink_metadata(rt, "link")?.is_symlink())
}

#[test]
fn store_follows_links_and_keeps_modes(rt: HostRuntime) {
    assert!(rt; matches!(follows_link(&rt), Ok(true)));
    assert!(rt; removes(&rt, &["target"]));
    assert!(rt; keeps(&rt, "link", b"made"));
    assert!(rt; removes(&rt, &["link", "target"]));
}
