//! Which answers of a file system a load of a shelf on disk calls a fault, and what of earlier stores is removed.
ghost use Rattle.std.specs.Prelude.{◌≤◌, IfOk};

use super::{loads_from, loads_from_disk, store_on, write};
use cu_io::{LoadFailed, Lock, ShelfFile, StoreFailed};
use std::alloc::Allocator;
use std::cell::Cell;
use std::fs::{File, Files, Metadata, OpenFile, OpenOptions, Permissions};
use std::io::{Error, ErrorKind, Seek, SeekFrom};
use std::path::PathBuf;
use std::test::Fail;
use std::{fs, io};

// What the system can't tell of a fresh file.
#[derive(Clone, Copy, PartialEq, Eq)]
enum Untold {
    Nothing,
    // What it is.
    File,
    // What stands under its name.
    Name,
}

// What files answer: how long they say that they are, how many bytes each of their reads gives, which read fails, and what
// they can't tell. And how many reads were made, and what a lock of a fresh file found while it was renamed.
#[derive(Drop)]
struct Script {
    length: u64,
    gives: &'static [usize],
    fails_at: usize,
    untold: Cell<Untold>,
    reads: Cell<usize>,
    renamed: Cell<Option<Lock>>,
}

impl Script {
    fn of(length: u64, gives: &'static [usize], fails_at: usize) -> Script {
        Script {
            length,
            gives,
            fails_at,
            untold: Cell::new(Untold::Nothing),
            reads: Cell::new(0),
            renamed: Cell::new(None),
        }
    }

    fn turn(&self, room: usize) -> io::Result<usize>
        ensures { IfOk result (λ count. count ≤ room) }
    {
        let at = self.reads.get();
        self.reads.set(at.saturating_add(1));
        if at == self.fails_at {
            return Err(Error::from(ErrorKind::Other));
        }
        match self.gives.get(at) {
            Some(count) => Ok((*count).min(room)),
            None => Ok(0),
        }
    }

    // Fails where this can't be told.
    fn tell(&self, asked: Untold) -> io::Result<()> {
        if self.untold.get() == asked {
            return Err(Error::from(ErrorKind::Other));
        }
        Ok(())
    }
}

// The files of the file system, but for what a load reads of them, and for what can't be told of fresh ones.
#[derive(Drop)]
struct Scripted<'a> {
    files: &'a HostRuntime,
    script: &'a Script,
}

#[derive(Drop)]
struct ScriptedFile<'a> {
    file: File,
    script: &'a Script,
}

impl<'a> Files for Scripted<'a> {
    type File = ScriptedFile<'a>;

    type Dir = <HostRuntime as Files>::Dir;

    fn open_file(&self, how: &OpenOptions, path: &str) -> io::Result<ScriptedFile<'a>> {
        let file = self.files.open_file(how, path)?;
        Ok(ScriptedFile {
            file,
            script: self.script,
        })
    }

    fn open_dir(&self, path: &str) -> io::Result<<HostRuntime as Files>::Dir> {
        self.files.open_dir(path)
    }

    fn metadata(&self, path: &str) -> io::Result<Metadata> {
        self.files.metadata(path)
    }

    fn symlink_metadata(&self, path: &str) -> io::Result<Metadata> {
        if path.contains(".catchup-stored-") {
            self.script.tell(Untold::Name)?;
        }
        self.files.symlink_metadata(path)
    }

    fn copy(&self, from: &str, to: &str) -> io::Result<u64> {
        self.files.copy(from, to)
    }

    fn rename(&self, from: &str, to: &str) -> io::Result<()> {
        let fresh = fs::open(self.files, from)?;
        self.script.renamed.set(Some(fresh.lock_if_free()));
        self.files.rename(from, to)
    }

    fn remove_file(&self, path: &str) -> io::Result<()> {
        self.files.remove_file(path)
    }

    fn create_dir(&self, path: &str) -> io::Result<()> {
        self.files.create_dir(path)
    }

    fn remove_dir(&self, path: &str) -> io::Result<()> {
        self.files.remove_dir(path)
    }

    fn remove_dir_all<B: Allocator>(&self, alloc: B, path: &str) -> io::Result<()> {
        self.files.remove_dir_all(alloc, path)
    }

    fn canonicalize<B: Allocator>(&self, alloc: B, path: &str) -> io::Result<PathBuf<B>> {
        self.files.canonicalize(alloc, path)
    }
}

impl io::Read for ScriptedFile<'_> {
    fn read(&mut self, into: &mut [u8]) -> io::Result<usize> {
        let count = self.script.turn(into.len())?;
        into[..count].fill(b'a');
        Ok(count)
    }
}

impl io::Write for ScriptedFile<'_> {
    fn write(&mut self, piece: &[u8]) -> io::Result<usize> {
        self.file.write(piece)
    }

    fn flush(&mut self) -> io::Result<()> {
        self.file.flush()
    }
}

impl Seek for ScriptedFile<'_> {
    fn seek(&mut self, to: SeekFrom) -> io::Result<u64> {
        self.file.seek(to)
    }
}

impl OpenFile for ScriptedFile<'_> {
    fn metadata(&self) -> io::Result<Metadata> {
        self.script.tell(Untold::File)?;
        self.file.metadata()
    }

    fn set_len(&self, size: u64) -> io::Result<()> {
        self.file.set_len(size)
    }

    fn sync_all(&self) -> io::Result<()> {
        self.file.sync_all()
    }

    fn sync_data(&self) -> io::Result<()> {
        self.file.sync_data()
    }

    fn set_permissions(&self, permissions: Permissions) -> io::Result<()> {
        self.file.set_permissions(permissions)
    }
}

impl ShelfFile for ScriptedFile<'_> {
    fn least_length(&self) -> u64 {
        self.script.length
    }

    fn lock_if_free(&self) -> Lock {
        self.file.lock_if_free()
    }
}

const TOO_LONG: u64 = 4_294_967_297;

const NEVER: usize = usize::MAX;

// Whether a load over a script answers so.
fn loads_scripted(rt: &HostRuntime, script: &Script, wanted: Result<&[u8], LoadFailed>) -> bool {
    let files = Scripted { files: rt, script };
    loads_from(files, rt.alloc(), "scripted", wanted)
}

// A script of what files answer; and what a load over it has to answer, after how many reads.
struct ScriptedLoad {
    length: u64,
    gives: &'static [usize],
    fails_at: usize,
    loaded: Result<&'static [u8], LoadFailed>,
    reads: usize,
}

const LOADS: [ScriptedLoad; 6] = [
    ScriptedLoad {
        length: 0,
        gives: &[],
        fails_at: NEVER,
        loaded: Ok(b""),
        reads: 1,
    },
    ScriptedLoad {
        length: 0,
        gives: &[1, 2],
        fails_at: NEVER,
        loaded: Ok(b"aaa"),
        reads: 3,
    },
    ScriptedLoad {
        length: TOO_LONG - 1,
        gives: &[3],
        fails_at: NEVER,
        loaded: Ok(b"aaa"),
        reads: 2,
    },
    ScriptedLoad {
        length: TOO_LONG,
        gives: &[3],
        fails_at: 0,
        loaded: Err(LoadFailed::TooLong),
        reads: 0,
    },
    ScriptedLoad {
        length: 0,
        gives: &[3],
        fails_at: 0,
        loaded: Err(LoadFailed::Fault),
        reads: 1,
    },
    ScriptedLoad {
        length: 0,
        gives: &[3],
        fails_at: 1,
        loaded: Err(LoadFailed::Fault),
        reads: 2,
    },
];

// Whether a load does so.
fn is_loaded(rt: &HostRuntime, load: &ScriptedLoad) -> bool {
    let script = Script::of(load.length, load.gives, load.fails_at);
    loads_scripted(rt, &script, load.loaded) && script.reads.get() == load.reads
}

// Whether all of them do.
fn are_loaded(rt: &HostRuntime) -> bool {
    for load in &LOADS {
        if !is_loaded(rt, load) {
            return false;
        }
    }
    true
}

#[test]
fn a_load_faults_where_the_system_fails_and_nowhere_else(rt: HostRuntime) -> Result<(), Fail> {
    write(&rt, "scripted", "")?;
    assert!(rt; are_loaded(&rt));
    fs::remove_file(&rt, "scripted")?;
    Ok(())
}

// Whether a file of more bytes than a load takes is called too long.
fn is_too_long(rt: &HostRuntime) -> Result<bool, Fail> {
    let file = fs::create(rt, "long")?;
    file.set_len(TOO_LONG)?;
    Ok(loads_from_disk(rt, "long", Err(LoadFailed::TooLong)))
}

#[test]
fn a_file_past_the_limit_is_not_read(rt: HostRuntime) -> Result<(), Fail> {
    assert!(rt; is_too_long(&rt)?);
    fs::remove_file(&rt, "long")?;
    Ok(())
}

// Stores a text in a folder, and answers what a lock of the fresh file found while it was renamed.
fn stored(rt: &HostRuntime) -> Option<Lock> {
    let script = Script::of(0, &[], NEVER);
    let files = Scripted {
        files: rt,
        script: &script,
    };
    match store_on(files, rt.alloc(), "left/file", b"text") {
        Ok(()) => script.renamed.get(),
        Err(_) => None,
    }
}

fn is_there(rt: &HostRuntime, name: &str) -> bool {
    fs::symlink_metadata(rt, name).is_ok()
}

// Whether each of these is there, or none of them.
fn are_there(rt: &HostRuntime, names: &[&str], there: bool) -> bool {
    for name in names {
        if is_there(rt, *name) != there {
            return false;
        }
    }
    true
}

// Leaves files, a folder and a link where a store makes its fresh files, and one file whose name isn't one of theirs.
fn leave(rt: &HostRuntime) -> Result<(), Fail> {
    fs::create_dir(rt, "left")?;
    for name in [
        "left/.catchup-stored-0",
        "left/.catchup-stored-7",
        "left/.stored-0",
    ] {
        write(rt, name, "left")?;
    }
    fs::create_dir(rt, "left/.catchup-stored-1")?;
    rt.symlink(".stored-0", "left/.catchup-stored-2")?;
    Ok(())
}

// Whether a store beside a fresh file that another process holds finds its own held by itself.
fn is_stored_beside_another(rt: &HostRuntime) -> Result<bool, Fail> {
    let busy = fs::create(rt, "left/.catchup-stored-3")?;
    Ok(busy.lock_if_free() == Lock::Held && stored(rt) == Some(Lock::Busy))
}

const REMOVED: [&str; 2] = ["left/.catchup-stored-0", "left/.catchup-stored-7"];

const KEPT: [&str; 4] = [
    "left/.catchup-stored-1",
    "left/.catchup-stored-2",
    "left/.catchup-stored-3",
    "left/.stored-0",
];

// Whether a store beside all of them removes the files of killed ones, and nothing else.
fn removes_what_was_left(rt: &HostRuntime) -> Result<bool, Fail> {
    leave(rt)?;
    let stored = is_stored_beside_another(rt)?;
    Ok(stored && are_there(rt, &REMOVED, false) && are_there(rt, &KEPT, true))
}

#[test]
fn a_store_removes_what_killed_ones_left(rt: HostRuntime) -> Result<(), Fail> {
    assert!(rt; removes_what_was_left(&rt)?);
    fs::remove_dir_all(&rt, "left")?;
    Ok(())
}

// Whether a store fails where the system can't tell this of a fresh file, leaves none, and keeps the old file.
fn fails_at_once(rt: &HostRuntime, untold: Untold) -> bool {
    let script = Script::of(0, &[], NEVER);
    script.untold.set(untold);
    let files = Scripted {
        files: rt,
        script: &script,
    };
    store_on(files, rt.alloc(), "untold/file", b"text") == Err(StoreFailed::Fault)
        && are_there(rt, &FRESH, false)
        && loads_from_disk(rt, "untold/file", Ok(b"old"))
}

const FRESH: [&str; 2] = ["untold/.catchup-stored-0", "untold/.catchup-stored-1"];

#[test]
fn a_store_fails_at_once_where_names_cant_be_told(rt: HostRuntime) -> Result<(), Fail> {
    fs::create_dir(&rt, "untold")?;
    write(&rt, "untold/file", "old")?;
    assert!(rt; fails_at_once(&rt, Untold::File));
    assert!(rt; fails_at_once(&rt, Untold::Name));
    fs::remove_dir_all(&rt, "untold")?;
    Ok(())
}
