//! Opened files of a shelf on disk.
ghost use Rattle.std.specs.Prelude.{◌≤◌, length, IfSome};

use std::fs::{File, OpenFile, TryLockError};
use std::io::{Read, Seek, Write};

/// What came of locking an opened file.
#[derive(Clone, Copy, PartialEq, Eq)]
pub enum Lock {
    /// It is locked until it is closed, which the end of its process does too.
    Held,
    /// Another opening of it is locked.
    Busy,
    /// Its system has no locks for it.
    Unknown,
}

/// An opened file of a shelf on disk: what the shelf asks of it besides what the standard library does.
pub trait ShelfFile: Read + Write + Seek + OpenFile + Drop {
    /// How many bytes it has left at least, as far as its system knows, right after it was opened; 0 says nothing.
    fn least_length(&self) -> u64
        ensures { IfSome (Self.remaining self.now) (λ bytes. result ≤ length bytes) }
    {
        0
    }

    /// Locks it, unless another opening of it is locked. Waits for nothing.
    fn lock_if_free(&self) -> Lock {
        Lock::Unknown
    }
}

impl ShelfFile for File {
    fn least_length(&self) -> u64 {
        match self.metadata() {
            Ok(metadata) if metadata.is_file() => metadata.len(),
            _ => 0,
        }
    }

    fn lock_if_free(&self) -> Lock {
        match self.try_lock() {
            Ok(()) => Lock::Held,
            Err(TryLockError::WouldBlock) => Lock::Busy,
            Err(TryLockError::Error(_)) => Lock::Unknown,
        }
    }
}
