//! Devices that note why they failed.

use std::cell::Cell;
use std::io;
use std::io::{Error, ErrorKind, Read, Write};

/// Why a device failed last: the system's number of the error, if it has failed.
#[derive(Drop)]
pub struct Fault {
    code: Cell<i32>,
}

impl Fault {
    /// None yet.
    pub fn none() -> Fault {
        Fault { code: Cell::new(0) }
    }

    /// The error, if there was one that the system numbers.
    pub fn error(&self) -> Option<Error> {
        match self.code.get() {
            0 => None,
            code => Some(Error::from_raw_os_error(code)),
        }
    }

    /// Whether it was that whoever read a pipe has gone.
    pub fn is_closed_pipe(&self) -> bool {
        match self.error() {
            Some(error) => error.kind() == ErrorKind::BrokenPipe,
            None => false,
        }
    }

    fn note(&self, error: &Error) {
        self.code.set(error.raw_os_error().unwrap_or(0));
    }
}

/// A reader or a writer that notes why it failed, and else hands each call on.
#[derive(Drop)]
pub struct Noted<'a, D: Drop> {
    device: D,
    fault: &'a Fault,
}

impl<'a, D: Drop> Noted<'a, D> {
    /// Over a device, whose faults go to `fault`.
    pub fn new(device: D, fault: &'a Fault) -> Noted<'a, D> {
        Noted { device, fault }
    }
}

impl<D: Read + Drop> Read for Noted<'_, D> {
    fn read(&mut self, into: &mut [u8]) -> io::Result<usize> {
        let answer = self.device.read(into);
        if let Err(error) = &answer {
            self.fault.note(error);
        }
        answer
    }
}

impl<D: Write + Drop> Write for Noted<'_, D> {
    fn write(&mut self, piece: &[u8]) -> io::Result<usize> {
        let answer = self.device.write(piece);
        if let Err(error) = &answer {
            self.fault.note(error);
        }
        answer
    }

    fn flush(&mut self) -> io::Result<()> {
        let answer = self.device.flush();
        if let Err(error) = &answer {
            self.fault.note(error);
        }
        answer
    }
}
