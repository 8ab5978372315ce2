//! Sources and sinks over devices that are interrupted, give and take few bytes, and fail.
ghost use Rattle.std.specs.Prelude.{◌≤◌, IfOk};

use super::{gives, takes_once};
use cu_io::{SourceFailed, StdSink, StdSource};
use std::io;
use std::io::{Error, ErrorKind, Read, Write};
use std::test::Fail;

// What a device does at a call.
#[derive(Clone, Copy)]
enum Turn {
    Moves(usize),
    Interrupts,
    Fails,
}

// A device that does at each call what stands next in a list, and moves nothing once no more stands there.
#[derive(Drop)]
struct Device {
    turns: Vec<Turn>,
    next: usize,
    written: Vec<u8>,
}

impl Device {
    fn new(turns: Vec<Turn>, written: Vec<u8>) -> Device {
        Device {
            turns,
            next: 0,
            written,
        }
    }

    fn turn(&mut self, room: usize) -> io::Result<usize>
        ensures { IfOk result (λ count. count ≤ room) }
    {
        let Some(turn) = self.turns.get(self.next) else {
            return Ok(0);
        };
        self.next = self.next.saturating_add(1);
        match *turn {
            Turn::Moves(count) => Ok(count.min(room)),
            Turn::Interrupts => Err(Error::from(ErrorKind::Interrupted)),
            Turn::Fails => Err(Error::from(ErrorKind::Other)),
        }
    }
}

impl Read for Device {
    fn read(&mut self, into: &mut [u8]) -> io::Result<usize> {
        let count = self.turn(into.len())?;
        into[..count].fill(b'a');
        Ok(count)
    }
}

impl Write for Device {
    fn write(&mut self, piece: &[u8]) -> io::Result<usize> {
        let count = self.turn(piece.len())?;
        self.written.extend_from_slice(&piece[..count])?;
        Ok(count)
    }

    fn flush(&mut self) -> io::Result<()> {
        self.turn(0)?;
        Ok(())
    }
}

const READ: [Turn; 4] = [
    Turn::Interrupts,
    Turn::Moves(1),
    Turn::Fails,
    Turn::Moves(9),
];

#[test]
fn source_reads_again_after_interrupts(rt: HostRuntime) -> Result<(), Fail> {
    let turns = Vec::from_slice(rt.alloc(), &READ)?;
    let mut source = StdSource::new(Device::new(turns, Vec::new(rt.alloc())));
    let wanted = [
        (Ok(1), *b"a\0"),
        (Err(SourceFailed), *b"a\0"),
        (Ok(2), *b"aa"),
        (Ok(0), *b"aa"),
    ];
    assert!(rt; gives(&mut source, &wanted));
    Ok(())
}

const WRITTEN: [Turn; 8] = [
    Turn::Moves(3),
    Turn::Interrupts,
    Turn::Moves(2),
    Turn::Moves(9),
    Turn::Interrupts,
    Turn::Moves(0),
    Turn::Fails,
    Turn::Moves(1),
];

// Does a device take a word once, and a part of the next?
fn takes_a_word(device: &mut Device) -> bool {
    takes_once(&mut StdSink::new(&mut *device), b"catchup", b"!?")
        && device.written.as_slice() == b"catchup!".as_slice()
}

#[test]
fn sink_writes_on_after_interrupts_and_short_writes(rt: HostRuntime) -> Result<(), Fail> {
    let turns = Vec::from_slice(rt.alloc(), &WRITTEN)?;
    let mut device = Device::new(turns, Vec::new(rt.alloc()));
    assert!(rt; takes_a_word(&mut device));
    Ok(())
}
