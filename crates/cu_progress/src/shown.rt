//! Progress shown on standard error: a line that is written over, or a line a stage.

ghost use Rattle.std.specs.Prelude.{◌<◌};

use crate::stages::{Progress, Stage};
use std::env::{self, VarError};
use std::io::{IsTerminal, Stderr};
use std::rt::{Clock, Env};
use std::time::{Duration, Instant};

/// How progress is shown.
#[derive(Clone, Copy, PartialEq, Eq)]
pub enum Showing {
    /// Not at all.
    Nothing,
    /// A line a stage.
    Lines,
    /// One line, written over: the stage, how much of it is done and some seconds left.
    Over,
}

/// How progress is to be shown: by the variable `CATCHUP_PROGRESS`, a line a stage where it is 1 and nothing where it is 0; else
/// one line that is written over, where standard error is a terminal.
pub fn choose_showing<R: Env + Alloc>(rt: &R, errors: &Stderr) -> Showing {
    match env::var(rt, "CATCHUP_PROGRESS") {
        Ok(value) if value.as_str() == "1" => Showing::Lines,
        Ok(value) if value.as_str() == "0" => Showing::Nothing,
        Ok(_) | Err(VarError::NotPresent | VarError::NotUnicode) if errors.is_terminal() =>
            Showing::Over,
        _ => Showing::Nothing,
    }
}

/// Progress on standard error. What can't be written there is left out, and nothing else changes.
#[derive(Drop)]
pub struct Shown<'a, R: Eprint + Clock> {
    rt: &'a R,
    how: Showing,
    // Whether replies are written where progress is shown.
    shares: bool,
    // When the stage began, and which it is.
    began: Option<(Stage, Instant)>,
    // When the line was written last.
    last: Option<Instant>,
}

// How many milliseconds a line stands at least before it is written over.
const STANDS: u64 = 100;

impl<'a, R: Eprint + Clock> Shown<'a, R> {
    /// Nothing shown yet. While replies are written to the same terminal, no line is written over there.
    pub fn new(rt: &'a R, how: Showing, shares: bool) -> Shown<'a, R> {
        Shown {
            rt,
            how,
            shares,
            began: None,
            last: None,
        }
    }

    // Takes the line away, if there is one.
    fn clear(&mut self) {
        if self.last.is_some() {
            self.last = None;
            let _ = eprint!(self.rt; "\r\x1b[K");
        }
    }

    // Whether the line was written just before.
    fn stands(&self, now: Instant) -> bool {
        let last = self.last;
        match last {
            Some(last) => now.duration_since(last) < Duration::from_millis(STANDS),
            None => false,
        }
    }

    // Writes the line of a stage over, unless it was written just before.
    fn write_over(&mut self, stage: Stage, done: u64, of: u64) {
        let Ok(now) = Instant::now(self.rt) else {
            return;
        };
        if done > 0 && self.stands(now) {
            return;
        }
        self.last = Some(now);
        let began = self.began;
        let gone = match began {
            Some((begun, at)) if begun == stage && done > 0 => now.duration_since(at),
            _ => {
                self.began = Some((stage, now));
                Duration::ZERO
            }
        };
        self.write_line(stage, done, of, gone);
    }

    // Writes how much of a stage is done, and in how many seconds the rest will be where some of it is.
    fn write_line(&self, stage: Stage, done: u64, of: u64, gone: Duration) {
        let name = stage.name();
        let _ = if of <= 1 {
            eprint!(self.rt; "\rcatchup: {name}\x1b[K")
        } else if done == 0 {
            eprint!(self.rt; "\rcatchup: {name}, 0 %\x1b[K")
        } else {
            let percent = percent_of(done, of);
            let left = seconds_left(gone.as_secs(), done, of);
            eprint!(self.rt; "\rcatchup: {name}, {percent} %, {left} s left\x1b[K")
        };
    }
}

impl<'a, R: Eprint + Clock> Progress for Shown<'a, R> {
    fn tell(&mut self, stage: Stage, done: u64, of: u64) {
        match self.how {
            Showing::Nothing => {}
            Showing::Lines => {
                if done == 0 && stage != Stage::Done {
                    let _ = eprint!(self.rt; "catchup: {}\n", stage.name());
                }
            }
            Showing::Over if stage == Stage::Done || self.shares && stage == Stage::Editing =>
                self.clear(),
            Showing::Over => self.write_over(stage, done, of),
        }
    }
}

impl Stage {
    // What a stage does, in words.
    fn name(self) -> &'static str {
        match self {
            Stage::Reading => "reading files",
            Stage::Opening => "checking the packed file",
            Stage::Ordering => "making an order",
            Stage::Measuring => "converting measured times",
            Stage::Closing => "finding shortcuts",
            Stage::Customizing => "settling shortcuts",
            Stage::Editing => "making edits",
            Stage::Comparing => "comparing",
            Stage::Packing => "packing",
            Stage::Storing => "storing",
            Stage::Done => "done",
        }
    }
}

// How many of a hundred parts are done.
fn percent_of(done: u64, of: u64) -> u64
    requires { 0 < of }
{
    done.saturating_mul(100) / of
}

// How many seconds are left, where so many seconds were needed for what is done.
fn seconds_left(gone: u64, done: u64, of: u64) -> u64
    requires { 0 < done }
{
    gone.saturating_mul(of.saturating_sub(done)) / done
}
