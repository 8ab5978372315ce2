//! Counting within a stage.

ghost use Rattle.std.specs.Prelude.{◌≤◌, ◌<◌, ◌*◌};

use crate::stages::{Progress, Stage};

/// How many times a stage is told at most, besides its beginning.
const TOLD: u64 = 1000;

/// A stage that is counted, and who is told how much of it is done: its beginning, and then again only once a thousandth more is
/// done.
#[derive(Drop)]
pub struct Telling<'p, P: Progress> {
    progress: &'p mut P,
    stage: Stage,
    done: u64,
    of: u64,
    next: u64,
}

impl<'p, P: Progress> Telling<'p, P> {
    /// Tells that a stage begins, of so much in all.
    pub fn begin(progress: &'p mut P, stage: Stage, of: u64) -> Telling<'p, P> {
        progress.tell(stage, 0, of);
        Telling {
            progress,
            stage,
            done: 0,
            of,
            next: thousandth(of),
        }
    }

    /// Counts that so much more is done, and tells it where a thousandth is since the last time.
    pub fn add(&mut self, more: u64) {
        self.done = self.done.saturating_add(more);
        if self.done >= self.next {
            self.progress
                .tell(self.stage, self.done.min(self.of), self.of);
            self.next = self.done.saturating_add(thousandth(self.of));
        }
    }
}

// A thousandth of so much, rounded up, and not nothing.
fn thousandth(of: u64) -> u64
    ensures some { 0 < result }
    ensures least { of ≤ 1000 * result }
{
    of / TOLD + 1
}
