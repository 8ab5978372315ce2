//! The calls of an object in memory.
ghost use Rattle.std.specs.Prelude.{◌≡◌};
ghost use Rattle.cu_io.specs.Memory.{is_failing, after_call};

use std::marker::Model;

// Calls numbered from 0, of which those named fail. The number of the next call stops at 2^64 - 1.
#[derive(Drop)]
pub(crate) struct Calls {
    fails: Vec<u64>,
    next: u64,
}

impl Model for Calls {
    ghost use Rattle.cu_io.specs.Memory.{CallList};

    ghost Value = { CallList };

    ghost view = { λ c. record { fails = c.fails.items; next = c.next } };
}

impl Calls {
    pub(crate) fn of(fails: Vec<u64>) -> Calls
        ensures { result ≡ record { fails = fails.items; next = 0 } }
    {
        Calls { fails, next: 0 }
    }

    // Counts one more call, and answers whether it fails.
    pub(crate) fn take(&mut self) -> bool
        ensures fails { result ≡ is_failing self.old }
        ensures next { self.new ≡ after_call self.old }
    {
        let fails = self.fails.contains(&self.next);
        self.next = self.next.saturating_add(1);
        fails
    }
}
