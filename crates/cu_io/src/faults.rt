//! The faults that an adapter met.
ghost use Rattle.std.specs.Prelude.{◌≡◌, ℕ};
ghost use Rattle.cu_io.specs.Steps.Noted.{Notes};

use std::io;
use std::marker::Model;

// How many faults were met, up to 2^64 - 1. It rises by answers of the system alone.
#[derive(Drop)]
pub(crate) struct Faults {
    count: u64,
}

impl Model for Faults {
    ghost use Rattle.std.specs.Prelude.{ℕ};

    ghost Value = { ℕ };

    ghost view = { λ f. f.count };
}

impl Faults {
    pub(crate) fn none() -> Faults
        ensures { result ≡ 0 }
    {
        Faults { count: 0 }
    }

    // Hands on what the system answered, if that is no error. An error is one more fault, and nothing else is one.
    pub(crate) fn note<T: Drop>(&mut self, answer: io::Result<T>) -> Option<T>
        ensures { Notes self.old self.new answer result }
    {
        match answer {
            Ok(value) => Some(value),
            Err(_) => {
                self.count = self.count.saturating_add(1);
                None
            }
        }
    }
}
