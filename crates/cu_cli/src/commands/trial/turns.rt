//! How many turns a trial has. It stands apart from the trial itself, whose contracts name it.

ghost use Rattle.std.specs.Prelude.{◌≤◌};
ghost use Rattle.cu_cli.specs.declared.commands.trial.turns.TheConstants.{MAX_TURNS};

use crate::words::GridWords;

/// The most turns of a trial.
pub const MAX_TURNS: u32 = 1_000_000;

/// A grid, and how many turns are tried on it, 0 to 1,000,000.
#[derive(Clone, Copy)]
pub struct TrialWords {
    pub grid: GridWords,
    pub turns: u32,
    ghost few: { turns ≤ MAX_TURNS },
}
