//! What a reader of profiles keeps from row to row.

ghost use Rattle.std.specs.Prelude.{◌+◌, ◌≤◌, ◌<◌, ◌^◌, All, length, sum_by};
ghost use Rattle.cu_model.specs.Profiles.{IsProfile};

use crate::refusals::ProfileRefusal;
use cu_model::{Piece, Profile};

// What was read of a text: the profiles that ended, and the pieces of the last one.
#[derive(Drop)]
pub(crate) struct ProfileRows {
    // How many rows were taken.
    pub row: u32,
    // The profile of the last of them.
    pub last: Option<u32>,
    // The first row of the last profile.
    pub first: u32,
    // Its first row whose kind is no word of a kind.
    pub wrong_kind: Option<u32>,
    pub pieces: Vec<Piece>,
    pub profiles: Vec<Profile>,
    // Why the first profile that isn't one is refused. A row that fails its own checks goes before it.
    pub fault: Option<ProfileRefusal>,
    ghost narrow: { row < 2 ^ 32 },
    ghost few: { first + length pieces.items ≤ row },
    ghost sum: { sum_by length profiles.items ≤ first },
    ghost valid: { All IsProfile profiles.items },
}
