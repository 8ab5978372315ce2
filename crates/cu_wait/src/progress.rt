//! What a reader of measured profiles keeps from row to row.

ghost use Rattle.std.specs.Prelude.{◌+◌, ◌≤◌, ◌<◌, ◌^◌, All, length};
ghost use Rattle.cu_model.specs.Profiles.{IsProfile};

use crate::measured::MeasuredProfile;
use crate::points::Point;
use crate::refusals::MeasuredRefusal;
use cu_model::Profile;

// What was read of a text: the profiles that ended, in pieces, and the points of the last one.
#[derive(Drop)]
pub(crate) struct MeasuredRows {
    // How many rows were taken.
    pub row: u32,
    // The profile of the last of them.
    pub last: Option<u32>,
    // The first row of the last profile.
    pub first: u32,
    // Its first row whose mode is no word of a mode.
    pub wrong_mode: Option<u32>,
    pub points: Vec<Point>,
    pub profiles: Vec<Profile>,
    // The points of these profiles.
    pub measured: Vec<MeasuredProfile>,
    // Why the first profile that isn't one is refused. A row that fails its own checks goes before it.
    pub fault: Option<MeasuredRefusal>,
    ghost narrow: { row < 2 ^ 32 },
    ghost few: { first + length points.items ≤ row },
    ghost valid: { All IsProfile profiles.items },
}
