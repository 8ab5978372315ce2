//! Measured profiles in pieces.

ghost use Rattle.std.specs.Prelude.{◌≡◌, IfOk};
ghost use Rattle.cu_model.specs.Profiles.{IsProfile};
ghost use Rattle.cu_wait.specs.Converted.{StandFor};
ghost use Rattle.cu_wait.specs.Measured.{IsMeasured};
ghost use Rattle.cu_wait.specs.Networks.{Measured};

use crate::hull::hull_pieces;
use crate::points::Point;
use cu_model::{NoMemory, Profile};
use std::alloc::Global;

// The profile in pieces that stands for a measured one.
pub(crate) fn converted(alloc: Global, points: &[Point]) -> Result<Profile, NoMemory>
    requires { IsMeasured points.now }
    ensures converted { IfOk result (λ profile. StandFor (Measured points.now) profile) }
    ensures valid { IfOk result (λ profile. IsProfile profile) }
{
    let pieces = hull_pieces(alloc, points)?;
    match Profile::of(pieces) {
        Ok(profile) => Ok(profile),
        Err(_) => unreachable!(),
    }
}
