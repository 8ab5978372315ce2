//! The profiles of a packed file: pieces one behind the other, those of each profile a profile.

ghost use Rattle.std.specs.Prelude.{◌≤◌, ◌<◌, ◌↔◌, IsTrue, suc};
ghost use Rattle.cu_pack.specs.Checks.{ArePiecesWrong, FindsFirst, IsWrongProfile};
ghost use Rattle.cu_pack.specs.Reading.{counts_in};
ghost use Rattle.cu_pack.specs.Steps.Pieces.{AreNoProfile};

use crate::cutting::Sections;
use cu_model::{DAY, PieceChecker};

/// The least profile whose pieces are no profile; or the number behind the last, where pieces are left.
pub fn wrong_profile(sections: &Sections<'_>) -> Option<u32>
    ensures first { FindsFirst (IsWrongProfile sections.now) (suc (counts_in sections.now).profiles)
        result }
{
    if sections.profile_start(0) != 0 {
        return Some(0);
    }
    let counts = sections.counts();
    for profile in 0..counts.profiles {
        if are_pieces_wrong(sections, profile) {
            return Some(profile);
        }
    }
    if sections.profile_start(counts.profiles) != counts.pieces {
        return Some(counts.profiles);
    }
    None
}

// Whether the pieces of a profile are none, or past the last, or no profile.
fn are_pieces_wrong(sections: &Sections<'_>, profile: u32) -> bool
    requires profile { profile < (counts_in sections.now).profiles }
    ensures { IsTrue result ↔ ArePiecesWrong sections.now profile }
{
    let counts = sections.counts();
    let start = sections.profile_start(profile);
    let end = sections.profile_start(profile + 1);
    end <= start || end > counts.pieces || are_no_profile(sections, start, end)
}

// Whether one of these pieces is of no kind, or they are no profile.
fn are_no_profile(sections: &Sections<'_>, start: u64, end: u64) -> bool
    requires order { start ≤ end }
    requires end { end ≤ (counts_in sections.now).pieces }
    ensures { IsTrue result ↔ AreNoProfile sections.now start end }
{
    if end - start > u64::from(DAY) {
        return true;
    }
    let mut checker = PieceChecker::new();
    for piece in start..end {
        if sections.piece_kind(piece) > 2 {
            return true;
        }
        checker.push(sections.piece(piece));
    }
    checker.finish().is_err()
}
