ghost use Rattle.std.specs.Prelude.{◌≡◌};
ghost use Rattle.cu_profile.specs.declared.refusals.ProfileRefusal.TheVariants as refusal;

use cu_model::{NoMemory, PieceRefusal};
use thiserror::Error;

/// Why a text isn't a table of profiles. Rows are numbered from 0, behind the header.
#[derive(Clone, Copy, Debug, PartialEq, Eq, Error)]
pub enum ProfileRefusal {
    /// The first row isn't `profile,from,kind,value`, or there is none.
    #[error("the header isn't profile,from,kind,value")]
    Header,
    /// A row that doesn't have 4 fields.
    #[error("row {row} doesn't have 4 fields")]
    Fields { row: u32 },
    /// A row whose profile, from or value isn't a number word.
    #[error("row {row} has a field that isn't a number")]
    Number { row: u32 },
    /// A row whose profile is neither that of the row before nor the next one; the first row's is 0.
    #[error("row {row} is of a profile out of sequence")]
    Sequence { row: u32 },
    /// The row of profile 1,048,576, or row 4,294,967,295, which has no other check.
    #[error("row {row} is one too many")]
    TooMany { row: u32 },
    /// A row whose kind is none of `travel`, `until` and `closed`, or a fault of the pieces of a profile: `Limit`, `Rising`
    /// and `Closed` name the row of the piece, the others the first row of the profile.
    #[error("row {row}: {refusal}")]
    Row { row: u32, refusal: PieceRefusal },
    /// Memory ran out. Nothing is known of the text.
    #[error("out of memory")]
    NoMemory,
}

impl From<NoMemory> for ProfileRefusal {
    ghost from_gives = { λ _ e. e ≡ refusal.NoMemory };

    fn from(_error: NoMemory) -> ProfileRefusal {
        ProfileRefusal::NoMemory
    }
}
