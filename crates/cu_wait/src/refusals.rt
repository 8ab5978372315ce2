ghost use Rattle.std.specs.Prelude.{◌≡◌};
ghost use Rattle.cu_wait.specs.declared.refusals.MeasuredRefusal.TheVariants as refusal;

use cu_model::NoMemory;
use thiserror::Error;

/// Why a text isn't a table of measured profiles. Rows are numbered from 0, behind the header.
#[derive(Clone, Copy, Debug, PartialEq, Eq, Error)]
pub enum MeasuredRefusal {
    /// The first row isn't `profile,second,mode,travel`, or there is none.
    #[error("the header isn't profile,second,mode,travel")]
    Header,
    /// A row that doesn't have 4 fields.
    #[error("row {row} doesn't have 4 fields")]
    Fields { row: u32 },
    /// A row whose profile, second or travel isn't a number word.
    #[error("row {row} has a field that isn't a number")]
    Number { row: u32 },
    /// A row whose profile is neither that of the row before nor the next one; the first row's is 0.
    #[error("row {row} is of a profile out of sequence")]
    Sequence { row: u32 },
    /// The row of profile 49,710, or row 4,294,967,295, which has no other check.
    #[error("row {row} is one too many")]
    TooMany { row: u32 },
    /// The first row of a profile whose mode is neither `line` nor `step`.
    #[error("the mode of row {row} is neither line nor step")]
    Mode { row: u32 },
    /// The first row of a profile whose second is above 86,399, or its travel time above 604,800.
    #[error("row {row} is past a limit")]
    Limit { row: u32 },
    /// The first row of a profile, where its second isn't 0.
    #[error("row {row} is the first of its profile and not at second 0")]
    Start { row: u32 },
    /// The first row of a profile whose second isn't above that of the row before.
    #[error("row {row} isn't at a later second than the one before")]
    Rising { row: u32 },
    /// Memory ran out. Nothing is known of the text.
    #[error("out of memory")]
    NoMemory,
}

impl From<NoMemory> for MeasuredRefusal {
    ghost from_gives = { λ _ e. e ≡ refusal.NoMemory };

    fn from(_error: NoMemory) -> MeasuredRefusal {
        MeasuredRefusal::NoMemory
    }
}
