ghost use Rattle.std.specs.Prelude.{◌≡◌};
ghost use Rattle.cu_roads.specs.declared.refusals.RoadRefusal.TheVariants as refusal;

use cu_model::NoMemory;
use cu_profile::ProfileRefusal;
use thiserror::Error;

/// A table of a network that isn't the one of its profiles. Of all three the nodes are checked first, then the profiles, and
/// the roads last.
#[derive(Clone, Copy, Debug, PartialEq, Eq)]
pub enum File {
    /// The table `node,x,y`.
    Nodes,
    /// The table `arc,tail,head,profile`.
    Roads,
}

/// Why three texts aren't a network: the first check that fails, of the nodes, then of the profiles, then of the roads. Rows
/// are numbered from 0, behind the header.
#[derive(Clone, Copy, Debug, PartialEq, Eq, Error)]
pub enum RoadRefusal {
    /// The first row isn't the header of the table, or there is none.
    #[error("the header isn't that of the table")]
    Header { file: File },
    /// A row of nodes that doesn't have 3 fields, or one of roads that doesn't have 4.
    #[error("row {row} has another number of fields than the header")]
    Fields { file: File, row: u32 },
    /// A row with a field that isn't a number word, or with an x or y above 1,000,000,000.
    #[error("row {row} has a field that isn't a number in its limit")]
    Number { file: File, row: u32 },
    /// Row 262,144 of the nodes.
    #[error("row {row} is a node too many")]
    TooManyNodes { row: u32 },
    /// Row 1,048,576 of the roads.
    #[error("row {row} is a road too many")]
    TooManyArcs { row: u32 },
    /// A row whose node or road number isn't the number of the row.
    #[error("row {row} has another number")]
    Sequence { file: File, row: u32 },
    /// A road with an end that isn't below the number of nodes.
    #[error("row {row} has an end that is no node")]
    NodeRange { row: u32 },
    /// A road whose profile isn't below the number of profiles.
    #[error("row {row} has a profile that isn't there")]
    ProfileRange { row: u32 },
    /// Why the profiles are refused, but never for want of memory.
    #[error("profiles: {0}")]
    Profiles(ProfileRefusal),
    /// Memory ran out. Nothing is known of the texts.
    #[error("out of memory")]
    NoMemory,
}

impl From<NoMemory> for RoadRefusal {
    ghost from_gives = { λ _ e. e ≡ refusal.NoMemory };

    fn from(_error: NoMemory) -> RoadRefusal {
        RoadRefusal::NoMemory
    }
}
