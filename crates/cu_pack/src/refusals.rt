//! Why bytes are no packed file.

use cu_interval::Dir;
use std::alloc::{AllocError, AllocFailed};
use thiserror::Error;

/// A count of a packed file's header.
#[derive(Clone, Copy, Debug, PartialEq, Eq)]
pub enum Field {
    Nodes,
    Arcs,
    Profiles,
    Edges,
    Pieces,
    Entries,
}

/// The first check that bytes fail, in the order of this list; or memory ran out in the checks.
#[derive(Clone, Copy, Debug, PartialEq, Eq, Error)]
pub enum PackRefusal {
    /// There are fewer than 84 bytes.
    #[error("the file is too short")]
    Short,
    /// The first 8 bytes aren't `CATCHUPH`.
    #[error("not a packed hierarchy")]
    Magic,
    /// The version isn't the one that is wanted: 2 where a file is opened, 1 where it is migrated.
    #[error("version {found} is not known")]
    Version { found: u32 },
    /// The length that the header says isn't the number of bytes.
    #[error("the header says {said} bytes, and there are {found}")]
    Length { said: u64, found: u64 },
    /// The last 32 bytes aren't SHA-256 of those before.
    #[error("the digest is another one")]
    Digest,
    /// A count is past its limit.
    #[error("a count is past its limit")]
    Limit { field: Field },
    /// The counts ask for another number of bytes.
    #[error("the counts ask for {counted} bytes, and there are {found}")]
    Size { counted: u64, found: u64 },
    /// The node at this rank is none, or has another rank.
    #[error("rank {rank} is no node's")]
    Order { rank: u32 },
    /// The tail, head or profile of this road isn't there.
    #[error("road {arc} leads nowhere")]
    RoadArc { arc: u32 },
    /// The pieces of this profile are no profile; or, behind the last one, pieces are left.
    #[error("profile {number} is none")]
    Profile { number: u32 },
    /// The edges from this rank upwards aren't those of the network and the order; or, behind the last, edges are left.
    #[error("the edges of rank {rank} are not those of the roads")]
    Graph { rank: u32 },
    /// The ways of this edge in this direction aren't well formed; or, behind the last, entries are left.
    #[error("the ways of edge {edge} are not well formed")]
    Ways { edge: u32, dir: Dir },
    /// The number that is kept for the ways of this edge in this direction isn't their least bound.
    #[error("the least bound of edge {edge} is another one")]
    Bound { edge: u32, dir: Dir },
    /// Memory ran out.
    #[error("out of memory")]
    NoMemory,
}
