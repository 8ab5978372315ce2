//! Where the sections of a packed file lie.

ghost use Rattle.std.specs.Prelude.{◌≡◌};
ghost use Rattle.cu_pack.specs.Layouts.{AreInLimits, bounds_length, layout_of};

/// The version of a packed file, and how many of each it has.
#[derive(Clone, Copy, PartialEq, Eq)]
pub struct Counts {
    /// The version, 1 or 2: the second keeps the least bounds too.
    pub version: u32,
    pub nodes: u32,
    pub arcs: u32,
    pub profiles: u32,
    pub edges: u32,
    /// The pieces of all profiles.
    pub pieces: u64,
    /// The entries of all way lists.
    pub entries: u64,
}

/// Where each section of a packed file starts, in bytes from its begin. They follow each other without gaps, in this
/// order, behind a header of 52 bytes; behind the last one stand the 32 bytes of the digest. All numbers are
/// little-endian: of 4 bytes, but of 8 in the bounds and in both sections of starts whose entries may be many.
#[derive(Clone, Copy, PartialEq, Eq)]
pub struct Layout {
    /// The node at each rank: 4 bytes each.
    pub node_at: u64,
    /// The rank of each node: 4 bytes each.
    pub rank_of: u64,
    /// Each road's tail, head and profile: 12 bytes each.
    pub arcs: u64,
    /// For each profile how many pieces are before it, and at last how many in all: 8 bytes each.
    pub profile_starts: u64,
    /// Each piece's second, kind and value: 12 bytes each. Kind 0 is a travel, 1 an arrival, 2 closed.
    pub pieces: u64,
    /// For each rank how many edges are before it, and at last how many in all: 4 bytes each.
    pub edge_starts: u64,
    /// The higher rank of each edge: 4 bytes each.
    pub uppers: u64,
    /// For each way list how many entries are before it, and at last how many in all: 8 bytes each.
    pub way_starts: u64,
    /// Each entry's second, kind and number: 12 bytes each. Kind 0 is a road, 1 a middle.
    pub entries: u64,
    /// Each way list's least bound: 8 bytes each. The first version doesn't keep them.
    pub bounds: u64,
    /// The digest, SHA-256 of all bytes before it.
    pub digest: u64,
    /// The bytes of the whole file.
    pub length: u64,
}

impl Layout {
    /// The layout of a file with so many of each, none past its limit.
    pub fn of(counts: &Counts) -> Layout
        requires limits { AreInLimits counts.now }
        ensures layout { result ≡ layout_of counts.now }
    {
        let node_at = 52;
        let rank_of = node_at + 4 * u64::from(counts.nodes);
        let arcs = rank_of + 4 * u64::from(counts.nodes);
        let profile_starts = arcs + 12 * u64::from(counts.arcs);
        let pieces = profile_starts + 8 * (u64::from(counts.profiles) + 1);
        let edge_starts = pieces + 12 * counts.pieces;
        let uppers = edge_starts + 4 * (u64::from(counts.nodes) + 1);
        let way_starts = uppers + 4 * u64::from(counts.edges);
        let entries = way_starts + 8 * (2 * u64::from(counts.edges) + 1);
        let bounds = entries + 12 * counts.entries;
        let digest = bounds + bounds_length(counts);
        Layout {
            node_at,
            rank_of,
            arcs,
            profile_starts,
            pieces,
            edge_starts,
            uppers,
            way_starts,
            entries,
            bounds,
            digest,
            length: digest + 32,
        }
    }
}

// How many bytes the least bounds of all lists have.
fn bounds_length(counts: &Counts) -> u64
    ensures { result ≡ bounds_length counts.now }
{
    if counts.version == 2 {
        16 * u64::from(counts.edges)
    } else {
        0
    }
}
