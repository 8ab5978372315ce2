//! How many of each a hierarchy has.

ghost use Rattle.std.specs.Prelude.{◌≡◌, length};
ghost use Rattle.cu_pack.specs.Layouts.{AreInLimits};
ghost use Rattle.cu_pack.specs.Spelling.{counts_of, total};

use crate::layout::Counts;
use cu_interval::{Dir, Hierarchy, Ways};
use cu_model::Roads;

// How many of each there are, for a file of version 2. None is past its limit.
pub fn count(hierarchy: &Hierarchy) -> Counts
    ensures counts { result ≡ counts_of 2 hierarchy.now }
    ensures limits { AreInLimits result }
{
    Counts {
        version: 2,
        nodes: hierarchy.nodes(),
        arcs: hierarchy.arcs(),
        profiles: hierarchy.profiles(),
        edges: hierarchy.edges(),
        pieces: count_pieces(hierarchy.network()),
        entries: count_entries(hierarchy),
    }
}

// How many pieces there are in all.
pub fn count_pieces<R: Roads>(roads: &R) -> u64
    ensures { result ≡ total (R.network roads.now).profiles }
{
    let mut count = 0;
    for profile in 0..roads.profiles() {
        count += u64::from(roads.pieces(profile));
    }
    count
}

fn count_entries(hierarchy: &Hierarchy) -> u64
    ensures { result ≡ total hierarchy.now.lists }
{
    let mut count = 0;
    for edge in 0..hierarchy.edges() {
        let up = u64::from(hierarchy.entries(edge, Dir::Up));
        let down = u64::from(hierarchy.entries(edge, Dir::Down));
        count += up + down;
    }
    count
}
