//! The order of a packed file: each rank has a node, and this node the rank.

ghost use Rattle.std.specs.Prelude.{◌<◌, ◌↔◌, IsTrue};
ghost use Rattle.cu_pack.specs.Checks.{FindsFirst, IsWrongRank};
ghost use Rattle.cu_pack.specs.Reading.{counts_in};

use crate::cutting::Sections;

/// The least rank whose node is none or has another rank.
pub fn wrong_rank(sections: &Sections<'_>) -> Option<u32>
    ensures first { FindsFirst (IsWrongRank sections.now) (counts_in sections.now).nodes result }
{
    for rank in 0..sections.counts().nodes {
        if is_wrong_rank(sections, rank) {
            return Some(rank);
        }
    }
    None
}

fn is_wrong_rank(sections: &Sections<'_>, rank: u32) -> bool
    requires rank { rank < (counts_in sections.now).nodes }
    ensures { IsTrue result ↔ IsWrongRank sections.now rank }
{
    let node = sections.node_at(rank);
    node >= sections.counts().nodes || sections.rank_of(node) != rank
}
