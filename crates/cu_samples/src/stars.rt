//! Stars, whose middle has the lowest rank, so that all leaves are joined to one another.

use crate::tables::Tables;
use cu_model::NoMemory;
use std::alloc::Global;

/// The tables of a star: roads from node 0 to each leaf and back, of the first profile. The roads of leaf i are 2i - 2, to it, and
/// 2i - 1, from it. Each node is its own rank.
#[derive(Drop)]
pub struct Star {
    nodes: String,
    roads: String,
    ranks: String,
}

impl Star {
    /// The star with so many leaves.
    pub fn of(alloc: Global, leaves: u16) -> Result<Star, NoMemory> {
        let mut nodes = String::from_str(alloc, "node,x,y\n0,0,0\n")?;
        let mut roads = String::from_str(alloc, "arc,tail,head,profile\n")?;
        let mut ranks = String::from_str(alloc, "0\n")?;
        for number in 0..u32::from(leaves) {
            let leaf = number + 1;
            let (to, from) = (2 * number, 2 * number + 1);
            nodes.push_str(format!(in alloc; "{leaf},0,0\n")?.as_str())?;
            roads.push_str(format!(in alloc; "{to},0,{leaf},0\n{from},{leaf},0,0\n")?.as_str())?;
            ranks.push_str(format!(in alloc; "{leaf}\n")?.as_str())?;
        }
        Ok(Star {
            nodes,
            roads,
            ranks,
        })
    }

    /// Its tables, with these profiles.
    pub fn tables<'a>(&'a self, profiles: &'a [u8]) -> Tables<'a> {
        Tables {
            nodes: self.nodes.as_bytes(),
            roads: self.roads.as_bytes(),
            profiles,
            ranks: self.ranks.as_bytes(),
        }
    }
}
