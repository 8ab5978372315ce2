//! Grids of roads whose profiles take turns.

use cu_model::NoMemory;
use cu_samples::Tables;
use std::alloc::Global;

// Travel times all day; a morning's rush; a road that is driven at two seconds alone through hours before each; and one that is closed.
const PROFILES: &[u8] =
    b"profile,from,kind,value\n0,0,travel,60\n1,0,travel,100\n1,28800,travel,300\n1,35800,until,36100\n1,36000,travel,100\n2,0,travel,250\n3,0,until,3000\n3,2000,travel,1000\n3,50000,until,52000\n3,51800,travel,200\n4,0,closed,0\n";

/// The tables of a grid five nodes wide: roads both ways between neighbours in a row and in a column, whose profiles take turns. Nodes are
/// numbered row by row, and each is its own rank.
#[derive(Drop)]
pub struct Grid {
    nodes: String,
    roads: String,
    ranks: String,
}

impl Grid {
    /// The grid with so many rows.
    pub fn of(alloc: Global, rows: u16) -> Result<Grid, NoMemory> {
        let mut nodes = String::from_str(alloc, "node,x,y\n")?;
        let mut roads = String::from_str(alloc, "arc,tail,head,profile\n")?;
        let mut ranks = String::new(alloc);
        let mut arc = 0;
        let last = 5 * u32::from(rows);
        for node in 0..last {
            nodes.push_str(format!(in alloc; "{node},0,0\n")?.as_str())?;
            ranks.push_str(format!(in alloc; "{node}\n")?.as_str())?;
            if node % 5 < 4 {
                arc = push_both(alloc, &mut roads, arc, node, node + 1)?;
            }
            if node + 5 < last {
                arc = push_both(alloc, &mut roads, arc, node, node + 5)?;
            }
        }
        Ok(Grid {
            nodes,
            roads,
            ranks,
        })
    }

    /// Its tables.
    pub fn tables(&self) -> Tables<'_> {
        Tables {
            nodes: self.nodes.as_bytes(),
            roads: self.roads.as_bytes(),
            profiles: PROFILES,
            ranks: self.ranks.as_bytes(),
        }
    }
}

// Adds the roads between two nodes, both ways, the first with this number, and answers the number of the next.
fn push_both(
    alloc: Global,
    roads: &mut String,
    arc: u32,
    tail: u32,
    head: u32,
) -> Result<u32, NoMemory> {
    let back = arc.saturating_add(1);
    let (there, home) = (arc % 5, arc / 2 % 4);
    roads.push_str(format!(in alloc;
        "{arc},{tail},{head},{there}\n{back},{head},{tail},{home}\n"
    )?.as_str())?;
    Ok(back.saturating_add(1))
}
