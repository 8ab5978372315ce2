//! The edges of a file whose graph passed its check, found by their ends, and the numbers of their lists.

ghost use Rattle.std.specs.Prelude.{◌≡◌, ◌≤◌, ◌<◌};
ghost use Rattle.cu_chordal.specs.declared.graph.TheConstants.{MAX_EDGES};
ghost use Rattle.cu_chordal.specs.Graphs.{FindsEdge};
ghost use Rattle.cu_interval.specs.Hierarchies.{list_number};
ghost use Rattle.cu_pack.specs.Checks.{IsGraph};
ghost use Rattle.cu_pack.specs.Reading.{counts_in, decoded, edge_start};
ghost use Rattle.cu_pack.specs.Steps.Cursors.{AreCursors, LeadsUp};

use crate::cutting::Sections;
use cu_chordal::MAX_EDGES;
use cu_interval::{Dir, Shortcut};

impl<'a> Sections<'a> {
    /// The number of the edge between two ranks. None exactly where there is no such edge.
    pub fn edge(&self, low: u32, high: u32) -> Option<u32>
        requires graph { IsGraph self.now }
        requires rank { low < (counts_in self.now).nodes }
        ensures found { FindsEdge (decoded self.now).edges low high result }
    {
        self.edge_between(low, high)
    }

    /// The number of the edge between two ranks, sought with a place of each rank before which its edges lead lower than
    /// to the higher of the two. None exactly where there is no such edge.
    pub fn edge_by(&self, places: &[u32], low: u32, high: u32) -> Option<u32>
        requires graph { IsGraph self.now }
        requires places { AreCursors self.now high places.now }
        requires rank { low < (counts_in self.now).nodes }
        ensures found { FindsEdge (decoded self.now).edges low high result }
    {
        self.edge_behind(low, places[low as usize], high)
    }

    /// Moves a rank's place on to its first edge that leads to this higher rank or beyond.
    pub fn move_on(&self, places: &mut [u32], low: u32, high: u32)
        requires graph { IsGraph self.now }
        requires places { AreCursors self.now high places.old }
        requires rank { low < (counts_in self.now).nodes }
        ensures places { AreCursors self.now high places.new }
    {
        places[low as usize] = self.edge_reaching(low, places[low as usize], high);
    }

    /// The lower rank of an edge, sought by rising rank from one on whose edges begin no later.
    pub fn low_from(&self, first: u32, edge: u32) -> u32
        requires graph { IsGraph self.now }
        requires edge { edge < (counts_in self.now).edges }
        requires first { first ≤ (counts_in self.now).nodes }
        requires begun { edge_start self.now first ≤ edge }
        ensures low { LeadsUp self.now edge result }
        ensures order { first ≤ result }
    {
        for low in first..self.counts().nodes {
            if edge < self.edge_start(low + 1) {
                return low;
            }
        }
        unreachable!()
    }
}

/// The number of an edge's list in a direction.
pub fn list_number(edge: u32, dir: Dir) -> u32
    requires few { edge < MAX_EDGES }
    ensures { result ≡ list_number edge dir }
{
    Shortcut { edge, dir }.list() as u32
}
