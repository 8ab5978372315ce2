//! The order, the edges and the way lists that the sections of a packed file say.

ghost use Rattle.std.specs.Prelude.{◌≡◌, ◌<◌, length};
ghost use Rattle.cu_interval.specs.Hierarchies.{IsHierarchy, list_of};

use crate::joining::list_number;
use crate::way_slices::WaySlice;
use crate::ways_in_file::WaysInFile;
use cu_chordal::Ends;
use cu_interval::{Dir, Entry, Way, Ways};

impl<'a, 'b> WaysInFile<'a, 'b> {
    /// The way list of an edge in a direction, in the file's bytes.
    pub fn list(&self, edge: u32, dir: Dir) -> WaySlice<'b>
        requires edge { edge < length self.now.edges }
        ensures list { result ≡ list_of self.now edge dir }
        ensures sound { IsHierarchy self.now }
    {
        self.sections.way_list(list_number(edge, dir))
    }
}

impl<'a, 'b> Ways for WaysInFile<'a, 'b> {
    ghost hierarchy = { λ h. h };

    ghost same_network = { λ h i. h.network };

    fn rank(&self, node: u32) -> u32 {
        self.sections.rank_of(node)
    }

    fn node(&self, rank: u32) -> u32 {
        self.sections.node_at(rank)
    }

    fn ranks(&self) -> u32 {
        self.sections.counts().nodes
    }

    fn edges(&self) -> u32 {
        self.sections.counts().edges
    }

    fn ends(&self, edge: u32) -> Ends {
        Ends {
            low: self.sections.low_of(edge),
            high: self.sections.upper(edge),
        }
    }

    fn edge(&self, low: u32, high: u32) -> Option<u32> {
        self.sections.edge(low, high)
    }

    fn way(&self, edge: u32, dir: Dir, second: u64) -> Option<Way> {
        self.list(edge, dir).at(second)
    }

    fn entries(&self, edge: u32, dir: Dir) -> u32 {
        self.list(edge, dir).len()
    }

    fn entry(&self, edge: u32, dir: Dir, index: u32) -> Entry {
        self.list(edge, dir).entry(index)
    }
}
