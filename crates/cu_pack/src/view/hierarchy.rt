//! The order, the edges and the way lists of a packed file.

ghost use Rattle.std.specs.Prelude.{◌≡◌, ◌<◌, length};
ghost use Rattle.cu_interval.specs.Hierarchies.{IsHierarchy, list_of};

use crate::joining::list_number;
use crate::view::PackedView;
use crate::way_slices::WaySlice;
use cu_chordal::Ends;
use cu_interval::{BoundedWays, Dir, Entry, Way, Ways};

impl<'a> PackedView<'a> {
    /// The way list of an edge in a direction, in the file's bytes. The edge's number is below the number of edges.
    /// Takes no memory.
    pub fn ways(&self, edge: u32, dir: Dir) -> WaySlice<'a>
        requires edge { edge < length self.now.edges }
        ensures list { result ≡ list_of self.now edge dir }
        ensures sound { IsHierarchy self.now }
    {
        self.ways_in_file().list(edge, dir)
    }
}

impl<'a> Ways for PackedView<'a> {
    ghost hierarchy = { λ h. h };

    ghost same_network = { λ h i. h.network };

    fn rank(&self, node: u32) -> u32 {
        self.ways_in_file().rank(node)
    }

    fn node(&self, rank: u32) -> u32 {
        self.ways_in_file().node(rank)
    }

    fn ranks(&self) -> u32 {
        self.ways_in_file().ranks()
    }

    fn edges(&self) -> u32 {
        self.ways_in_file().edges()
    }

    fn ends(&self, edge: u32) -> Ends {
        self.ways_in_file().ends(edge)
    }

    fn edge(&self, low: u32, high: u32) -> Option<u32> {
        self.ways_in_file().edge(low, high)
    }

    fn way(&self, edge: u32, dir: Dir, second: u64) -> Option<Way> {
        self.ways_in_file().way(edge, dir, second)
    }

    fn entries(&self, edge: u32, dir: Dir) -> u32 {
        self.ways_in_file().entries(edge, dir)
    }

    fn entry(&self, edge: u32, dir: Dir, index: u32) -> Entry {
        self.ways_in_file().entry(edge, dir, index)
    }
}

impl<'a> BoundedWays for PackedView<'a> {
    fn least(&self, edge: u32, dir: Dir) -> u64 {
        self.sections.bound(list_number(edge, dir))
    }
}
