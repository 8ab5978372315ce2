//! Parts of a packed file as they lie, to be copied.

ghost use Rattle.std.specs.Prelude.{◌≡◌, ◌≤◌, ◌*◌, length, slice_range, suc, take};
ghost use Rattle.std.specs.List.{flat_map};
ghost use Rattle.cu_interval.specs.Hierarchies.{IsHierarchy};
ghost use Rattle.cu_pack.specs.Spelling.{edges_section, entry_bytes, long, order_section, starts_from, total};

use crate::view::PackedView;

impl<'a> PackedView<'a> {
    /// The node at each rank, and the rank of each node.
    pub(crate) fn order_part(&self) -> &'a [u8]
        ensures part { result.now ≡ order_section self.now }
    {
        let layout = self.sections.layout();
        self.sections.between(layout.node_at, layout.arcs)
    }

    /// How many edges are before each rank, and in all; and the higher rank of each.
    pub(crate) fn edges_part(&self) -> &'a [u8]
        ensures part { result.now ≡ edges_section self.now }
    {
        let layout = self.sections.layout();
        self.sections.between(layout.edge_starts, layout.way_starts)
    }

    /// How many entries are before a way list; at the number of lists, how many there are in all.
    pub(crate) fn way_start(&self, list: u32) -> u64
        requires inside { list ≤ length self.now.lists }
        ensures start { result ≡ total (take list self.now.lists) }
        ensures sound { IsHierarchy self.now }
    {
        self.sections.way_start(list)
    }

    /// How many entries are before each way list, from one on, up to another.
    pub(crate) fn way_starts_part(&self, start: u32, end: u32) -> &'a [u8]
        requires order { start ≤ end }
        requires inside { end ≤ suc (length self.now.lists) }
        ensures part { result.now
            ≡ flat_map long (slice_range (starts_from 0 self.now.lists) start end) }
    {
        let starts = self.sections.layout().way_starts;
        self.sections
            .between(starts + 8 * u64::from(start), starts + 8 * u64::from(end))
    }

    /// The entries of the way lists from one on, up to another.
    pub(crate) fn entries_part(&self, start: u32, end: u32) -> &'a [u8]
        requires order { start ≤ end }
        requires inside { end ≤ length self.now.lists }
        ensures part { result.now
            ≡ flat_map (flat_map entry_bytes) (slice_range self.now.lists start end) }
    {
        let entries = self.sections.layout().entries;
        let first = entries + 12 * self.way_start(start);
        self.sections
            .between(first, entries + 12 * self.way_start(end))
    }
}
