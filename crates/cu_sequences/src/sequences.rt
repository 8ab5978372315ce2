//! The road sequences of a hierarchy's lists, kept by the number of their list.

ghost use Rattle.std.specs.Prelude.{◌≡◌, ◌<◌, ◌↔◌, ℕ, Some, IfSome, IsTrue, length, map, slice_get};
ghost use Rattle.cu_chordal.specs.declared.graph.Ends.{Ends};
ghost use Rattle.cu_interval.specs.declared.ways.Dir.{Dir};
ghost use Rattle.cu_interval.specs.declared.ways.TouchedEdge.{TouchedEdge};
ghost use Rattle.cu_interval.specs.Hierarchies.{HierarchyValue, end_of, list_number, start_of};
ghost use Rattle.cu_sequences.specs.Kept.{AreSequences, AreSequencesBut, HasSequence};
ghost use Rattle.cu_sequences.specs.Sequences.{IsSequence};

use crate::making::{forget_lists, make_list, make_places, start_at};
use crate::putting::roads_from;
use cu_bounds::Searching;
use cu_interval::{Shortcut, TouchedEdge, Ways};
use std::alloc::Global;
use std::marker::Model;

/// The most roads of a sequence that is kept.
pub const MOST_ROADS: u32 = 32;

/// In place of where a list's roads stand, where none are kept.
pub const NO_START: u32 = u32::MAX;

// For how many numbers there is room, for each edge.
const ROOM: usize = 16;

/// The roads of the lists that unpack to the same ones at every second, at most 32 of each, as far as they were made and there is
/// room. Contracts see where each list's roads stand, and what stands there.
#[derive(Drop)]
pub struct Sequences {
    // It grows as lists are made, so that nothing is read of lists before.
    starts: Vec<u32>,
    roads: Vec<u32>,
}

impl Model for Sequences {
    ghost use Rattle.cu_sequences.specs.Kept.{SequencesValue};

    ghost Value = { SequencesValue };

    ghost view = { λ kept. record { starts = kept.starts.items; roads = kept.roads.items } };
}

impl Sequences {
    /// No roads of any list, and no room for some: it fits every hierarchy. Takes no memory.
    pub fn none(alloc: Global) -> Sequences
        ensures { (h : HierarchyValue) → AreSequences h result }
    {
        Sequences {
            starts: Vec::new(alloc),
            roads: Vec::new(alloc),
        }
    }

    /// Room for the sequences of the lists of so many edges, none of which is made yet, so that it fits every hierarchy. It takes 72
    /// bytes an edge, most of which the system gives as they are written; where they are refused there is none.
    pub fn with_room(alloc: Global, edges: u32) -> Sequences
        ensures { (h : HierarchyValue) → AreSequences h result }
    {
        let edges = edges as usize;
        let Ok(starts) = Vec::with_capacity(alloc, 2 * edges) else {
            return Sequences::none(alloc);
        };
        let Ok(roads) = Vec::with_capacity(alloc, ROOM * edges) else {
            return Sequences::none(alloc);
        };
        Sequences { starts, roads }
    }

    /// The roads of a list, where they are kept. Takes no memory.
    #[inline(always)]
    pub fn of_list(&self, list: u32) -> Option<&[u32]>
        ensures { (h : HierarchyValue) (edge : ℕ) (dir : Dir) (ends : Ends) → AreSequences h self.now
            → list ≡ list_number edge dir → slice_get h.edges edge ≡ Some ends
            → IfSome result (λ roads. IsSequence h (start_of ends dir) (end_of ends dir) roads.now) }
    {
        roads_from(&self.roads, start_at(&self.starts, list as usize))
    }

    /// Whether the roads of a list are kept. Takes no memory.
    #[inline(always)]
    pub fn has(&self, list: u32) -> bool
        ensures { IsTrue result ↔ HasSequence self.now list }
    {
        start_at(&self.starts, list as usize) != NO_START
    }

    /// Makes the sequence of a shortcut's list, where its only entry is a road, or both halves of that have one, and there is room.
    /// Takes no memory.
    pub fn make<W: Ways>(&mut self, ways: &W, shortcut: Shortcut)
        requires edge { shortcut.edge < length (W.hierarchy ways.now).edges }
        requires kept { AreSequences (W.hierarchy ways.now) self.old }
        ensures { AreSequences (W.hierarchy ways.now) self.new }
    {
        let finder = &mut Searching { ways };
        make_places(&mut self.starts, shortcut.list());
        make_list(ways, finder, &mut self.starts, &mut self.roads, shortcut);
    }

    /// Forgets the sequences of the lists of some edges: what is left is right where those of all other lists are. Their room isn't
    /// given back. Takes no memory.
    pub fn forget(&mut self, lists: &[TouchedEdge])
        ensures { (h : HierarchyValue) → AreSequencesBut h self.old
            (map (λ (touched : TouchedEdge). touched.edge) lists.now)
            → AreSequences h self.new }
    {
        forget_lists(&mut self.starts, lists);
    }

    /// Forgets all sequences, so that it fits every hierarchy, and gives their room back. Takes no memory.
    pub fn clear(&mut self)
        ensures { (h : HierarchyValue) → AreSequences h self.new }
    {
        self.starts.clear();
        self.roads.clear();
    }

    /// Whether less than a sixteenth of its room is left: it is time to forget all. Takes no memory.
    pub fn is_nearly_full(&self) -> bool {
        let room = self.roads.capacity();
        room - self.roads.len().min(room) < room / ROOM
    }
}
