//! What is known of the lists of a held file beside its bytes, made while queries are answered.

ghost use Rattle.std.specs.Prelude.{◌≡◌, ◌≤◌, ◌<◌, ◌+◌, ◌*◌, ◌/◌, ℕ, All, IfOk, List, None, length, map};
ghost use Rattle.cu_model.specs.declared.roads.Edit.{Edit};
ghost use Rattle.cu_interval.specs.declared.ways.TouchedEdge.{TouchedEdge};
ghost use Rattle.cu_interval.specs.Hierarchies.{HierarchyValue, IsHierarchy};
ghost use Rattle.cu_resettled.specs.ResettlingAll.{IsResettledAll, NumbersTouchedBySome};
ghost use Rattle.cu_short.specs.Shortness.{NeverLong};
ghost use Rattle.cu_sequences.specs.Kept.{AreSequences};
ghost use Rattle.cu_router.specs.Lists.{FitsLists};

use crate::held_file::HeldFile;
use crate::list_room::ListRoom;
use cu_filling::{Scratch, make_list};
use cu_interval::{Dir, Shortcut, TouchedEdge, Ways};
use cu_model::NoMemory;
use cu_pack::PackedView;
use cu_sequences::Sequences;
use cu_store::Store;
use cu_store_edits::forget_edges;
use std::alloc::Global;

// How many queries are answered before anything is made: whoever asks no more waits for nothing.
const QUERIES_BEFORE: u32 = 1_000;

// How many bytes an edge the rows of its two lists and their roads take, beside the runs of their functions.
const EDGE_BYTES: u64 = 32 + 72;

// How many runs are put together behind a query for each of its relaxations: in about as long as the query took.
const RUNS_ASKED: u64 = 21;

/// The functions of lists, and the roads of those that have the same ones at every second, as far as they are made: by rising number,
/// up to the list that is next. What is known is so of the hierarchy that is held.
#[derive(Drop)]
pub struct KnownLists {
    pub(crate) store: Store,
    pub(crate) sequences: Sequences,
    scratch: Scratch,
    next: u32,
    // How many queries were answered, up to those before which nothing is made.
    answered: u32,
}

impl KnownLists {
    /// Room for the lists of a held file, of which nothing is known yet: four bytes for runs for each of the file's, and 104 for each
    /// edge, or as much of it as may be taken. Where that is no more than the 104 there is none, and nothing is ever made. The system
    /// gives it as it is written. Where it is refused, beside eight bytes more for each of the file's that are left free for edits and
    /// days, it is half of that, and so on.
    pub fn new(alloc: Global, held: &HeldFile, room: ListRoom) -> Result<KnownLists, NoMemory>
        ensures { IfOk result (FitsLists held.now) }
    {
        let edges = held.view().edges();
        let scratch = Scratch::new(alloc)?;
        let runs = runs_within(room, edges, held.size());
        let store = store_of(alloc, 2 * edges as usize, held.size(), runs);
        let sequences = sequences_of(alloc, edges, store.room());
        Ok(KnownLists {
            store,
            sequences,
            scratch,
            next: 0,
            answered: 0,
        })
    }

    /// Makes what is next, behind a query that asked so many relaxations, in about the time that these took. Behind the first
    /// queries, and where walks may be too long, nothing is made. Takes no memory.
    pub fn go_on(&mut self, held: &HeldFile, asked: u32)
        requires fits { FitsLists held.now self.old }
        ensures fits { FitsLists held.now self.new }
    {
        if self.answered < QUERIES_BEFORE {
            self.answered += 1;
            return;
        }
        if held.is_led() && self.store.room() > 0 {
            self.make_some(&held.view(), RUNS_ASKED * u64::from(asked));
        }
    }

    // Makes what is next, until so many runs were put together.
    fn make_some(&mut self, view: &PackedView<'_>, most: u64)
        requires sound { IsHierarchy view.now }
        requires never { NeverLong view.now }
        requires room { 0 < self.old.store.room }
        requires fits { FitsLists view.now self.old }
        ensures fits { FitsLists view.now self.new }
    {
        let mut work = 0;
        'lists: for number in self.next..2 * view.edges() {
            if work >= most {
                return;
            }
            self.make(view, shortcut_of(number));
            work = self.scratch.work_behind(work);
            self.next = number + 1;
        }
    }

    // Makes what can be made of a list.
    fn make(&mut self, view: &PackedView<'_>, shortcut: Shortcut)
        requires sound { IsHierarchy view.now }
        requires never { NeverLong view.now }
        requires edge { shortcut.edge < length view.now.edges }
        requires room { 0 < self.old.store.room }
        requires fits { FitsLists view.now self.old }
        ensures room { self.new.store.room ≡ self.old.store.room }
        ensures fits { FitsLists view.now self.new }
    {
        match make_list(view, &mut self.store, &mut self.scratch, shortcut) {
            Ok(_) => {}
            Err(_) => {}
        }
        self.sequences.make(view, shortcut);
    }

    /// Forgets what edits touch: what is left is so of the hierarchy that they leave, and making goes on from the lowest of these
    /// lists. Where little room is left all is forgotten. Takes no memory.
    pub fn forget(&mut self, lists: &[TouchedEdge])
        requires edges { All
            (λ (touched : TouchedEdge). 2 * touched.edge + 1 < length self.old.store.known)
            lists.now }
        ensures { (old new : HierarchyValue) (edits : List Edit) → IsHierarchy old
            → IsResettledAll old edits new → FitsLists old self.old
            → NumbersTouchedBySome old edits
            (map (λ (touched : TouchedEdge). touched.edge) lists.now)
            → FitsLists new self.new }
    {
        if self.is_nearly_full() {
            self.clear();
            return;
        }
        forget_edges(&mut self.store, lists);
        self.sequences.forget(lists);
        self.next = lowest(lists, self.next);
    }

    // Whether less than a sixteenth of the room for runs or for roads is left.
    fn is_nearly_full(&self) -> bool {
        self.store.is_nearly_full() || self.sequences.is_nearly_full()
    }

    /// Forgets all that is known. Takes no memory.
    pub fn clear(&mut self)
        ensures { (h : HierarchyValue) → length self.old.store.known ≡ 2 * length h.edges
            → FitsLists h self.new }
    {
        self.store.clear();
        self.sequences.clear();
        self.next = 0;
    }
}

// For how many runs there may be room over so many edges and a file of so many bytes: one for each of these, or as many as fit beside
// rows and roads. None where those alone are too much.
fn runs_within(room: ListRoom, edges: u32, bytes: usize) -> u32 {
    match room.beside(EDGE_BYTES * u64::from(edges)) {
        Some(left) => (bytes as u64).min(left / 4).min(4_000_000_000) as u32,
        None => 0,
    }
}

// A store for so many lists, with room for so many runs, or for as many as are had beside what edits and days of a file of so many
// bytes may need.
fn store_of(alloc: Global, lists: usize, bytes: usize, runs: u32) -> Store
    ensures lists { length result.known ≡ lists }
    ensures unknown { All (λ known. known ≡ None) result.known }
{
    if runs == 0 {
        return Store::without_room(alloc, lists);
    }
    let Ok(_left_free) = left_free(alloc, bytes) else {
        return Store::without_room(alloc, lists);
    };
    let mut room = runs;
    'rooms: for _ in 0..32u32 {
        if let Ok(store) = Store::new(alloc, lists, room) {
            return store;
        }
        room /= 2;
    }
    Store::without_room(alloc, lists)
}

// Room for the roads of the lists of so many edges, where there is some for so many runs: else it would be taken from edits and days.
fn sequences_of(alloc: Global, edges: u32, runs: usize) -> Sequences
    ensures { (h : HierarchyValue) → AreSequences h result }
{
    if runs == 0 {
        return Sequences::none(alloc);
    }
    Sequences::with_room(alloc, edges)
}

// What is left to edits and days of a file of so many bytes, eight bytes for each: held only while other room is taken.
fn left_free(alloc: Global, bytes: usize) -> Result<Vec<u64>, NoMemory> {
    Ok(Vec::with_capacity(alloc, bytes)?)
}

// The shortcut whose list has this number.
fn shortcut_of(number: u32) -> Shortcut
    ensures { result.edge ≡ number / 2 }
{
    let dir = if number % 2 == 0 { Dir::Up } else { Dir::Down };
    Shortcut {
        edge: number / 2,
        dir,
    }
}

// The lowest number of a list of these edges, or this one.
fn lowest(lists: &[TouchedEdge], next: u32) -> u32 {
    match lists.first() {
        Some(touched) => next.min(touched.edge.saturating_mul(2)),
        None => next,
    }
}
