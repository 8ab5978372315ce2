//! Ways of a shortcut, and lists of them by the second of the day.

ghost use Rattle.std.specs.Prelude.{◌≡◌, ◌≤◌, ◌<◌, ◌↔◌, All, ℕ, IsTrue, true, false, length, nat_le};
ghost use Rattle.std.specs.List.{AllAdjacentBelow};
ghost use Rattle.std.specs.List.Sorted.{IsNonDecreasingBy, IsPartitionPoint};
ghost use Rattle.cu_model.specs.Days.{day};
ghost use Rattle.cu_interval.specs.declared.ways.Entry.{Entry};
ghost use Rattle.cu_interval.specs.Steps.Kept.{kept_entries};
ghost use Rattle.cu_interval.specs.WayLists.{BeginsAtZero, FindsWayList, IsWayList, Turns, way_at, way_in};

use cu_model::DAY;
use std::marker::Model;
use std::slice;

/// A direction of an edge: up from its lower rank to its higher, or down.
#[derive(Clone, Copy, Debug, PartialEq, Eq)]
pub enum Dir {
    Up,
    Down,
}

/// A way of a shortcut: over one road, by its number, or by a middle node, by its rank.
#[derive(Clone, Copy, Debug, PartialEq, Eq)]
pub enum Way {
    Road(u32),
    Via(u32),
}

/// A way and the second of the day from which on it is taken.
#[derive(Clone, Copy, Debug, PartialEq, Eq)]
pub struct Entry {
    pub from: u32,
    pub way: Way,
}

/// A list of ways: empty, or from second 0 on, each entry from a later second than the one before and with another way.
#[derive(Drop)]
pub struct WayList {
    kept: Kept,
}

// The entries of a list. One alone, as most lists have, needs no vector.
#[derive(Drop)]
enum Kept {
    One(Entry),
    Many(Vec<Entry>),
}

impl Model for WayList {
    ghost use Rattle.std.specs.Prelude.{List};
    ghost use Rattle.cu_interval.specs.declared.ways.Entry.{Entry};
    ghost use Rattle.cu_interval.specs.Steps.Kept.{kept_entries};
    ghost use Rattle.cu_interval.specs.WayLists.{IsWayList};

    ghost Value = { List Entry };

    ghost view = { λ list. kept_entries list.kept };

    ghost invariant = { λ list. IsWayList (kept_entries list.kept) };
}

/// An edge and its lists after an edit.
#[derive(Drop)]
pub struct TouchedEdge {
    pub edge: u32,
    pub up: WayList,
    pub down: WayList,
}

impl WayList {
    /// The list of these entries. None exactly where they aren't a way list. Takes no memory.
    pub fn of(entries: Vec<Entry>) -> Option<WayList>
        ensures { FindsWayList entries.items result }
    {
        if !is_way_list(&entries) {
            return None;
        }
        Some(WayList {
            kept: keep(entries),
        })
    }

    /// Its entries, by rising second, the first from second 0: at most 86,400.
    pub fn entries(&self) -> &[Entry]
        ensures all { result.now ≡ self.now }
        ensures valid { IsWayList self.now }
        ensures few { length result.now ≤ DAY }
    {
        match &self.kept {
            Kept::One(entry) => slice::from_ref(entry),
            Kept::Many(entries) => entries,
        }
    }

    /// The way of the last entry that has begun by this second's second of the day. None exactly where the list is empty.
    pub fn at(&self, second: u64) -> Option<Way>
        ensures { result ≡ way_at self.now second }
    {
        way_begun(self.entries(), (second % u64::from(DAY)) as u32)
    }
}

// Keeps one entry alone without its vector.
fn keep(entries: Vec<Entry>) -> Kept
    ensures { kept_entries result ≡ entries.items }
{
    if let [entry] = entries.as_slice() {
        return Kept::One(*entry);
    }
    Kept::Many(entries)
}

// The way of the last entry that has begun by this second of the day.
fn way_begun(entries: &[Entry], time: u32) -> Option<Way>
    requires { IsWayList entries.now }
    ensures { result ≡ way_in entries.now time }
{
    if entries.is_empty() {
        return None;
    }
    Some(entries[begun(entries, time) - 1].way)
}

// How many entries are from this second of the day or before it.
fn begun(entries: &[Entry], time: u32) -> usize
    requires { IsNonDecreasingBy (λ (e : Entry). e.from) entries.now }
    ensures bound { result ≤ length entries.now }
    ensures point { IsPartitionPoint
        (λ (e : Entry). nat_le e.from time ≡ true)
        (λ (e : Entry). nat_le e.from time ≡ false)
        entries.now result }
{
    entries.partition_point(|entry| entry.from <= time)
}

// Whether these entries are a way list.
fn is_way_list(entries: &[Entry]) -> bool
    ensures { IsTrue result ↔ IsWayList entries.now }
{
    begins(entries) && within(entries) && turning(entries)
}

// Whether all entries are from a second of the day.
fn within(entries: &[Entry]) -> bool
    ensures { IsTrue result ↔ All (λ (e : Entry). e.from < day) entries.now }
{
    entries.iter().all(|entry| entry.from < DAY)
}

// Whether each entry is followed by a later one with another way.
fn turning(entries: &[Entry]) -> bool
    ensures { IsTrue result ↔ AllAdjacentBelow Turns entries.now (length entries.now) }
{
    for index in 1..entries.len() {
        if !turns(&entries[index - 1], &entries[index]) {
            return false;
        }
    }
    true
}

// Whether a list that isn't empty begins at second 0.
fn begins(entries: &[Entry]) -> bool
    ensures { IsTrue result ↔ BeginsAtZero entries.now }
{
    match entries.first() {
        Some(entry) => entry.from == 0,
        None => true,
    }
}

// Whether the next entry begins later, with another way.
fn turns(entry: &Entry, next: &Entry) -> bool
    ensures { IsTrue result ↔ Turns entry.now next.now }
{
    entry.from < next.from && entry.way != next.way
}
