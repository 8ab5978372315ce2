//! The functions of lists, made by those of their halves.

ghost use Rattle.std.specs.Prelude.{◌≡◌, ◌≢◌, ◌≤◌, ◌<◌, ◌+◌, ◌*◌, ℕ, [], IfOk, None, OnErr, Some, false, true, length, slice_set};
ghost use Rattle.cu_model.specs.declared.limits.TheConstants.{DAY};
ghost use Rattle.cu_model.specs.Days.{day};
ghost use Rattle.cu_interval.specs.Hierarchies.{IsHierarchy};
ghost use Rattle.cu_interval.specs.Shortcuts.{number_of, ways_of};
ghost use Rattle.cu_short.specs.Shortness.{NeverLong};
ghost use Rattle.cu_store.specs.Known.{Knows};
ghost use Rattle.cu_filling.specs.Filling.{HasLackingWay, IsDrivenBy, IsMade, IsSomething, LacksHalf, IsWayOf, SaysUpTo, SaysWhole, begin_at, list_drive};

use crate::linking::add_linked;
use crate::stretches::{add_runs, is_function};
use cu_interval::{Entry, Shortcut, Way, Ways, halves};
use cu_model::{DAY, NoMemory};
use cu_runs::{PackedRun, put_road};
use cu_store::{Found, Store};
use std::alloc::Global;

/// What making a list came to: something is known of it; or nothing, since a half of a way of it has no function that is known,
/// since a later departure arrives earlier along it, or since there is no room for its runs.
#[derive(Clone, Copy, PartialEq, Eq)]
pub enum Made {
    Known,
    NoHalf,
    OutOfOrder,
    NoRoom,
}

// The most runs of a function that is kept, so that it can be a half of others in the room that there is.
const MOST_RUNS: usize = 16_384;

// Room for the runs of two such functions linked, or of a road.
const LINKED_RUNS: usize = 90_000;

/// Functions in work, as packed runs, with all the room that they may take.
#[derive(Drop)]
pub struct Scratch {
    road: Vec<PackedRun>,
    whole: Vec<PackedRun>,
}

impl Scratch {
    /// Empty ones.
    pub fn new(alloc: Global) -> Result<Scratch, NoMemory> {
        Ok(Scratch {
            road: Vec::with_capacity(alloc, LINKED_RUNS)?,
            whole: Vec::with_capacity(alloc, MOST_RUNS + LINKED_RUNS)?,
        })
    }

    /// About how much work was done with the last list, behind so much before: as many runs as were put together, and twelve
    /// beside.
    pub fn work_behind(&self, before: u64) -> u64 {
        before
            .saturating_add(self.whole.len() as u64)
            .saturating_add(12)
    }
}

// Refused where these are more runs than a function that is kept has.
fn check_few(runs: &[PackedRun]) -> Result<(), NoMemory> {
    if runs.len() > MOST_RUNS {
        return Err(NoMemory);
    }
    Ok(())
}

// Adds what an entry's way of a shortcut drives, from the entry's second until another, to what is put together. False, and all as
// it was, where no function of a half is known.
fn add_way<W: Ways>(
    ways: &W,
    store: &Store,
    scratch: &mut Scratch,
    shortcut: Shortcut,
    entry: Entry,
    until: u64,
) -> Result<bool, NoMemory>
    requires sound { IsHierarchy (W.hierarchy ways.now) }
    requires size { length store.now.known ≡ 2 * length (W.hierarchy ways.now).edges }
    requires knows { Knows (W.hierarchy ways.now) store.now.known }
    requires way { IsWayOf (W.hierarchy ways.now) shortcut entry.way }
    requires some { entry.from < until }
    requires in_day { until ≤ DAY }
    ensures says { IfOk result (λ is_known. is_known ≡ true → (f : ℕ → ℕ)
        → IsDrivenBy (W.hierarchy ways.now) shortcut entry.way entry.from until f
        → SaysUpTo f scratch.old.whole.items entry.from → SaysUpTo f scratch.new.whole.items until) }
    ensures lacks { IfOk result (λ is_known. is_known ≡ false
        → LacksHalf (W.hierarchy ways.now) store.now.known shortcut entry.way) }
{
    let from = u64::from(entry.from);
    match entry.way {
        Way::Road(road) => {
            put_road(ways, road, &mut scratch.road)?;
            add_runs(&scratch.road, from, until, &mut scratch.whole)?;
            Ok(true)
        }
        Way::Via(middle) => {
            let (first, second) = halves(ways, shortcut, middle);
            let Some(to) = store.brief(first.list()) else {
                return Ok(false);
            };
            let Some(on) = store.brief(second.list()) else {
                return Ok(false);
            };
            add_linked(&to, &on, from, until, &mut scratch.whole)?;
            Ok(true)
        }
    }
}

// The second of the day before which an entry of a shortcut's list holds.
fn end_of_entry<W: Ways>(ways: &W, shortcut: Shortcut, index: u32) -> u64
    requires edge { shortcut.edge < length (W.hierarchy ways.now).edges }
    requires index { index < length (ways_of (W.hierarchy ways.now) shortcut) }
    ensures { result ≡ begin_at (ways_of (W.hierarchy ways.now) shortcut) (index + 1) }
{
    let count = ways.entries(shortcut.edge, shortcut.dir);
    if index + 1 == count {
        return u64::from(DAY);
    }
    u64::from(ways.entry(shortcut.edge, shortcut.dir, index + 1).from)
}

// Puts the function of a shortcut together along its list's entries, but for the run that ends it. False where no function of
// a half is known.
fn put_together<W: Ways>(
    ways: &W,
    store: &Store,
    scratch: &mut Scratch,
    shortcut: Shortcut,
) -> Result<bool, NoMemory>
    requires sound { IsHierarchy (W.hierarchy ways.now) }
    requires never { NeverLong (W.hierarchy ways.now) }
    requires edge { shortcut.edge < length (W.hierarchy ways.now).edges }
    requires some { ways_of (W.hierarchy ways.now) shortcut ≢ [] }
    requires size { length store.now.known ≡ 2 * length (W.hierarchy ways.now).edges }
    requires knows { Knows (W.hierarchy ways.now) store.now.known }
    requires empty { scratch.old.whole.items ≡ [] }
    ensures says { IfOk result (λ is_known. is_known ≡ true
        → SaysUpTo (list_drive (W.hierarchy ways.now) shortcut.edge shortcut.dir) scratch.new.whole.items day) }
    ensures lacks { IfOk result (λ is_known. is_known ≡ false
        → HasLackingWay (W.hierarchy ways.now) store.now.known shortcut) }
{
    'entries: for index in 0..ways.entries(shortcut.edge, shortcut.dir) {
        let entry = ways.entry(shortcut.edge, shortcut.dir, index);
        let until = end_of_entry(ways, shortcut, index);
        check_few(&scratch.whole)?;
        if !add_way(ways, store, scratch, shortcut, entry, until)? {
            return Ok(false);
        }
    }
    Ok(true)
}

/// Makes the function of a shortcut's list of which nothing is known, where it can be made and put. Refused where it would want more
/// room for its work than there is, and then all is as it was. Takes no memory.
pub fn make_list<W: Ways>(
    ways: &W,
    store: &mut Store,
    scratch: &mut Scratch,
    shortcut: Shortcut,
) -> Result<Made, NoMemory>
    requires sound { IsHierarchy (W.hierarchy ways.now) }
    requires never { NeverLong (W.hierarchy ways.now) }
    requires edge { shortcut.edge < length (W.hierarchy ways.now).edges }
    requires size { length store.old.known ≡ 2 * length (W.hierarchy ways.now).edges }
    requires knows { Knows (W.hierarchy ways.now) store.old.known }
    requires room { 0 < store.old.room }
    ensures size { length store.new.known ≡ length store.old.known }
    ensures room { store.new.room ≡ store.old.room }
    ensures knows { Knows (W.hierarchy ways.now) store.new.known }
    ensures made { IfOk result (IsMade (W.hierarchy ways.now) shortcut store.old store.new) }
    ensures err { OnErr result (store.new ≡ store.old) }
{
    scratch.whole.clear();
    if is_known(store, shortcut) {
        return Ok(Made::Known);
    }
    if ways.entries(shortcut.edge, shortcut.dir) == 0 {
        put_none(store, shortcut);
        return Ok(Made::Known);
    }
    if !put_together(ways, store, scratch, shortcut)? {
        return Ok(Made::NoHalf);
    }
    check_few(&scratch.whole)?;
    scratch.whole.push(PackedRun::end())?;
    let made = put_whole(ways, store, &scratch.whole, shortcut);
    Ok(made)
}

// Whether anything is known of a shortcut's list.
fn is_known(store: &Store, shortcut: Shortcut) -> bool
    requires { number_of shortcut < length store.now.known }
    ensures { result ≡ true → IsSomething store.now.known shortcut }
{
    match store.value(shortcut.list(), 0) {
        Found::Unknown => false,
        _ => true,
    }
}

// A shortcut's list is known to be empty.
fn put_none(store: &mut Store, shortcut: Shortcut)
    requires list { number_of shortcut < length store.old.known }
    requires room { 0 < store.old.room }
    ensures puts { store.new ≡ record store.old { known = slice_set store.old.known (number_of shortcut) (Some None) } }
    ensures known { IsSomething store.new.known shortcut }
{
    store.put_empty(shortcut.list());
}

// Puts the function of a shortcut's list, where no later departure arrives earlier.
fn put_whole<W: Ways>(ways: &W, store: &mut Store, whole: &[PackedRun], shortcut: Shortcut) -> Made
    requires sound { IsHierarchy (W.hierarchy ways.now) }
    requires never { NeverLong (W.hierarchy ways.now) }
    requires edge { shortcut.edge < length (W.hierarchy ways.now).edges }
    requires some { ways_of (W.hierarchy ways.now) shortcut ≢ [] }
    requires whole { SaysWhole (W.hierarchy ways.now) shortcut whole.now }
    requires size { length store.old.known ≡ 2 * length (W.hierarchy ways.now).edges }
    requires knows { Knows (W.hierarchy ways.now) store.old.known }
    requires room { 0 < store.old.room }
    ensures size { length store.new.known ≡ length store.old.known }
    ensures room { store.new.room ≡ store.old.room }
    ensures knows { Knows (W.hierarchy ways.now) store.new.known }
    ensures made { IsMade (W.hierarchy ways.now) shortcut store.old store.new result }
{
    if !is_function(whole) {
        return Made::OutOfOrder;
    }
    if store.put(shortcut.list(), whole) {
        Made::Known
    } else {
        Made::NoRoom
    }
}
