//! One way more beside a list of ways: the list with the way where it is chosen.

ghost use Rattle.std.specs.Prelude.{◌≡◌, ◌≢◌, ◌<◌, ◌+◌, ◌^◌, ℕ, [], Some, IfOk, length, slice_get};
ghost use Rattle.std.specs.Option.{option_map};
ghost use Rattle.cu_model.specs.declared.limits.TheConstants.{DAY};
ghost use Rattle.cu_arrival.specs.declared.runs.Choice.{Choice};
ghost use Rattle.cu_model.specs.Growing.{IsPushed, last_says};
ghost use Rattle.cu_interval.specs.declared.ways.Entry.{Entry};
ghost use Rattle.cu_interval.specs.WayLists.{IsWayList, way_in};
ghost use Rattle.cu_customize.specs.Steps.Choosing.{AreTurns, IsFront, IsMoved, IsNextFront, begin_or_day, chosen, chosen_by};

use cu_arrival::Choice;
use cu_interval::{Entry, Way, WayList};
use cu_model::{DAY, NoMemory};
use std::alloc::Global;

// A second of the day, and the indices of the entry and the choice that hold at it.
#[derive(Clone, Copy)]
struct Front {
    at: u32,
    entry: usize,
    choice: usize,
}

// Adds an entry, unless the last one's way is the same.
fn push_entry(entries: &mut Vec<Entry>, entry: Entry) -> Result<(), NoMemory>
    ensures { IfOk result
        (λ _. IsPushed (λ (e : Entry). e.way) entries.old.items entry entries.new.items) }
{
    if last_way(entries) == Some(entry.way) {
        return Ok(());
    }
    entries.push(entry)?;
    Ok(())
}

fn last_way(entries: &[Entry]) -> Option<Way>
    ensures { result ≡ last_says (λ (e : Entry). e.way) entries.now }
{
    entries.last().map(|last| last.way)
}

// The second from which the entry with this index holds, or the end of the day where there is none.
fn entry_begin(entries: &[Entry], index: usize) -> u32
    ensures { result
        ≡ begin_or_day (option_map (λ (e : Entry). e.from) (slice_get entries.now index)) }
{
    match entries.get(index) {
        Some(entry) => entry.from,
        None => DAY,
    }
}

// The same of choices.
fn choice_begin(choices: &[Choice], index: usize) -> u32
    ensures { result
        ≡ begin_or_day (option_map (λ (c : Choice). c.from) (slice_get choices.now index)) }
{
    match choices.get(index) {
        Some(choice) => choice.from,
        None => DAY,
    }
}

// The next second at which the entry or the choice turns.
fn advance(entries: &[Entry], choices: &[Choice], front: Front) -> Front
    requires entries { IsWayList entries.now }
    requires choices { AreTurns choices.now }
    requires front { IsFront entries.now choices.now front }
    requires day { front.at < DAY }
    ensures { IsNextFront entries.now choices.now front result }
{
    let entry_end = entry_begin(entries, front.entry + 1);
    let choice_end = choice_begin(choices, front.choice + 1);
    let at = entry_end.min(choice_end);
    Front {
        at,
        entry: moved(entry_end, at, front.entry),
        choice: moved(choice_end, at, front.choice),
    }
}

// The index of the item that holds at a second, where this one's ends at `end`.
fn moved(end: u32, at: u32, index: usize) -> usize
    requires { index + 1 < 2 ^ 64 }
    ensures { IsMoved end at index result }
{
    if at == end { index + 1 } else { index }
}

// The way that is chosen at a front.
fn chosen_way(entries: &[Entry], choices: &[Choice], front: Front, way: Way) -> Way
    requires entry { front.entry < length entries.now }
    requires choice { front.choice < length choices.now }
    ensures { chosen_by (slice_get choices.now front.choice)
        (option_map (λ (e : Entry). e.way) (slice_get entries.now front.entry)) way
        ≡ Some result }
{
    if choices[front.choice].second {
        way
    } else {
        entries[front.entry].way
    }
}

/// The list of these entries, which are a way list.
pub fn list_of(entries: Vec<Entry>) -> WayList
    requires { IsWayList entries.items }
    ensures { result ≡ entries.items }
{
    WayList::of(entries).unwrap()
}

/// The list with a way in it where the choices are the second function's. The list isn't empty.
pub fn choose_ways(
    alloc: Global,
    list: &WayList,
    choices: &[Choice],
    way: Way,
) -> Result<WayList, NoMemory>
    requires some { list.now ≢ [] }
    requires choices { AreTurns choices.now }
    ensures valid { IfOk result IsWayList }
    ensures some { IfOk result (λ merged. merged ≢ []) }
    ensures chosen { IfOk result (λ merged. (t : ℕ) → t < DAY
        → way_in merged t ≡ chosen list.now choices.now way t) }
{
    let entries = list.entries();
    let mut merged = Vec::new(alloc);
    let mut front = Front {
        at: 0,
        entry: 0,
        choice: 0,
    };
    'day: while front.at < DAY {
        let entry = Entry {
            from: front.at,
            way: chosen_way(entries, choices, front, way),
        };
        push_entry(&mut merged, entry)?;
        front = advance(entries, choices, front);
    }
    Ok(list_of(merged))
}
