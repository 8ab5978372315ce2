//! The way lists of a packed file compared with the built ones.

ghost use Rattle.std.specs.Prelude.{◌≡◌, ◌<◌, ◌+◌, ◌*◌, length, slice_get, take};
ghost use Rattle.cu_interval.specs.Hierarchies.{IsBuilt, list_number};
ghost use Rattle.cu_interval.specs.WayLists.{IsWayList};
ghost use Rattle.cu_verify.specs.Verdicts.{IsVerdict, with_lists};
ghost use Rattle.cu_verify.specs.Steps.Comparing.{FindsParting, IsVerdictTo, PartBy, begin_or_day};

use crate::verdicts::Verdict;
use cu_interval::{Dir, Entry, Shortcut, WayList, Ways};
use cu_model::DAY;
use cu_pack::{PackedView, WaySlice};
use cu_progress::{Progress, Stage, Telling};

/// The verdict over a packed file, by the lists that are built of its network and order, by list number. How many edges are
/// compared is told as it goes. Takes no memory.
pub fn compare<P: Progress>(view: &PackedView<'_>, built: &[WayList], progress: &mut P) -> Verdict
    requires built { IsBuilt (with_lists view.now built.now) }
    ensures right { IsVerdict view.now result }
{
    let mut telling = Telling::begin(progress, Stage::Comparing, u64::from(view.edges()));
    for edge in 0..view.edges() {
        match compare_edge(view, built, edge) {
            Verdict::Same => telling.add(1),
            differs => return differs,
        }
    }
    Verdict::Same
}

// Compares both lists of an edge, where all lists before them are the same.
fn compare_edge(view: &PackedView<'_>, built: &[WayList], edge: u32) -> Verdict
    requires edge { edge < length view.now.edges }
    requires built { IsBuilt (with_lists view.now built.now) }
    requires earlier { take (2 * edge) view.now.lists ≡ take (2 * edge) built.now }
    ensures { IsVerdictTo view.now built.now (2 * (edge + 1)) result }
{
    match compare_list(view, built, edge, Dir::Up) {
        Verdict::Same => compare_list(view, built, edge, Dir::Down),
        differs => differs,
    }
}

// Compares the list of an edge in a direction, where all lists before it are the same.
fn compare_list(view: &PackedView<'_>, built: &[WayList], edge: u32, dir: Dir) -> Verdict
    requires edge { edge < length view.now.edges }
    requires built { IsBuilt (with_lists view.now built.now) }
    requires earlier { take (list_number edge dir) view.now.lists
        ≡ take (list_number edge dir) built.now }
    ensures { IsVerdictTo view.now built.now (list_number edge dir + 1) result }
{
    let stored = view.ways(edge, dir);
    let list = list_at(built, edge, dir);
    match parting(&stored, list.entries()) {
        None => Verdict::Same,
        Some(second) => Verdict::Differs {
            edge,
            dir,
            second,
            stored: stored.at(u64::from(second)),
            built: list.at(u64::from(second)),
        },
    }
}

// The list of an edge in a direction.
fn list_at(lists: &[WayList], edge: u32, dir: Dir) -> &WayList
    requires { list_number edge dir < length lists.now }
    ensures { slice_get lists.now (list_number edge dir) ≡ Some result.now }
{
    &lists[Shortcut { edge, dir }.list()]
}

// The first second of the day at which two lists take other ways. None exactly where they are equal.
fn parting(stored: &WaySlice<'_>, built: &[Entry]) -> Option<u32>
    requires { IsWayList built.now }
    ensures { FindsParting stored.now built.now result }
{
    let most = built.len().max(stored.len() as usize);
    for index in 0..most {
        if let Some(second) = parting_by(stored_entry(stored, index), built_entry(built, index)) {
            return Some(second);
        }
    }
    None
}

// The entry of a list with this index, if there is one.
fn built_entry(list: &[Entry], index: usize) -> Option<Entry>
    ensures { result ≡ slice_get list.now index }
{
    list.get(index).copied()
}

// The same of a list in a file.
fn stored_entry(list: &WaySlice<'_>, index: usize) -> Option<Entry>
    ensures { result ≡ slice_get list.now index }
{
    if index < list.len() as usize {
        Some(list.entry(index as u32))
    } else {
        None
    }
}

// When the earlier of two entries begins, where they differ.
fn parting_by(stored: Option<Entry>, built: Option<Entry>) -> Option<u32>
    ensures { PartBy stored built result }
{
    if stored == built {
        return None;
    }
    Some(begin_or_day(stored).min(begin_or_day(built)))
}

// When an entry begins, or the end of the day where there is none.
fn begin_or_day(entry: Option<Entry>) -> u32
    ensures { result ≡ begin_or_day entry }
{
    match entry {
        Some(entry) => entry.from,
        None => DAY,
    }
}
