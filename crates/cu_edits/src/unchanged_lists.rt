//! Lists that an edit leaves as they are, since nothing changed that they are made of.

ghost use Rattle.std.specs.Prelude.{◌≡◌, ◌<◌, ℕ, List, All, IfOk, Some, length, slice_get, true};
ghost use Rattle.cu_resettled.specs.ResettlingAll.{IsChangedBySome};
ghost use Rattle.cu_interval.specs.Hierarchies.{IsWellFormed, end_of, list_number, list_of, start_of};
ghost use Rattle.cu_edits.specs.Steps.Moving.{AreWaysUnmoved, HalvesAre, IsUnmoved, IsUnmovedWay};
ghost use Rattle.cu_edits.specs.Steps.Parts.{TellsLists};

use crate::edit_parts::EditParts;
use crate::moved_lists::MovedLists;
use crate::triangle_halves::are_both_unmoved;
use cu_chordal::Ends;
use cu_interval::{Dir, Entry, Way, WayList, Ways};
use cu_model::NoMemory;
use std::alloc::Global;

/// Is no road of an edge in a direction changed?
pub fn are_roads_unchanged<W: Ways>(parts: &EditParts<'_, W>, edge: u32, dir: Dir) -> bool
    requires edge { edge < length parts.now.graph.edges }
    ensures { result ≡ true → (list : List ℕ)
        → slice_get parts.now.arcs (list_number edge dir) ≡ Some list
        → All (λ a. IsChangedBySome parts.now.before.network parts.now.edit a → ⊥)
        list }
{
    for arc in parts.arcs(edge, dir) {
        if parts.is_changed(*arc) {
            return false;
        }
    }
    true
}

// Are both halves by this middle, if there are such, not moved?
fn is_middle_unmoved<W: Ways>(
    parts: &EditParts<'_, W>,
    moved: &MovedLists,
    ends: Ends,
    dir: Dir,
    middle: u32,
) -> bool
    requires middle { middle < parts.now.graph.ranks }
    requires moved { TellsLists parts.now moved.now }
    ensures { result ≡ true
        → HalvesAre (IsUnmoved moved.now) parts.now.graph.edges ends dir middle }
{
    match parts.find_halves(ends, dir, middle) {
        None => true,
        Some((first, second)) => are_both_unmoved(moved, (first, second)),
    }
}

/// Is each way of an edge in a direction, before the edit, as it was?
pub fn are_ways_unmoved<W: Ways>(
    parts: &EditParts<'_, W>,
    moved: &MovedLists,
    edge: u32,
    dir: Dir,
) -> bool
    requires moved { TellsLists parts.now moved.now }
    requires edge { edge < length parts.now.graph.edges }
    ensures { result ≡ true
        → AreWaysUnmoved parts.now.before parts.now.edit moved.now edge dir }
{
    let ends = parts.ends(edge);
    for index in 0..parts.entries(edge, dir) {
        let entry = parts.entry(edge, dir, index);
        if !is_way_unmoved(parts, moved, ends, dir, entry.way) {
            return false;
        }
    }
    true
}

// Is a way of an edge with these ends as it was?
fn is_way_unmoved<W: Ways>(
    parts: &EditParts<'_, W>,
    moved: &MovedLists,
    ends: Ends,
    dir: Dir,
    way: Way,
) -> bool
    requires formed { IsWellFormed parts.now.before
        (start_of ends dir) (end_of ends dir) way }
    requires ranks { (ends.low < parts.now.graph.ranks)
        × (ends.high < parts.now.graph.ranks) }
    requires moved { TellsLists parts.now moved.now }
    ensures { result ≡ true
        → IsUnmovedWay parts.now.before.network parts.now.edit
        parts.now.graph.edges moved.now ends dir way }
{
    match way {
        Way::Road(road) => !parts.is_changed(road),
        Way::Via(middle) => is_middle_unmoved(parts, moved, ends, dir, middle),
    }
}

/// Are these the entries of the list of an edge in a direction, before the edit?
pub fn are_old_entries<W: Ways>(
    parts: &EditParts<'_, W>,
    edge: u32,
    dir: Dir,
    entries: &[Entry],
) -> bool
    requires edge { edge < length parts.now.graph.edges }
    ensures { result ≡ true → entries.now ≡ list_of parts.now.before edge dir }
{
    if entries.len() != parts.entries(edge, dir) as usize {
        return false;
    }
    for index in 0..parts.entries(edge, dir) {
        if entries[index as usize] != parts.entry(edge, dir, index) {
            return false;
        }
    }
    true
}

/// A copy of the list of an edge in a direction.
pub fn copy_old_list<W: Ways>(
    alloc: Global,
    parts: &EditParts<'_, W>,
    edge: u32,
    dir: Dir,
) -> Result<WayList, NoMemory>
    requires edge { edge < length parts.now.graph.edges }
    ensures { IfOk result (λ copy. copy ≡ list_of parts.now.before edge dir) }
{
    let count = parts.entries(edge, dir);
    let mut entries = Vec::with_capacity(alloc, count as usize)?;
    for index in 0..count {
        entries.push(parts.entry(edge, dir, index))?;
    }
    let Some(copy) = WayList::of(entries) else {
        unreachable!()
    };
    Ok(copy)
}
