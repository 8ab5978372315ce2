//! The way lists of a packed file: one behind the other, each a way list whose ways are well formed.

ghost use Rattle.std.specs.Prelude.{◌≡◌, ◌<◌, ◌*◌, ◌↔◌, IfOk, IsTrue, Some, slice_get, suc};
ghost use Rattle.std.specs.Option.{option_map};
ghost use Rattle.cu_interval.specs.Hierarchies.{list_number};
ghost use Rattle.cu_pack.specs.Checks.{AreEntriesWrong, FindsFirst, IsGraph, IsWrongList};
ghost use Rattle.cu_pack.specs.Reading.{counts_in, decoded};
ghost use Rattle.cu_pack.specs.Steps.Cursors.{AreCursors};
ghost use Rattle.cu_pack.specs.Steps.Ways.{FindsDir, FindsFirstOf, number_of_list};

use crate::checks::entries::has_wrong_entry;
use crate::cutting::Sections;
use crate::joining::list_number;
use cu_chordal::Ends;
use cu_interval::{Dir, leg_of};
use cu_model::NoMemory;
use std::alloc::Global;

/// The least list that is wrong, as an edge and a direction; or the number of edges, upwards, where entries are left
/// behind the last list. Takes 4 bytes for each node.
///
/// The edges come by rising lower rank, and for each rank a place among its edges follows this rank: so of the two halves
/// over a middle one costs no search, and the other a search behind the first.
pub fn wrong_list(alloc: Global, sections: &Sections<'_>) -> Result<Option<(u32, Dir)>, NoMemory>
    requires graph { IsGraph sections.now }
    ensures first { IfOk result (λ found. FindsFirst (IsWrongList sections.now)
        (suc (2 * (counts_in sections.now).edges)) (option_map number_of_list found)) }
{
    let mut places = sections.edge_starts(alloc)?;
    Ok(first_wrong_list(sections, &mut places))
}

// The same, with a place among the edges of each rank, at first before all of them.
fn first_wrong_list(sections: &Sections<'_>, places: &mut [u32]) -> Option<(u32, Dir)>
    requires graph { IsGraph sections.now }
    requires places { AreCursors sections.now 0 places.old }
    ensures first { FindsFirst (IsWrongList sections.now) (suc (2 * (counts_in sections.now).edges))
        (option_map number_of_list result) }
{
    if sections.way_start(0) != 0 {
        return Some((0, Dir::Up));
    }
    let counts = sections.counts();
    for low in 0..counts.nodes {
        if let Some(found) = wrong_list_of(sections, places, low) {
            return Some(found);
        }
    }
    if sections.way_start(2 * counts.edges) != counts.entries {
        return Some((counts.edges, Dir::Up));
    }
    None
}

// The least list that is wrong among those of the edges from a rank upwards.
fn wrong_list_of(sections: &Sections<'_>, places: &mut [u32], low: u32) -> Option<(u32, Dir)>
    requires graph { IsGraph sections.now }
    requires places { AreCursors sections.now low places.old }
    requires low { low < (counts_in sections.now).nodes }
    ensures first { FindsFirstOf sections.now low result }
    ensures places { AreCursors sections.now low places.new }
{
    for edge in sections.edge_start(low)..sections.edge_start(low + 1) {
        let ends = Ends {
            low,
            high: sections.upper(edge),
        };
        if let Some(dir) = wrong_dir(sections, places, edge, ends) {
            return Some((edge, dir));
        }
    }
    None
}

// The first direction in which the list of an edge is wrong.
fn wrong_dir(sections: &Sections<'_>, places: &mut [u32], edge: u32, ends: Ends) -> Option<Dir>
    requires graph { IsGraph sections.now }
    requires places { AreCursors sections.now ends.low places.old }
    requires ends { slice_get (decoded sections.now).edges edge ≡ Some ends }
    ensures dir { FindsDir sections.now edge result }
    ensures places { AreCursors sections.now ends.low places.new }
{
    if are_entries_wrong(sections, places, edge, ends, Dir::Up) {
        return Some(Dir::Up);
    }
    if are_entries_wrong(sections, places, edge, ends, Dir::Down) {
        return Some(Dir::Down);
    }
    None
}

// Whether the entries of an edge in a direction are past the last, or no way list of well formed ways.
fn are_entries_wrong(
    sections: &Sections<'_>,
    places: &mut [u32],
    edge: u32,
    ends: Ends,
    dir: Dir,
) -> bool
    requires graph { IsGraph sections.now }
    requires places { AreCursors sections.now ends.low places.old }
    requires ends { slice_get (decoded sections.now).edges edge ≡ Some ends }
    ensures wrong { IsTrue result ↔ AreEntriesWrong sections.now (list_number edge dir) edge dir }
    ensures places { AreCursors sections.now ends.low places.new }
{
    let list = list_number(edge, dir);
    let start = sections.way_start(list);
    let end = sections.way_start(list + 1);
    if end < start || end > sections.counts().entries {
        return true;
    }
    let leg = leg_of(ends, dir);
    has_wrong_entry(sections, places, start, end, leg.from, leg.to)
}
