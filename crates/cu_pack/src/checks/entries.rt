//! The entries of way lists in a file whose graph passed its check.

ghost use Rattle.std.specs.Prelude.{◌≡◌, ◌≤◌, ◌<◌, ◌*◌, ◌↔◌, IsTrue, min, suc};
ghost use Rattle.cu_interval.specs.declared.ways.Way.TheVariants.{Via};
ghost use Rattle.cu_interval.specs.Hierarchies.{IsWellFormed};
ghost use Rattle.cu_interval.specs.Low.{LeadsRanks};
ghost use Rattle.cu_interval.specs.WayLists.{Turns};
ghost use Rattle.cu_pack.specs.Checks.{IsGraph};
ghost use Rattle.cu_pack.specs.Reading.{counts_in, network_in, order_in, decoded, rank_of_in, way_start};
ghost use Rattle.cu_pack.specs.Steps.Cursors.{AreCursors};
ghost use Rattle.cu_pack.specs.Steps.Entries.{HasWay, HasWrongEntry, IsOutOfTurn, IsWrongEntry};

use crate::cutting::Sections;
use crate::joining::list_number;
use cu_chordal::Ends;
use cu_interval::{Dir, Entry, Way};
use cu_model::{DAY, RoadArc};

/// Whether one of these entries is wrong in a list from one rank to another. The places are such that each rank's edges
/// before its own lead lower than to both ranks, and stay so.
pub fn has_wrong_entry(
    sections: &Sections<'_>,
    places: &mut [u32],
    start: u64,
    end: u64,
    from: u32,
    to: u32,
) -> bool
    requires graph { IsGraph sections.now }
    requires places { AreCursors sections.now (min from to) places.old }
    requires end { end ≤ (counts_in sections.now).entries }
    requires from { from < (counts_in sections.now).nodes }
    ensures wrong { IsTrue result ↔ HasWrongEntry sections.now start end from to }
    ensures places { AreCursors sections.now (min from to) places.new }
{
    for entry in start..end {
        if is_wrong_entry(sections, places, start, entry, from, to) {
            return true;
        }
    }
    false
}

// Whether an entry is wrong in a list that starts with the entry `start` and leads from one rank to another.
fn is_wrong_entry(
    sections: &Sections<'_>,
    places: &mut [u32],
    start: u64,
    entry: u64,
    from: u32,
    to: u32,
) -> bool
    requires graph { IsGraph sections.now }
    requires places { AreCursors sections.now (min from to) places.old }
    requires start { start ≤ entry }
    requires entry { entry < (counts_in sections.now).entries }
    requires from { from < (counts_in sections.now).nodes }
    ensures wrong { IsTrue result ↔ IsWrongEntry sections.now start from to entry }
    ensures places { AreCursors sections.now (min from to) places.new }
{
    sections.entry_kind(entry) > 1
        || is_out_of_turn(sections, start, entry)
        || !is_well_formed(sections, places, from, to, sections.entry(entry).way)
}

// Whether an entry isn't the first from second 0, nor a turn from the one before, or is past the day.
fn is_out_of_turn(sections: &Sections<'_>, start: u64, entry: u64) -> bool
    requires start { start ≤ entry }
    requires entry { entry < (counts_in sections.now).entries }
    ensures { IsTrue result ↔ IsOutOfTurn sections.now start entry }
{
    let this = sections.entry(entry);
    if this.from >= DAY {
        return true;
    }
    if entry == start {
        return this.from != 0;
    }
    !turns(&sections.entry(entry - 1), &this)
}

// Whether the next entry begins later, with another way.
fn turns(entry: &Entry, next: &Entry) -> bool
    ensures { IsTrue result ↔ Turns entry.now next.now }
{
    entry.from < next.from && entry.way != next.way
}

// Whether a way from one rank to another is well formed.
fn is_well_formed(sections: &Sections<'_>, places: &mut [u32], from: u32, to: u32, way: Way) -> bool
    requires graph { IsGraph sections.now }
    requires places { AreCursors sections.now (min from to) places.old }
    requires from { from < (counts_in sections.now).nodes }
    ensures formed { IsTrue result ↔ IsWellFormed (decoded sections.now) from to way }
    ensures places { AreCursors sections.now (min from to) places.new }
{
    match way {
        Way::Road(arc) => leads(sections, arc, from, to),
        Way::Via(middle) => joins(sections, places, middle, from, to),
    }
}

// Whether a road may be driven from one rank to another.
fn leads(sections: &Sections<'_>, arc: u32, from: u32, to: u32) -> bool
    requires graph { IsGraph sections.now }
    ensures { IsTrue result
        ↔ LeadsRanks (network_in sections.now) (order_in sections.now) arc from to }
{
    if arc >= sections.counts().arcs {
        return false;
    }
    let road = sections.arc(arc);
    has_ranks(sections, road, from, to) && !sections.is_closed(arc)
}

// Whether a road's ends have these ranks.
fn has_ranks(sections: &Sections<'_>, road: RoadArc, from: u32, to: u32) -> bool
    requires tail { road.tail < (counts_in sections.now).nodes }
    requires head { road.head < (counts_in sections.now).nodes }
    ensures { IsTrue result ↔ ((rank_of_in sections.now road.tail ≡ from)
        × (rank_of_in sections.now road.head ≡ to)) }
{
    sections.rank_of(road.tail) == from && sections.rank_of(road.head) == to
}

// Whether a middle is below both ranks, and both halves have a way.
fn joins(sections: &Sections<'_>, places: &mut [u32], middle: u32, from: u32, to: u32) -> bool
    requires graph { IsGraph sections.now }
    requires places { AreCursors sections.now (min from to) places.old }
    requires from { from < (counts_in sections.now).nodes }
    ensures formed { IsTrue result ↔ IsWellFormed (decoded sections.now) from to (Via middle) }
    ensures places { AreCursors sections.now (min from to) places.new }
{
    if middle >= from || middle >= to {
        return false;
    }
    sections.move_on(places, middle, from.min(to));
    are_ways(sections, places, middle, from, to)
}

// Whether both halves over a middle below both ranks have a way.
fn are_ways(sections: &Sections<'_>, places: &[u32], middle: u32, from: u32, to: u32) -> bool
    requires graph { IsGraph sections.now }
    requires places { AreCursors sections.now (min from to) places.now }
    requires from { from < (counts_in sections.now).nodes }
    requires below_from { middle < from }
    requires below_to { middle < to }
    ensures { IsTrue result ↔ IsWellFormed (decoded sections.now) from to (Via middle) }
{
    let first = Ends {
        low: middle,
        high: from,
    };
    let second = Ends {
        low: middle,
        high: to,
    };
    has_way(sections, places, first, Dir::Down) && has_way(sections, places, second, Dir::Up)
}

// Whether an edge joins these ends, and its list in this direction has entries.
fn has_way(sections: &Sections<'_>, places: &[u32], ends: Ends, dir: Dir) -> bool
    requires graph { IsGraph sections.now }
    requires places { AreCursors sections.now ends.high places.now }
    requires low { ends.low < (counts_in sections.now).nodes }
    requires high { ends.low < ends.high }
    ensures { IsTrue result ↔ HasWay sections.now ends dir }
{
    match sections.edge_by(places, ends.low, ends.high) {
        Some(edge) => has_entries(sections, list_number(edge, dir)),
        None => false,
    }
}

// Whether a list has entries.
fn has_entries(sections: &Sections<'_>, list: u32) -> bool
    requires graph { IsGraph sections.now }
    requires list { list < 2 * (counts_in sections.now).edges }
    ensures { IsTrue result ↔ (way_start sections.now list < way_start sections.now (suc list)) }
{
    sections.way_start(list) < sections.way_start(list + 1)
}
