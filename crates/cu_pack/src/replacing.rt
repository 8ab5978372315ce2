//! The section of a packed file's way lists, with those of some edges replaced.

ghost use Rattle.std.specs.Prelude.{◌≡◌, ◌≤◌, ◌<◌, ◌+◌, ◌*◌, ◌++◌, All, IfOk, OnOk, length, map, slice_range};
ghost use Rattle.std.specs.List.{flat_map};
ghost use Rattle.std.specs.List.Sorted.{IsStrictlyIncreasing};
ghost use Rattle.cu_model.specs.declared.limits.TheConstants.{DAY};
ghost use Rattle.cu_chordal.specs.declared.graph.TheConstants.{MAX_EDGES};
ghost use Rattle.cu_interval.specs.declared.ways.TouchedEdge.{TouchedEdge};
ghost use Rattle.cu_interval.specs.Replacing.{replaced};
ghost use Rattle.cu_pack.specs.Spelling.{entry_bytes, long, starts_from, total};
ghost use Rattle.cu_pack.specs.Steps.Starts.{starts_between};

use crate::numbers::{put_entry, put_long};
use crate::targets::Target;
use crate::view::PackedView;
use cu_interval::{TouchedEdge, WayList, Ways};

// How many entries there are in all where the lists of these edges are replaced.
pub fn count_replaced(view: &PackedView<'_>, lists: &[TouchedEdge]) -> u64
    requires rising { IsStrictlyIncreasing
        (map (λ (touched : TouchedEdge). touched.edge) lists.now) }
    requires edges { All
        (λ (touched : TouchedEdge). touched.edge < length view.now.edges) lists.now }
    requires few { total (replaced view.now.lists lists.now) ≤ 2 * MAX_EDGES * DAY }
    ensures { result ≡ total (replaced view.now.lists lists.now) }
{
    let end = 2 * view.edges();
    let mut next = 0;
    let mut count = 0;
    for touched in lists {
        let own = 2 * touched.edge;
        count += count_between(view, next, own) + count_own(touched);
        next = own + 2;
    }
    count + count_between(view, next, end)
}

// How many entries the lists from one on up to another have.
fn count_between(view: &PackedView<'_>, first: u32, end: u32) -> u64
    requires order { first ≤ end }
    requires inside { end ≤ length view.now.lists }
    ensures count { result ≡ total (slice_range view.now.lists first end) }
    ensures few { result ≤ 2 * MAX_EDGES * DAY }
{
    view.way_start(end) - view.way_start(first)
}

// How many entries both new lists of an edge have.
fn count_own(touched: &TouchedEdge) -> u64
    ensures count { result ≡ length touched.now.up + length touched.now.down }
    ensures few { result ≤ 2 * DAY }
{
    touched.up.entries().len() as u64 + touched.down.entries().len() as u64
}

// How many entries are before each way list, and in all, and the entries, where the lists of these edges are replaced.
pub fn put_replaced<T: Target>(
    bytes: &mut T,
    view: &PackedView<'_>,
    lists: &[TouchedEdge],
) -> Result<(), T::Failed>
    requires rising { IsStrictlyIncreasing
        (map (λ (touched : TouchedEdge). touched.edge) lists.now) }
    requires edges { All
        (λ (touched : TouchedEdge). touched.edge < length view.now.edges) lists.now }
    requires few { total (replaced view.now.lists lists.now) ≤ 2 * MAX_EDGES * DAY }
    ensures { OnOk result (T.grows bytes.old bytes.new
        (flat_map long (starts_from 0 (replaced view.now.lists lists.now))
        ++ flat_map (flat_map entry_bytes) (replaced view.now.lists lists.now))) }
{
    put_starts(bytes, view, lists)?;
    put_entries(bytes, view, lists)
}

fn put_starts<T: Target>(
    bytes: &mut T,
    view: &PackedView<'_>,
    lists: &[TouchedEdge],
) -> Result<(), T::Failed>
    requires rising { IsStrictlyIncreasing
        (map (λ (touched : TouchedEdge). touched.edge) lists.now) }
    requires edges { All
        (λ (touched : TouchedEdge). touched.edge < length view.now.edges) lists.now }
    requires few { total (replaced view.now.lists lists.now) ≤ 2 * MAX_EDGES * DAY }
    ensures { OnOk result (T.grows bytes.old bytes.new
        (flat_map long (starts_from 0 (replaced view.now.lists lists.now)))) }
{
    let end = 2 * view.edges();
    let mut next = 0;
    let mut start = 0;
    for touched in lists {
        let own = 2 * touched.edge;
        start = put_starts_between(bytes, view, next, own, start)?;
        start = put_own_starts(bytes, touched, start)?;
        next = own + 2;
    }
    let last = put_starts_between(bytes, view, next, end, start)?;
    put_long(bytes, last)
}

// How many entries are before both new lists of an edge; answers how many are before the next.
fn put_own_starts<T: Target>(
    bytes: &mut T,
    touched: &TouchedEdge,
    start: u64,
) -> Result<u64, T::Failed>
    requires few { start ≤ 4 * MAX_EDGES * DAY }
    ensures put { OnOk result (T.grows bytes.old bytes.new
        (long start ++ long (start + length touched.now.up))) }
    ensures after { IfOk result
        (λ after. after ≡ start + length touched.now.up + length touched.now.down) }
{
    let middle = start + touched.up.entries().len() as u64;
    put_long(bytes, start)?;
    put_long(bytes, middle)?;
    Ok(middle + touched.down.entries().len() as u64)
}

// How many entries are before each list from one on up to another, where so many are before the first; answers how many
// are before the other.
fn put_starts_between<T: Target>(
    bytes: &mut T,
    view: &PackedView<'_>,
    first: u32,
    end: u32,
    start: u64,
) -> Result<u64, T::Failed>
    requires order { first ≤ end }
    requires inside { end ≤ length view.now.lists }
    requires few { start ≤ 2 * MAX_EDGES * DAY }
    ensures put { OnOk result (T.grows bytes.old bytes.new
        (flat_map long (starts_between view.now.lists first end start))) }
    ensures after { IfOk result
        (λ after. after ≡ start + total (slice_range view.now.lists first end)) }
{
    if start == view.way_start(first) {
        bytes.put(view.way_starts_part(first, end))?;
    } else {
        put_moved_starts(bytes, view, first, end, start)?;
    }
    Ok(start + count_between(view, first, end))
}

fn put_moved_starts<T: Target>(
    bytes: &mut T,
    view: &PackedView<'_>,
    first: u32,
    end: u32,
    start: u64,
) -> Result<(), T::Failed>
    requires order { first ≤ end }
    requires inside { end ≤ length view.now.lists }
    requires few { start ≤ 2 * MAX_EDGES * DAY }
    ensures { OnOk result (T.grows bytes.old bytes.new
        (flat_map long (starts_between view.now.lists first end start))) }
{
    for list in first..end {
        put_long(bytes, start + count_between(view, first, list))?;
    }
    Ok(())
}

fn put_entries<T: Target>(
    bytes: &mut T,
    view: &PackedView<'_>,
    lists: &[TouchedEdge],
) -> Result<(), T::Failed>
    requires rising { IsStrictlyIncreasing
        (map (λ (touched : TouchedEdge). touched.edge) lists.now) }
    requires edges { All
        (λ (touched : TouchedEdge). touched.edge < length view.now.edges) lists.now }
    ensures { OnOk result (T.grows bytes.old bytes.new
        (flat_map (flat_map entry_bytes) (replaced view.now.lists lists.now))) }
{
    let end = 2 * view.edges();
    let mut next = 0;
    for touched in lists {
        let own = 2 * touched.edge;
        bytes.put(view.entries_part(next, own))?;
        put_own_entries(bytes, touched)?;
        next = own + 2;
    }
    bytes.put(view.entries_part(next, end))
}

// The entries of both new lists of an edge.
fn put_own_entries<T: Target>(bytes: &mut T, touched: &TouchedEdge) -> Result<(), T::Failed>
    ensures { OnOk result (T.grows bytes.old bytes.new
        (flat_map entry_bytes touched.now.up ++ flat_map entry_bytes touched.now.down)) }
{
    put_list(bytes, &touched.up)?;
    put_list(bytes, &touched.down)
}

fn put_list<T: Target>(bytes: &mut T, list: &WayList) -> Result<(), T::Failed>
    ensures { OnOk result (T.grows bytes.old bytes.new (flat_map entry_bytes list.now)) }
{
    for entry in list.entries() {
        put_entry(bytes, *entry)?;
    }
    Ok(())
}
