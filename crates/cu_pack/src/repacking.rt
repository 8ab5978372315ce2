//! The packed file of a hierarchy after edits, most of it copied from the file before.

ghost use Rattle.std.specs.Prelude.{◌≡◌, ◌≤◌, ◌<◌, ◌++◌, All, IfOk, OnOk, length, map};
ghost use Rattle.std.specs.List.Sorted.{IsStrictlyIncreasing};
ghost use Rattle.cu_interval.specs.declared.ways.TouchedEdge.{TouchedEdge};
ghost use Rattle.cu_interval.specs.Hierarchies.{IsHierarchy};
ghost use Rattle.cu_bounds.specs.KeptBounds.{bounds_of};
ghost use Rattle.cu_pack.specs.Checks.{sealed};
ghost use Rattle.cu_pack.specs.Layouts.{AreInLimits};
ghost use Rattle.cu_pack.specs.Repacking.{KeepsOtherBounds, with_roads};
ghost use Rattle.cu_pack.specs.Spelling.{arcs_section, counts_of, edges_section, order_section, profiles_section, spelling, ways_section};
ghost use Rattle.cu_pack.specs.Steps.Fronts.{front};

use crate::bounding::{bounds_behind, with_bounds};
use crate::counting::count_pieces;
use crate::edited_halves::EditedHalves;
use crate::edited_ways::EditedWays;
use crate::layout::{Counts, Layout};
use crate::replacing::{count_replaced, put_replaced};
use crate::sealing::seal;
use crate::sections::{put_arcs, put_header, put_profiles};
use crate::targets::Target;
use crate::view::PackedView;
use cu_bounds::{copy_bounds, renew_bounds};
use cu_interval::{TouchedEdge, Ways};
use cu_model::{NoMemory, Roads};
use std::alloc::Global;

/// The packed file of a view's hierarchy with these roads in the place of its own, as edits leave them, and both way lists of
/// some edges replaced. The roads lie between the same nodes, the edges rise and are below the number of edges, and what
/// is left is a hierarchy. Its order and graph are copied from the view's file as they lie, and so are way lists between
/// two that change; the least bounds are found anew. Takes the memory of the new file.
pub fn repack<R: Roads>(
    alloc: Global,
    view: &PackedView<'_>,
    roads: &R,
    lists: &[TouchedEdge],
) -> Result<Vec<u8>, NoMemory>
    requires nodes { (R.network roads.now).nodes ≡ view.now.network.nodes }
    requires rising { IsStrictlyIncreasing
        (map (λ (touched : TouchedEdge). touched.edge) lists.now) }
    requires edges { All
        (λ (touched : TouchedEdge). touched.edge < length view.now.edges) lists.now }
    requires sound { IsHierarchy (with_roads view.now (R.network roads.now) lists.now) }
    ensures spelled { IfOk result
        (λ bytes. bytes.items ≡ spelling (with_roads view.now (R.network roads.now) lists.now)) }
{
    let mut bytes = repack_unsealed(alloc, view, roads, lists)?;
    seal(bytes.as_mut_slice());
    Ok(bytes)
}

/// [`repack`], but that the last 32 bytes aren't the digest: [`seal`] writes it.
pub fn repack_unsealed<R: Roads>(
    alloc: Global,
    view: &PackedView<'_>,
    roads: &R,
    lists: &[TouchedEdge],
) -> Result<Vec<u8>, NoMemory>
    requires nodes { (R.network roads.now).nodes ≡ view.now.network.nodes }
    requires rising { IsStrictlyIncreasing
        (map (λ (touched : TouchedEdge). touched.edge) lists.now) }
    requires edges { All
        (λ (touched : TouchedEdge). touched.edge < length view.now.edges) lists.now }
    requires sound { IsHierarchy (with_roads view.now (R.network roads.now) lists.now) }
    ensures spelled { IfOk result
        (λ bytes. sealed bytes.items ≡ spelling (with_roads view.now (R.network roads.now) lists.now)) }
    ensures long { IfOk result (λ bytes. 32 ≤ length bytes.items) }
{
    let mut bytes = edited_front(alloc, view, roads, lists)?;
    let bounds = bounds_behind(alloc, &mut bytes, view.edges())?;
    with_bounds(bytes, &bounds)
}

/// [`repack_unsealed`] after edits that leave the least bounds of all other lists as they are: they are copied, and
/// those of these edges are found anew from the bounds of their halves. So the entries of their lists alone are gone
/// through.
pub fn repack_touched<R: Roads>(
    alloc: Global,
    view: &PackedView<'_>,
    roads: &R,
    lists: &[TouchedEdge],
) -> Result<Vec<u8>, NoMemory>
    requires nodes { (R.network roads.now).nodes ≡ view.now.network.nodes }
    requires rising { IsStrictlyIncreasing
        (map (λ (touched : TouchedEdge). touched.edge) lists.now) }
    requires edges { All
        (λ (touched : TouchedEdge). touched.edge < length view.now.edges) lists.now }
    requires sound { IsHierarchy (with_roads view.now (R.network roads.now) lists.now) }
    requires stays { KeepsOtherBounds view.now (R.network roads.now) lists.now }
    ensures spelled { IfOk result
        (λ bytes. sealed bytes.items ≡ spelling (with_roads view.now (R.network roads.now) lists.now)) }
    ensures long { IfOk result (λ bytes. 32 ≤ length bytes.items) }
{
    let bounds = bounds_after(alloc, view, roads, lists)?;
    let bytes = edited_front(alloc, view, roads, lists)?;
    with_bounds(bytes, &bounds)
}

/// The least bounds after edits that leave those of all other lists: these are copied, and those of these edges found anew from the
/// bounds of their halves. Takes 8 bytes for each list, and 4 for each node and each profile.
pub fn bounds_after<R: Roads>(
    alloc: Global,
    view: &PackedView<'_>,
    roads: &R,
    lists: &[TouchedEdge],
) -> Result<Vec<u64>, NoMemory>
    requires nodes { (R.network roads.now).nodes ≡ view.now.network.nodes }
    requires rising { IsStrictlyIncreasing
        (map (λ (touched : TouchedEdge). touched.edge) lists.now) }
    requires edges { All
        (λ (touched : TouchedEdge). touched.edge < length view.now.edges) lists.now }
    requires sound { IsHierarchy (with_roads view.now (R.network roads.now) lists.now) }
    requires stays { KeepsOtherBounds view.now (R.network roads.now) lists.now }
    ensures { IfOk result (λ bounds. bounds.items
        ≡ bounds_of (with_roads view.now (R.network roads.now) lists.now)) }
{
    let mut bounds = copy_bounds(alloc, view)?;
    let after = EditedWays::of(view, roads, lists);
    let finder = view.halves_in_turn(alloc)?;
    let mut finder = EditedHalves::of(&after, finder);
    renew_bounds(alloc, &after, bounds.as_mut_slice(), lists, &mut finder)?;
    Ok(bounds)
}

// All of the file that is before the bounds. It has room for the rest.
fn edited_front<R: Roads>(
    alloc: Global,
    view: &PackedView<'_>,
    roads: &R,
    lists: &[TouchedEdge],
) -> Result<Vec<u8>, NoMemory>
    requires nodes { (R.network roads.now).nodes ≡ view.now.network.nodes }
    requires rising { IsStrictlyIncreasing
        (map (λ (touched : TouchedEdge). touched.edge) lists.now) }
    requires edges { All
        (λ (touched : TouchedEdge). touched.edge < length view.now.edges) lists.now }
    requires sound { IsHierarchy (with_roads view.now (R.network roads.now) lists.now) }
    ensures { IfOk result
        (λ bytes. bytes.items ≡ front 2 (with_roads view.now (R.network roads.now) lists.now)) }
{
    let counts = recount(view, roads, lists);
    let layout = Layout::of(&counts);
    let mut bytes = Vec::with_capacity(alloc, layout.length as usize)?;
    put_header(&mut bytes, &counts, layout.length)?;
    put_edited(&mut bytes, view, roads, lists)?;
    Ok(bytes)
}

// How many of each there are then, for a file of version 2. None is past its limit.
pub(crate) fn recount<R: Roads>(view: &PackedView<'_>, roads: &R, lists: &[TouchedEdge]) -> Counts
    requires nodes { (R.network roads.now).nodes ≡ view.now.network.nodes }
    requires rising { IsStrictlyIncreasing
        (map (λ (touched : TouchedEdge). touched.edge) lists.now) }
    requires edges { All
        (λ (touched : TouchedEdge). touched.edge < length view.now.edges) lists.now }
    requires sound { IsHierarchy (with_roads view.now (R.network roads.now) lists.now) }
    ensures counts { result ≡ counts_of 2 (with_roads view.now (R.network roads.now) lists.now) }
    ensures limits { AreInLimits result }
{
    Counts {
        version: 2,
        nodes: roads.nodes(),
        arcs: roads.arcs(),
        profiles: roads.profiles(),
        edges: view.edges(),
        pieces: count_pieces(roads),
        entries: count_replaced(view, lists),
    }
}

// All sections between the header and the bounds.
pub(crate) fn put_edited<T: Target, R: Roads>(
    bytes: &mut T,
    view: &PackedView<'_>,
    roads: &R,
    lists: &[TouchedEdge],
) -> Result<(), T::Failed>
    requires nodes { (R.network roads.now).nodes ≡ view.now.network.nodes }
    requires rising { IsStrictlyIncreasing
        (map (λ (touched : TouchedEdge). touched.edge) lists.now) }
    requires edges { All
        (λ (touched : TouchedEdge). touched.edge < length view.now.edges) lists.now }
    requires sound { IsHierarchy (with_roads view.now (R.network roads.now) lists.now) }
    ensures { OnOk result (T.grows bytes.old bytes.new
        (order_section (with_roads view.now (R.network roads.now) lists.now)
        ++ (arcs_section (with_roads view.now (R.network roads.now) lists.now)
        ++ (profiles_section (with_roads view.now (R.network roads.now) lists.now)
        ++ (edges_section (with_roads view.now (R.network roads.now) lists.now)
        ++ ways_section (with_roads view.now (R.network roads.now) lists.now)))))) }
{
    bytes.put(view.order_part())?;
    put_arcs(bytes, roads)?;
    put_profiles(bytes, roads)?;
    bytes.put(view.edges_part())?;
    put_replaced(bytes, view, lists)
}
