//! Roads of lists that were counted by hand, and counted anew.

ghost use Rattle.std.specs.Prelude.{◌≡◌, ◌<◌, All, length, map};
ghost use Rattle.std.specs.List.Sorted.{IsStrictlyIncreasing};
ghost use Rattle.cu_interval.specs.declared.ways.TouchedEdge.{TouchedEdge};

use cu_bounds::Searching;
use cu_interval::{TouchedEdge, WayList, Ways};
use cu_pack::{PackedView, pack};
use cu_samples::{FORGED, RUSH_HOUR, hierarchy};
use cu_short::RoadCounts;
use std::alloc::Global;
use std::test::Fail;

// Has each list fewer roads than there are nodes, and is that told again where the lists of these edges are counted anew?
fn stays_short<W: Ways>(alloc: Global, ways: &W, lists: &[TouchedEdge]) -> Result<bool, Fail>
    requires rising { IsStrictlyIncreasing
        (map (λ (touched : TouchedEdge). touched.edge) lists.now) }
    requires edges { All
        (λ (touched : TouchedEdge). touched.edge < length (W.hierarchy ways.now).edges)
        lists.now }
{
    let Some(roads) = RoadCounts::of(alloc, ways, &mut Searching { ways })? else {
        return Ok(false);
    };
    let mut roads = roads;
    Ok(roads.renew(ways, lists))
}

// An edge whose lists were replaced, with no ways.
fn replaced(alloc: Global, edge: u32) -> TouchedEdge
    ensures { result.edge ≡ edge }
{
    TouchedEdge {
        edge,
        up: no_ways(alloc),
        down: no_ways(alloc),
    }
}

fn no_ways(alloc: Global) -> WayList {
    WayList::of(Vec::new(alloc)).unwrap()
}

#[test]
fn roads_are_few_and_stay_so(rt: HostRuntime) -> Result<(), Fail> {
    let alloc = rt.alloc();
    let three = hierarchy(alloc, RUSH_HOUR)?;
    assert!(rt; three.edges() == 3);
    assert!(rt; stays_short(alloc, &three, &[])?);
    assert!(rt; stays_short(alloc, &three, &[replaced(alloc, 2)])?);
    Ok(())
}

// Are the roads of all lists few, by a finder of halves that goes through the file?
fn is_short(alloc: Global, file: &PackedView<'_>) -> Result<bool, Fail> {
    let mut finder = file.halves_in_turn(alloc)?;
    let roads = RoadCounts::of(alloc, file, &mut finder)?;
    Ok(roads.is_some())
}

#[test]
fn a_list_with_as_many_roads_as_nodes_is_found(rt: HostRuntime) -> Result<(), Fail> {
    let alloc = rt.alloc();
    let bytes = pack(alloc, &hierarchy(alloc, RUSH_HOUR)?)?;
    assert!(rt; is_short(alloc, &PackedView::open(alloc, &bytes)?)?);
    let forged = PackedView::open(alloc, &FORGED)?;
    assert!(rt; !is_short(alloc, &forged)?);
    let found = RoadCounts::of(alloc, &forged, &mut Searching { ways: &forged })?;
    assert!(rt; found.is_none());
    Ok(())
}
