//! Whole days that are led to their end, beside those that aren't.

ghost use Rattle.std.specs.Prelude.{◌≡◌, ◌<◌};
ghost use Rattle.cu_elimtree.specs.SweepArcs.{parents_in};
ghost use Rattle.cu_interval.specs.Hierarchies.{IsHierarchyOf};

use crate::written::written;
use cu_arrival::Arrival;
use cu_chordal::Chordal;
use cu_day::{DayRebuilt, day, led_day};
use cu_elimtree::Tree;
use cu_interval::{Leg, Ways};
use cu_io::MemorySink;
use cu_pack::{PackedView, chordal_of};
use cu_samples::{FORGED, RUSH_HOUR, packed};
use cu_unpack::{Unpacker, Work};
use std::alloc::Global;
use std::test::Fail;

// The text of a day; nothing where there is none.
fn text(alloc: Global, function: &Option<Arrival>) -> Result<MemorySink, Fail> {
    match function {
        Some(function) => written(alloc, function, 1_000),
        None => Ok(MemorySink::new(alloc, 1_000, Vec::new(alloc))?),
    }
}

// Have two days the same text?
fn are_same_texts(
    alloc: Global,
    one: &Option<Arrival>,
    other: &Option<Arrival>,
) -> Result<bool, Fail> {
    let one = text(alloc, one)?;
    let other = text(alloc, other)?;
    Ok(one.bytes() == other.bytes())
}

// Is the day between two ranks the same, led or not?
fn is_same(
    alloc: Global,
    view: &PackedView<'_>,
    tree: &Tree,
    graph: &Chordal,
    leg: Leg,
) -> Result<bool, Fail>
    requires ranks { (leg.from < graph.now.ranks) × (leg.to < graph.now.ranks) }
    requires tree { tree.now ≡ parents_in graph.now }
    requires graph { IsHierarchyOf graph.now view.now }
{
    let unpacker = Unpacker::new(view, Work::new(alloc, graph.ranks())?);
    let mut functions = DayRebuilt::new(alloc, view)?;
    let all = day(alloc, tree, graph, &mut functions, leg.from, leg.to)?;
    let led = led_day(alloc, tree, graph, &mut functions, &unpacker, leg)?;
    are_same_texts(alloc, &all, &led)
}

// Are the days from a rank to all others?
fn are_same_from(
    alloc: Global,
    view: &PackedView<'_>,
    tree: &Tree,
    graph: &Chordal,
    from: u32,
) -> Result<bool, Fail>
    requires from { from < graph.now.ranks }
    requires tree { tree.now ≡ parents_in graph.now }
    requires graph { IsHierarchyOf graph.now view.now }
{
    let mut same = true;
    for to in 0..graph.ranks() {
        same &= is_same(alloc, view, tree, graph, Leg { from, to })?;
    }
    Ok(same)
}

// Are those of a packed file?
fn are_same(alloc: Global, view: &PackedView<'_>) -> Result<bool, Fail> {
    let _edges = view.edges();
    let graph = chordal_of(alloc, view)?;
    let tree = Tree::of(alloc, &graph)?;
    let mut same = true;
    for from in 0..graph.ranks() {
        same &= are_same_from(alloc, view, &tree, &graph, from)?;
    }
    Ok(same)
}

#[test]
fn led_days_are_the_same(rt: HostRuntime) -> Result<(), Fail> {
    let alloc = rt.alloc();
    let bytes = packed(alloc, RUSH_HOUR)?;
    assert!(rt; are_same(alloc, &PackedView::open(alloc, &bytes)?)?);
    assert!(rt; are_same(alloc, &PackedView::open(alloc, &FORGED)?)?);
    Ok(())
}
