//! Marks of three edges, at first and after an edit.

ghost use Rattle.std.specs.Prelude.{◌≡◌};

use cu_edits::CustomizedEdges;
use cu_interval::{TouchedEdge, WayList};
use std::alloc::Global;
use std::test::Fail;

/// An edge that was settled, with no ways.
pub(crate) fn settled(alloc: Global, edge: u32) -> TouchedEdge
    ensures { result.edge ≡ edge }
{
    TouchedEdge {
        edge,
        up: no_ways(alloc),
        down: no_ways(alloc),
    }
}

fn no_ways(alloc: Global) -> WayList {
    WayList::of(Vec::new(alloc)).unwrap()
}

#[test]
fn settled_edges_are_marked(rt: HostRuntime) -> Result<(), Fail> {
    let alloc = rt.alloc();
    let mut edges = CustomizedEdges::none(alloc, 3)?;
    assert!(rt; edges.marks() == [false, false, false].as_slice());
    edges.mark(&[settled(alloc, 2), settled(alloc, 0)]);
    assert!(rt; edges.marks() == [true, false, true].as_slice());
    let edges = CustomizedEdges::all(alloc, 3)?;
    assert!(rt; edges.marks() == [true, true, true].as_slice());
    Ok(())
}
