//! Whole days that were worked by hand.

ghost use Rattle.std.specs.Prelude.{◌≡◌};
ghost use Rattle.cu_elimtree.specs.SweepArcs.{parents_in};
ghost use Rattle.cu_interval.specs.Hierarchies.{graph_of};

use crate::written::written;
use cu_arrival::Arrival;
use cu_day::{DayRebuilt, day};
use cu_elimtree::Tree;
use cu_interval::{Hierarchy, Ways};
use cu_model::Roads;
use cu_samples::{RUSH_HOUR, hierarchy};
use std::alloc::Global;
use std::test::Fail;

// Two ranks, and the text of the day from one to the other; none where no walk leads there.
#[derive(Clone, Copy)]
struct Row<'a> {
    from: u32,
    to: u32,
    text: Option<&'a [u8]>,
}

// Is this the text of a day? None is that of no day.
fn is_written(
    alloc: Global,
    function: &Option<Arrival>,
    text: Option<&[u8]>,
) -> Result<bool, Fail> {
    let Some(function) = function else {
        return Ok(text.is_none());
    };
    let sink = written(alloc, function, 100)?;
    Ok(text == Some(sink.bytes()))
}

// Is this the text of the day between two ranks?
fn is_right(alloc: Global, hierarchy: &Hierarchy, tree: &Tree, row: Row<'_>) -> Result<bool, Fail>
    requires nodes { hierarchy.now.network.nodes ≡ 3 }
    requires tree { tree.now ≡ parents_in (graph_of hierarchy.now) }
{
    if row.from >= 3 || row.to >= 3 {
        return Ok(false);
    }
    let graph = hierarchy.graph();
    let _edges = hierarchy.edges();
    let mut functions = DayRebuilt::new(alloc, hierarchy)?;
    let function = day(alloc, tree, graph, &mut functions, row.from, row.to)?;
    is_written(alloc, &function, row.text)
}

// Nodes 0, 1 and 2 have the ranks 1, 0 and 2. From node 0 to node 2 the road of 250 seconds is the faster from the second at which
// the middle's second road grows slow, and the wait for its end again from 35,851. From node 1 to node 2 the wait begins where it
// takes as long as the drive before. No road leads back.
const ROWS: [Row<'static>; 5] = [
    Row {
        from: 1,
        to: 2,
        text: Some(b"day 0,travel,160 28740,travel,250 35851,until,36100 35941,travel,160"),
    },
    Row {
        from: 0,
        to: 2,
        text: Some(b"day 0,travel,100 28800,travel,300 35801,until,36100 36001,travel,100"),
    },
    Row {
        from: 1,
        to: 0,
        text: Some(b"day 0,travel,60"),
    },
    Row {
        from: 0,
        to: 0,
        text: Some(b"day 0,travel,0"),
    },
    Row {
        from: 2,
        to: 1,
        text: None,
    },
];

#[test]
fn days_are_written(rt: HostRuntime) -> Result<(), Fail> {
    let alloc = rt.alloc();
    let hierarchy = hierarchy(alloc, RUSH_HOUR)?;
    assert!(rt; hierarchy.nodes() == 3);
    let tree = Tree::of(alloc, hierarchy.graph())?;
    'rows: for row in &ROWS {
        assert!(rt; is_right(alloc, &hierarchy, &tree, *row)?);
    }
    Ok(())
}
