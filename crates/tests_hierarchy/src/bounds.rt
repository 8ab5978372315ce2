//! Least bounds that were worked by hand.

ghost use Rattle.std.specs.Prelude.{◌≡◌, ◌*◌, length, slice_index};

use cu_bounds::{KeptBounds, first_wrong_bound, least_bounds};
use cu_interval::{Shortcut, Ways};
use cu_pack::PackedView;
use cu_samples::{FORGED, RUSH_HOUR, hierarchy};
use std::alloc::Global;
use std::test::Fail;

// A number for each list.
#[derive(Drop)]
struct Row<'a> {
    bounds: &'a [u64],
}

impl<'a> KeptBounds for Row<'a> {
    ghost kept = { λ row. slice_index row.bounds.now };

    ghost lists = { λ row. length row.bounds.now };

    fn kept(&self, list: u32) -> u64 {
        self.bounds[list as usize]
    }
}

// Is each list found where its number is one too great, and none where all are right?
fn finds_each<W: Ways>(alloc: Global, ways: &W, bounds: &[u64]) -> Result<bool, Fail>
    requires { length bounds.now ≡ 2 * length (W.hierarchy ways.now).edges }
{
    let mut row = Vec::from_slice(alloc, bounds)?;
    for (list, bound) in bounds.iter().enumerate() {
        row[list] = bound.saturating_add(1);
        let wrong = first_wrong_bound(alloc, ways, &Row { bounds: &row })?;
        if wrong.map(Shortcut::list) != Some(list) {
            return Ok(false);
        }
        row[list] = *bound;
    }
    let wrong = first_wrong_bound(alloc, ways, &Row { bounds: &row })?;
    Ok(wrong.is_none())
}

// Are these the least bounds, and others found?
fn are_bounds<W: Ways>(alloc: Global, ways: &W, wanted: &[u64]) -> Result<bool, Fail> {
    let bounds = least_bounds(alloc, ways)?;
    if bounds.as_slice() != wanted || bounds.len() != 2 * ways.edges() as usize {
        return Ok(false);
    }
    finds_each(alloc, ways, &bounds)
}

// The bound of a list without ways.
const FAR: u64 = 1 << 60;

// Of three edges.
const RUSH_HOUR_BOUNDS: [u64; 6] = [FAR, 60, 100, FAR, 160, FAR];

fn bounds_rush_hour(alloc: Global) -> Result<bool, Fail> {
    let three = hierarchy(alloc, RUSH_HOUR)?;
    are_bounds(alloc, &three, &RUSH_HOUR_BOUNDS)
}

// Of six edges, by the middles that the file names.
const FORGED_BOUNDS: [u64; 12] = [10, 10, 10, 10, 10, 10, 10, 20, 20, 10, 40, 10];

fn bounds_forged_ways(alloc: Global) -> Result<bool, Fail> {
    let forged = PackedView::open(alloc, &FORGED)?;
    are_bounds(alloc, &forged, &FORGED_BOUNDS)
}

#[test]
fn bounds_each_list(rt: HostRuntime) -> Result<(), Fail> {
    assert!(rt; bounds_rush_hour(rt.alloc())?);
    assert!(rt; bounds_forged_ways(rt.alloc())?);
    Ok(())
}
