//! Way lists in the bytes of a packed file.

ghost use Rattle.std.specs.Prelude.{◌≡◌, ◌<◌, Some, length, slice_get};
ghost use Rattle.cu_interval.specs.WayLists.{IsWayList, way_at};
ghost use Rattle.cu_pack.specs.Steps.Slices.{IsWaySlice, entries_from};

use crate::body::Body;
use cu_interval::{Entry, Way};
use cu_model::DAY;
use std::marker::Model;

pub mod in_force;

/// A way list in the bytes of a packed file. Contracts see its entries.
#[derive(Drop)]
pub struct WaySlice<'a> {
    body: Body<'a>,
    at: usize,
    count: u32,
}

impl<'a> Model for WaySlice<'a> {
    ghost use Rattle.std.specs.Prelude.{List};
    ghost use Rattle.cu_interval.specs.declared.ways.Entry.{Entry};
    ghost use Rattle.cu_pack.specs.Steps.Slices.{IsWaySlice, entries_from};

    ghost Value = { List Entry };

    ghost view = { λ slice. entries_from slice.body slice.at slice.count };

    ghost invariant = { λ slice. IsWaySlice slice.body slice.at slice.count };
}

impl<'a> WaySlice<'a> {
    // The list of so many entries, the first of them at this place.
    pub(crate) fn of(body: &Body<'a>, at: usize, count: u32) -> WaySlice<'a>
        requires { IsWaySlice body.now at count }
        ensures { result ≡ entries_from body.now at count }
    {
        WaySlice {
            body: body.again(),
            at,
            count,
        }
    }

    /// How many entries it has, at most 86,400.
    pub fn len(&self) -> u32
        ensures count { result ≡ length self.now }
        ensures spelled { IsWayList self.now }
    {
        self.count
    }

    /// The entry with this index, below the number of entries.
    pub fn entry(&self, index: u32) -> Entry
        requires { index < length self.now }
        ensures { slice_get self.now index ≡ Some result }
    {
        self.body.entry(self.at + 12 * index as usize)
    }

    /// The way of the last entry that has begun by this second's second of the day. None exactly where the list is
    /// empty.
    pub fn at(&self, second: u64) -> Option<Way>
        ensures { result ≡ way_at self.now second }
    {
        if self.count == 0 {
            return None;
        }
        let time = (second % u64::from(DAY)) as u32;
        let begun = self
            .body
            .count_up_to(self.at, 12, self.count as usize, time);
        Some(self.entry(begun as u32 - 1).way)
    }
}
