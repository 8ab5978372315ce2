//! The way that is taken at a second of the day, and for how long.

ghost use Rattle.std.specs.Prelude.{◌≡◌, ◌<◌, slice_get};
ghost use Rattle.cu_interval.specs.declared.ways.Entry.{Entry};
ghost use Rattle.cu_pack.specs.InForce.{FindsWayInForce};
ghost use Rattle.cu_pack.specs.Steps.Begins.{begin_of};

use crate::way_slices::WaySlice;
use cu_interval::Way;
use cu_model::DAY;

/// A way, and the seconds of the day at which a list takes it: from `from` until before `until`.
#[derive(Clone, Copy, PartialEq, Eq)]
pub struct WayInForce {
    pub way: Way,
    pub from: u32,
    pub until: u32,
}

impl<'a> WaySlice<'a> {
    /// The way that is taken at a second of the day, 0 to 86,399, and the seconds around it, at most up to 86,400, at each of
    /// which it is the one. None exactly where the list is empty. That it isn't the one just before and behind them is not
    /// promised.
    pub fn in_force(&self, second: u32) -> Option<WayInForce>
        requires day { second < DAY }
        ensures found { FindsWayInForce self.now second result }
    {
        if self.count == 0 {
            return None;
        }
        let next = self
            .body
            .count_up_to(self.at, 12, self.count as usize, second) as u32;
        let entry = self.entry(next - 1);
        Some(WayInForce {
            way: entry.way,
            from: entry.from,
            until: self.begin_or_day(next),
        })
    }

    // When the entry with this index begins, or the end of the day where there is none.
    fn begin_or_day(&self, index: u32) -> u32
        ensures begin { result ≡ begin_of (λ (e : Entry). e.from) (slice_get self.now index) }
    {
        if index < self.len() {
            self.entry(index).from
        } else {
            DAY
        }
    }
}
