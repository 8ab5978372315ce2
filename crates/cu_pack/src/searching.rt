//! A search among numbers that stand in bytes every so many bytes.

ghost use Rattle.std.specs.Prelude.{◌≤◌, ◌+◌, ◌*◌, length};
ghost use Rattle.cu_pack.specs.Steps.Columns.{ColumnRises, IsCountUpTo};

use crate::bytes::short;

// How many of the numbers are at most a bound. The first stands at this place, and each other one so many bytes behind
// the one before.
pub fn count_up_to(bytes: &[u8], at: usize, width: usize, count: usize, bound: u32) -> usize
    requires width { 4 ≤ width }
    requires room { at + width * count ≤ length bytes.now }
    requires rising { ColumnRises bytes.now at width count }
    ensures { IsCountUpTo bytes.now at width count bound result }
{
    let mut low = 0;
    let mut high = count;
    while low < high {
        let middle = low + (high - low) / 2;
        if short(bytes, at + width * middle) <= bound {
            low = middle + 1;
        } else {
            high = middle;
        }
    }
    low
}
