//! The bytes of a file before its digest, which needn't have been written.

ghost use Rattle.std.specs.Prelude.{◌≡◌, ◌≤◌, ◌+◌, ◌-◌, ◌*◌, length, slice_range};
ghost use Rattle.cu_pack.specs.Checks.{sealed};
ghost use Rattle.cu_pack.specs.Places.{long_at, short_at};
ghost use Rattle.cu_pack.specs.Reading.{entry_from};
ghost use Rattle.cu_pack.specs.Steps.Columns.{ColumnRises, IsCountUpTo};

use crate::bytes::{entry, long, short};
use crate::searching::count_up_to;
use cu_interval::Entry;
use std::marker::Model;

/// The bytes of a file, of which the last 32 are never read: they needn't be the digest. Contracts see the bytes with
/// the digest in their place.
#[derive(Drop)]
pub struct Body<'a> {
    bytes: &'a [u8],
}

impl<'a> Model for Body<'a> {
    ghost use Rattle.std.specs.Prelude.{ℕ, List, ◌≤◌, length};
    ghost use Rattle.cu_pack.specs.Checks.{sealed};

    ghost Value = { List ℕ };

    ghost view = { λ body. sealed body.bytes.now };

    ghost invariant = { λ body. 32 ≤ length body.bytes.now };
}

impl<'a> Body<'a> {
    /// All of these bytes but the last 32.
    pub fn of(bytes: &'a [u8]) -> Body<'a>
        requires long { 32 ≤ length bytes.now }
        ensures sealed { result ≡ sealed bytes.now }
    {
        Body { bytes }
    }

    /// The same bytes, borrowed once more.
    pub fn again(&self) -> Body<'a>
        ensures same { result ≡ self.now }
    {
        Body { bytes: self.bytes }
    }

    /// The number in the four bytes from a place.
    pub fn short(&self, at: usize) -> u32
        requires room { at + 4 ≤ length self.now - 32 }
        ensures number { result ≡ short_at self.now at }
    {
        short(self.bytes, at)
    }

    /// The number in the eight bytes from a place.
    pub fn long(&self, at: usize) -> u64
        requires room { at + 8 ≤ length self.now - 32 }
        ensures number { result ≡ long_at self.now at }
    {
        long(self.bytes, at)
    }

    /// The entry from a place.
    pub fn entry(&self, at: usize) -> Entry
        requires room { at + 12 ≤ length self.now - 32 }
        ensures entry { result ≡ entry_from self.now at }
    {
        entry(self.bytes, at)
    }

    /// How many of the numbers are at most a bound. The first stands at this place, and each other one so many bytes
    /// behind the one before.
    pub fn count_up_to(&self, at: usize, width: usize, count: usize, bound: u32) -> usize
        requires width { 4 ≤ width }
        requires room { at + width * count ≤ length self.now - 32 }
        requires rising { ColumnRises self.now at width count }
        ensures { IsCountUpTo self.now at width count bound result }
    {
        count_up_to(self.bytes, at, width, count, bound)
    }

    /// The bytes from a place on, up to another.
    pub fn between(&self, start: u64, end: u64) -> &'a [u8]
        requires order { start ≤ end }
        requires room { end ≤ length self.now - 32 }
        ensures part { result.now ≡ slice_range self.now start end }
    {
        &self.bytes[start as usize..end as usize]
    }
}
