//! Numbers read from bytes, the lowest byte first.

ghost use Rattle.std.specs.Prelude.{◌≡◌, ◌≤◌, ◌+◌, length};
ghost use Rattle.cu_pack.specs.Places.{long_at, short_at};
ghost use Rattle.cu_pack.specs.Reading.{entry_from};

use cu_interval::{Entry, Way};

// The number in the four bytes from a place.
#[tactic(auto, unfolding(crate::specs::Places::short_at))]
pub fn short(bytes: &[u8], at: usize) -> u32
    requires room { at + 4 ≤ length bytes.now }
    ensures number { result ≡ short_at bytes.now at }
{
    u32::from_le_bytes([bytes[at], bytes[at + 1], bytes[at + 2], bytes[at + 3]])
}

// The number in the eight bytes from a place.
#[tactic(auto, unfolding(crate::specs::Places::long_at))]
pub fn long(bytes: &[u8], at: usize) -> u64
    requires room { at + 8 ≤ length bytes.now }
    ensures number { result ≡ long_at bytes.now at }
{
    u64::from_le_bytes([
        bytes[at],
        bytes[at + 1],
        bytes[at + 2],
        bytes[at + 3],
        bytes[at + 4],
        bytes[at + 5],
        bytes[at + 6],
        bytes[at + 7],
    ])
}

// The entry from a place.
pub fn entry(bytes: &[u8], at: usize) -> Entry
    requires room { at + 12 ≤ length bytes.now }
    ensures entry { result ≡ entry_from bytes.now at }
{
    let number = short(bytes, at + 8);
    let way = match short(bytes, at + 4) {
        0 => Way::Road(number),
        _ => Way::Via(number),
    };
    Entry {
        from: short(bytes, at),
        way,
    }
}
