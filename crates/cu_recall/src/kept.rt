//! An entry as a row keeps it.

ghost use Rattle.std.specs.Prelude.{◌≡◌, ◌≤◌, ◌<◌, ◌+◌, ◌*◌, ◌↔◌, ℕ, IfSome, IsSome};
ghost use Rattle.cu_interval.specs.Hierarchies.{HierarchyValue};
ghost use Rattle.cu_recall.specs.Spans.{HasMoment, HoldsMet, met_of};

use crate::spans::{Met, Parts};
use cu_model::DAY;

/// An entry that was met: the parts of the way in force at each of twice `pairs` seconds of the day, from `from` on. Where
/// there are none it says nothing.
///
/// Counted by twos the seconds of a day fit 16 bits. With the tag they fill the first four bytes, so that it has 16 in all.
#[derive(Clone, Copy, PartialEq, Eq)]
pub enum Kept {
    Road {
        pairs: u16,
        from: u32,
        road: u32,
    },
    Halves {
        pairs: u16,
        from: u32,
        first: u32,
        second: u32,
    },
}

impl Kept {
    /// An entry that says nothing.
    pub const NOTHING: Kept = Kept::Road {
        pairs: 0,
        from: 0,
        road: 0,
    };

    /// What is kept of an entry that was met: all but its last second, where it has an odd number of them.
    pub fn of(met: Met) -> Kept
        requires order { met.from ≤ met.until }
        requires day { met.until ≤ DAY }
        ensures from { (met_of result).from ≡ met.from }
        ensures most { met.until ≤ (met_of result).until + 1 }
        ensures parts { (met_of result).parts ≡ met.parts }
        ensures holds { (h : HierarchyValue) (list : ℕ) → HoldsMet h list met
            → HoldsMet h list (met_of result) }
    {
        let from = met.from;
        let pairs = ((met.until - from) / 2) as u16;
        match met.parts {
            Parts::Road(road) => Kept::Road { pairs, from, road },
            Parts::Halves { first, second } => Kept::Halves {
                pairs,
                from,
                first,
                second,
            },
        }
    }

    /// The entry, where it has this second of the day.
    pub fn at(&self, second: u32) -> Option<Met>
        requires day { second < DAY }
        ensures there { IsSome result ↔ HasMoment (met_of self.now) second }
        ensures same { IfSome result (λ met. met ≡ met_of self.now) }
    {
        match *self {
            Kept::Road { pairs, from, road } => entry_at(from, pairs, Parts::Road(road), second),
            Kept::Halves {
                pairs,
                from,
                first,
                second: rest,
            } => {
                let parts = Parts::Halves {
                    first,
                    second: rest,
                };
                entry_at(from, pairs, parts, second)
            }
        }
    }
}

// The entry with these parts at twice so many seconds, where it has this one.
fn entry_at(from: u32, pairs: u16, parts: Parts, second: u32) -> Option<Met>
    requires day { second < DAY }
    ensures there { IsSome result ↔ (from ≤ second) × (second < from + 2 * pairs) }
    ensures same { IfSome result (λ met. met ≡ record {
      from = from;
      until = from + 2 * pairs;
      parts = parts;
    }) }
{
    let seconds = 2 * u32::from(pairs);
    if second < from || second - from >= seconds {
        return None;
    }
    Some(Met {
        from,
        until: from + seconds,
        parts,
    })
}
