//! Halving a part by the places of its nodes.

ghost use Rattle.std.specs.Prelude.{◌≡◌, ◌≤◌, ◌<◌, ◌-◌, ◌/◌, IfOk, All, not, length, map, max, min};
ghost use Rattle.std.specs.Ordering.{is_lt};
ghost use Rattle.cu_dissect.specs.Dissection.{is_wide, left_of, rest_of};
ghost use Rattle.cu_dissect.specs.Steps.Keys.{IsLastLeft, compare, key_of};
ghost use Rattle.cu_dissect.specs.Steps.Parts.{IsPart};

use cu_model::NoMemory;
use cu_roads::Place;
use std::alloc::Global;

/// The least and the greatest of some numbers.
#[derive(Clone, Copy)]
struct Extent {
    least: u32,
    greatest: u32,
    ghost rises: { least ≤ greatest },
}

impl Extent {
    fn of(number: u32) -> Extent
        ensures least { result.least ≡ number }
        ensures greatest { result.greatest ≡ number }
    {
        Extent {
            least: number,
            greatest: number,
        }
    }

    fn with(self, number: u32) -> Extent
        ensures least { result.least ≡ min self.least number }
        ensures greatest { result.greatest ≡ max self.greatest number }
    {
        Extent {
            least: self.least.min(number),
            greatest: self.greatest.max(number),
        }
    }

    fn spread(self) -> u32
        ensures { result ≡ self.greatest - self.least }
    {
        self.greatest - self.least
    }
}

/// What the nodes of a part are sorted by: the coordinate that it is cut across, the other one, and the node.
#[derive(Clone, Copy, PartialEq, Eq, PartialOrd, Ord)]
pub(crate) struct SortKey {
    first: u32,
    second: u32,
    node: u32,
}

/// The two halves of a part, each by rising number.
#[derive(Drop)]
pub(crate) struct Halves {
    pub(crate) left: Vec<u32>,
    pub(crate) rest: Vec<u32>,
}

// Whether a part is cut across x.
fn cuts_across_x(places: &[Place], part: &[u32]) -> bool
    requires some { 0 < length part.now }
    requires in_range { All (λ node. node < length places.now) part.now }
    ensures { result ≡ is_wide places.now part.now }
{
    let start = places[part[0] as usize];
    let mut x = Extent::of(start.x);
    let mut y = Extent::of(start.y);
    for node in part {
        let place = places[*node as usize];
        x = x.with(place.x);
        y = y.with(place.y);
    }
    x.spread() >= y.spread()
}

fn key_at(places: &[Place], wide: bool, node: u32) -> SortKey
    requires { node < length places.now }
    ensures { result ≡ key_of places.now wide node }
{
    let place = places[node as usize];
    let (first, second) = if wide {
        (place.x, place.y)
    } else {
        (place.y, place.x)
    };
    SortKey {
        first,
        second,
        node,
    }
}

fn keys(alloc: Global, places: &[Place], wide: bool, part: &[u32]) -> Result<Vec<SortKey>, NoMemory>
    requires { All (λ node. node < length places.now) part.now }
    ensures { IfOk result (λ keys. keys.items ≡ map (key_of places.now wide) part.now) }
{
    let mut keys = Vec::with_capacity(alloc, part.len())?;
    for node in part {
        keys.push(key_at(places, wide, *node))?;
    }
    Ok(keys)
}

// The key of the last node of the first half.
fn last_left(alloc: Global, places: &[Place], wide: bool, part: &[u32]) -> Result<SortKey, NoMemory>
    requires some { 1 < length part.now }
    requires part { IsPart (length places.now) part.now }
    ensures { IfOk result (IsLastLeft places.now wide part.now) }
{
    let mut keys = keys(alloc, places, wide, part)?;
    keys.sort_unstable();
    Ok(keys[part.len() / 2 - 1])
}

fn is_at_most(key: SortKey, last: SortKey) -> bool
    ensures { result ≡ not (is_lt (compare last key)) }
{
    key <= last
}

/// The first half of the nodes of a part by their places, half of them or one less than the others, and the other half.
pub(crate) fn halve(alloc: Global, places: &[Place], part: &[u32]) -> Result<Halves, NoMemory>
    requires some { 1 < length part.now }
    requires part { IsPart (length places.now) part.now }
    ensures left { IfOk result (λ halves. halves.left.items ≡ left_of places.now part.now) }
    ensures rest { IfOk result (λ halves. halves.rest.items ≡ rest_of places.now part.now) }
    ensures half { IfOk result (λ halves. length halves.left.items ≡ length part.now / 2) }
{
    let wide = cuts_across_x(places, part);
    let last = last_left(alloc, places, wide, part)?;
    let mut left = Vec::with_capacity(alloc, part.len())?;
    let mut rest = Vec::with_capacity(alloc, part.len())?;
    for node in part {
        if is_at_most(key_at(places, wide, *node), last) {
            left.push(*node)?;
        } else {
            rest.push(*node)?;
        }
    }
    Ok(Halves { left, rest })
}
