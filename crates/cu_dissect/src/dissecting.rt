//! Dissecting a network part by part.

ghost use Rattle.std.specs.Prelude.{◌≡◌, ◌≤◌, ◌<◌, ℕ, [], ◌∷◌, ◌++◌, IfOk, OnOk, All, length};
ghost use Rattle.std.specs.List.{range_with_len};
ghost use Rattle.cu_model.specs.Networks.{IsNetwork};
ghost use Rattle.cu_model.specs.Orders.{IsOrder};
ghost use Rattle.cu_chordal.specs.Edges.{IsClosureOf};
ghost use Rattle.cu_chordal.specs.Graphs.{ChordalValue};
ghost use Rattle.cu_dissect.specs.Apart.{IsApart, IsUnrelated};
ghost use Rattle.cu_dissect.specs.Dissection.{dissected, dissected_by, split_of};
ghost use Rattle.cu_dissect.specs.Steps.Parts.{Adds, AreClear, AreParts, IsMap, IsPart};

use crate::splits::Split;
use crate::splitting::{Map, neighbours_of, split};
use cu_model::{Network, NoMemory, Order, Roads};
use cu_progress::{Progress, Silent, Stage, Telling};
use cu_roads::Places;
use std::alloc::Global;

/// The most nodes of a part that isn't split.
const UNSPLIT: usize = 8;

/// The order and the splits so far, and marks of nodes, all clear between two parts.
#[derive(Drop)]
struct Dissection {
    order: Vec<u32>,
    splits: Vec<Split>,
    marks: Vec<bool>,
}

// A second copy of a split.
fn copy_of(alloc: Global, split: &Split) -> Result<Split, NoMemory>
    ensures { IfOk result (λ copy. copy ≡ split.now) }
{
    Ok(Split {
        left: Vec::from_slice(alloc, &split.left)?,
        right: Vec::from_slice(alloc, &split.right)?,
        separator: Vec::from_slice(alloc, &split.separator)?,
    })
}

impl Dissection {
    // Splits a part and lists the split.
    fn split_part(&mut self, alloc: Global, map: &Map<'_>, part: &[u32]) -> Result<Split, NoMemory>
        requires some { 1 < length part.now }
        requires part { IsPart map.now.network.now.nodes part.now }
        requires map { IsMap map.now }
        requires long { length self.old.marks.items ≡ map.now.network.now.nodes }
        requires clear { AreClear self.old.marks.items }
        ensures long { OnOk result (length self.new.marks.items ≡ map.now.network.now.nodes) }
        ensures clear { OnOk result (AreClear self.new.marks.items) }
        ensures exact { IfOk result
            (λ split. split ≡ split_of map.now.network.now map.now.places.now part.now) }
        ensures halves { IfOk result (AreParts map.now.network.now.nodes (length part.now)) }
        ensures listed { IfOk result
            (λ split. self.new.splits.items ≡ self.old.splits.items ++ split ∷ []) }
        ensures order { OnOk result (self.new.order.items ≡ self.old.order.items) }
    {
        let split = split(alloc, map, &mut self.marks, part)?;
        self.splits.push(copy_of(alloc, &split)?)?;
        Ok(split)
    }

    // Adds the order and the splits of a part, and tells how many nodes it has.
    fn add_part<P: Progress>(
        &mut self,
        alloc: Global,
        map: &Map<'_>,
        part: &[u32],
        telling: &mut Telling<'_, P>,
    ) -> Result<(), NoMemory>
        requires part { IsPart map.now.network.now.nodes part.now }
        requires map { IsMap map.now }
        requires long { length self.old.marks.items ≡ map.now.network.now.nodes }
        requires clear { AreClear self.old.marks.items }
        ensures long { OnOk result (length self.new.marks.items ≡ map.now.network.now.nodes) }
        ensures clear { OnOk result (AreClear self.new.marks.items) }
        ensures added { OnOk result ((fuel : ℕ) → length part.now ≤ fuel → Adds
            (dissected_by map.now.network.now map.now.places.now fuel part.now) self.old self.new) }
    {
        if part.len() <= UNSPLIT {
            self.order.extend_from_slice(part)?;
            telling.add(part.len() as u64);
            return Ok(());
        }
        let split = self.split_part(alloc, map, part)?;
        self.add_part(alloc, map, &split.left, telling)?;
        self.add_part(alloc, map, &split.right, telling)?;
        self.order.extend_from_slice(&split.separator)?;
        telling.add(split.separator.len() as u64);
        Ok(())
    }
}

// The numbers below this one, rising.
fn counted(alloc: Global, count: u32) -> Result<Vec<u32>, NoMemory>
    ensures { IfOk result (λ numbers. numbers.items ≡ range_with_len 0 count) }
{
    let mut numbers = Vec::with_capacity(alloc, count as usize)?;
    for number in 0..count {
        numbers.push(number)?;
    }
    Ok(numbers)
}

/// The order of a network's nodes by nested dissection of their places, and all splits of it.
///
/// A part is a set of nodes; the whole network is the first. A part of at most 8 nodes is ordered by rising node number. A
/// larger part is compared by x, then y, then node number where it spreads at least as far in x as in y, and otherwise by y,
/// then x, then node number. Its left side is the first half of its nodes, rounded down. Of the others, those that a road
/// joins to the left side, in either direction, are the separator, and the rest is the right side. The left side comes first
/// in the order, then the right side, each ordered in the same way, then the separator by rising node number. A split is
/// listed before those inside its sides, and those of the left side before those of the right. There are as many places as
/// nodes. A road counts whether or not it may be driven.
pub fn dissect(
    alloc: Global,
    network: &Network,
    places: &Places,
) -> Result<(Order, Vec<Split>), NoMemory>
    requires places { length places.now ≡ network.now.nodes }
    ensures order { IfOk result
        (λ made. made.0.node_at ≡ (dissected network.now places.now).order) }
    ensures splits { IfOk result
        (λ made. made.1.items ≡ (dissected network.now places.now).splits) }
    ensures count { IfOk result (λ made. length made.0.node_at ≡ network.now.nodes) }
    ensures sound { IfOk result (λ made. IsOrder made.0) }
    ensures apart { IfOk result (λ made. All (IsApart network.now) made.1.items) }
    ensures unrelated { IfOk result
        (λ made. (graph : ChordalValue) → IsClosureOf network.now made.0 graph
        → All (IsUnrelated graph made.0) made.1.items) }
{
    dissect_telling(alloc, network, places, &mut Silent)
}

/// [`dissect`], which tells how many nodes are ordered.
pub fn dissect_telling<P: Progress>(
    alloc: Global,
    network: &Network,
    places: &Places,
    progress: &mut P,
) -> Result<(Order, Vec<Split>), NoMemory>
    requires places { length places.now ≡ network.now.nodes }
    ensures order { IfOk result
        (λ made. made.0.node_at ≡ (dissected network.now places.now).order) }
    ensures splits { IfOk result
        (λ made. made.1.items ≡ (dissected network.now places.now).splits) }
    ensures count { IfOk result (λ made. length made.0.node_at ≡ network.now.nodes) }
    ensures sound { IfOk result (λ made. IsOrder made.0) }
    ensures apart { IfOk result (λ made. All (IsApart network.now) made.1.items) }
    ensures unrelated { IfOk result
        (λ made. (graph : ChordalValue) → IsClosureOf network.now made.0 graph
        → All (IsUnrelated graph made.0) made.1.items) }
{
    let mut telling = Telling::begin(progress, Stage::Ordering, u64::from(network.nodes()));
    let dissection = dissection_of(alloc, network, places, &mut telling)?;
    let order = Order::of(alloc, dissection.order)?;
    Ok((order, dissection.splits))
}

// The order and the splits of a whole network.
fn dissection_of<P: Progress>(
    alloc: Global,
    network: &Network,
    places: &Places,
    telling: &mut Telling<'_, P>,
) -> Result<Dissection, NoMemory>
    requires places { length places.now ≡ network.now.nodes }
    ensures order { IfOk result
        (λ made. made.order.items ≡ (dissected network.now places.now).order) }
    ensures splits { IfOk result
        (λ made. made.splits.items ≡ (dissected network.now places.now).splits) }
    ensures sound { OnOk result (IsNetwork network.now) }
{
    let nodes = network.nodes();
    let map = Map {
        network,
        places: &places.places,
        neighbours: neighbours_of(alloc, network)?,
    };
    let mut dissection = Dissection {
        order: Vec::with_capacity(alloc, nodes as usize)?,
        splits: Vec::new(alloc),
        marks: vec![in alloc; false; nodes as usize]?,
    };
    dissection.add_part(alloc, &map, &counted(alloc, nodes)?, telling)?;
    Ok(dissection)
}
