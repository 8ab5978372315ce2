//! Splitting a part into two sides and what separates them.

ghost use Rattle.std.specs.Prelude.{◌≡◌, ◌<◌, ℕ, not, false, IfOk, OnOk, All, length, slice_index_or, if◌then◌else◌};
ghost use Rattle.std.specs.List.{filter};
ghost use Rattle.cu_dissect.specs.Dissection.{has, split_of};
ghost use Rattle.cu_dissect.specs.Steps.Parts.{AreClear, AreParts, HoldsNeighbours, IsMap, IsPart, far_ends, is_beside, is_marked, near_ends};

use crate::halving::halve;
use crate::splits::Split;
use cu_chordal::Groups;
use cu_model::{Network, NoMemory, Roads};
use cu_roads::Place;
use std::alloc::Global;

/// A network with the places and the neighbours of its nodes.
#[derive(Drop)]
pub(crate) struct Map<'a> {
    pub(crate) network: &'a Network,
    pub(crate) places: &'a [Place],
    pub(crate) neighbours: Groups,
}

/// The ends of each road, and opposite to each the other end.
#[derive(Drop)]
struct RoadEnds {
    near: Vec<u32>,
    far: Vec<u32>,
}

fn road_ends(alloc: Global, network: &Network) -> Result<RoadEnds, NoMemory>
    ensures near { IfOk result (λ ends. ends.near.items ≡ near_ends network.now.arcs) }
    ensures far { IfOk result (λ ends. ends.far.items ≡ far_ends network.now.arcs) }
{
    let mut near = Vec::with_capacity(alloc, 2 * network.arcs() as usize)?;
    let mut far = Vec::with_capacity(alloc, 2 * network.arcs() as usize)?;
    for number in 0..network.arcs() {
        let arc = network.arc(number);
        near.push(arc.tail)?;
        far.push(arc.head)?;
        near.push(arc.head)?;
        far.push(arc.tail)?;
    }
    Ok(RoadEnds { near, far })
}

/// The neighbours of each node: the other ends of the roads from it and to it.
pub(crate) fn neighbours_of(alloc: Global, network: &Network) -> Result<Groups, NoMemory>
    ensures { IfOk result (HoldsNeighbours network.now) }
{
    let ends = road_ends(alloc, network)?;
    Groups::of(alloc, &ends.near, &ends.far, network.nodes())
}

// Marks these nodes, or clears their marks.
fn mark(marks: &mut [bool], nodes: &[u32], value: bool)
    requires { All (λ node. node < length marks.old) nodes.now }
    ensures { (node : ℕ) → slice_index_or marks.new node false
        ≡ (if has nodes.now node then value else slice_index_or marks.old node false) }
{
    for node in nodes {
        marks[*node as usize] = value;
    }
}

// Whether one of these nodes is marked.
fn has_marked(marks: &[bool], nodes: &[u32]) -> bool
    requires { All (λ node. node < length marks.now) nodes.now }
    ensures { result ≡ is_marked marks.now nodes.now }
{
    for node in nodes {
        if marks[*node as usize] {
            return true;
        }
    }
    false
}

// Whether a node has a marked neighbour.
fn is_beside(map: &Map<'_>, marks: &[bool], node: u32) -> bool
    requires map { IsMap map.now }
    requires marks { length marks.now ≡ map.now.network.now.nodes }
    requires in_range { node < map.now.network.now.nodes }
    ensures { result ≡ is_beside map.now.neighbours marks.now node }
{
    has_marked(marks, map.neighbours.group(node))
}

/// The nodes with a marked neighbour, and the others.
#[derive(Drop)]
struct Sides {
    beside: Vec<u32>,
    others: Vec<u32>,
}

fn part_by_marks(
    alloc: Global,
    map: &Map<'_>,
    marks: &[bool],
    nodes: &[u32],
) -> Result<Sides, NoMemory>
    requires map { IsMap map.now }
    requires marks { length marks.now ≡ map.now.network.now.nodes }
    requires in_range { All (λ node. node < map.now.network.now.nodes) nodes.now }
    ensures beside { IfOk result (λ sides. sides.beside.items
        ≡ filter (is_beside map.now.neighbours marks.now) nodes.now) }
    ensures others { IfOk result (λ sides. sides.others.items
        ≡ filter (λ node. not (is_beside map.now.neighbours marks.now node)) nodes.now) }
{
    let mut beside = Vec::new(alloc);
    let mut others = Vec::with_capacity(alloc, nodes.len())?;
    for node in nodes {
        if is_beside(map, marks, *node) {
            beside.push(*node)?;
        } else {
            others.push(*node)?;
        }
    }
    Ok(Sides { beside, others })
}

/// Splits a part. No mark is set before, nor afterwards.
pub(crate) fn split(
    alloc: Global,
    map: &Map<'_>,
    marks: &mut [bool],
    part: &[u32],
) -> Result<Split, NoMemory>
    requires some { 1 < length part.now }
    requires part { IsPart map.now.network.now.nodes part.now }
    requires map { IsMap map.now }
    requires long { length marks.old ≡ map.now.network.now.nodes }
    requires clear { AreClear marks.old }
    ensures clear { OnOk result (AreClear marks.new) }
    ensures exact { IfOk result
        (λ split. split ≡ split_of map.now.network.now map.now.places.now part.now) }
    ensures halves { IfOk result (AreParts map.now.network.now.nodes (length part.now)) }
{
    let halves = halve(alloc, map.places, part)?;
    mark(marks, &halves.left, true);
    let sides = part_by_marks(alloc, map, marks, &halves.rest)?;
    mark(marks, &halves.left, false);
    Ok(Split {
        left: halves.left,
        right: sides.others,
        separator: sides.beside,
    })
}
