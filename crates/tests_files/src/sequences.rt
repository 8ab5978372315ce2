//! The roads of lists that have the same ones at every second, as they are made and forgotten.

ghost use Rattle.std.specs.Prelude.{◌≡◌, length};
ghost use Rattle.cu_sequences.specs.Kept.{AreSequences};

use crate::recalls::BESIDE;
use cu_interval::{Dir, Shortcut, TouchedEdge, WayList, Ways};
use cu_pack::PackedView;
use cu_samples::{Tables, packed};
use cu_sequences::Sequences;
use std::alloc::Global;
use std::test::Fail;

// An edge whose lists were replaced, with no ways.
fn replaced(alloc: Global, edge: u32) -> TouchedEdge
    ensures { result.edge ≡ edge }
{
    TouchedEdge {
        edge,
        up: no_ways(alloc),
        down: no_ways(alloc),
    }
}

fn no_ways(alloc: Global) -> WayList {
    WayList::of(Vec::new(alloc)).unwrap()
}

/// The sequences of all lists that have one.
pub(crate) fn all_sequences(alloc: Global, view: &PackedView<'_>) -> Sequences
    ensures { AreSequences view.now result }
{
    let mut sequences = Sequences::with_room(alloc, view.edges());
    'edges: for edge in 0..view.edges() {
        let (up, down) = (Dir::Up, Dir::Down);
        sequences.make(view, Shortcut { edge, dir: up });
        sequences.make(view, Shortcut { edge, dir: down });
    }
    sequences
}

/// The same without those of the lists of an edge in the middle and of the last.
pub(crate) fn some_sequences(alloc: Global, view: &PackedView<'_>) -> Sequences
    ensures { AreSequences view.now result }
{
    let last = view.edges().saturating_sub(1);
    let mut sequences = all_sequences(alloc, view);
    sequences.forget(&[replaced(alloc, last / 2), replaced(alloc, last)]);
    sequences
}

// A list, and the roads that are kept of it.
type Row<'a> = (u32, Option<&'a [u32]>);

// Are these the roads that are kept?
fn keeps(sequences: &Sequences, rows: &[Row<'_>]) -> bool {
    for (list, roads) in rows {
        if sequences.of_list(*list) != *roads || sequences.has(*list) != roads.is_some() {
            return false;
        }
    }
    true
}

// The roads are 2 -> 0, 0 -> 1, 1 -> 3 and 2 -> 3, and the edges those between nodes 0 and 1, 0 and 2, 1 and 2, 1 and 3, and 2 and 3. From
// node 2 to node 1 the way is by node 0 all day, and from node 2 to node 3 by node 1 for some hours.
const ALL: [Row<'static>; 10] = [
    (0, Some(&[1])),
    (1, None),
    (2, None),
    (3, Some(&[0])),
    (4, None),
    (5, Some(&[0, 1])),
    (6, Some(&[2])),
    (7, None),
    (8, None),
    (9, None),
];

// What is left behind an edit that touches the second edge alone.
const LEFT: [Row<'static>; 4] = [(0, Some(&[1])), (3, None), (5, Some(&[0, 1])), (10, None)];

const NONE: [Row<'static>; 4] = [(0, None), (3, None), (5, None), (6, None)];

// Are they as they are made, forgotten and cleared?
fn are_kept(alloc: Global, view: &PackedView<'_>) -> bool {
    let mut sequences = all_sequences(alloc, view);
    let all = keeps(&sequences, &ALL) && !sequences.is_nearly_full();
    sequences.forget(&[replaced(alloc, 1), replaced(alloc, 5)]);
    let left = keeps(&sequences, &LEFT);
    sequences.clear();
    all && left && keeps(&sequences, &NONE) && keeps(&Sequences::none(alloc), &NONE)
}

// Is a list made only behind its halves?
fn follows_halves(alloc: Global, view: &PackedView<'_>, edges: u32) -> bool
    requires { edges ≡ length view.now.edges }
{
    if edges < 3 {
        return false;
    }
    let mut sequences = Sequences::with_room(alloc, edges);
    let (up, down) = (Dir::Up, Dir::Down);
    sequences.make(view, Shortcut { edge: 2, dir: down });
    sequences.make(view, Shortcut { edge: 1, dir: down });
    sequences.make(view, Shortcut { edge: 0, dir: up });
    let early = sequences.has(5);
    sequences.make(view, Shortcut { edge: 2, dir: down });
    !early
        && keeps(
            &sequences,
            &[(0, Some(&[1])), (3, Some(&[0])), (5, Some(&[0, 1]))],
        )
}

#[test]
fn sequences_are_made_and_forgotten(rt: HostRuntime) -> Result<(), Fail> {
    let alloc = rt.alloc();
    let bytes = packed(alloc, BESIDE)?;
    let view = PackedView::open(alloc, &bytes)?;
    assert!(rt; are_kept(alloc, &view));
    assert!(rt; follows_halves(alloc, &view, view.edges()));
    Ok(())
}

/// A chain of 34 roads, by whose order all nodes between its ends come first: from its first node there is a list to each other one.
pub(crate) const CHAIN: Tables<'static> = Tables {
    nodes: b"node,x,y\n0,0,0\n1,0,0\n2,0,0\n3,0,0\n4,0,0\n5,0,0\n6,0,0\n7,0,0\n8,0,0\n9,0,0\n10,0,0\n11,0,0\n12,0,0\n13,0,0\n14,0,0\n15,0,0\n16,0,0\n17,0,0\n18,0,0\n19,0,0\n20,0,0\n21,0,0\n22,0,0\n23,0,0\n24,0,0\n25,0,0\n26,0,0\n27,0,0\n28,0,0\n29,0,0\n30,0,0\n31,0,0\n32,0,0\n33,0,0\n34,0,0\n",
    roads: b"arc,tail,head,profile\n0,0,1,0\n1,1,2,0\n2,2,3,0\n3,3,4,0\n4,4,5,0\n5,5,6,0\n6,6,7,0\n7,7,8,0\n8,8,9,0\n9,9,10,0\n10,10,11,0\n11,11,12,0\n12,12,13,0\n13,13,14,0\n14,14,15,0\n15,15,16,0\n16,16,17,0\n17,17,18,0\n18,18,19,0\n19,19,20,0\n20,20,21,0\n21,21,22,0\n22,22,23,0\n23,23,24,0\n24,24,25,0\n25,25,26,0\n26,26,27,0\n27,27,28,0\n28,28,29,0\n29,29,30,0\n30,30,31,0\n31,31,32,0\n32,32,33,0\n33,33,34,0\n",
    profiles: b"profile,from,kind,value\n0,0,travel,60\n",
    ranks: b"1\n2\n3\n4\n5\n6\n7\n8\n9\n10\n11\n12\n13\n14\n15\n16\n17\n18\n19\n20\n21\n22\n23\n24\n25\n26\n27\n28\n29\n30\n31\n32\n33\n0\n34\n",
};

const FIRST_ROADS: [u32; 32] = [
    0, 1, 2, 3, 4, 5, 6, 7, 8, 9, 10, 11, 12, 13, 14, 15, 16, 17, 18, 19, 20, 21, 22, 23, 24, 25,
    26, 27, 28, 29, 30, 31,
];

// Sequences are kept of up to 32 roads: those to the nodes 1, 2 and 32, but neither to node 33 nor to the last one.
const FROM_FIRST: [Row<'static>; 5] = [
    (3, Some(&[0])),
    (7, Some(&[0, 1])),
    (127, Some(&FIRST_ROADS)),
    (129, None),
    (132, None),
];

#[test]
fn long_sequences_are_left_out(rt: HostRuntime) -> Result<(), Fail> {
    let alloc = rt.alloc();
    let bytes = packed(alloc, CHAIN)?;
    let view = PackedView::open(alloc, &bytes)?;
    assert!(rt; view.edges() == 67);
    assert!(rt; keeps(&all_sequences(alloc, &view), &FROM_FIRST));
    Ok(())
}
