//! Dissections that were worked by hand.

use cu_dissect::{Split, dissect};
use cu_model::{Order, Roads};
use cu_roads::read_network;
use cu_samples::{EMPTY, NODES, ROW, Tables};
use std::alloc::Global;
use std::test::Fail;

fn dissected(alloc: Global, tables: Tables<'_>) -> Result<(Order, Vec<Split>), Fail> {
    let (network, places) = read_network(alloc, tables.nodes, tables.roads, tables.profiles)?;
    let _nodes = network.nodes();
    Ok(dissect(alloc, &network, &places)?)
}

fn has_nodes(order: &Order, wanted: &[u32]) -> bool {
    for rank in 0..order.nodes() {
        if wanted.get(rank as usize) != Some(&order.node(rank)) {
            return false;
        }
    }
    order.nodes() as usize == wanted.len()
}

// The same nine nodes in a column: node 0 lies highest, and ties in y go by x: nodes 7 and 8 lie beside each other.
const COLUMN: Tables<'static> = Tables {
    nodes: b"node,x,y\n0,0,800\n1,0,700\n2,0,600\n3,0,500\n4,0,400\n5,0,300\n6,0,200\n7,5,0\n8,0,0\n",
    ..ROW
};

// A dissection: its tables, the nodes by rank, and both sides and the separator.
struct Row<'a> {
    tables: Tables<'a>,
    nodes: &'a [u32],
    left: &'a [u32],
    right: &'a [u32],
    separator: &'a [u32],
}

const CUT: [Row<'static>; 2] = [
    Row {
        tables: ROW,
        nodes: &[0, 1, 2, 3, 5, 6, 7, 8, 4],
        left: &[0, 1, 2, 3],
        right: &[5, 6, 7, 8],
        separator: &[4],
    },
    Row {
        tables: COLUMN,
        nodes: &[5, 6, 7, 8, 0, 1, 2, 3, 4],
        left: &[5, 6, 7, 8],
        right: &[0, 1, 2, 3],
        separator: &[4],
    },
];

#[test]
fn cuts_a_row_and_a_column_in_their_middle(rt: HostRuntime) -> Result<(), Fail> {
    for row in &CUT {
        let (order, splits) = dissected(rt.alloc(), row.tables)?;
        assert!(rt; has_nodes(&order, row.nodes));
        assert!(rt; splits.len() == 1);
        assert_eq!(rt; splits[0].left.as_slice(), row.left);
        assert_eq!(rt; splits[0].right.as_slice(), row.right);
        assert_eq!(rt; splits[0].separator.as_slice(), row.separator);
    }
    Ok(())
}

#[test]
fn leaves_small_networks_as_they_are(rt: HostRuntime) -> Result<(), Fail> {
    let three = Tables {
        nodes: NODES,
        roads: b"arc,tail,head,profile\n0,0,1,0\n1,1,2,0\n",
        ..ROW
    };
    let rows: [(Tables<'_>, &[u32]); 2] = [(three, &[0, 1, 2]), (EMPTY, &[])];
    for (tables, nodes) in rows {
        let (order, splits) = dissected(rt.alloc(), tables)?;
        assert!(rt; has_nodes(&order, nodes));
        assert!(rt; splits.is_empty());
    }
    Ok(())
}
