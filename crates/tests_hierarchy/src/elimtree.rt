//! Trees that were worked by hand.

ghost use Rattle.std.specs.Prelude.{◌≡◌, IfOk, length};

use crate::ranked::Ranked;
use cu_chordal::close;
use cu_elimtree::Tree;
use cu_model::{Network, Order};
use cu_samples::RUSH_HOUR;
use std::alloc::Global;
use std::process::Abort;
use std::test::Fail;

// The tree of the rush hour's graph.
fn triangle(alloc: Global) -> Result<Tree, Fail> {
    let ranked = Ranked::of(alloc, RUSH_HOUR)?;
    let graph = close(alloc, &ranked.network, &ranked.order)?;
    Ok(Tree::of(alloc, &graph)?)
}

// Each of three ranks is below the next.
fn climbs_by_parents(rt: &impl Abort, tree: &Tree) {
    assert!(rt; tree.ranks() == 3);
    assert_eq!(rt; tree.parent(0), Some(1));
    assert_eq!(rt; tree.parent(1), Some(2));
    assert_eq!(rt; tree.parent(2), None);
    assert!(rt; tree.is_ancestor(2, 0));
    assert!(rt; !tree.is_ancestor(0, 1));
}

// And the lowest climbs over all of them.
fn climbs_by_ancestors(rt: &impl Abort, alloc: Global, tree: &Tree) -> Result<(), Fail> {
    assert!(rt; tree.ranks() == 3);
    let mut climbed = Vec::new(alloc);
    for ancestor in tree.ancestors(0) {
        climbed.push(ancestor)?;
    }
    assert_eq!(rt; climbed.as_slice(), [0, 1, 2].as_slice());
    Ok(())
}

#[test]
fn a_triangle_has_one_branch(rt: HostRuntime) -> Result<(), Fail> {
    let tree = triangle(rt.alloc())?;
    climbs_by_parents(&rt, &tree);
    climbs_by_ancestors(&rt, rt.alloc(), &tree)
}

// The tree of two nodes without roads.
fn apart(alloc: Global) -> Result<Tree, Fail>
    ensures { IfOk result (λ tree. length tree ≡ 2) }
{
    let network = Network::of(2, Vec::new(alloc), Vec::new(alloc));
    let order = Order::identity(alloc, 2)?;
    let graph = close(alloc, &network, &order)?;
    Ok(Tree::of(alloc, &graph)?)
}

#[test]
fn ranks_without_edges_are_roots(rt: HostRuntime) -> Result<(), Fail> {
    let tree = apart(rt.alloc())?;
    for rank in 0..2 {
        assert_eq!(rt; tree.parent(rank), None);
        assert!(rt; !tree.is_ancestor(1 - rank, rank));
    }
    Ok(())
}
