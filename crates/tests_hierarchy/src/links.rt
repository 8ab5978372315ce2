//! A chain and buckets that were worked by hand.

use cu_links::{Chain, RankBuckets};
use std::test::Fail;

#[test]
fn turns_a_chain_of_three_places(rt: HostRuntime) -> Result<(), Fail> {
    let mut chain = Chain::new(rt.alloc(), 3)?;
    chain.set(1, 0, 7);
    chain.set(2, 1, 8);
    assert_eq!(rt; chain.reverse_from(2), 0);
    assert_eq!(rt; chain.follow(0), Some((1, 7)));
    assert_eq!(rt; chain.follow(1), Some((2, 8)));
    assert_eq!(rt; chain.follow(2), None);
    chain.clear();
    assert_eq!(rt; chain.reverse_from(1), 1);
    assert_eq!(rt; chain.follow(1), None);
    Ok(())
}

#[test]
fn pops_the_lowest_rank_first(rt: HostRuntime) -> Result<(), Fail> {
    let mut buckets = RankBuckets::new(rt.alloc(), 3, 3)?;
    assert!(rt; buckets.add(2, 1));
    assert!(rt; buckets.add(0, 0));
    assert!(rt; !buckets.add(2, 1));
    assert_eq!(rt; buckets.pop(), Some((0, 0)));
    assert_eq!(rt; buckets.pop(), Some((2, 1)));
    assert_eq!(rt; buckets.pop(), None);
    buckets.clear();
    assert!(rt; buckets.add(0, 0));
    Ok(())
}
