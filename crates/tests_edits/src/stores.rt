//! What a store knows, before an edit and behind it.

ghost use Rattle.std.specs.Prelude.{◌≡◌, ◌<◌, IfOk, length};

use crate::marks::settled;
use cu_model::NoMemory;
use cu_store::{Found, Store};
use cu_store_edits::forget_edges;
use std::alloc::Global;
use std::test::Fail;

// A store of six lists, each of which is known to be empty.
fn empty_lists(alloc: Global) -> Result<Store, NoMemory>
    ensures { IfOk result (λ store. length store.known ≡ 6) }
{
    let mut store = Store::new(alloc, 6, 10)?;
    'lists: for list in 0..6usize {
        store.put_empty(list);
    }
    Ok(store)
}

// Are these found of its lists?
fn are_found(store: &Store, wanted: &[Found; 6]) -> bool
    requires { length store.now.known ≡ 6 }
{
    for list in 0..6usize {
        if store.value(list, 0) != wanted[list] {
            return false;
        }
    }
    true
}

const UNKNOWN: Found = Found::Unknown;

const NO_WAY: Found = Found::NoWay;

// Forgets the lists of the last edge and of the first, as an edit does that touches them.
fn forget_two(alloc: Global, store: &mut Store)
    requires { length store.old.known ≡ 6 }
    ensures { length store.new.known ≡ 6 }
{
    forget_edges(store, &[settled(alloc, 0), settled(alloc, 2)]);
}

#[test]
fn lists_of_touched_edges_are_forgotten(rt: HostRuntime) -> Result<(), Fail> {
    let alloc = rt.alloc();
    let mut store = empty_lists(alloc)?;
    assert!(rt; are_found(&store, &[NO_WAY; 6]));
    forget_two(alloc, &mut store);
    assert!(rt;
        are_found(
            &store,
            &[UNKNOWN, UNKNOWN, NO_WAY, NO_WAY, UNKNOWN, UNKNOWN]
        )
    );
    store.clear();
    assert!(rt; are_found(&store, &[UNKNOWN; 6]));
    Ok(())
}
