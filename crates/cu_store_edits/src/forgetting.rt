//! Forgetting what an edit touches.

ghost use Rattle.std.specs.Prelude.{◌≡◌, ◌<◌, ◌*◌, ◌+◌, ℕ, All, List, length, map};
ghost use Rattle.cu_model.specs.declared.roads.Edit.{Edit};
ghost use Rattle.cu_interval.specs.declared.ways.TouchedEdge.{TouchedEdge};
ghost use Rattle.cu_interval.specs.Hierarchies.{HierarchyValue, IsHierarchy};
ghost use Rattle.cu_resettled.specs.ResettlingAll.{IsResettledAll, NumbersTouchedBySome};
ghost use Rattle.cu_store.specs.Known.{Knows};
ghost use Rattle.cu_store_edits.specs.Forgetting.{Forgets};

use cu_interval::TouchedEdge;
use cu_store::Store;

/// Nothing is known of the lists of these edges from then on. Where they are those that some edits touch, what is left is so
/// in the hierarchy that these leave. Takes no memory.
pub fn forget_edges(store: &mut Store, lists: &[TouchedEdge])
    requires { All
        (λ (touched : TouchedEdge). 2 * touched.edge + 1 < length store.old.known) lists.now }
    ensures forgets { Forgets store.old.known store.new.known
        (map (λ (touched : TouchedEdge). touched.edge) lists.now) }
    ensures knows { (old new : HierarchyValue) (edits : List Edit) → IsHierarchy old
        → IsResettledAll old edits new → Knows old store.old.known
        → NumbersTouchedBySome old edits
        (map (λ (touched : TouchedEdge). touched.edge) lists.now)
        → Knows new store.new.known }
{
    'lists: for touched in lists {
        let up = 2 * touched.edge as usize;
        store.forget(up);
        store.forget(up + 1);
    }
}
