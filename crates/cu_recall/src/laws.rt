//! What is remembered stays true: said of walks alone.

ghost use Rattle.std.specs.Prelude.{◌≡◌, ◌≢◌, ◌≤◌, ◌<◌, ◌+◌, ◌%◌, ℕ, Some};
ghost use Rattle.cu_model.specs.Days.{day};
ghost use Rattle.cu_interval.specs.declared.ways.Way.TheVariants.{Via};
ghost use Rattle.cu_interval.specs.Hierarchies.{HierarchyValue, IsHierarchy, way_from};
ghost use Rattle.cu_recall.specs.Spans.{WalkTakes};

/// A law: what a walk takes at a second of the day it takes at that second of each day, and a walk by a middle takes what
/// both halves take, the second from when the first arrives.
pub fn travels_add()
    ensures days { (h : HierarchyValue) (u v t travel roads : ℕ) → IsHierarchy h → u ≢ v
        → WalkTakes h u v (t % day) travel roads → WalkTakes h u v t travel roads }
    ensures joined { (h : HierarchyValue) (u m v t first_travel first_roads travel roads : ℕ)
        → IsHierarchy h → way_from h u v t ≡ Some (Via m)
        → WalkTakes h u m t first_travel first_roads
        → WalkTakes h m v (t + first_travel) travel roads
        → WalkTakes h u v t (first_travel + travel) (first_roads + roads) }
{}
