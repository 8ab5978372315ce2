//! What holds in a built hierarchy, said of the definitions alone.

ghost use Rattle.std.specs.Prelude.{◌≡◌, ℕ, List, Option, Some, slice_get};
ghost use Rattle.cu_arrival.specs.declared.runs.Run.{Run};
ghost use Rattle.cu_chordal.specs.declared.graph.Ends.{Ends};
ghost use Rattle.cu_interval.specs.declared.ways.Dir.{Dir};
ghost use Rattle.cu_interval.specs.Hierarchies.{HierarchyValue, IsBuilt, start_of, end_of};
ghost use Rattle.cu_unpack.specs.Answers.{walk_over};
ghost use Rattle.cu_unpack.specs.LeastFunctions.{IsLeastFunction};
ghost use Rattle.cu_unpack.specs.Rebuilds.{IsRebuiltFunction};
ghost use Rattle.cu_unpack.specs.Visits.{VisitsOnce};

/// A law: in a built hierarchy the walk of a shortcut visits no node twice.
pub fn walks_visit_once()
    ensures once { (h : HierarchyValue) (edge : ℕ) (dir : Dir) (second : ℕ) → IsBuilt h
        → VisitsOnce h.network (walk_over h edge dir second) }
{}

/// A law: in a built hierarchy the function of a shortcut that is rebuilt from its ways is that of the least arrivals over
/// all low walks between its ends, and there is none exactly where no low walk leads there.
pub fn rebuilt_is_least()
    ensures least { (h : HierarchyValue) (edge : ℕ) (dir : Dir) (ends : Ends)
        (function : Option (List Run)) → IsBuilt h → slice_get h.edges edge ≡ Some ends
        → IsRebuiltFunction h edge dir function
        → IsLeastFunction h.network h.order (start_of ends dir) (end_of ends dir) function }
{}
