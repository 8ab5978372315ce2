//! Which edges the sweeps take, and what their calls say of the roads, said of the definitions alone.

ghost use Rattle.std.specs.Prelude.{◌≡◌, ℕ, Bool, List, Some, true};
ghost use Rattle.cu_interval.specs.declared.relaxing.Call.{Call};
ghost use Rattle.cu_interval.specs.declared.ways.Dir.TheVariants.{Up, Down};
ghost use Rattle.cu_interval.specs.declared.shortcuts.Shortcut.{Shortcut};
ghost use Rattle.cu_interval.specs.Hierarchies.{HierarchyValue, IsHierarchy};
ghost use Rattle.cu_drive.specs.RoadTexts.{driven_text};
ghost use Rattle.cu_sweep.specs.Desks.{AreArriving, AreChained, call_text, roads_of, routed_text};
ghost use Rattle.cu_sweep.specs.Labels.{Label, down_label};
ghost use Rattle.cu_sweep.specs.ArcsOnce.{TakesArcsOnce, TakesEdgesOnce};
ghost use Rattle.cu_sweep.specs.LedCalls.{AreArcsOnce, AreSomeOf, LeadOn, arcs_down, arcs_up};
ghost use Rattle.cu_sweep.specs.Sweeps.{down_calls, up_calls};
ghost use Rattle.cu_sweep.specs.ToAll.{down_calls_to_all};

/// A law: the upward sweep takes sweep arcs of its start alone, and the downward one those of its end, each at most once; and
/// the downward sweep of a reach takes edges, each at most once.
pub fn sweeps_take_arcs_once()
    ensures up { (h : HierarchyValue) (from second : ℕ) → IsHierarchy h
        → TakesArcsOnce h from Up (up_calls h from second) }
    ensures down { (h : HierarchyValue) (from to second : ℕ) → IsHierarchy h
        → TakesArcsOnce h to Down (down_calls h from to second) }
    ensures all { (h : HierarchyValue) (from second : ℕ) → IsHierarchy h
        → TakesEdgesOnce h Down (down_calls_to_all h from second) }
{}

/// A law: what a led query takes of a sweep, and of its way in each direction, are sweep arcs, each at most once.
pub fn led_queries_take_arcs_once()
    ensures up { (h : HierarchyValue) (from : ℕ) (arcs : List Shortcut) → IsHierarchy h
        → AreSomeOf (arcs_up h from) arcs → AreArcsOnce h from Up arcs }
    ensures down { (h : HierarchyValue) (to : ℕ) (arcs : List Shortcut) → IsHierarchy h
        → AreSomeOf (arcs_down h to) arcs → AreArcsOnce h to Down arcs }
    ensures way_up { (h : HierarchyValue) (from top : ℕ) (arcs : List Shortcut) → IsHierarchy h
        → LeadOn h from Up from arcs top → AreArcsOnce h from Up arcs }
    ensures way_down { (h : HierarchyValue) (to top last : ℕ) (arcs : List Shortcut)
        → IsHierarchy h → LeadOn h to Down top arcs last → AreArcsOnce h to Down arcs }
{}

/// A law: where calls all arrive, and each is asked when those before it do, as the calls of a label are, what is written of
/// them, one behind the other, is the drive of all their roads, each entered at its second.
pub fn routes_are_drives()
    ensures drives { (h : HierarchyValue) (text : Bool → ℕ → ℕ → List ℕ) (calls : List Call)
        (t : ℕ) → IsHierarchy h → AreArriving h calls → AreChained h t calls
        → routed_text (call_text text h) true calls
        ≡ driven_text text h.network true (roads_of h calls) t }
    ensures chained { (h : HierarchyValue) (from to t : ℕ) (label : Label) → IsHierarchy h
        → down_label h from t to ≡ Some label → AreChained h t label.calls }
{}
