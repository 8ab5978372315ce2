//! Functions of shortcuts, asked one after the other.

ghost use Rattle.std.specs.Prelude.{◌≡◌, ◌<◌, ◌++◌, ◌∷◌, [], List, IfOk, OnErr, length};
ghost use Rattle.cu_interval.specs.declared.shortcuts.Shortcut.{Shortcut};
ghost use Rattle.cu_interval.specs.Hierarchies.{HierarchyValue, IsHierarchy};
ghost use Rattle.cu_unpack.specs.Rebuilds.{IsRebuiltFunction};

use cu_arrival::Arrival;
use cu_interval::Dir;
use cu_model::NoMemory;
use std::alloc::Global;

/// Whatever has the functions of the shortcuts of one hierarchy. It tells its calls so far, each by the shortcut that was asked.
pub trait DayFunctions {
    ghost hierarchy: { Self → HierarchyValue };

    ghost calls: { Self → List Shortcut };

    /// The function of an edge in a direction over the day; none exactly where its list is empty. The edge's number is below the
    /// number of edges. Refused only for want of memory, and then it is no call.
    fn function(&mut self, alloc: Global, edge: u32, dir: Dir) -> Result<Option<Arrival>, NoMemory>
        requires edge { edge < length (hierarchy self.old).edges }
        ensures function { IfOk result
            (λ function. IsRebuiltFunction (hierarchy self.old) edge dir function) }
        ensures adds { IfOk result (λ _.
            calls self.new ≡ calls self.old ++ (record { edge = edge; dir = dir }) ∷ []) }
        ensures kept { OnErr result (calls self.new ≡ calls self.old) }
        ensures sound { IsHierarchy (hierarchy self.old) }
        ensures stays { hierarchy self.new ≡ hierarchy self.old };
}
