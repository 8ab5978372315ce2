//! The functions that settling asks for.

ghost use Rattle.std.specs.Prelude.{◌≡◌, ◌<◌, IfOk, true};
ghost use Rattle.cu_customize.specs.Functions.{FunctionsState, IsFunction};

use cu_arrival::Arrival;
use cu_interval::Dir;
use cu_model::NoMemory;
use std::alloc::Global;

/// Whatever gives the functions of roads and shortcuts. What it gives never changes.
pub trait Functions {
    /// How many roads there are, the function of each, which shortcuts are known, and the function of each of these.
    ghost state: { Self → FunctionsState };

    /// The function of a road, which is below the number of roads. None exactly where it is closed.
    fn road(&mut self, alloc: Global, arc: u32) -> Result<Option<Arrival>, NoMemory>
        requires { arc < (state self.old).arcs }
        ensures function { IfOk result
            (λ function. IsFunction function ((state self.old).road arc)) }
        ensures same { state self.new ≡ state self.old };

    /// The function of a shortcut that is known. None exactly where it has none.
    fn function(&mut self, alloc: Global, edge: u32, dir: Dir) -> Result<Option<Arrival>, NoMemory>
        requires { (state self.old).knows edge dir ≡ true }
        ensures function { IfOk result
            (λ function. IsFunction function ((state self.old).shortcut edge dir)) }
        ensures same { state self.new ≡ state self.old };
}
