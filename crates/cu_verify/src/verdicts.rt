//! The verdict over a packed file.

ghost use Rattle.std.specs.Prelude.{IfOk};
ghost use Rattle.cu_verify.specs.Verdicts.{IsVerdict};

use crate::comparing::compare;
use cu_customize::built_lists_telling;
use cu_interval::{Dir, Way, Ways};
use cu_model::{NoMemory, copy_network};
use cu_pack::{PackedView, chordal_of, order_of};
use cu_progress::{Progress, Silent};
use std::alloc::Global;

/// Whether the ways of a packed file are those of the built hierarchy of its network and order.
#[derive(Clone, Copy, Debug, PartialEq, Eq)]
pub enum Verdict {
    /// They are.
    Same,
    /// They aren't. The list of this edge in this direction is the first that differs, by edge and then upwards before
    /// downwards. It does so first at this second of the day, at which the file takes the way `stored` and the built
    /// hierarchy the way `built`; none where the list is empty.
    Differs {
        edge: u32,
        dir: Dir,
        second: u32,
        stored: Option<Way>,
        built: Option<Way>,
    },
}

/// Compares a packed file with the hierarchy that is built of its network and order. How much of that is settled is told as it
/// goes.
pub fn verify_telling<P: Progress>(
    alloc: Global,
    view: &PackedView<'_>,
    progress: &mut P,
) -> Result<Verdict, NoMemory>
    ensures right { IfOk result (IsVerdict view.now) }
{
    let network = copy_network(alloc, view)?;
    let order = order_of(alloc, view)?;
    let graph = chordal_of(alloc, view)?;
    prove_eq!(graph.edges(), view.edges());
    let built = built_lists_telling(alloc, &network, &order, &graph, progress)?;
    Ok(compare(view, &built, progress))
}

/// Compares a packed file with the hierarchy that is built of its network and order.
pub fn verify(alloc: Global, view: &PackedView<'_>) -> Result<Verdict, NoMemory>
    ensures right { IfOk result (IsVerdict view.now) }
{
    verify_telling(alloc, view, &mut Silent)
}
