//! Settling: the ways of one shortcut by the functions of its candidates.

ghost use Rattle.std.specs.Prelude.{◌≡◌, ◌≢◌, ◌<◌, ◌*◌, ◌++◌, ◌∷◌, [], ℕ, List, All, IfOk, IfSome, Some, length, map, slice_get};
ghost use Rattle.std.specs.List.Sorted.{IsStrictlyIncreasing};
ghost use Rattle.cu_model.specs.Networks.{NetworkValue, IsNetwork};
ghost use Rattle.cu_model.specs.Orders.{OrderValue, IsOrder};
ghost use Rattle.cu_chordal.specs.declared.graph.Ends.{Ends};
ghost use Rattle.cu_chordal.specs.Edges.{IsClosureOf};
ghost use Rattle.cu_interval.specs.declared.ways.Way.{Way};
ghost use Rattle.cu_interval.specs.declared.ways.Way.TheVariants.{Road};
ghost use Rattle.cu_interval.specs.EdgeArcs.{AreEdgeArcs};
ghost use Rattle.cu_interval.specs.FirstWays.{IsBuiltList};
ghost use Rattle.cu_interval.specs.Hierarchies.{end_of, list_number, start_of};
ghost use Rattle.cu_interval.specs.WayLists.{GoesFirst};
ghost use Rattle.cu_customize.specs.Functions.{AreFunctionsOf, FunctionsState};
ghost use Rattle.cu_customize.specs.Settling.{IsSettledList, IsValueOf, KnowsHalves};
ghost use Rattle.cu_customize.specs.Steps.Best.{IsBestOf, IsWayFunction};

use crate::by_middles::best_way;
use crate::choosing::{choose_ways, list_of};
use crate::functions::Functions;
use cu_arrival::{Arrival, lesser};
use cu_chordal::Chordal;
use cu_interval::{Dir, EdgeArcs, Entry, Way, WayList, leg_of};
use cu_model::NoMemory;
use std::alloc::Global;

/// What settling a shortcut gives: the list of its ways, and their function; None where it has no way.
#[derive(Drop)]
pub struct Settled {
    pub ways: WayList,
    pub function: Option<Arrival>,
}

// No ways.
fn no_ways(alloc: Global) -> Settled
    ensures some { IfSome result.function (λ _. result.ways ≢ []) }
    ensures best { (edges : List Ends) (f : FunctionsState) (u v : ℕ)
        → IsBestOf edges f u v [] result }
{
    Settled {
        ways: list_of(Vec::new(alloc)),
        function: None,
    }
}

// One way over the whole day.
fn one_way(alloc: Global, way: Way) -> Result<WayList, NoMemory>
    ensures { IfOk result (λ list. list ≡ record { from = 0; way = way } ∷ []) }
{
    let entries = vec![in alloc; Entry { from: 0, way }]?;
    Ok(list_of(entries))
}

/// The best of the ways so far and one more that comes after them, which has this function if any.
pub fn with_way(
    alloc: Global,
    best: Settled,
    way: Way,
    function: Option<Arrival>,
) -> Result<Settled, NoMemory>
    requires some { IfSome best.function (λ _. best.ways ≢ []) }
    ensures some { IfOk result (λ next. IfSome next.function (λ _. next.ways ≢ [])) }
    ensures best { (edges : List Ends) (f : FunctionsState) (u v : ℕ) (ways : List Way)
        → IsBestOf edges f u v ways best
        → All (λ before. GoesFirst before way) ways
        → IsWayFunction edges f u v way function
        → IfOk result (IsBestOf edges f u v (ways ++ way ∷ [])) }
{
    let Some(function) = function else {
        return Ok(best)
    };
    let Settled {
        ways,
        function: standing,
    } = best;
    let Some(standing) = standing else {
        return Ok(Settled {
            ways: one_way(alloc, way)?,
            function: Some(function),
        });
    };
    let (least, choices) = lesser(alloc, &standing, &function)?;
    Ok(Settled {
        ways: choose_ways(alloc, &ways, &choices, way)?,
        function: Some(least),
    })
}

// The best of the ways so far and one more road, which comes after them.
fn with_road<F: Functions>(
    alloc: Global,
    best: Settled,
    arc: u32,
    functions: &mut F,
) -> Result<Settled, NoMemory>
    requires arc { arc < (F.state functions.old).arcs }
    requires some { IfSome best.function (λ _. best.ways ≢ []) }
    ensures some { IfOk result (λ next. IfSome next.function (λ _. next.ways ≢ [])) }
    ensures best { (edges : List Ends) (u v : ℕ) (ways : List Way)
        → IsBestOf edges (F.state functions.old) u v ways best
        → All (λ before. GoesFirst before (Road arc)) ways
        → IfOk result (IsBestOf edges (F.state functions.old) u v (ways ++ Road arc ∷ [])) }
    ensures same { F.state functions.new ≡ F.state functions.old }
{
    let function = functions.road(alloc, arc)?;
    with_way(alloc, best, Way::Road(arc), function)
}

// The best of these roads, by rising number.
fn best_road<F: Functions>(
    alloc: Global,
    arcs: &[u32],
    functions: &mut F,
) -> Result<Settled, NoMemory>
    requires rising { IsStrictlyIncreasing arcs.now }
    requires arcs { All (λ a. a < (F.state functions.old).arcs) arcs.now }
    ensures some { IfOk result (λ best. IfSome best.function (λ _. best.ways ≢ [])) }
    ensures best { (edges : List Ends) (u v : ℕ)
        → IfOk result (IsBestOf edges (F.state functions.old) u v (map Road arcs.now)) }
    ensures same { F.state functions.new ≡ F.state functions.old }
{
    let mut best = no_ways(alloc);
    for arc in arcs {
        best = with_road(alloc, best, *arc, functions)?;
    }
    Ok(best)
}

/// Settles the shortcut of an edge in a direction by these functions: the maximal runs, over a day, of its first
/// candidate that arrives earliest, and when that arrives. The candidates are the edge's roads that aren't closed, by
/// rising number, and then the middles of which both halves have a function, by rising rank. The functions know both
/// halves of each lower triangle of the edge, and so many roads as the edge's need.
pub fn settle<F: Functions>(
    alloc: Global,
    graph: &Chordal,
    arcs: &EdgeArcs,
    edge: u32,
    dir: Dir,
    functions: &mut F,
) -> Result<Settled, NoMemory>
    requires edge { edge < length graph.now.edges }
    requires lists { length arcs.now ≡ 2 * length graph.now.edges }
    requires arcs { (list : List ℕ) → slice_get arcs.now (list_number edge dir) ≡ Some list
        → All (λ a. a < (F.state functions.old).arcs) list }
    requires halves { (ends : Ends) → slice_get graph.now.edges edge ≡ Some ends
        → KnowsHalves graph.now.edges (F.state functions.old)
        (start_of ends dir) (end_of ends dir) }
    ensures ways { (ends : Ends) (list : List ℕ)
        → slice_get graph.now.edges edge ≡ Some ends
        → slice_get arcs.now (list_number edge dir) ≡ Some list
        → IfOk result (λ settled. IsSettledList graph.now.edges list (F.state functions.old)
        (start_of ends dir) (end_of ends dir) settled.ways) }
    ensures function { (ends : Ends) → slice_get graph.now.edges edge ≡ Some ends
        → IfOk result (λ settled. IsValueOf graph.now.edges (F.state functions.old)
        (start_of ends dir) (end_of ends dir) settled.ways settled.function) }
    ensures built { (g : NetworkValue) (o : OrderValue) (ends : Ends)
        → slice_get graph.now.edges edge ≡ Some ends
        → IsNetwork g → IsOrder o → IsClosureOf g o graph.now
        → AreEdgeArcs g o graph.now.edges arcs.now
        → AreFunctionsOf g o graph.now.edges (F.state functions.old)
        → IfOk result
        (λ settled. IsBuiltList g o (start_of ends dir) (end_of ends dir) settled.ways) }
    ensures same { F.state functions.new ≡ F.state functions.old }
{
    let ends = graph.ends(edge);
    let leg = leg_of(ends, dir);
    let roads = best_road(alloc, arcs.arcs(edge, dir), functions)?;
    let best = best_way(alloc, graph, leg, graph.down(ends.low), roads, functions)?;
    Ok(best)
}
