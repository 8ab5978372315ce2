//! Ways by middles, one after the other.

ghost use Rattle.std.specs.Prelude.{◌≡◌, ◌≢◌, ◌<◌, ◌++◌, [], ℕ, List, All, IfOk, IfSome, map};
ghost use Rattle.std.specs.List.Sorted.{IsStrictlyIncreasing};
ghost use Rattle.cu_chordal.specs.Graphs.{IsChordal};
ghost use Rattle.cu_interval.specs.declared.ways.Way.TheVariants.{Road, Via};
ghost use Rattle.cu_customize.specs.Settling.{KnowsHalves};
ghost use Rattle.cu_customize.specs.Steps.Best.{IsBestOf, IsWayFunction};

use crate::functions::Functions;
use crate::settling::{Settled, with_way};
use cu_arrival::{Arrival, compose};
use cu_chordal::Chordal;
use cu_interval::{Dir, Leg, Way};
use cu_model::NoMemory;
use std::alloc::Global;

// The function of the way by a middle below both ends. None where a half has none.
fn way_function<F: Functions>(
    alloc: Global,
    graph: &Chordal,
    leg: Leg,
    middle: u32,
    functions: &mut F,
) -> Result<Option<Arrival>, NoMemory>
    requires sound { IsChordal graph.now }
    requires ranks { (leg.from < graph.now.ranks) × (leg.to < graph.now.ranks) }
    requires below { (middle < leg.from) × (middle < leg.to) }
    requires halves { KnowsHalves graph.now.edges (F.state functions.old) leg.from leg.to }
    ensures function { IfOk result (λ function. IsWayFunction graph.now.edges
        (F.state functions.old) leg.from leg.to (Via middle) function) }
    ensures same { F.state functions.new ≡ F.state functions.old }
{
    let Some(to_middle) = graph.edge(middle, leg.from) else {
        return Ok(None)
    };
    let Some(onward) = graph.edge(middle, leg.to) else {
        return Ok(None)
    };
    let Some(first) = functions.function(alloc, to_middle, Dir::Down)? else {
        return Ok(None)
    };
    let Some(second) = functions.function(alloc, onward, Dir::Up)? else {
        return Ok(None)
    };
    let function = compose(alloc, &first, &second)?;
    Ok(Some(function))
}

/// The best of the ways so far and those by these middles, by rising rank, all of them below both ends.
pub fn best_way<F: Functions>(
    alloc: Global,
    graph: &Chordal,
    leg: Leg,
    middles: &[u32],
    roads: Settled,
    functions: &mut F,
) -> Result<Settled, NoMemory>
    requires sound { IsChordal graph.now }
    requires ranks { (leg.from < graph.now.ranks) × (leg.to < graph.now.ranks) }
    requires rising { IsStrictlyIncreasing middles.now }
    requires below { All (λ m. (m < leg.from) × (m < leg.to)) middles.now }
    requires halves { KnowsHalves graph.now.edges (F.state functions.old) leg.from leg.to }
    requires some { IfSome roads.function (λ _. roads.ways ≢ []) }
    ensures best { (arcs : List ℕ)
        → IsBestOf graph.now.edges (F.state functions.old) leg.from leg.to (map Road arcs) roads
        → IfOk result (IsBestOf graph.now.edges (F.state functions.old) leg.from leg.to
        (map Road arcs ++ map Via middles.now)) }
    ensures same { F.state functions.new ≡ F.state functions.old }
{
    let mut best = roads;
    for middle in middles {
        let function = way_function(alloc, graph, leg, *middle, functions)?;
        best = with_way(alloc, best, Way::Via(*middle), function)?;
    }
    Ok(best)
}
