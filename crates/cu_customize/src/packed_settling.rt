//! Settling one shortcut by packed runs, from whatever functions stand for those of the shortcuts below it.

ghost use Rattle.std.specs.Prelude.{◌≡◌, ◌<◌, ◌*◌, [], ℕ, List, All, IfOk, IfSome, OnOk, Some, length, slice_get, true, false, None};
ghost use Rattle.std.specs.List.{Contains};
ghost use Rattle.std.specs.List.Sorted.{IsStrictlyIncreasing};
ghost use Rattle.cu_model.specs.Networks.{NetworkValue};
ghost use Rattle.cu_chordal.specs.declared.graph.Ends.{Ends};
ghost use Rattle.cu_interval.specs.declared.ways.Way.TheVariants.{Via};
ghost use Rattle.cu_interval.specs.Hierarchies.{end_of, list_number, start_of};
ghost use Rattle.cu_customize.specs.Functions.{kept_state};
ghost use Rattle.cu_customize.specs.Settling.{HasFarWay, IsDayValueOf, IsSettledList};
ghost use Rattle.cu_customize.specs.Steps.Gathering.{AreNear, HasTriangles, IsFar, IsNear};
ghost use Rattle.cu_customize.specs.Steps.Triangles.{FindsTriangle};
ghost use Rattle.cu_customize.specs.Triangles.{AreTriangles, AreTrianglesOf};

use crate::gathering::{Gatherer, halves_of};
use crate::pulling::{SettledRuns, pull};
use crate::task::Task;
use crate::triangles::Triangle;
use cu_chordal::{Chordal, Ends};
use cu_interval::{EdgeArcs, Shortcut, leg_of};
use cu_model::{DAY, NoMemory, Roads};
use cu_runs::{LayeredFunctions, MAX_NUMBER, Windows, staying};
use std::alloc::Global;
use std::marker::Model;

/// What settles one shortcut after the other by packed runs, with its room. Contracts see the triangles that it found last.
#[derive(Drop)]
pub struct PackedSettling {
    triangles: Vec<Triangle>,
    gatherer: Gatherer,
    windows: Windows,
}

impl Model for PackedSettling {
    ghost use Rattle.std.specs.Prelude.{List};
    ghost use Rattle.cu_customize.specs.declared.triangles.Triangle.{Triangle};

    ghost Value = { List Triangle };

    ghost view = { λ settling. settling.triangles.items };
}

impl PackedSettling {
    /// With windows of the day that are narrow where profiles of these roads change. No triangles are found yet.
    pub fn new<R: Roads>(alloc: Global, roads: &R) -> Result<PackedSettling, NoMemory>
        ensures { IfOk result (λ settling. settling ≡ []) }
    {
        let windows = Windows::of(roads);
        Ok(PackedSettling {
            triangles: Vec::new(alloc),
            gatherer: Gatherer::new(alloc, windows)?,
            windows,
        })
    }

    /// The windows of the day in which it bounds functions.
    pub fn windows(&self) -> Windows {
        self.windows
    }

    /// Finds the lower triangles of an edge, by which both its shortcuts are settled then.
    pub fn find(&mut self, graph: &Chordal, edge: u32) -> Result<(), NoMemory>
        requires edge { edge < length graph.now.edges }
        ensures { OnOk result (AreTrianglesOf graph.now.edges edge self.new) }
    {
        let ends = graph.ends(edge);
        find_triangles(graph, ends, &mut self.triangles)
    }

    /// The triangles that were found last.
    pub fn triangles(&self) -> &[Triangle]
        ensures { result.now ≡ self.now }
    {
        &self.triangles
    }

    /// Settles a shortcut, the triangles of whose edge were found last, by the functions of these roads and
    /// these functions of shortcuts, by list number: the maximal runs, over a day, of its first candidate that arrives
    /// earliest, and when that arrives. The candidates are the edge's roads that aren't closed, by rising number, and then
    /// the middles of which both halves have a function, by rising rank. None where a way takes longer than packed runs can
    /// say. The triangles stay.
    pub fn settle<R: Roads>(
        &mut self,
        alloc: Global,
        roads: &R,
        graph: &Chordal,
        arcs: &EdgeArcs,
        functions: LayeredFunctions<'_>,
        shortcut: Shortcut,
    ) -> Result<Option<SettledRuns>, NoMemory>
        requires edge { shortcut.edge < length graph.now.edges }
        requires lists { length arcs.now ≡ 2 * length graph.now.edges }
        requires arcs { (list : List ℕ) → slice_get arcs.now (list_number shortcut.edge shortcut.dir) ≡ Some list
            → IsStrictlyIncreasing list × All (λ a. a < length (R.network roads.now).arcs) list }
        requires functions { length functions ≡ 2 * length graph.now.edges }
        requires triangles { AreTrianglesOf graph.now.edges shortcut.edge self.old }
        ensures ways { (ends : Ends) (list : List ℕ)
            → slice_get graph.now.edges shortcut.edge ≡ Some ends
            → slice_get arcs.now (list_number shortcut.edge shortcut.dir) ≡ Some list
            → IfOk result (λ found. IfSome found (λ settled. IsSettledList graph.now.edges list
            (kept_state (R.network roads.now) functions.entry)
            (start_of ends shortcut.dir) (end_of ends shortcut.dir) settled.ways)) }
        ensures function { (ends : Ends) → slice_get graph.now.edges shortcut.edge ≡ Some ends
            → IfOk result (λ found. IfSome found (λ settled. IsDayValueOf graph.now.edges
            (kept_state (R.network roads.now) functions.entry)
            (start_of ends shortcut.dir) (end_of ends shortcut.dir) settled.ways settled.function)) }
        ensures far { (ends : Ends) → slice_get graph.now.edges shortcut.edge ≡ Some ends
            → IfOk result (λ found. found ≡ None → HasFarWay graph.now.edges
            (kept_state (R.network roads.now) functions.entry)
            (start_of ends shortcut.dir) (end_of ends shortcut.dir)) }
        ensures triangles { self.new ≡ self.old }
    {
        let Shortcut { edge, dir } = shortcut;
        let ends = graph.ends(edge);
        let stay = staying();
        let task = Task {
            graph,
            functions: &functions,
            stay: &stay,
            windows: self.windows,
            leg: leg_of(ends, dir),
            arcs: arcs.arcs(edge, dir),
            triangles: &self.triangles,
        };
        if !are_near(&task) {
            return Ok(None);
        }
        self.gatherer.gather(roads, &task)?;
        let settled = pull(alloc, &task, &self.gatherer.merger)?;
        Ok(Some(settled))
    }
}

// Finds the lower triangles of an edge with these ends, by rising middle.
fn find_triangles(
    graph: &Chordal,
    ends: Ends,
    triangles: &mut Vec<Triangle>,
) -> Result<(), NoMemory>
    requires { ends.low < graph.now.ranks }
    ensures { OnOk result
        (AreTriangles graph.now.edges ends.low ends.high triangles.new.items) }
{
    triangles.clear();
    for middle in graph.down(ends.low) {
        if let Some(triangle) = triangle_by(graph, ends, *middle) {
            triangles.push(triangle)?;
        }
    }
    Ok(())
}

// The lower triangle with this middle of an edge with these ends. None where the middle isn't joined to both.
fn triangle_by(graph: &Chordal, ends: Ends, middle: u32) -> Option<Triangle>
    requires { middle < graph.now.ranks }
    ensures { FindsTriangle graph.now.edges ends.low ends.high middle result }
{
    // Any middle that is tried is joined to the low end, and most aren't to the high one.
    let to_high = graph.edge(middle, ends.high)?;
    let to_low = graph.edge(middle, ends.low)?;
    Some(Triangle {
        middle,
        to_low,
        to_high,
    })
}

// Is no way by a middle later than packed runs can say?
fn are_near(task: &Task<'_>) -> bool
    requires { (g : NetworkValue) × HasTriangles g task.now }
    ensures near { (g : NetworkValue) → HasTriangles g task.now → result ≡ true
        → AreNear g task.now task.now.triangles.now }
    ensures far { (g : NetworkValue) → HasTriangles g task.now → result ≡ false
        → IsFar g task.now }
{
    for triangle in task.triangles {
        if !is_near(task, *triangle) {
            return false;
        }
    }
    true
}

// Is the way by the middle of a triangle, if there is one, no later than packed runs can say?
fn is_near(task: &Task<'_>, triangle: Triangle) -> bool
    requires task { (g : NetworkValue) × HasTriangles g task.now }
    requires triangle { Contains task.now.triangles.now triangle }
    ensures near { (g : NetworkValue) → HasTriangles g task.now → result ≡ true
        → IsNear g task.now (Via triangle.middle) }
    ensures far { (g : NetworkValue) → HasTriangles g task.now → result ≡ false
        → IsFar g task.now }
{
    let Some(halves) = halves_of(task, triangle) else {
        return true;
    };
    let most = halves.first.most().saturating_add(halves.second.most());
    most <= MAX_NUMBER - u64::from(DAY)
}
