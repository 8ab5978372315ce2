//! What is pulled from a merger: the ways of a list and its function.

ghost use Rattle.std.specs.Prelude.{◌≡◌, ◌≢◌, ◌<◌, All, IfOk, Some, map, length, slice_get};
ghost use Rattle.cu_runs.specs.declared.merging.TheConstants.{NOBODY};
ghost use Rattle.cu_runs.specs.declared.merging.WayRun.{WayRun};
ghost use Rattle.cu_runs.specs.Least.{KeepsDayOrder, least_arrival, least_way};
ghost use Rattle.cu_runs.specs.PackedRuns.{IsPackedFunction};
ghost use Rattle.cu_model.specs.Days.{IsOnward};
ghost use Rattle.cu_arrival.specs.Runs.{arrival_value};
ghost use Rattle.cu_customize.specs.Steps.Gathering.{IsPulled, IsTaskOfSome, IsWithin, read_of, said_by, ways_of};

use crate::choosing::list_of;
use crate::task::Task;
use cu_interval::{Entry, Way, WayList};
use cu_model::NoMemory;
use cu_runs::{DayFunction, PackedRun, PartMerger, WayRun};
use std::alloc::Global;

// How many higher neighbours a middle has whose functions are bounded in windows.
const MANY: usize = 5;

/// What settling a shortcut by packed runs gives: the list of its ways, and their function; None where it has no way.
#[derive(Drop)]
pub struct SettledRuns {
    pub ways: WayList,
    pub function: Option<DayFunction>,
}

/// The ways that are the least, and their function.
pub fn pull(alloc: Global, task: &Task<'_>, merger: &PartMerger) -> Result<SettledRuns, NoMemory>
    requires task { IsTaskOfSome task.now }
    requires held { least_way merger.now 0 ≢ NOBODY → IsWithin (ways_of task.now) merger.now }
    requires order { KeepsDayOrder (least_arrival merger.now) }
    ensures { IfOk result
        (λ pulled. IsPulled (ways_of task.now) merger.now pulled.ways pulled.function) }
{
    if merger.is_empty() {
        return Ok(SettledRuns {
            ways: list_of(Vec::new(alloc)),
            function: None,
        });
    }
    let runs = merger.way_runs(alloc)?;
    let entries = entries_of(alloc, task, &runs)?;
    let function = function_of(alloc, task, merger.least_runs(alloc)?)?;
    Ok(SettledRuns {
        ways: list_of(entries),
        function: Some(function),
    })
}

// The function of a list. What it takes in windows is worth finding where it may be a half of many candidates.
fn function_of(
    alloc: Global,
    task: &Task<'_>,
    packed: Vec<PackedRun>,
) -> Result<DayFunction, NoMemory>
    requires task { IsTaskOfSome task.now }
    requires function { IsPackedFunction packed.items }
    requires onward { IsOnward (arrival_value packed.items) }
    ensures { IfOk result (λ function. function ≡ packed.items) }
{
    let low = task.leg.from.min(task.leg.to);
    if task.graph.up(low).len() < MANY {
        return Ok(DayFunction::of(packed));
    }
    DayFunction::in_windows(alloc, packed, task.windows)
}

// The entries of the ways with these numbers.
fn entries_of(alloc: Global, task: &Task<'_>, runs: &[WayRun]) -> Result<Vec<Entry>, NoMemory>
    requires { All (λ (run : WayRun). run.way < length (ways_of task.now)) runs.now }
    ensures { IfOk result (λ entries.
        map said_by entries.items ≡ map (read_of (ways_of task.now)) runs.now) }
{
    let mut entries = Vec::with_capacity(alloc, runs.len())?;
    for run in runs {
        entries.push(Entry {
            from: run.from,
            way: way_with(task, run.way),
        })?;
    }
    Ok(entries)
}

// The way with this number.
fn way_with(task: &Task<'_>, number: u32) -> Way
    requires { number < length (ways_of task.now) }
    ensures { slice_get (ways_of task.now) number ≡ Some result }
{
    let number = number as usize;
    if number < task.arcs.len() {
        return Way::Road(task.arcs[number]);
    }
    Way::Via(task.triangles[number - task.arcs.len()].middle)
}
