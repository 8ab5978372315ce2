//! Merging the ways of one list after the other as packed runs, in room that is used again.

ghost use Rattle.std.specs.Prelude.{◌≡◌, ◌<◌, ◌-◌, ℕ, IfOk, IsTrue, Some, false, length, true};
ghost use Rattle.cu_model.specs.Days.{day};
ghost use Rattle.cu_model.specs.Roads.{arc_value, is_closed_arc};
ghost use Rattle.cu_arrival.specs.Runs.{arrival_value};
ghost use Rattle.cu_runs.specs.declared.merging.TheConstants.{MOST};
ghost use Rattle.cu_runs.specs.declared.packed_runs.TheConstants.{MAX_NUMBER};
ghost use Rattle.cu_runs.specs.Least.{least_arrival};
ghost use Rattle.cu_runs.specs.Travels.{TakeLonger};
ghost use Rattle.cu_runs.specs.PackedRuns.{composed};
ghost use Rattle.cu_interval.specs.Hierarchies.{IsHierarchy};
ghost use Rattle.cu_unpack.specs.Steps.PackedRebuilding.{Adds, IsInTime, IsLeastRuns};

use cu_interval::Ways;
use cu_model::{DAY, NoMemory};
use cu_runs::{DayFunction, MAX_NUMBER, Merger, PackedRun, function_of_run, put_road};
use std::alloc::Global;
use std::marker::Model;

// What two functions may take together at most, so that each arrival is within the limit of numbers.
const MOST_TOGETHER: u64 = MAX_NUMBER - DAY as u64;

/// What merges the ways of a list, with its room. Contracts see what the merger holds.
#[derive(Drop)]
pub struct Room {
    merger: Merger,
    road: Vec<PackedRun>,
    stay: Vec<PackedRun>,
}

impl Model for Room {
    ghost use Rattle.std.specs.Prelude.{List};
    ghost use Rattle.cu_runs.specs.Least.{Held};
    ghost use Rattle.cu_interval.specs.Hierarchies.{IsHierarchy};
    ghost use Rattle.cu_unpack.specs.Steps.PackedRebuilding.{IsStay};

    ghost Value = { List Held };

    ghost view = { λ room. room.merger };

    ghost invariant = { λ room. IsStay room.stay.items };
}

impl Room {
    pub fn new(alloc: Global) -> Result<Room, NoMemory> {
        Ok(Room {
            merger: Merger::new(alloc)?,
            road: Vec::new(alloc),
            stay: function_of_run(alloc, PackedRun::of(0, false, 0))?,
        })
    }

    /// Forgets the ways of another list.
    pub fn clear(&mut self)
        ensures { (t : ℕ) → t < day → least_arrival self.new t ≡ MOST }
    {
        self.merger.clear();
    }

    /// Adds a road, which isn't closed.
    pub fn add_road<W: Ways>(&mut self, ways: &W, road: u32) -> Result<(), NoMemory>
        requires sound { IsHierarchy (W.hierarchy ways.now) }
        requires road { road < length (W.hierarchy ways.now).network.arcs }
        requires open { is_closed_arc (W.hierarchy ways.now).network road ≡ false }
        ensures { IfOk result (λ _.
            Adds (arc_value (W.hierarchy ways.now).network road) self.old self.new) }
    {
        put_road(ways, road, &mut self.road)?;
        self.merger.add(&self.stay, &self.road, 0)?;
        Ok(())
    }

    /// Adds a way by a middle: along a first function and, from where it arrives, along a second. False where they take
    /// so long that, with a day more, packed runs can't say it.
    pub fn add_both(&mut self, first: &DayFunction, second: &DayFunction) -> Result<bool, NoMemory>
        ensures adds { IfOk result (λ is_near. is_near ≡ true →
            Adds (composed first.now second.now) self.old self.new) }
        ensures far { IfOk result (λ is_near. is_near ≡ false → TakeLonger (MAX_NUMBER - day)
            (Some (arrival_value first.now)) (Some (arrival_value second.now))) }
    {
        if !is_near(first, second) {
            return Ok(false);
        }
        self.merger.add(first.packed(), second.packed(), 0)?;
        Ok(true)
    }

    /// The least of the ways at each second of the day.
    pub fn least(&self, alloc: Global) -> Result<DayFunction, NoMemory>
        requires { (t : ℕ) → t < day → IsInTime t (least_arrival self.now t) }
        ensures { IfOk result (IsLeastRuns self.now) }
    {
        let packed = self.merger.least_runs(alloc)?;
        Ok(DayFunction::of(packed))
    }
}

// Whether packed runs can say how long both functions take, one after the other.
fn is_near(first: &DayFunction, second: &DayFunction) -> bool
    ensures near { IsTrue result →
        (t : ℕ) → t < day → IsInTime t (composed first.now second.now t) }
    ensures far { result ≡ false → TakeLonger (MAX_NUMBER - day)
        (Some (arrival_value first.now)) (Some (arrival_value second.now)) }
{
    first.most().saturating_add(second.most()) <= MOST_TOGETHER
}
