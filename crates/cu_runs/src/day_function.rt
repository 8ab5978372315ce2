//! Functions over the day, kept as packed runs.

ghost use Rattle.std.specs.Prelude.{◌≡◌, ◌<◌, ◌-◌, ℕ, IfOk, IfSome, length, take};
ghost use Rattle.cu_model.specs.declared.limits.TheConstants.{DAY};
ghost use Rattle.cu_model.specs.Days.{IsOnward};
ghost use Rattle.cu_arrival.specs.Runs.{IsArrivalFunction, arrival_value};
ghost use Rattle.cu_runs.specs.Windows.{AreLowered, TakesBetween, TakesInWindows};
ghost use Rattle.cu_runs.specs.PackedRuns.{IsPackedFunction, composed};
ghost use Rattle.cu_runs.specs.Travels.{Takes, TakesAtLeast, TakesAtMost};
ghost use Rattle.cu_runs.specs.Steps.Bounded.{AreBounds};

use crate::packed_runs::{PackedRun, least_travel, most_travel};
use crate::windows::{Bounds, WINDOWS, Windows, fill};
use cu_arrival::{Arrival, Run};
use cu_model::NoMemory;
use std::alloc::Global;
use std::marker::Model;

/// When a shortcut arrives, leaving at each second of the day, with its least and its greatest travel time, and maybe
/// with such bounds for each of some windows of the day. Contracts see it as its list of runs.
#[derive(Drop)]
pub struct DayFunction {
    packed: Vec<PackedRun>,
    least: u64,
    most: u64,
    bounds: Option<Box<Bounds>>,
}

impl Model for DayFunction {
    ghost use Rattle.std.specs.Prelude.{List};
    ghost use Rattle.cu_arrival.specs.declared.runs.Run.{Run};
    ghost use Rattle.cu_runs.specs.Steps.Bounded.{IsTravelled};

    ghost Value = { List Run };

    ghost view = { λ function. function.packed.items };

    ghost invariant = { λ function.
        IsTravelled function.packed.items function.least function.most function.bounds };
}

impl DayFunction {
    /// The function that these packed runs are.
    pub fn of(packed: Vec<PackedRun>) -> DayFunction
        requires function { IsPackedFunction packed.items }
        requires onward { IsOnward (arrival_value packed.items) }
        ensures { result ≡ packed.items }
    {
        let least = least_travel(&packed);
        let most = most_travel(&packed);
        DayFunction {
            packed,
            least,
            most,
            bounds: None,
        }
    }

    /// The same, with what it takes in each of these windows of the day.
    pub fn in_windows(
        alloc: Global,
        packed: Vec<PackedRun>,
        windows: Windows,
    ) -> Result<DayFunction, NoMemory>
        requires function { IsPackedFunction packed.items }
        requires onward { IsOnward (arrival_value packed.items) }
        ensures { IfOk result (λ function. function ≡ packed.items) }
    {
        let least = least_travel(&packed);
        let most = most_travel(&packed);
        let bounds = Box::new(alloc, Bounds::of(&packed, least, most, windows))?;
        Ok(DayFunction {
            packed,
            least,
            most,
            bounds: Some(bounds),
        })
    }

    /// Finds what it takes in each of these windows of the day too, unless it is known in some windows.
    pub fn find_bounds(&mut self, alloc: Global, windows: Windows) -> Result<(), NoMemory>
        ensures { self.new ≡ self.old }
    {
        if self.bounds.is_some() {
            return Ok(());
        }
        let bounds = Bounds::of(&self.packed, self.least, self.most, windows);
        self.bounds = Some(Box::new(alloc, bounds)?);
        Ok(())
    }

    /// Its packed runs.
    pub fn packed(&self) -> &[PackedRun]
        ensures all { result.now ≡ self.now }
        ensures function { IsPackedFunction result.now }
        ensures onward { IsOnward (arrival_value result.now) }
    {
        &self.packed
    }

    /// Its least travel time.
    pub fn least(&self) -> u64
        ensures least { TakesAtLeast self.now result }
        ensures function { IsPackedFunction self.now }
    {
        self.least
    }

    /// Its greatest travel time.
    pub fn most(&self) -> u64
        ensures most { TakesAtMost self.now result }
        ensures taken { Takes self.now result }
        ensures function { IsPackedFunction self.now }
        ensures onward { IsOnward (arrival_value self.now) }
    {
        self.most
    }

    /// A copy, which knows nothing of windows.
    pub fn copy(&self, alloc: Global) -> Result<DayFunction, NoMemory>
        ensures { IfOk result (λ copy. copy ≡ self.now) }
    {
        Ok(DayFunction {
            packed: Vec::from_slice(alloc, &self.packed)?,
            least: self.least,
            most: self.most,
            bounds: None,
        })
    }

    /// The same function by runs.
    pub fn to_arrival(&self, alloc: Global) -> Result<Arrival, NoMemory>
        ensures value { IfOk result (λ arrival.
            (t : ℕ) → arrival_value arrival t ≡ arrival_value self.now t) }
        ensures sound { IfOk result IsArrivalFunction }
    {
        let runs = runs_of(alloc, &self.packed)?;
        let arrival = Arrival::from_runs(alloc, &runs)?;
        Ok(arrival)
    }

    /// Writes what it takes at least together with one behind it in each window of the day, and lowers the limit of
    /// each window to what they take at most, where that is known of the window.
    pub fn bound_with(
        &self,
        second: &DayFunction,
        windows: Windows,
        lower: &mut [u32; WINDOWS],
        limits: &mut [u32; WINDOWS],
    )
        ensures lower { TakesInWindows windows (composed self.now second.now) lower.new }
        ensures limits { AreLowered windows (composed self.now second.now) limits.old limits.new }
    {
        let (Some(one), Some(two)) = (self.bounds_in(windows), second.bounds_in(windows)) else {
            fill(lower, self.day_least_with(second));
            return;
        };
        'windows: for window in 0..WINDOWS {
            lower[window] = one.least_with(two, window);
            limits[window] = limits[window].min(one.most_with(two, window));
        }
    }

    // What it takes at least together with one behind it, over the day.
    fn day_least_with(&self, second: &DayFunction) -> u32
        ensures { TakesBetween (composed self.now second.now) 0 DAY result }
    {
        let least = self.least().saturating_add(second.least());
        least.min(u64::from(u32::MAX)) as u32
    }

    // What is known of it in these windows.
    fn bounds_in(&self, windows: Windows) -> Option<&Bounds>
        ensures windows { IfSome result (λ bounds. bounds.now.windows ≡ windows) }
        ensures known { IfSome result (λ bounds. AreBounds (arrival_value self.now) bounds.now) }
        ensures function { IsPackedFunction self.now }
    {
        match &self.bounds {
            Some(bounds) if bounds.are_in(windows) => Some(&**bounds),
            _ => None,
        }
    }
}

// The runs but the one that ends them.
fn runs_of(alloc: Global, packed: &[PackedRun]) -> Result<Vec<Run>, NoMemory>
    requires { 0 < length packed.now }
    ensures { IfOk result (λ runs. runs.items ≡ take (length packed.now - 1) packed.now) }
{
    let count = packed.len() - 1;
    let mut runs = Vec::with_capacity(alloc, count)?;
    for index in 0..count {
        runs.push(packed[index].run())?;
    }
    Ok(runs)
}
