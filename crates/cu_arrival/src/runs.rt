//! Arrival functions: runs that say when a road or shortcut arrives, at each second of a day that repeats.

ghost use Rattle.std.specs.Prelude.{◌≡◌, ◌≤◌, ◌<◌, ◌+◌, ◌*◌, ◌^◌, ◌/◌, ◌%◌, ◌⊎◌, ℕ, Some, IfOk, length, map, slice_get, false};
ghost use Rattle.cu_model.specs.declared.limits.TheConstants.{DAY};
ghost use Rattle.cu_model.specs.Roads.{arc_value, is_closed_arc, pieces_of};
ghost use Rattle.cu_arrival.specs.declared.runs.Run.{Run};
ghost use Rattle.cu_arrival.specs.Runs.{IsArrivalFunction, arrives, run_at, arrival_value, rule_number, rule_value};
ghost use Rattle.cu_arrival.specs.Steps.OfPieces.{run_of};

use crate::packing::RunList;
use crate::stretches::stretch_at;
use cu_model::{DAY, NoMemory, Piece, Roads, Rule};
use std::alloc::Global;
use std::marker::Model;

/// What a run does with a departure.
#[derive(Clone, Copy, PartialEq, Eq)]
pub enum RunRule {
    /// Arrives this many seconds after the departure, 0 to 2^62.
    Shift(u64),
    /// Arrives at this second of the departure's day, 0 to 2^62, whenever it leaves.
    Fixed(u64),
}

/// A rule, and the second of the day, 0 to 86,399, from which it holds.
#[derive(Clone, Copy, PartialEq, Eq)]
pub struct Run {
    pub from: u32,
    pub rule: RunRule,
}

/// Which of two functions is the earlier from this second of the day on, 0 to 86,399: the second one, or the first,
/// which also takes a tie.
#[derive(Clone, Copy, PartialEq, Eq)]
pub struct Choice {
    pub from: u32,
    pub second: bool,
}

/// A rule, and the second before which it holds, 1 to 86,400.
#[derive(Clone, Copy, PartialEq, Eq)]
pub struct Stretch {
    pub rule: RunRule,
    pub end: u32,
}

/// An arrival function: when a road or shortcut arrives, at each second of a day that repeats. Contracts see it as its
/// list of runs.
#[derive(Drop)]
pub struct Arrival {
    runs: RunList,
}

impl Model for Arrival {
    ghost use Rattle.std.specs.Prelude.{List};
    ghost use Rattle.cu_arrival.specs.declared.runs.Run.{Run};
    ghost use Rattle.cu_arrival.specs.Runs.{IsArrivalFunction};

    ghost Value = { List Run };

    ghost view = { λ arrival. arrival.runs };

    ghost invariant = { λ arrival. IsArrivalFunction arrival.runs };
}

impl Arrival {
    /// The function of these runs. The memory that they don't take is given back.
    pub(crate) fn of_runs(mut runs: RunList) -> Arrival
        requires { IsArrivalFunction runs }
        ensures { result ≡ runs }
    {
        runs.shrink();
        Arrival { runs }
    }

    /// The function of the road with this number, below the number of roads; it isn't closed. At every second it is when the
    /// road's profile arrives.
    pub fn of_arc<N: Roads>(alloc: Global, roads: &N, arc: u32) -> Result<Arrival, NoMemory>
        requires road { arc < length (N.network roads.now).arcs }
        requires open { is_closed_arc (N.network roads.now) arc ≡ false }
        ensures value { IfOk result
            (λ f. (t : ℕ) → arrival_value f t ≡ arc_value (N.network roads.now) arc t) }
        ensures sound { IfOk result IsArrivalFunction }
    {
        let runs = profile_runs(alloc, roads, roads.arc(arc).profile)?;
        Ok(Arrival::of_runs(runs))
    }

    /// The function of these runs.
    pub fn from_runs(alloc: Global, runs: &[Run]) -> Result<Arrival, NoMemory>
        requires { IsArrivalFunction runs.now }
        ensures { IfOk result (λ arrival. arrival ≡ runs.now) }
    {
        let mut list = RunList::with_capacity(alloc, runs.len())?;
        for run in runs {
            list.push(*run)?;
        }
        Ok(Arrival { runs: list })
    }

    /// A function of the same runs.
    pub fn copy(&self, alloc: Global) -> Result<Arrival, NoMemory>
        ensures same { IfOk result (λ copy. copy ≡ self.now) }
        ensures sound { IsArrivalFunction self.now }
    {
        let runs = self.runs().copy(alloc)?;
        Ok(Arrival { runs })
    }

    /// Its runs, by rising second, the first from second 0: 1 to 86,400 of them.
    pub(crate) fn runs(&self) -> &RunList
        ensures all { result.now ≡ self.now }
        ensures valid { IsArrivalFunction self.now }
        ensures few { length result.now ≤ DAY }
    {
        &self.runs
    }

    /// When it arrives, leaving at an absolute second of at most 2^62. It never arrives before it leaves, leaving later
    /// never arrives earlier, and each day is as the one before.
    pub fn value(&self, second: u64) -> u64
        requires { second ≤ 2 ^ 62 }
        ensures value { result ≡ arrival_value self.now second }
        ensures sound { IsArrivalFunction self.now }
        ensures onward { second ≤ result }
        ensures fifo { (later : ℕ) → second ≤ later → result ≤ arrival_value self.now later }
        ensures days { (days : ℕ)
            → arrival_value self.now (days * DAY + second) ≡ days * DAY + result }
    {
        let run = run_begun(&self.runs, (second % u64::from(DAY)) as u32);
        departing(run.rule, second)
    }

    /// The rule that holds at a second of the day, below 86,400, and until when: up to where another run begins, or to the
    /// day's end.
    pub fn stretch(&self, second: u32) -> Stretch
        requires { second < DAY }
        ensures later { second < result.end }
        ensures within { result.end ≤ DAY }
        ensures kept { (t : ℕ) → second ≤ t → t < result.end
            → arrival_value self.now t ≡ arrives result.rule t }
        ensures next { (result.end ≡ DAY)
            ⊎ ((index : ℕ) × (run : Run) × (slice_get self.now index ≡ Some run)
            × (run.from ≡ result.end)) }
        ensures limit { rule_number result.rule ≤ 2 ^ 62 }
    {
        let stretch = stretch_at(&self.runs, u64::from(second));
        Stretch {
            rule: stretch.rule,
            end: stretch.end as u32,
        }
    }
}

// The runs of a profile, one for each piece.
fn profile_runs<N: Roads>(alloc: Global, roads: &N, profile: u32) -> Result<RunList, NoMemory>
    requires { profile < length (N.network roads.now).profiles }
    ensures { IfOk result
        (λ runs. runs ≡ map run_of (pieces_of (N.network roads.now) profile)) }
{
    let pieces = roads.pieces(profile);
    let mut runs = RunList::with_capacity(alloc, pieces as usize)?;
    for index in 0..pieces {
        runs.push(run_of_piece(roads.piece(profile, index)))?;
    }
    Ok(runs)
}

// The run that says what a piece says. A closed one is asked by nobody.
fn run_of_piece(piece: Piece) -> Run
    ensures run { result ≡ run_of piece }
    ensures in_limit { rule_number result.rule ≤ 2 ^ 62 }
{
    let rule = match piece.rule {
        Rule::Travel(seconds) => RunRule::Shift(u64::from(seconds)),
        Rule::Until(arrival) => RunRule::Fixed(u64::from(arrival)),
        Rule::Closed(_) => RunRule::Shift(0),
    };
    Run {
        from: piece.from,
        rule,
    }
}

// When a rule arrives, leaving at an absolute second.
fn departing(rule: RunRule, second: u64) -> u64
    requires in_limit { rule_number rule ≤ 2 ^ 62 }
    requires time { second ≤ 2 ^ 62 }
    ensures { result ≡ rule_value rule (second / DAY) (second % DAY) }
{
    match rule {
        RunRule::Shift(seconds) => second + seconds,
        RunRule::Fixed(arrival) => second - second % u64::from(DAY) + arrival,
    }
}

// The last run that has begun by this second of the day.
fn run_begun(runs: &RunList, time: u32) -> Run
    requires valid { IsArrivalFunction runs.now }
    requires time { time < DAY }
    ensures run { run_at runs.now time ≡ Some result }
    ensures in_limit { rule_number result.rule ≤ 2 ^ 62 }
{
    runs.at(runs.index_begun(time))
}
