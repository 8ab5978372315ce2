//! The composition of two functions over the day: along a first one and, from where it arrives, along a second. It is
//! the operation that time-dependent contraction hierarchies call link, here run by run into a list that is used again.

ghost use Rattle.std.specs.Prelude.{◌≡◌, ◌≤◌, ◌<◌, ◌+◌, ◌-◌, ◌^◌, ℕ, IfOk, All};
ghost use Rattle.cu_model.specs.declared.limits.TheConstants.{DAY};
ghost use Rattle.cu_arrival.specs.declared.runs.Run.{Run};
ghost use Rattle.cu_arrival.specs.declared.runs.RunRule.TheVariants.{Shift};
ghost use Rattle.cu_arrival.specs.Runs.{arrival_value, rule_number, arrives};
ghost use Rattle.cu_runs.specs.PackedRuns.{IsDayList, IsPackedFunction, composed};
ghost use Rattle.cu_runs.specs.Steps.Linking.{Begins, IsReached, Continues};

use crate::packed_runs::{MAX_NUMBER, PackedRun, index_at};
use cu_model::{DAY, NoMemory};

// The seconds of a day, as wide as arrivals are.
const END: u64 = DAY as u64;

// A run of the second function, on the day that begins at `midnight`, until the absolute second `end`.
#[derive(Clone, Copy)]
struct Reached {
    index: usize,
    midnight: u64,
    end: u64,
}

/// The composition over the day, written over what `linked` holds: at each second the second function's arrival,
/// leaving where the first one arrives. The work is linear in the runs of both. After a refusal for want of memory
/// `linked` may hold anything.
pub fn link(
    first: &[PackedRun],
    second: &[PackedRun],
    linked: &mut Vec<PackedRun>,
) -> Result<(), NoMemory>
    requires first { IsPackedFunction first.now }
    requires second { IsPackedFunction second.now }
    ensures over_day { IfOk result (λ _. IsDayList linked.new.items) }
    ensures value { IfOk result (λ _. (t : ℕ) → t < DAY →
        arrival_value linked.new.items t ≡ composed first.now second.now t) }
{
    link_between(first, second, 0, END, linked)?;
    Ok(())
}

/// The same from one second of the day until another: at the other seconds `linked` says nothing.
pub fn link_between(
    first: &[PackedRun],
    second: &[PackedRun],
    from: u64,
    until: u64,
    linked: &mut Vec<PackedRun>,
) -> Result<(), NoMemory>
    requires first { IsPackedFunction first.now }
    requires second { IsPackedFunction second.now }
    requires some { from < until }
    requires in_day { until ≤ DAY }
    ensures over_day { IfOk result (λ _. IsDayList linked.new.items) }
    ensures value { IfOk result (λ _. (t : ℕ) → from ≤ t → t < until →
        arrival_value linked.new.items t ≡ composed first.now second.now t) }
{
    begin(from, linked)?;
    let mut index = index_at(first, from);
    let mut place = place_at(second, first[index].arrives(from));
    let mut at = from;
    'stretch: while at < until {
        let run = first[index];
        let end = first[index + 1].from().min(until);
        place = link_run(second, place, run, at, end, linked)?;
        at = end;
        index += 1;
    }
    linked.push(PackedRun::end())?;
    Ok(())
}

// Empties a list that is to begin at a second; before it a run stands in that says nothing.
fn begin(from: u64, linked: &mut Vec<PackedRun>) -> Result<(), NoMemory>
    requires { from ≤ DAY }
    ensures { IfOk result (λ _. Begins from linked.new.items) }
{
    linked.clear();
    if from > 0 {
        linked.push(PackedRun::of(0, false, 0))?;
    }
    Ok(())
}

// The place of an absolute second.
fn place_at(second: &[PackedRun], time: u64) -> Reached
    requires over_day { IsDayList second.now }
    requires time { time ≤ 2 ^ 46 }
    ensures { IsReached second.now result time }
{
    let midnight = time / END * END;
    let index = index_at(second, time - midnight);
    Reached {
        index,
        midnight,
        end: midnight + second[index + 1].from(),
    }
}

// The place that begins where one ends: the next run's, or the first one's of the next day.
#[inline(always)]
fn following(second: &[PackedRun], place: Reached) -> Reached
    requires over_day { IsDayList second.now }
    requires place { IsReached second.now place place.end }
    requires time { place.end ≤ 2 ^ 62 }
    ensures place { IsReached second.now result place.end }
    ensures later { place.end < result.end }
{
    let next = place.index + 1;
    if next + 1 < second.len() {
        Reached {
            index: next,
            midnight: place.midnight,
            end: place.midnight + second[next + 1].from(),
        }
    } else {
        Reached {
            index: 0,
            midnight: place.midnight + END,
            end: place.midnight + END + second[1].from(),
        }
    }
}

// The place of an absolute second, from one that begins no later.
#[inline(always)]
fn reach(second: &[PackedRun], from: Reached, time: u64) -> Reached
    requires over_day { IsDayList second.now }
    requires place { IsReached second.now from time }
    requires time { time ≤ 2 ^ 46 }
    ensures place { IsReached second.now result time }
    ensures holds { time < result.end }
{
    let mut place = from;
    while place.end <= time {
        place = following(second, place);
    }
    place
}

// Links one run of the first function, which holds from `at` until `until`, and gives the place of its last arrival.
#[inline(always)]
fn link_run(
    second: &[PackedRun],
    place: Reached,
    run: PackedRun,
    at: u64,
    until: u64,
    linked: &mut Vec<PackedRun>,
) -> Result<Reached, NoMemory>
    requires over_day { IsDayList second.now }
    requires limits { All (λ (run : Run). rule_number run.rule ≤ MAX_NUMBER) second.now }
    requires limit { rule_number run.rule ≤ MAX_NUMBER }
    requires some { at < until }
    requires in_day { until ≤ DAY }
    requires place { IsReached second.now place (arrives run.rule at) }
    ensures place { IfOk result (λ last. IsReached second.now last (arrives run.rule (until - 1))) }
    ensures linked { IfOk result (λ _.
        Continues second.now (arrives run.rule) at until linked.old.items linked.new.items) }
{
    let arrival = run.arrives(at);
    let place = reach(second, place, arrival);
    if run.is_fixed() {
        let next = second[place.index].after_fixed(arrival, place.midnight, at);
        linked.push(next)?;
        return Ok(place);
    }
    link_shift(second, place, run.number(), at, until, linked)
}

// The same for a run that takes so many seconds, from the place in force at its first arrival.
fn link_shift(
    second: &[PackedRun],
    first_place: Reached,
    seconds: u64,
    from: u64,
    until: u64,
    linked: &mut Vec<PackedRun>,
) -> Result<Reached, NoMemory>
    requires over_day { IsDayList second.now }
    requires limits { All (λ (run : Run). rule_number run.rule ≤ MAX_NUMBER) second.now }
    requires limit { seconds ≤ MAX_NUMBER }
    requires some { from < until }
    requires in_day { until ≤ DAY }
    requires place { IsReached second.now first_place (from + seconds) }
    requires holds { from + seconds < first_place.end }
    ensures place { IfOk result (λ last. IsReached second.now last (until - 1 + seconds)) }
    ensures linked { IfOk result (λ _.
        Continues second.now (arrives (Shift seconds)) from until
        linked.old.items linked.new.items) }
{
    let mut place = first_place;
    linked.push(second[place.index].after(seconds, place.midnight, from))?;
    'places: while place.end - seconds < until {
        let at = place.end - seconds;
        place = following(second, place);
        linked.push(second[place.index].after(seconds, place.midnight, at))?;
    }
    Ok(place)
}
