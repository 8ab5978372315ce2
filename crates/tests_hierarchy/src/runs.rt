//! Functions of a day as words, and values worked by hand from a road and a ferry.

ghost use Rattle.std.specs.Prelude.{◌≡◌, ◌≤◌, ◌<◌, ◌^◌, IfOk, length};
ghost use Rattle.cu_arrival.specs.Runs.{rule_number};
ghost use Rattle.cu_runs.specs.PackedRuns.{IsPackedFunction};

use cu_model::NoMemory;
use cu_runs::{DayFunction, Merger, PackedRun, WayRun, Windows, function_of_run, link};
use cu_samples::{RUSH_HOUR, network};
use std::alloc::Global;
use std::process::Abort;
use std::test::Fail;

// Adds the function of one run, from which nobody goes anywhere else first, and gives the least.
fn least_with(
    alloc: Global,
    merger: &mut Merger,
    run: PackedRun,
    way: u32,
) -> Result<Vec<PackedRun>, NoMemory>
    requires from { run.from ≡ 0 }
    requires number { rule_number run.rule ≤ 2 ^ 40 }
    ensures { IfOk result (λ packed. IsPackedFunction packed.items) }
{
    let stay = function_of_run(alloc, PackedRun::of(0, false, 0))?;
    let function = function_of_run(alloc, run)?;
    merger.add(&stay, &function, way)?;
    let packed = merger.least_runs(alloc)?;
    Ok(packed)
}

// A road that takes 50,000 seconds, or a ferry that arrives at second 100,000.
fn road_or_ferry(alloc: Global) -> Result<Vec<PackedRun>, NoMemory>
    ensures { IfOk result (λ packed. IsPackedFunction packed.items) }
{
    let mut merger = Merger::new(alloc)?;
    least_with(alloc, &mut merger, PackedRun::of(0, false, 50_000), 0)?;
    let packed = least_with(alloc, &mut merger, PackedRun::of(0, true, 100_000), 1)?;
    Ok(packed)
}

#[test]
fn composition_passes_midnight(rt: HostRuntime) -> Result<(), Fail> {
    let alloc = rt.alloc();
    let way = function_of_run(alloc, PackedRun::of(0, false, 100))?;
    let mut linked = Vec::new(alloc);
    link(&way, &road_or_ferry(alloc)?, &mut linked)?;
    let wanted = [
        PackedRun::of(0, false, 50_100),
        PackedRun::of(49_901, true, 100_000),
        PackedRun::of(86_300, false, 50_100),
        PackedRun::end(),
    ];
    assert_eq!(rt; linked.len(), 4);
    for (run, expected) in linked.iter().zip(wanted) {
        assert_eq!(rt; *run, expected);
    }
    Ok(())
}

// Adds the road or ferry and a road of 100 seconds, one behind the other: with the number 0 where the road is last, and otherwise
// with 1.
fn add_both(alloc: Global, merger: &mut Merger, is_last: bool) -> Result<(), NoMemory> {
    let both = road_or_ferry(alloc)?;
    let way = function_of_run(alloc, PackedRun::of(0, false, 100))?;
    if is_last {
        merger.add(&both, &way, 0)
    } else {
        merger.add(&way, &both, 1)
    }
}

// The least of these two, and of the ferry alone with the number 2.
fn merge_three(alloc: Global, merger: &mut Merger) -> Result<Vec<PackedRun>, NoMemory> {
    add_both(alloc, merger, true)?;
    add_both(alloc, merger, false)?;
    least_with(alloc, merger, PackedRun::of(0, true, 100_000), 2)
}

// Is this the least of the three, in no more memory than it takes?
fn is_least(rt: &impl Abort, packed: &Vec<PackedRun>) {
    let wanted = [
        PackedRun::of(0, false, 50_100),
        PackedRun::of(49_901, true, 100_000),
        PackedRun::end(),
    ];
    assert_eq!(rt; (packed.len(), packed.capacity()), (3, 3));
    for (run, expected) in packed.iter().zip(wanted) {
        assert_eq!(rt; *run, expected);
    }
}

// Are these the seconds from which on each of the three is the least?
fn are_ways(rt: &impl Abort, runs: &[WayRun]) {
    assert_eq!(rt; runs.len(), 3);
    for (run, expected) in runs.iter().zip([(0, 0), (49_901, 1), (86_300, 2)]) {
        assert_eq!(rt; (run.from, run.way), expected);
    }
}

#[test]
fn three_candidates_are_merged(rt: HostRuntime) -> Result<(), Fail> {
    let mut merger = Merger::new(rt.alloc())?;
    assert!(rt; merger.is_empty());
    is_least(&rt, &merge_three(rt.alloc(), &mut merger)?);
    let runs = merger.way_runs(rt.alloc())?;
    assert_eq!(rt; runs.capacity(), 3);
    are_ways(&rt, &runs);
    merger.clear();
    assert!(rt; merger.is_empty());
    Ok(())
}

// The same three, the other way round: each of the last two takes ties from the one added before it.
#[test]
fn a_tie_goes_to_the_lower_number(rt: HostRuntime) -> Result<(), Fail> {
    let alloc = rt.alloc();
    let mut merger = Merger::new(alloc)?;
    least_with(alloc, &mut merger, PackedRun::of(0, true, 100_000), 2)?;
    add_both(alloc, &mut merger, false)?;
    add_both(alloc, &mut merger, true)?;
    let runs = merger.way_runs(alloc)?;
    are_ways(&rt, &runs);
    Ok(())
}

// The function of a road that takes so many seconds.
pub(crate) fn taking(alloc: Global, seconds: u64) -> Result<DayFunction, NoMemory>
    requires { seconds ≤ 2 ^ 40 }
{
    let packed = function_of_run(alloc, PackedRun::of(0, false, seconds))?;
    Ok(DayFunction::of(packed))
}

#[test]
fn travel_times_of_a_ferry(rt: HostRuntime) -> Result<(), Fail> {
    let packed = function_of_run(rt.alloc(), PackedRun::of(0, true, 100_000))?;
    let ferry = DayFunction::of(packed);
    assert_eq!(rt; (ferry.least(), ferry.most()), (13_601, 100_000));
    Ok(())
}

// A road is slow from 8:00 and closed just before 10:00. The narrow windows begin 3,000 seconds
// before 8:00, thirty times the 100 seconds that the road takes until then; the last window begins two minutes behind 10:00.
#[test]
fn windows_are_narrow_where_profiles_change(rt: HostRuntime) -> Result<(), Fail> {
    let network = network(rt.alloc(), RUSH_HOUR)?;
    let starts = Windows::of(&network).starts();
    assert_eq!(rt; (starts[0], starts[1]), (0, 25_800));
    assert_eq!(rt; (starts[31], starts[32]), (36_120, 86_400));
    for window in 0..32usize {
        assert!(rt; starts[window] <= starts[window + 1]);
    }
    Ok(())
}
