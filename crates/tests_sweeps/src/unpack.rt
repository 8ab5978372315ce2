//! Lists without ways, and functions that were worked by hand. Walks are written in the tests of sweeps.

ghost use Rattle.std.specs.Prelude.{◌≡◌, ◌≤◌, ◌<◌, ◌^◌, length};

use cu_interval::{Call, Dir, Hierarchy, Ways};
use cu_model::Roads;
use cu_pack::PackedView;
use cu_runs::Windows;
use cu_samples::{RANKED, Tables, hierarchy, packed};
use cu_unpack::{
    Counted, CountedWays, Listed, PackedFunctions, Rebuilt, Relaxed, Relaxer, Unpacker, Work,
    relax_counted,
};
use std::alloc::Global;
use std::process::Abort;
use std::test::Fail;

// Three roads, all of them closed.
const CLOSED: Tables<'static> = Tables {
    profiles: b"profile,from,kind,value\n0,0,closed,0\n1,0,closed,0\n2,0,closed,0\n",
    ..RANKED
};

// Two roads that take a second more or less from each hour on.
const HOURLY: Tables<'static> = Tables {
    profiles: b"profile,from,kind,value\n\
        0,0,travel,60\n0,3600,travel,61\n0,7200,travel,60\n0,10800,travel,61\n0,14400,travel,60\n0,18000,travel,61\n\
        0,21600,travel,60\n0,25200,travel,61\n0,28800,travel,60\n0,32400,travel,61\n0,36000,travel,60\n0,39600,travel,61\n\
        0,43200,travel,60\n0,46800,travel,61\n0,50400,travel,60\n0,54000,travel,61\n0,57600,travel,60\n0,61200,travel,61\n\
        0,64800,travel,60\n0,68400,travel,61\n0,72000,travel,60\n0,75600,travel,61\n0,79200,travel,60\n0,82800,travel,61\n",
    roads: b"arc,tail,head,profile\n0,1,0,0\n1,0,2,0\n",
    ..RANKED
};

// A list without ways, asked where steps are counted, takes one.
fn takes_one_step(rt: &impl Abort, view: &PackedView<'_>, work: &mut Work)
    requires edges { length view.now.edges ≡ 3 }
    requires work { work.old ≡ view.now.network.nodes }
    ensures { work.new ≡ work.old }
{
    let mut counted = Counted::of(view);
    assert_eq!(rt;
        relax_counted(&mut counted, work, 0, Dir::Up, 0),
        Relaxed::NoWay
    );
    assert_eq!(rt; counted.steps(), 1);
}

// What two calls over lists without ways come to, in room for one: what they answer, and whether the first is told, and nothing once
// there are two.
#[derive(Clone, Copy)]
struct TwoCalls {
    least: u64,
    first: Relaxed,
    is_told: bool,
    second: Relaxed,
    is_full: bool,
}

// What is answered over an edge.
fn answered<R: Relaxer>(relaxer: &mut R, edge: u32, dir: Dir, second: u32) -> Relaxed
    requires { edge < length (R.hierarchy relaxer.old).edges }
    ensures { R.hierarchy relaxer.new ≡ R.hierarchy relaxer.old }
{
    relaxer.relax(edge, dir, u64::from(second))
}

fn call_twice(alloc: Global, view: &PackedView<'_>, work: Work) -> Result<TwoCalls, Fail>
    requires edges { length view.now.edges ≡ 3 }
    requires work { work ≡ view.now.network.nodes }
{
    let mut listed = Listed::new(alloc, Unpacker::new(view, work), 1)?;
    let least = listed.least(0, Dir::Up);
    let first = answered(&mut listed, 0, Dir::Up, 5);
    let call = Call {
        edge: 0,
        dir: Dir::Up,
        second: 5,
    };
    let is_told = listed.calls() == Some([call].as_slice());
    let second = answered(&mut listed, 2, Dir::Down, 7);
    Ok(TwoCalls {
        least,
        first,
        is_told,
        second,
        is_full: listed.calls().is_none(),
    })
}

// Are no ways found, and as much told?
fn tells_one(rt: &impl Abort, calls: TwoCalls) {
    assert_eq!(rt; calls.least, 1 << 60);
    assert_eq!(rt; calls.first, Relaxed::NoWay);
    assert!(rt; calls.is_told);
    assert_eq!(rt; calls.second, Relaxed::NoWay);
    assert!(rt; calls.is_full);
}

#[test]
fn asks_lists_without_ways(rt: HostRuntime) -> Result<(), Fail> {
    let alloc = rt.alloc();
    let bytes = packed(alloc, CLOSED)?;
    let view = PackedView::open(alloc, &bytes)?;
    assert!(rt; view.edges() == 3);
    let mut work = Work::new(alloc, view.nodes())?;
    takes_one_step(&rt, &view, &mut work);
    tells_one(&rt, call_twice(alloc, &view, work)?);
    Ok(())
}

// When an edge arrives upwards, rebuilt by functions.
fn rebuilt(
    alloc: Global,
    hierarchy: &Hierarchy,
    edge: u32,
    second: u64,
) -> Result<Option<u64>, Fail>
    requires edge { edge < length hierarchy.now.edges }
    requires second { second ≤ 2 ^ 62 }
{
    let mut rebuilt = Rebuilt::new(alloc, hierarchy.edges())?;
    let Some(function) = rebuilt.function(alloc, hierarchy, edge, Dir::Up)? else {
        return Ok(None);
    };
    Ok(Some(function.value(second)))
}

// The same, learned by packed.
fn learned(
    alloc: Global,
    hierarchy: &Hierarchy,
    edge: u32,
    second: u64,
) -> Result<Option<u64>, Fail>
    requires edge { edge < length hierarchy.now.edges }
    requires second { second ≤ 2 ^ 62 }
{
    let mut packed = PackedFunctions::new(alloc, hierarchy.edges(), Windows::of(hierarchy))?;
    if !packed.learn(alloc, hierarchy, edge, Dir::Up)? {
        return Ok(None);
    }
    let Some(function) = packed.functions().get(2 * edge as usize) else {
        return Ok(None);
    };
    let function = function.to_arrival(alloc)?;
    Ok(Some(function.value(second)))
}

// Is this the arrival of both?
fn arrives(
    rt: &impl Abort,
    alloc: Global,
    hierarchy: &Hierarchy,
    edge: u32,
    second: u64,
    arrival: u64,
) -> Result<(), Fail>
    requires edge { edge < length hierarchy.now.edges }
    requires second { second ≤ 2 ^ 62 }
{
    let found = rebuilt(alloc, hierarchy, edge, second)?;
    assert_eq!(rt; found, Some(arrival), "rebuilt at {second}");
    let found = learned(alloc, hierarchy, edge, second)?;
    assert_eq!(rt; found, Some(arrival), "learned at {second}");
    Ok(())
}

// Edges, seconds, and the arrivals of both.
const ARRIVALS: [(u32, u64, u64); 4] = [
    (1, 28_799, 28_899),
    (1, 28_800, 29_100),
    (2, 28_739, 28_899),
    (2, 28_740, 28_990),
];

// Are they the arrivals over a hierarchy with three edges?
fn all_arrive(rt: &impl Abort, alloc: Global, hierarchy: &Hierarchy) -> Result<(), Fail>
    requires { length hierarchy.now.edges ≡ 3 }
{
    for (edge, second, arrival) in ARRIVALS {
        assert!(rt; edge < 3 && second < 86_400);
        arrives(rt, alloc, hierarchy, edge, second, arrival)?;
    }
    Ok(())
}

#[test]
fn rebuilds_and_learns_functions(rt: HostRuntime) -> Result<(), Fail> {
    let hierarchy = hierarchy(rt.alloc(), RANKED)?;
    assert!(rt; hierarchy.edges() == 3);
    all_arrive(&rt, rt.alloc(), &hierarchy)
}

// Which lists are known: those of both halves of the third edge upwards, and its own.
fn known(packed: &PackedFunctions) -> [bool; 3]
    requires { length packed.now.known ≡ 6 }
{
    let first = packed.knows(0, Dir::Down);
    let second = packed.knows(1, Dir::Up);
    [first, second, packed.knows(2, Dir::Up)]
}

// Which are, once the third edge was learned upwards, and once room was spared.
fn known_and_spared(alloc: Global, hierarchy: &Hierarchy) -> Result<([bool; 3], [bool; 3]), Fail>
    requires { length hierarchy.now.edges ≡ 3 }
{
    let mut packed = PackedFunctions::new(alloc, hierarchy.edges(), Windows::of(hierarchy))?;
    packed.learn(alloc, hierarchy, 2, Dir::Up)?;
    let learned = known(&packed);
    packed.spare();
    Ok((learned, known(&packed)))
}

#[test]
fn forgets_lists_that_were_not_asked_for(rt: HostRuntime) -> Result<(), Fail> {
    let alloc = rt.alloc();
    let hourly = hierarchy(alloc, HOURLY)?;
    assert!(rt; hourly.edges() == 3);
    assert_eq!(rt;
        known_and_spared(alloc, &hourly)?,
        ([true; 3], [false, false, true])
    );
    let rush = hierarchy(alloc, RANKED)?;
    assert!(rt; rush.edges() == 3);
    assert_eq!(rt;
        known_and_spared(alloc, &rush)?,
        ([true; 3], [true; 3]),
        "few runs"
    );
    Ok(())
}
