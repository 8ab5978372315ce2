//! Arrival functions of roads, and of two roads one behind the other.

use cu_arrival::{Arrival, Choice, compose, least, lesser, slack_of};
use cu_model::{Network, Roads};
use cu_samples::{RUSH_HOUR, Tables, network};
use std::alloc::Global;
use std::process::Abort;
use std::test::Fail;

// The arrival function of a road, which there is and which isn't closed.
fn road(rt: &impl Abort, alloc: Global, network: &Network, arc: u32) -> Result<Arrival, Fail> {
    assert!(rt; arc < network.arcs());
    assert!(rt; !network.closed(arc));
    Ok(Arrival::of_arc(alloc, network, arc)?)
}

// A network's first two roads, one behind the other.
fn first_two(rt: &impl Abort, alloc: Global, network: &Network) -> Result<Arrival, Fail> {
    let first = road(rt, alloc, network, 0)?;
    let second = road(rt, alloc, network, 1)?;
    Ok(compose(alloc, &first, &second)?)
}

// Those of the rush hour.
fn both_roads(rt: &impl Abort, alloc: Global) -> Result<Arrival, Fail> {
    let network = network(alloc, RUSH_HOUR)?;
    first_two(rt, alloc, &network)
}

// Seconds, and when both roads arrive that are driven from then on.
const BOTH_VALUES: [(u64, u64); 6] = [
    (28_739, 28_899),
    (28_740, 29_100),
    (35_740, 36_100),
    (35_940, 36_100),
    (86_399, 86_559),
    (86_400 + 28_740, 86_400 + 29_100),
];

#[test]
fn composition_of_two_roads(rt: HostRuntime) -> Result<(), Fail> {
    let both = both_roads(&rt, rt.alloc())?;
    let copy = both.copy(rt.alloc())?;
    for (second, arrival) in BOTH_VALUES {
        assert_eq!(rt; both.value(second), arrival, "at {second}");
        assert_eq!(rt; copy.value(second), arrival, "of a copy at {second}");
    }
    Ok(())
}

// A minute and 250 seconds; and 310 seconds, all day or until noon.
const TIES: Tables<'static> = Tables {
    roads: b"arc,tail,head,profile\n0,0,1,0\n1,1,2,1\n2,0,2,2\n3,0,2,3\n",
    profiles: b"profile,from,kind,value\n0,0,travel,60\n1,0,travel,250\n2,0,travel,310\n3,0,travel,310\n3,43200,travel,311\n",
    ..RUSH_HOUR
};

// Are these the seconds from which on the one or the other is chosen?
fn are_choices(choices: &[Choice], wanted: &[(u32, bool)]) -> bool {
    for (choice, (from, second)) in choices.iter().zip(wanted) {
        if choice.from != *from || choice.second != *second {
            return false;
        }
    }
    choices.len() == wanted.len()
}

// From which seconds on the one or the other of two functions is chosen.
fn choices(alloc: Global, first: &Arrival, second: &Arrival) -> Result<Vec<Choice>, Fail> {
    let (_, choices) = lesser(alloc, first, second)?;
    Ok(choices)
}

// Is a road, beside the first two, chosen so?
fn is_chosen(
    rt: &impl Abort,
    alloc: Global,
    network: &Network,
    arc: u32,
    wanted: &[(u32, bool)],
) -> Result<bool, Fail> {
    let both = first_two(rt, alloc, network)?;
    let direct = road(rt, alloc, network, arc)?;
    Ok(are_choices(&choices(alloc, &direct, &both)?, wanted))
}

// Both roads one behind the other arrive when road 2 does, which is chosen all day; road 3 is a second later from noon on.
#[test]
fn a_tie_is_not_earlier(rt: HostRuntime) -> Result<(), Fail> {
    let alloc = rt.alloc();
    let network = network(alloc, TIES)?;
    assert!(rt; is_chosen(&rt, alloc, &network, 2, &[(0, false)])?);
    assert!(rt; is_chosen(&rt, alloc, &network, 3, &[(0, false), (43_200, true)])?);
    Ok(())
}

// The rush hour's road beside both.
fn straight_road(rt: &impl Abort, alloc: Global) -> Result<Arrival, Fail> {
    let network = network(alloc, RUSH_HOUR)?;
    road(rt, alloc, &network, 2)
}

// Is the lesser of it and of both chosen so, and as early?
fn is_lesser(rt: &impl Abort, least: &Arrival, choices: &[Choice]) {
    let wanted = [(0, true), (28_740, false), (35_851, true)];
    assert_eq!(rt; choices.len(), 3);
    for (choice, (from, second)) in choices.iter().zip(wanted) {
        assert_eq!(rt; (choice.from, choice.second), (from, second));
    }
    assert_eq!(rt; least.value(35_850), 36_100);
}

#[test]
fn lesser_of_a_road_and_two(rt: HostRuntime) -> Result<(), Fail> {
    let straight = straight_road(&rt, rt.alloc())?;
    let both = both_roads(&rt, rt.alloc())?;
    let (function, choices) = lesser(rt.alloc(), &straight, &both)?;
    is_lesser(&rt, &function, &choices);
    is_lesser(&rt, &least(rt.alloc(), &straight, &both)?, &choices);
    Ok(())
}

// Both roads take 110 seconds more than the straight one at 28,740, and 90 less when they take the least. A limit is later by less
// than one second more.
#[test]
fn slack_of_a_road_and_two(rt: HostRuntime) -> Result<(), Fail> {
    let straight = straight_road(&rt, rt.alloc())?;
    let both = both_roads(&rt, rt.alloc())?;
    assert_eq!(rt; slack_of(&both, &straight, 1_000), 111);
    assert_eq!(rt; slack_of(&straight, &both, 1_000), 91);
    assert_eq!(rt; slack_of(&both, &both, 1_000), 1);
    assert!(rt; slack_of(&both, &straight, 110) > 110);
    Ok(())
}

// A road that is a second later from noon on.
#[test]
fn slack_by_one_second(rt: HostRuntime) -> Result<(), Fail> {
    let alloc = rt.alloc();
    let network = network(alloc, TIES)?;
    let earlier = road(&rt, alloc, &network, 2)?;
    let later = road(&rt, alloc, &network, 3)?;
    assert_eq!(rt; slack_of(&later, &earlier, 9), 2);
    assert_eq!(rt; slack_of(&earlier, &later, 9), 1);
    Ok(())
}
