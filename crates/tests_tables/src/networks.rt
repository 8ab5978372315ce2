//! Networks and their edits.

ghost use Rattle.std.specs.Prelude.{◌≡◌, All, IfOk, length};
ghost use Rattle.cu_model.specs.Profiles.{IsProfile};

use cu_model::{Edit, Network, Piece, Profile, RoadArc, Roads, Rule};
use std::alloc::Global;
use std::test::Fail;

// The profile of one piece.
fn alone(alloc: Global, rule: Rule) -> Result<Profile, Fail> {
    let mut pieces = Vec::new(alloc);
    pieces.push(Piece { from: 0, rule })?;
    Ok(Profile::of(pieces)?)
}

// Two profiles: a minute all day, and closed.
fn minute_and_closed(alloc: Global) -> Result<Vec<Profile>, Fail>
    ensures two { IfOk result (λ profiles. length profiles.items ≡ 2) }
    ensures valid { IfOk result (λ profiles. All IsProfile profiles.items) }
{
    let minute = alone(alloc, Rule::Travel(60))?;
    let closed = alone(alloc, Rule::Closed(0))?;
    Ok(vec![in alloc; minute, closed]?)
}

// Two nodes and a road between them, by the first of these two profiles.
fn minute_or_closed(alloc: Global) -> Result<Network, Fail>
    ensures roads { IfOk result (λ network. length network.arcs ≡ 1) }
    ensures profiles { IfOk result (λ network. length network.profiles ≡ 2) }
{
    let profiles = minute_and_closed(alloc)?;
    let arc = RoadArc {
        tail: 0,
        head: 1,
        profile: 0,
    };
    Ok(Network::of(2, vec![in alloc; arc]?, profiles))
}

// When the road arrives, leaving in the last second of a day; never where it is closed.
fn arrival(network: &Network) -> Option<u64> {
    if network.arcs() == 0 || network.closed(0) {
        return None;
    }
    Some(network.drive(0, 86_399))
}

// Does the road arrive by the first profile, never by the second, and again when the second has this one piece?
fn closes_and_opens(network: &mut Network, pieces: Profile) -> bool
    requires roads { length network.old.arcs ≡ 1 }
    requires profiles { length network.old.profiles ≡ 2 }
{
    let by_first = arrival(network);
    network.apply(Edit::Assign { arc: 0, profile: 1 });
    let by_second = arrival(network);
    network.apply(Edit::Set { profile: 1, pieces });
    by_first == Some(86_459)
        && by_second == None
        && arrival(network) == Some(86_400)
        && network.pieces(1) == 1
}

#[test]
fn closes_and_opens_a_road(rt: HostRuntime) -> Result<(), Fail> {
    let alloc = rt.alloc();
    let pieces = alone(alloc, Rule::Until(86_400))?;
    let mut network = minute_or_closed(alloc)?;
    assert!(rt; closes_and_opens(&mut network, pieces));
    Ok(())
}
