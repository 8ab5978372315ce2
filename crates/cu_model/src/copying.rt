//! Profiles and networks copied from whatever stands for a network.

ghost use Rattle.std.specs.Prelude.{◌≡◌, ◌<◌, ◌^◌, Some, IfOk, length, slice_get};
ghost use Rattle.cu_model.specs.Profiles.{IsProfile};

use crate::memory::NoMemory;
use crate::profiles::{Piece, Profile};
use crate::roads::{Network, RoadArc, Roads};
use std::alloc::Global;

/// The network that these roads stand for, in memory of its own.
pub fn copy_network<N: Roads>(alloc: Global, roads: &N) -> Result<Network, NoMemory>
    ensures same { IfOk result (λ network. network ≡ N.network roads.now) }
{
    let arcs = copy_arcs(alloc, roads)?;
    let profiles = copy_profiles(alloc, roads)?;
    Ok(Network::of(roads.nodes(), arcs, profiles))
}

fn copy_arcs<N: Roads>(alloc: Global, roads: &N) -> Result<Vec<RoadArc>, NoMemory>
    ensures { IfOk result (λ arcs. arcs.items ≡ (N.network roads.now).arcs) }
{
    let mut arcs = Vec::with_capacity(alloc, roads.arcs() as usize)?;
    for arc in 0..roads.arcs() {
        arcs.push(roads.arc(arc))?;
    }
    Ok(arcs)
}

fn copy_profiles<N: Roads>(alloc: Global, roads: &N) -> Result<Vec<Profile>, NoMemory>
    ensures { IfOk result (λ profiles. profiles.items ≡ (N.network roads.now).profiles) }
{
    let mut profiles = Vec::with_capacity(alloc, roads.profiles() as usize)?;
    for profile in 0..roads.profiles() {
        profiles.push(copy_profile(alloc, roads, profile)?)?;
    }
    Ok(profiles)
}

/// The profile with this number, below the number of profiles, in memory of its own.
pub fn copy_profile<N: Roads>(alloc: Global, roads: &N, profile: u32) -> Result<Profile, NoMemory>
    requires { profile < length (N.network roads.now).profiles }
    ensures { IfOk result (λ copy.
        slice_get (N.network roads.now).profiles profile ≡ Some copy) }
{
    let pieces = copy_pieces(alloc, roads, profile)?;
    let Ok(copy) = Profile::of(pieces) else {
        unreachable!()
    };
    Ok(copy)
}

fn copy_pieces<N: Roads>(alloc: Global, roads: &N, profile: u32) -> Result<Vec<Piece>, NoMemory>
    requires { profile < length (N.network roads.now).profiles }
    ensures there { IfOk result (λ pieces.
        slice_get (N.network roads.now).profiles profile ≡ Some pieces.items) }
    ensures valid { IfOk result (λ pieces. IsProfile pieces.items) }
    ensures few { IfOk result (λ pieces. length pieces.items < 2 ^ 32) }
{
    let count = roads.pieces(profile);
    let mut pieces = Vec::with_capacity(alloc, count as usize)?;
    for index in 0..count {
        pieces.push(roads.piece(profile, index))?;
    }
    Ok(pieces)
}
