//! Road networks and the places of their nodes, read from texts.

ghost use Rattle.std.specs.Prelude.{◌≡◌, ◌≢◌, ◌≤◌, All, Err, IfErr, IfOk, Ok, length};
ghost use Rattle.cu_model.specs.Networks.{IsNetwork};
ghost use Rattle.cu_model.specs.Profiles.{IsProfile};
ghost use Rattle.cu_tables.specs.Checks.{Gives};
ghost use Rattle.cu_profile.specs.ProfileTexts.{profiles_of_text};
ghost use Rattle.cu_roads.specs.NetworkTexts.{network_of, network_with};
ghost use Rattle.cu_roads.specs.Steps.TableRows.{IsRefusedForProfiles};
ghost use Rattle.cu_roads.specs.declared.refusals.RoadRefusal.TheVariants as refusal;

use crate::arcs::read_arcs;
use crate::nodes::read_places;
use crate::places::Places;
use crate::refusals::RoadRefusal;
use cu_model::{MAX_PROFILES, Network, Profile};
use cu_profile::{ProfileRefusal, read_profiles};
use std::alloc::Global;

/// Reads a network and the places of its nodes from the tables `node,x,y`, `profile,from,kind,value` and
/// `arc,tail,head,profile`, each with its header first.
///
/// They are read in that order, each row by row; the first check that fails is the refusal.
/// The checks of a row, in their order: of a node `Fields`, `Number`, `TooManyNodes`, `Sequence`; of a road `Fields`,
/// `Number`, `TooManyArcs`, `Sequence`, `NodeRange`, `ProfileRange`. A number word is one or more ASCII digits, with any
/// leading zeros and of any length. Loops, parallel roads and profiles that no road uses are accepted. `NoMemory` may come
/// instead of any answer, also where csv answers an error.
pub fn read_network(
    alloc: Global,
    nodes: &[u8],
    roads: &[u8],
    profiles: &[u8],
) -> Result<(Network, Places), RoadRefusal>
    ensures network { Gives refusal.NoMemory (λ read. record { network = read.0; places = read.1 })
        (network_of nodes.now roads.now profiles.now) result }
    ensures places { IfOk result (λ read. length read.1 ≡ read.0.nodes) }
    ensures sound { IfOk result (λ read. IsNetwork read.0) }
    ensures memory { result ≢ Err (refusal.Profiles ProfileRefusal.NoMemory) }
{
    let places = read_places(alloc, nodes)?;
    let profiles = read_day_profiles(alloc, profiles)?;
    let node_count = places.len() as u32;
    let arcs = read_arcs(alloc, roads, node_count, profiles.len() as u32)?;
    Ok((Network::of(node_count, arcs, profiles), Places { places }))
}

/// Reads the nodes and the roads of a network whose profiles, at most 1,048,576, are there already: [`read_network`] without a
/// text of profiles. The network has them afterwards; they are dropped where a table is refused.
pub fn read_roads(
    alloc: Global,
    nodes: &[u8],
    roads: &[u8],
    profiles: Vec<Profile>,
) -> Result<(Network, Places), RoadRefusal>
    requires valid { All IsProfile profiles.items }
    requires few { length profiles.items ≤ MAX_PROFILES }
    ensures network { Gives refusal.NoMemory (λ read. record { network = read.0; places = read.1 })
        (network_with nodes.now roads.now profiles.items) result }
    ensures places { IfOk result (λ read. length read.1 ≡ read.0.nodes) }
    ensures sound { IfOk result (λ read. IsNetwork read.0) }
    ensures memory { result ≢ Err (refusal.Profiles ProfileRefusal.NoMemory) }
{
    let places = read_places(alloc, nodes)?;
    let node_count = places.len() as u32;
    let arcs = read_arcs(alloc, roads, node_count, profiles.len() as u32)?;
    let network = Network::of(node_count, arcs, profiles);
    Ok((network, Places { places }))
}

// The profiles, where want of memory is the network's own refusal.
fn read_day_profiles(alloc: Global, text: &[u8]) -> Result<Vec<Profile>, RoadRefusal>
    ensures profiles { IfOk result (λ profiles. profiles_of_text text.now ≡ Ok profiles.items) }
    ensures valid { IfOk result (λ profiles. All IsProfile profiles.items) }
    ensures few { IfOk result (λ profiles. length profiles.items ≤ MAX_PROFILES) }
    ensures refused { IfErr result (IsRefusedForProfiles (profiles_of_text text.now)) }
{
    match read_profiles(alloc, text) {
        Ok(profiles) => Ok(profiles),
        Err(ProfileRefusal::NoMemory) => Err(RoadRefusal::NoMemory),
        Err(refusal) => Err(RoadRefusal::Profiles(refusal)),
    }
}
