//! Road networks: nodes by number, roads between them, and the profile of each road.

ghost use Rattle.std.specs.Prelude.{◌≡◌, ◌≤◌, ◌<◌, ◌^◌, ℕ, Some, false, length, slice_get, slice_set};
ghost use Rattle.cu_model.specs.declared.roads.Edit.TheVariants.{Assign};
ghost use Rattle.cu_model.specs.Edits.{IsEditInRange, edited};
ghost use Rattle.cu_model.specs.Networks.{NetworkValue, IsNetwork};
ghost use Rattle.cu_model.specs.Roads.{arc_value, is_closed_arc, pieces_of};

use crate::profiles::{Piece, Profile};
use std::marker::Model;

/// A road from one node to another, and the number of its profile.
#[derive(Clone, Copy, PartialEq, Eq)]
pub struct RoadArc {
    pub tail: u32,
    pub head: u32,
    pub profile: u32,
}

/// A change of a network's travel times; its topology stays.
#[derive(Drop)]
pub enum Edit {
    /// Gives a profile these pieces.
    Set { profile: u32, pieces: Profile },
    /// Gives a road another profile.
    Assign { arc: u32, profile: u32 },
}

/// Whatever stands for a road network. No call takes memory.
pub trait Roads {
    ghost network: { Self → NetworkValue };

    /// How many nodes there are, at most 262,144.
    fn nodes(&self) -> u32
        ensures count { result ≡ (network self.now).nodes }
        ensures sound { IsNetwork (network self.now) };

    /// How many roads there are, at most 1,048,576.
    fn arcs(&self) -> u32
        ensures count { result ≡ length (network self.now).arcs }
        ensures sound { IsNetwork (network self.now) };

    /// How many profiles there are, at most 1,048,576.
    fn profiles(&self) -> u32
        ensures count { result ≡ length (network self.now).profiles }
        ensures sound { IsNetwork (network self.now) };

    /// The road with this number, below the number of roads. Its ends are below the number of nodes, and its profile is
    /// below the number of profiles.
    fn arc(&self, arc: u32) -> RoadArc
        requires { arc < length (network self.now).arcs }
        ensures there { slice_get (network self.now).arcs arc ≡ Some result }
        ensures sound { IsNetwork (network self.now) };

    /// Whether the road with this number, below the number of roads, has a closed profile. Nobody drives it.
    fn closed(&self, arc: u32) -> bool
        requires { arc < length (network self.now).arcs }
        ensures closed { result ≡ is_closed_arc (network self.now) arc }
        ensures sound { IsNetwork (network self.now) };

    /// When the road with this number, below the number of roads, arrives, leaving at an absolute second of at most 2^62; it
    /// isn't closed. It never arrives before it leaves, and leaving later never arrives earlier.
    fn drive(&self, arc: u32, second: u64) -> u64
        requires road { arc < length (network self.now).arcs }
        requires time { second ≤ 2 ^ 62 }
        requires open { is_closed_arc (network self.now) arc ≡ false }
        ensures value { result ≡ arc_value (network self.now) arc second }
        ensures onward { second ≤ result }
        ensures fifo { (later : ℕ) → second ≤ later
            → result ≤ arc_value (network self.now) arc later }
        ensures sound { IsNetwork (network self.now) };

    /// How many pieces the profile with this number has, 1 to 86,400.
    fn pieces(&self, profile: u32) -> u32
        requires { profile < length (network self.now).profiles }
        ensures count { result ≡ length (pieces_of (network self.now) profile) }
        ensures sound { IsNetwork (network self.now) };

    /// The piece with this index of the profile with this number.
    fn piece(&self, profile: u32, index: u32) -> Piece
        requires { index < length (pieces_of (network self.now) profile) }
        ensures there { slice_get (pieces_of (network self.now) profile) index ≡ Some result }
        ensures sound { IsNetwork (network self.now) };
}

/// A road network in memory. Contracts see its number of nodes, its roads and its profiles.
#[derive(Clone, Drop)]
pub struct Network {
    nodes: u32,
    arcs: Vec<RoadArc>,
    profiles: Vec<Profile>,
}

impl Model for Network {
    ghost use Rattle.cu_model.specs.Networks.{NetworkValue, IsNetwork};

    ghost Value = { NetworkValue };

    ghost view = { λ network. record {
      nodes = network.nodes;
      arcs = network.arcs.items;
      profiles = network.profiles.items;
    } };

    ghost invariant = { λ network. IsNetwork (record {
      nodes = network.nodes;
      arcs = network.arcs.items;
      profiles = network.profiles.items;
    }) };
}

impl Network {
    /// The network of so many nodes, at most 262,144, with these roads and profiles, at most 1,048,576 each. The ends of a
    /// road are below the number of nodes, its profile below the number of profiles. Takes no memory.
    pub fn of(nodes: u32, arcs: Vec<RoadArc>, profiles: Vec<Profile>) -> Network
        requires { IsNetwork
            (record { nodes = nodes; arcs = arcs.items; profiles = profiles.items }) }
        ensures { result ≡ record {
          nodes = nodes;
          arcs = arcs.items;
          profiles = profiles.items;
        } }
    {
        Network {
            nodes,
            arcs,
            profiles,
        }
    }

    /// Makes one change. The profile that it sets is below the number of profiles; so are the road and the profile that it
    /// assigns, below theirs. Takes no memory.
    pub fn apply(&mut self, edit: Edit)
        requires { IsEditInRange self.old edit }
        ensures { self.new ≡ edited self.old edit }
    {
        match edit {
            Edit::Set { profile, pieces } => self.set(profile, pieces),
            Edit::Assign { arc, profile } => self.assign(arc, profile),
        }
    }

    fn set(&mut self, profile: u32, pieces: Profile)
        requires { profile < length self.old.profiles }
        ensures { self.new
            ≡ record self.old { profiles = slice_set self.old.profiles profile pieces } }
    {
        self.profiles[profile as usize].replace(pieces);
    }

    fn assign(&mut self, arc: u32, profile: u32)
        requires arc { arc < length self.old.arcs }
        requires profile { profile < length self.old.profiles }
        ensures { self.new ≡ edited self.old (Assign arc profile) }
    {
        self.arcs[arc as usize].profile = profile;
    }
}

impl Roads for Network {
    ghost network = { λ network. network };

    fn nodes(&self) -> u32 {
        self.nodes
    }

    fn arcs(&self) -> u32 {
        self.arcs.len() as u32
    }

    fn profiles(&self) -> u32 {
        self.profiles.len() as u32
    }

    fn arc(&self, arc: u32) -> RoadArc {
        self.arcs[arc as usize]
    }

    fn closed(&self, arc: u32) -> bool {
        let profile = self.arcs[arc as usize].profile;
        self.profiles[profile as usize].is_closed()
    }

    fn drive(&self, arc: u32, second: u64) -> u64 {
        let profile = self.arcs[arc as usize].profile;
        self.profiles[profile as usize].arrive(second)
    }

    fn pieces(&self, profile: u32) -> u32 {
        self.profiles[profile as usize].pieces().len() as u32
    }

    fn piece(&self, profile: u32, index: u32) -> Piece {
        self.profiles[profile as usize].pieces()[index as usize]
    }
}
