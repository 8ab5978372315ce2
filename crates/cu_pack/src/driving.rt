//! The roads of a file whose roads and profiles passed their checks.

ghost use Rattle.std.specs.Prelude.{◌≡◌, ◌≤◌, ◌<◌, ◌^◌, ◌%◌, Some, length, slice_get};
ghost use Rattle.cu_model.specs.Networks.{IsNetwork};
ghost use Rattle.cu_model.specs.Roads.{arc_value, is_closed_arc};
ghost use Rattle.cu_pack.specs.Checks.{HasRoads};
ghost use Rattle.cu_pack.specs.Reading.{counts_in, network_in, profile_in};

use crate::cutting::Sections;
use cu_model::{DAY, Piece};

impl<'a> Sections<'a> {
    /// How many pieces a profile has, 1 to 86,400.
    pub fn piece_count(&self, profile: u32) -> u32
        requires roads { HasRoads self.now }
        requires profile { profile < (counts_in self.now).profiles }
        ensures count { result ≡ length (profile_in self.now profile) }
        ensures some { 0 < result }
    {
        (self.profile_start(profile + 1) - self.profile_start(profile)) as u32
    }

    /// The piece with this index of a profile.
    pub fn piece_of(&self, profile: u32, index: u32) -> Piece
        requires roads { HasRoads self.now }
        requires profile { profile < (counts_in self.now).profiles }
        requires index { index < length (profile_in self.now profile) }
        ensures there { slice_get (profile_in self.now profile) index ≡ Some result }
    {
        let start = self.profile_start(profile);
        self.piece(start + u64::from(index))
    }

    /// Whether a road is closed: nobody drives it.
    pub fn is_closed(&self, arc: u32) -> bool
        requires roads { HasRoads self.now }
        requires arc { arc < (counts_in self.now).arcs }
        ensures closed { result ≡ is_closed_arc (network_in self.now) arc }
    {
        let profile = self.arc(arc).profile;
        let first = self.profile_start(profile);
        self.piece(first).rule.is_closed()
    }

    /// When a road that isn't closed arrives, leaving at an absolute second.
    pub fn arrive(&self, arc: u32, second: u64) -> u64
        requires roads { HasRoads self.now }
        requires arc { arc < (counts_in self.now).arcs }
        requires time { second ≤ 2 ^ 62 }
        ensures value { result ≡ arc_value (network_in self.now) arc second }
        ensures sound { IsNetwork (network_in self.now) }
    {
        let profile = self.arc(arc).profile;
        let time = (second % u64::from(DAY)) as u32;
        self.piece_begun(profile, time).rule.arrival(second)
    }
}
