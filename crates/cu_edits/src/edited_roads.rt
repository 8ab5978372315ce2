//! The roads of a network after edits, over the roads before them.

ghost use Rattle.std.specs.Prelude.{◌≡◌, ◌<◌, ◌%◌, ◌∷◌, [], Some, length, slice_get};
ghost use Rattle.cu_model.specs.declared.roads.RoadArc.{RoadArc};
ghost use Rattle.cu_model.specs.Edits.{edited};
ghost use Rattle.cu_model.specs.Networks.{IsNetwork, NetworkValue};
ghost use Rattle.cu_model.specs.Profiles.{piece_at};
ghost use Rattle.cu_model.specs.Roads.{pieces_of};
ghost use Rattle.cu_resettled.specs.ResettlingAll.{edited_all};
ghost use Rattle.cu_edits.specs.Together.{FitEdits, GiveProfile, edits_of};

use crate::edits::{Edits, last_given, with_last_profile};
use cu_model::{DAY, Edit, Piece, Profile, RoadArc, Roads};
use std::marker::Model;

/// Roads as edits leave them. Contracts see their network.
#[derive(Drop)]
pub struct EditedRoads<'a, R: Roads> {
    roads: &'a R,
    edits: Edits<'a>,
}

impl<'a, R: Roads> Model for EditedRoads<'a, R> {
    ghost use Rattle.cu_model.specs.Networks.{IsNetwork, NetworkValue};
    ghost use Rattle.cu_resettled.specs.ResettlingAll.{edited_all};
    ghost use Rattle.cu_edits.specs.Together.{FitEdits, edits_of};

    ghost Value = { NetworkValue };

    ghost view = { λ after. edited_all (R.network after.roads.now) (edits_of after.edits) };

    ghost invariant = { λ after. FitEdits (R.network after.roads.now) after.edits
        × IsNetwork (edited_all (R.network after.roads.now) (edits_of after.edits)) };
}

impl<'a, R: Roads> EditedRoads<'a, R> {
    /// These roads after edits, which leave them a network. Takes no memory.
    pub fn of(roads: &'a R, edits: Edits<'a>) -> EditedRoads<'a, R>
        requires fits { FitEdits (R.network roads.now) edits }
        requires sound { IsNetwork (edited_all (R.network roads.now) (edits_of edits)) }
        ensures { result ≡ edited_all (R.network roads.now) (edits_of edits.entry) }
    {
        EditedRoads { roads, edits }
    }

    // The last piece of a profile that has begun by this second of the day.
    fn piece_begun(&self, profile: u32, time: u32) -> Piece
        requires { profile < length self.now.profiles }
        ensures { piece_at (pieces_of self.now profile) time ≡ Some result }
    {
        let mut index = self.pieces(profile) - 1;
        'pieces: while self.piece(profile, index).from > time {
            index -= 1;
        }
        self.piece(profile, index)
    }
}

impl<'a, R: Roads> Roads for EditedRoads<'a, R> {
    ghost network = { λ after. after };

    fn nodes(&self) -> u32 {
        self.roads.nodes()
    }

    fn arcs(&self) -> u32 {
        self.roads.arcs()
    }

    fn profiles(&self) -> u32 {
        self.roads.profiles()
    }

    fn arc(&self, arc: u32) -> RoadArc {
        let road = self.roads.arc(arc);
        with_last_profile(self.edits, arc, road)
    }

    fn closed(&self, arc: u32) -> bool {
        self.piece(self.arc(arc).profile, 0).rule.is_closed()
    }

    fn drive(&self, arc: u32, second: u64) -> u64 {
        let time = (second % u64::from(DAY)) as u32;
        self.piece_begun(self.arc(arc).profile, time)
            .rule
            .arrival(second)
    }

    fn pieces(&self, profile: u32) -> u32 {
        match last_given(self.edits, profile) {
            Some(given) => given.pieces().len() as u32,
            None => self.roads.pieces(profile),
        }
    }

    fn piece(&self, profile: u32, index: u32) -> Piece {
        match last_given(self.edits, profile) {
            Some(given) => given.pieces()[index as usize],
            None => self.roads.piece(profile, index),
        }
    }
}

// A road with the profile that it has after an edit.
pub(crate) fn with_profile(edit: &Edit, arc: u32, road: RoadArc) -> RoadArc
    ensures { (g : NetworkValue) → slice_get g.arcs arc ≡ Some road
        → slice_get (edited g edit.now).arcs arc ≡ Some result }
{
    match edit {
        Edit::Assign {
            arc: assigned,
            profile,
        } if *assigned == arc => RoadArc {
            tail: road.tail,
            head: road.head,
            profile: *profile,
        },
        _ => road,
    }
}

// The pieces that an edit gives the profile with this number. None where it leaves that one.
pub(crate) fn given_to(edit: &Edit, profile: u32) -> Option<&Profile>
    ensures { (g : NetworkValue) → GiveProfile g (edit.now ∷ []) profile result }
{
    match edit {
        Edit::Set {
            profile: given,
            pieces,
        } if *given == profile => Some(pieces),
        _ => None,
    }
}
