//! Which edits are settled together.

ghost use Rattle.std.specs.Prelude.{◌≡◌, ◌<◌, ◌↔◌, IsTrue, Some, length, slice_get};
ghost use Rattle.cu_model.specs.Networks.{NetworkValue};
ghost use Rattle.cu_resettled.specs.ResettlingAll.{IsChangedBySome, edited_all};
ghost use Rattle.cu_edits.specs.Lists.{AreInRange, AreSound};
ghost use Rattle.cu_edits.specs.Together.{FitEdits, GiveProfile, edits_of};

use crate::edit_list::EditList;
use crate::edited_roads::{given_to, with_profile};
use crate::reading::read_edit;
use crate::road_functions::is_changed;
use cu_model::{Edit, Profile, RoadArc, Roads};

/// One edit, or all of a list, made in turn.
#[derive(Clone, Copy)]
pub enum Edits<'a> {
    One(&'a Edit),
    All(&'a EditList),
}

/// Learns that they are in range, and that what they set are profiles.
pub fn read_edits(edits: Edits<'_>)
    ensures { (g : NetworkValue) → FitEdits g edits.entry
        → AreInRange g (edits_of edits.entry) × AreSound (edits_of edits.entry) }
{
    if let Edits::One(edit) = edits {
        read_edit(edit);
    }
}

/// A road with the profile that it has after them.
pub fn with_last_profile(edits: Edits<'_>, arc: u32, road: RoadArc) -> RoadArc
    ensures { (g : NetworkValue) → FitEdits g edits.entry → slice_get g.arcs arc ≡ Some road
        → slice_get (edited_all g (edits_of edits.entry)).arcs arc ≡ Some result }
{
    match edits {
        Edits::One(edit) => with_profile(edit, arc, road),
        Edits::All(list) => list.with_profile(arc, road),
    }
}

/// The pieces that they give the profile with this number in the end. None where they leave it.
pub fn last_given(edits: Edits<'_>, profile: u32) -> Option<&Profile>
    ensures { (g : NetworkValue) → FitEdits g edits.entry
        → GiveProfile g (edits_of edits.entry) profile result }
{
    match edits {
        Edits::One(edit) => given_to(edit, profile),
        Edits::All(list) => list.given(profile),
    }
}

/// Does some of them change a road, below the number of roads?
pub fn is_changed_by_some<R: Roads>(roads: &R, edits: Edits<'_>, arc: u32) -> bool
    requires fits { FitEdits (R.network roads.now) edits }
    requires arc { arc < length (R.network roads.now).arcs }
    ensures { IsTrue result ↔ IsChangedBySome (R.network roads.now) (edits_of edits.entry) arc }
{
    match edits {
        Edits::One(edit) => is_changed(roads, edit, arc),
        Edits::All(list) => list.is_changed(arc),
    }
}
