//! A list of edits that are made in turn and settled together.

ghost use Rattle.std.specs.Prelude.{◌≡◌, ◌≤◌, ◌<◌, ◌+◌, ◌^◌, ◌↔◌, ◌++◌, ◌∷◌, [], ℕ, All, IfOk, IsTrue, OnErr, OnOk, Some, length, slice_get};
ghost use Rattle.std.specs.List.{Contains};
ghost use Rattle.cu_model.specs.Edits.{IsEditInRange};
ghost use Rattle.cu_model.specs.Networks.{NetworkValue};
ghost use Rattle.cu_interval.specs.Hierarchies.{HierarchyValue, IsHierarchyOf};
ghost use Rattle.cu_resettled.specs.ResettlingAll.{IsChangedBySome, NumbersTouchedBySome, edited_all};
ghost use Rattle.cu_edits.specs.EditLists.{AreByProfile, AreChanged, FitsList, FitsNetwork, HasProfile};
ghost use Rattle.cu_edits.specs.Steps.Adding.{AreFirstProfiles, AreMoved, IsInside, SetsPieces, added, assigned_by, given_by, marked_at};
ghost use Rattle.cu_edits.specs.Steps.Climbing.{ArePlanned};
ghost use Rattle.cu_edits.specs.Steps.Found.{AddsDriven};
ghost use Rattle.cu_edits.specs.Together.{GiveProfile};

use crate::finding::{Planned, plan_road, plan_roads};
use crate::found_edges::FoundEdges;
use cu_chordal::{Chordal, Groups};
use cu_interval::Ways;
use cu_model::{Edit, NoMemory, Profile, RoadArc, Roads};
use std::alloc::Global;
use std::marker::Model;

/// Edits of a hierarchy that are made in turn and settled together, so that an edge that several of them touch is settled once.
/// Beside them stand the profile of each road and the pieces of each profile after them all, which roads they change and which
/// edges they touch, and the roads of each profile before them. Contracts see all of it.
#[derive(Drop)]
pub struct EditList {
    edits: Vec<Edit>,
    // Of each road 0, or one more than the profile that it was assigned last.
    assigned: Vec<u32>,
    // Of each profile 0, or one more than the index of the edit that set it last.
    given: Vec<usize>,
    changed: Vec<bool>,
    touched: Vec<bool>,
    // Of each profile the roads that had it before them, and of all profiles the roads that were assigned another since.
    roads: Groups,
    moved: Vec<u32>,
    // Room in which the edges are found that an edit touches.
    found: FoundEdges,
}

impl Model for EditList {
    ghost use Rattle.std.specs.Prelude.{◌≡◌, length};
    ghost use Rattle.cu_edits.specs.EditLists.{EditListValue};
    ghost use Rattle.cu_edits.specs.Steps.Adding.{AreMoved};

    ghost Value = { EditListValue };

    ghost view = { λ list. record {
      edits = list.edits.items;
      assigned = list.assigned.items;
      given = list.given.items;
      changed = list.changed.items;
      touched = list.touched.items;
      roads = list.roads;
    } };

    ghost invariant = { λ list. AreMoved list.assigned.items list.moved.items
        × (list.found.edges ≡ length list.touched.items) };
}

impl EditList {
    /// No edits yet, of the hierarchy of these ways.
    pub fn new<W: Ways>(alloc: Global, ways: &W) -> Result<EditList, NoMemory>
        ensures none { IfOk result (λ list. list.edits ≡ []) }
        ensures fits { IfOk result (FitsList (W.hierarchy ways.now)) }
    {
        let arcs = ways.arcs() as usize;
        Ok(EditList {
            edits: Vec::new(alloc),
            assigned: vec![in alloc; 0; arcs]?,
            given: vec![in alloc; 0; ways.profiles() as usize]?,
            changed: vec![in alloc; false; arcs]?,
            touched: vec![in alloc; false; ways.edges() as usize]?,
            roads: by_profile(alloc, ways)?,
            moved: Vec::new(alloc),
            found: FoundEdges::none(alloc, ways.edges())?,
        })
    }

    /// Are there none? Takes no memory.
    pub fn is_empty(&self) -> bool
        ensures { IsTrue result ↔ (self.now.edits ≡ []) }
    {
        self.edits.is_empty()
    }

    /// A road with the profile that it has after them.
    pub(crate) fn with_profile(&self, arc: u32, road: RoadArc) -> RoadArc
        ensures { (g : NetworkValue) → FitsNetwork g self.now → slice_get g.arcs arc ≡ Some road
            → slice_get (edited_all g self.now.edits).arcs arc ≡ Some result }
    {
        let assigned = assigned_at(&self.assigned, arc);
        if assigned == 0 {
            return road;
        }
        RoadArc {
            tail: road.tail,
            head: road.head,
            profile: assigned - 1,
        }
    }

    /// The pieces that they give the profile with this number in the end. None where they leave it.
    pub(crate) fn given(&self, profile: u32) -> Option<&Profile>
        ensures { (g : NetworkValue) → FitsNetwork g self.now
            → GiveProfile g self.now.edits profile result }
    {
        let given = given_at(&self.given, profile);
        if given == 0 || given > self.edits.len() {
            return None;
        }
        pieces_of(&self.edits[given - 1])
    }

    /// Does some of them change this road?
    pub(crate) fn is_changed(&self, arc: u32) -> bool
        ensures { (g : NetworkValue) → FitsNetwork g self.now → arc < length g.arcs
            → IsTrue result ↔ IsChangedBySome g self.now.edits arc }
    {
        match self.changed.get(arc as usize) {
            Some(changed) => *changed,
            None => false,
        }
    }

    /// The edges that some of them touches, by rising number, of so many edges.
    pub fn touched(&self, alloc: Global, edges: u32) -> Result<Vec<u32>, NoMemory>
        requires edges { length self.now.touched ≡ edges }
        ensures { IfOk result (λ touched. (h : HierarchyValue) → FitsList h self.now
            → NumbersTouchedBySome h self.now.edits touched.items) }
    {
        let mut touched = Vec::new(alloc);
        for edge in 0..edges {
            if self.touched[edge as usize] {
                touched.push(edge)?;
            }
        }
        Ok(touched)
    }

    /// The roads that an edit changes behind all of them, over the roads as they leave them. For pieces that are set it takes the
    /// time of the roads that had the profile and of those that were assigned another.
    pub(crate) fn changed_by<R: Roads>(
        &self,
        alloc: Global,
        roads: &R,
        edit: &Edit,
    ) -> Result<Vec<u32>, NoMemory>
        requires roads { (g : NetworkValue) × FitsNetwork g self.now
            × (R.network roads.now ≡ edited_all g self.now.edits) }
        requires range { IsEditInRange (R.network roads.now) edit.now }
        ensures { IfOk result (λ arcs. AreChanged (R.network roads.now) edit.now arcs.items) }
    {
        match edit {
            Edit::Set { profile, .. } => self.driven_by(alloc, roads, *profile),
            Edit::Assign { arc, .. } => only_arc(alloc, *arc),
        }
    }

    // The roads that have a profile, over the roads as they leave them.
    fn driven_by<R: Roads>(
        &self,
        alloc: Global,
        roads: &R,
        profile: u32,
    ) -> Result<Vec<u32>, NoMemory>
        requires roads { (g : NetworkValue) × FitsNetwork g self.now
            × (R.network roads.now ≡ edited_all g self.now.edits) }
        requires profile { profile < length (R.network roads.now).profiles }
        ensures { IfOk result (λ arcs. (arc : ℕ) → Contains arcs.items arc
            ↔ HasProfile (R.network roads.now) profile arc) }
    {
        let mut arcs = Vec::new(alloc);
        add_driven(roads, self.roads.group(profile), profile, &mut arcs)?;
        add_driven(roads, &self.moved, profile, &mut arcs)?;
        Ok(arcs)
    }

    /// The edges that an edit touches which changes these roads, over the network as edits left it. The graph is that of the
    /// hierarchy. Contracts see the same list before and after: it lends its room alone.
    pub(crate) fn touched_from<W: Ways>(
        &mut self,
        alloc: Global,
        ways: &W,
        arcs: &[u32],
        graph: &Chordal,
    ) -> Result<Planned, NoMemory>
        requires arcs { All (λ arc. arc < length (W.hierarchy ways.now).network.arcs) arcs.now }
        requires graph { IsHierarchyOf graph.now (W.hierarchy ways.now) }
        requires edges { length self.old.touched ≡ length graph.now.edges }
        ensures planned { IfOk result
            (ArePlanned (W.hierarchy ways.now) arcs.now self.old.touched) }
        ensures same { self.new ≡ self.old }
    {
        if arcs.len() == 1 {
            return plan_road(alloc, ways, arcs[0], graph, &self.touched);
        }
        let edges = plan_roads(alloc, ways, arcs, graph, &mut self.found)?;
        Ok(Planned {
            count: edges.len() as u32,
            edges,
        })
    }

    /// One more edit, which changes these roads and touches these edges. Where memory runs out it isn't added.
    pub(crate) fn add(&mut self, edit: Edit, arcs: &[u32], edges: &[u32]) -> Result<(), NoMemory>
        requires inside { IsInside (length self.old.assigned) (length self.old.given) edit }
        requires few { length self.old.given < 2 ^ 32 }
        requires arcs { All (λ arc. arc < length self.old.changed) arcs.now }
        requires edges { All (λ edge. edge < length self.old.touched) edges.now }
        ensures made { OnOk result (self.new ≡ added self.old edit arcs.now edges.now) }
        ensures kept { OnErr result (self.new ≡ self.old) }
    {
        let EditList {
            edits,
            assigned,
            given,
            changed,
            touched,
            moved,
            ..
        } = self;
        note_moved(moved, assigned, &edit)?;
        edits.push(edit)?;
        let made = edits.len();
        note(assigned, given, &edits[made - 1], made);
        mark(changed, arcs);
        mark(touched, edges);
        Ok(())
    }
}

// Of each profile the roads that have it.
fn by_profile<R: Roads>(alloc: Global, roads: &R) -> Result<Groups, NoMemory>
    ensures { IfOk result (AreByProfile (R.network roads.now)) }
{
    let (profiles, arcs) = profiles_of(alloc, roads, roads.arcs())?;
    let groups = Groups::of(alloc, &profiles, &arcs, roads.profiles())?;
    Ok(groups)
}

// The profile of each road, of so many in all, and beside it the road's number.
fn profiles_of<R: Roads>(
    alloc: Global,
    roads: &R,
    count: u32,
) -> Result<(Vec<u32>, Vec<u32>), NoMemory>
    requires count { count ≡ length (R.network roads.now).arcs }
    ensures { IfOk result (λ (profiles, arcs). AreFirstProfiles (R.network roads.now)
        (length (R.network roads.now).arcs) profiles.items arcs.items) }
{
    let mut profiles = Vec::with_capacity(alloc, count as usize)?;
    let mut arcs = Vec::with_capacity(alloc, count as usize)?;
    for arc in 0..count {
        profiles.push(roads.arc(arc).profile)?;
        arcs.push(arc)?;
    }
    Ok((profiles, arcs))
}

// Adds those of some roads that have a profile.
fn add_driven<R: Roads>(
    roads: &R,
    some: &[u32],
    profile: u32,
    arcs: &mut Vec<u32>,
) -> Result<(), NoMemory>
    requires within { All (λ arc. arc < length (R.network roads.now).arcs) some.now }
    ensures { OnOk result (AddsDriven (R.network roads.now) profile some.now
        arcs.old.items arcs.new.items) }
{
    for arc in some {
        if roads.arc(*arc).profile == profile {
            arcs.push(*arc)?;
        }
    }
    Ok(())
}

// One road alone.
fn only_arc(alloc: Global, arc: u32) -> Result<Vec<u32>, NoMemory>
    ensures { IfOk result (λ arcs. arcs.items ≡ arc ∷ []) }
{
    let mut arcs = Vec::new(alloc);
    arcs.push(arc)?;
    Ok(arcs)
}

// Adds the road that an edit assigns a profile to those that were assigned one, unless it was assigned one before.
fn note_moved(moved: &mut Vec<u32>, assigned: &[u32], edit: &Edit) -> Result<(), NoMemory>
    requires inside { (profiles : ℕ) × IsInside (length assigned.now) profiles edit.now }
    requires moved { AreMoved assigned.now moved.old.items }
    ensures stays { AreMoved assigned.now moved.new.items }
    ensures moved { OnOk result (AreMoved (assigned_by assigned.now edit.now) moved.new.items) }
{
    let Edit::Assign { arc, .. } = edit else {
        return Ok(());
    };
    if assigned[*arc as usize] == 0 {
        moved.push(*arc)?;
    }
    Ok(())
}

// The number with this index. Past the last it is 0.
fn assigned_at(numbers: &[u32], index: u32) -> u32
    ensures there { index < length numbers.now → slice_get numbers.now index ≡ Some result }
    ensures past { length numbers.now ≤ index → result ≡ 0 }
{
    let place = index as usize;
    if place < numbers.len() {
        numbers[place]
    } else {
        0
    }
}

fn given_at(numbers: &[usize], index: u32) -> usize
    ensures there { index < length numbers.now → slice_get numbers.now index ≡ Some result }
    ensures past { length numbers.now ≤ index → result ≡ 0 }
{
    let place = index as usize;
    if place < numbers.len() {
        numbers[place]
    } else {
        0
    }
}

// The pieces that an edit sets. None where it sets none.
fn pieces_of(edit: &Edit) -> Option<&Profile>
    ensures { SetsPieces edit.now result }
{
    match edit {
        Edit::Set { pieces, .. } => Some(pieces),
        Edit::Assign { .. } => None,
    }
}

// Notes which profile an edit gives a road, or that it set a profile's pieces as the last of so many edits.
fn note(assigned: &mut [u32], given: &mut [usize], edit: &Edit, made: usize)
    requires arcs { IsInside (length assigned.old) (length given.old) edit.now }
    requires few { length given.old < 2 ^ 32 }
    ensures assigned { assigned.new ≡ assigned_by assigned.old edit.now }
    ensures given { given.new ≡ given_by given.old edit.now made }
{
    match edit {
        Edit::Set { profile, .. } => given[*profile as usize] = made,
        Edit::Assign { arc, profile } => assigned[*arc as usize] = *profile + 1,
    }
}

// Sets the marks with these numbers.
fn mark(marks: &mut [bool], numbers: &[u32])
    requires { All (λ number. number < length marks.old) numbers.now }
    ensures { marks.new ≡ marked_at marks.old numbers.now }
{
    'numbers: for number in numbers {
        marks[*number as usize] = true;
    }
}
