//! What was learned of lists, kept from one edit to the next.

ghost use Rattle.std.specs.Prelude.{◌≡◌, ◌≤◌, ◌<◌, ◌*◌, ℕ, IfOk, OnOk, length, true};
ghost use Rattle.cu_chordal.specs.declared.graph.TheConstants.{MAX_EDGES};
ghost use Rattle.cu_interval.specs.Hierarchies.{HierarchyValue, list_number};
ghost use Rattle.cu_unpack.specs.Rebuilds.{IsRebuiltFunction};
ghost use Rattle.cu_unpack.specs.RebuiltRuns.{IsKnownList, IsSized};
ghost use Rattle.cu_edits.specs.Learned.{ArePackedOf};
ghost use Rattle.cu_edits.specs.Steps.Taking.{HasTaken, TakesList};

use crate::moved_lists::MovedLists;
use crate::settler_state::PackedState;
use cu_arrival::Arrival;
use cu_chordal::MAX_EDGES;
use cu_customize::PackedSettling;
use cu_interval::{Dir, Shortcut, Ways};
use cu_model::NoMemory;
use cu_runs::DayFunction;
use cu_unpack::PackedFunctions;
use std::alloc::Global;
use std::marker::Model;

/// Functions of lists of a hierarchy, as packed runs, and the room that settling by them takes. An edit hands them on to the next,
/// so that a function which is known needn't be rebuilt. Contracts see which lists are known, and their functions.
#[derive(Drop)]
pub struct Learned {
    functions: PackedFunctions,
    settling: PackedSettling,
}

impl Model for Learned {
    ghost use Rattle.cu_unpack.specs.RebuiltRuns.{PackedValue};

    ghost Value = { PackedValue };

    ghost view = { λ learned. learned.functions };
}

impl Learned {
    /// Nothing is known of the lists of the hierarchy of these ways.
    pub fn of<W: Ways>(alloc: Global, ways: &W) -> Result<Learned, NoMemory>
        ensures { IfOk result (ArePackedOf (W.hierarchy ways.now)) }
    {
        Learned::nothing(alloc, ways, ways.edges())
    }

    /// Makes sure that the function of the list of an edge in a direction is known: it is rebuilt from these ways where it isn't,
    /// and with it those that it needs. The edge's number is below the number of edges. False where a way takes longer than packed
    /// runs can say. Refused only for want of memory; what was learned stays then too.
    pub fn learn<W: Ways>(
        &mut self,
        alloc: Global,
        ways: &W,
        edge: u32,
        dir: Dir,
    ) -> Result<bool, NoMemory>
        requires edge { edge < length (W.hierarchy ways.now).edges }
        requires packed { ArePackedOf (W.hierarchy ways.now) self.old }
        ensures known { IfOk result
            (λ is_near. is_near ≡ true → IsKnownList self.new (list_number edge dir)) }
        ensures packed { ArePackedOf (W.hierarchy ways.now) self.new }
    {
        self.functions.learn(alloc, ways, edge, dir)
    }

    /// A copy of the function of the list of an edge in a direction, which is known; none where the list is empty.
    pub fn function(&self, alloc: Global, edge: u32, dir: Dir) -> Result<Option<Arrival>, NoMemory>
        requires known { IsKnownList self.now (list_number edge dir) }
        requires place { list_number edge dir < length self.now.functions }
        ensures { IfOk result (λ function. (h : HierarchyValue) → ArePackedOf h self.now
            → IsRebuiltFunction h edge dir function) }
    {
        let functions = self.functions.functions();
        match functions.get(Shortcut { edge, dir }.list()) {
            Some(function) => Ok(Some(function.to_arrival(alloc)?)),
            None => Ok(None),
        }
    }

    /// Nothing is known of the lists of so many edges, at most [`MAX_EDGES`]. Functions are bounded in the windows of the day
    /// that suit the roads of these ways.
    pub(crate) fn nothing<W: Ways>(alloc: Global, ways: &W, edges: u32) -> Result<Learned, NoMemory>
        requires edges { edges ≤ MAX_EDGES }
        ensures { IfOk result (λ learned. (h : HierarchyValue)
            → length h.edges ≡ edges → ArePackedOf h learned) }
    {
        let settling = PackedSettling::new(alloc, ways)?;
        let windows = settling.windows();
        Ok(Learned {
            functions: PackedFunctions::new(alloc, edges, windows)?,
            settling,
        })
    }

    /// With lists none of which was moved yet.
    pub(crate) fn packed_with(self, moved: MovedLists) -> PackedState
        ensures functions { result.functions ≡ self }
        ensures moved { result.moved ≡ moved }
    {
        PackedState {
            functions: self.functions,
            moved,
            settling: self.settling,
        }
    }

    /// What was known before an edit that isn't made: the functions of lists before it, without those of lists that were moved.
    pub(crate) fn before(state: PackedState) -> Learned
        ensures { result ≡ state.functions }
    {
        let PackedState {
            functions,
            settling,
            ..
        } = state;
        Learned {
            functions,
            settling,
        }
    }

    /// What is known after an edit of so many edges: the functions of lists that stand, and those of lists that were moved.
    pub(crate) fn after(alloc: Global, state: PackedState, edges: u32) -> Result<Learned, NoMemory>
        requires places { length state.moved.places ≡ 2 * edges }
        requires size { IsSized edges state.functions }
        ensures { IfOk result (λ learned. HasTaken state.moved state.functions learned edges) }
    {
        let PackedState {
            mut functions,
            moved,
            settling,
        } = state;
        match take_moved(alloc, &moved, edges, &mut functions) {
            Ok(()) => {
                drop(moved);
                Ok(Learned {
                    functions,
                    settling,
                })
            }
            Err(refused) => {
                drop(PackedState {
                    functions,
                    moved,
                    settling,
                });
                Err(refused)
            }
        }
    }
}

// Takes the functions of those lists of so many edges that were moved.
fn take_moved(
    alloc: Global,
    moved: &MovedLists,
    edges: u32,
    functions: &mut PackedFunctions,
) -> Result<(), NoMemory>
    requires places { length moved.now.places ≡ 2 * edges }
    requires size { IsSized edges functions.old }
    ensures { OnOk result (HasTaken moved.now functions.old functions.new edges) }
{
    for edge in 0..edges {
        take_list(alloc, moved, functions, edge, Dir::Up)?;
        take_list(alloc, moved, functions, edge, Dir::Down)?;
    }
    Ok(())
}

// Takes the function of the list of an edge in a direction, if it was moved.
fn take_list(
    alloc: Global,
    moved: &MovedLists,
    functions: &mut PackedFunctions,
    edge: u32,
    dir: Dir,
) -> Result<(), NoMemory>
    requires places { list_number edge dir < length moved.now.places }
    requires known { list_number edge dir < length functions.old.known }
    requires functions { list_number edge dir < length functions.old.functions }
    ensures { OnOk result (TakesList moved.now functions.old functions.new edge dir) }
{
    let Some(function) = moved.function(edge, dir) else {
        return Ok(());
    };
    let copy = copy_function(alloc, function)?;
    functions.put(edge, dir, copy)
}

// A copy of a function, if there is one.
fn copy_function(
    alloc: Global,
    function: &Option<DayFunction>,
) -> Result<Option<DayFunction>, NoMemory>
    ensures { IfOk result (λ copy. copy ≡ function.now) }
{
    let Some(function) = function else {
        return Ok(None);
    };
    Ok(Some(function.copy(alloc)?))
}
