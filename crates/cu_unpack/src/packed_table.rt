//! Functions by list number as packed runs, and which lists are known.

ghost use Rattle.std.specs.Prelude.{◌≡◌, ◌≤◌, ◌<◌, ◌*◌, ◌∷◌, ◌++◌, [], All, IfOk, OnErr, OnOk, None, Some, false, length, slice_get, slice_set};
ghost use Rattle.cu_chordal.specs.declared.graph.TheConstants.{MAX_EDGES};
ghost use Rattle.cu_interval.specs.Shortcuts.{number_of};
ghost use Rattle.cu_runs.specs.Layers.{placed};
ghost use Rattle.cu_unpack.specs.RebuiltRuns.{AreSpared, IsSized, with_list};
ghost use Rattle.cu_unpack.specs.Steps.PackedRebuilding.{HasPacked, HavePlaces, IsKnown};

use crate::missing::Known;
use cu_chordal::MAX_EDGES;
use cu_interval::Shortcut;
use cu_model::NoMemory;
use cu_runs::{DayFunction, PlacedFunctions, Windows};
use std::alloc::Global;
use std::marker::Model;

/// Which lists are known, by number, with the functions of these. The room for functions is made at once, but the system gives it as
/// it is written: a list that isn't known takes five bytes. Contracts see the functions by list number.
#[derive(Drop)]
pub struct PackedTable {
    known: Vec<bool>,
    // For each list where its function stands: at 0, where none does, unless one was put in. No two share another place.
    places: Vec<u32>,
    kept: Vec<Option<DayFunction>>,
    // How many runs the functions have together, to know when they take much room.
    runs: usize,
}

impl Model for PackedTable {
    ghost use Rattle.cu_runs.specs.Layers.{placed};
    ghost use Rattle.cu_unpack.specs.RebuiltRuns.{PackedValue};
    ghost use Rattle.cu_unpack.specs.Steps.PackedRebuilding.{HavePlaces};

    ghost Value = { PackedValue };

    ghost view = { λ table. record {
      known = table.known.items;
      functions = placed table.places.items table.kept.items;
    } };

    ghost invariant = { λ table. HavePlaces table.places.items table.kept.items };
}

impl PackedTable {
    /// Room for the lists of so many edges. None is known.
    #[tactic(auto, using(crate::proofs::Places::none_placed, crate::proofs::Places::no_places))]
    pub fn new(alloc: Global, edges: u32) -> Result<PackedTable, NoMemory>
        requires edges { edges ≤ MAX_EDGES }
        ensures size { IfOk result (λ table. IsSized edges table) }
        ensures unknown { IfOk result (λ table. All (λ known. known ≡ false) table.known) }
        ensures none { IfOk result (λ table. All (λ function. function ≡ None) table.functions) }
    {
        let count = 2 * edges as usize;
        let known = vec![in alloc; false; count]?;
        let places = vec![in alloc; 0; count]?;
        let kept = only_none(alloc, count + 1)?;
        Ok(PackedTable {
            known,
            places,
            kept,
            runs: 0,
        })
    }

    /// How many lists there are.
    pub fn lists(&self) -> usize
        ensures { result ≡ length self.now.known }
    {
        self.known.len()
    }

    /// How many runs the functions have together.
    pub fn runs(&self) -> usize {
        self.runs
    }

    /// The functions, by list number.
    pub fn functions(&self) -> PlacedFunctions<'_>
        ensures { result ≡ self.now.functions }
    {
        PlacedFunctions::of(&self.places, &self.kept)
    }

    /// The function of a shortcut, which has one.
    pub fn function(&self, shortcut: Shortcut) -> &DayFunction
        requires { HasPacked self.now shortcut }
        ensures { slice_get self.now.functions (number_of shortcut) ≡ Some (Some result.now) }
    {
        let Some(function) = self.functions().get(shortcut.list()) else {
            unreachable!()
        };
        function
    }

    /// The list of a shortcut is known from then on, with this function. Where memory runs out nothing changes.
    pub fn put(&mut self, shortcut: Shortcut, function: Option<DayFunction>) -> Result<(), NoMemory>
        requires known { number_of shortcut < length self.old.known }
        requires functions { number_of shortcut < length self.old.functions }
        ensures put { OnOk result (self.new ≡ with_list self.old (number_of shortcut) function) }
        ensures same { OnErr result (self.new ≡ self.old) }
    {
        self.put_at(shortcut.list(), function)
    }

    /// The list with a number isn't known any more.
    pub fn forget(&mut self, number: usize)
        requires known { number < length self.old.known }
        requires functions { number < length self.old.functions }
        ensures { AreSpared self.old self.new }
    {
        if !self.known[number] {
            return;
        }
        let runs = runs_of(self.functions().get(number));
        let Ok(()) = self.put_at(number, None) else {
            return;
        };
        self.known[number] = false;
        self.runs = self.runs.saturating_sub(runs);
    }

    // The list with a number is known from then on, with this function. Where memory runs out nothing changes.
    fn put_at(&mut self, number: usize, function: Option<DayFunction>) -> Result<(), NoMemory>
        requires known { number < length self.old.known }
        requires functions { number < length self.old.functions }
        ensures put { OnOk result (self.new ≡ with_list self.old number function) }
        ensures same { OnErr result (self.new ≡ self.old) }
    {
        let runs = runs_of(&function);
        put_at(&mut self.places, &mut self.kept, number, function)?;
        self.known[number] = true;
        self.runs = self.runs.saturating_add(runs);
        Ok(())
    }

    /// Finds how long the function of a shortcut, if it has one, takes in each of these windows of the day.
    pub fn find_bounds(
        &mut self,
        alloc: Global,
        shortcut: Shortcut,
        windows: Windows,
    ) -> Result<(), NoMemory>
        requires { number_of shortcut < length self.old.functions }
        ensures { self.new ≡ self.old }
    {
        let place = self.places[shortcut.list()] as usize;
        if let Some(function) = &mut self.kept[place] {
            function.find_bounds(alloc, windows)?;
        }
        Ok(())
    }
}

impl Known for PackedTable {
    ghost lists = { λ table. length table.known };

    ghost knows = { λ table. IsKnown table };

    fn is_known(&self, shortcut: Shortcut) -> bool {
        self.known[shortcut.list()]
    }
}

// Room for so many functions, with none in the first place.
fn only_none(alloc: Global, room: usize) -> Result<Vec<Option<DayFunction>>, NoMemory>
    ensures { IfOk result (λ kept. kept.items ≡ None ∷ []) }
{
    let mut kept = Vec::with_capacity(alloc, room)?;
    kept.push(None)?;
    Ok(kept)
}

// Puts the function of the list with a number in its place, or, where it has none of its own, behind all others.
fn put_at(
    places: &mut [u32],
    kept: &mut Vec<Option<DayFunction>>,
    number: usize,
    function: Option<DayFunction>,
) -> Result<(), NoMemory>
    requires places { HavePlaces places.old kept.old.items }
    requires number { number < length places.old }
    ensures places { HavePlaces places.new kept.new.items }
    ensures put { OnOk result (placed places.new kept.new.items
        ≡ slice_set (placed places.old kept.old.items) number function) }
    ensures same { OnErr result
        (placed places.new kept.new.items ≡ placed places.old kept.old.items) }
{
    let place = places[number] as usize;
    if place > 0 {
        kept[place] = function;
        return Ok(());
    }
    let last = push_last(kept, function)?;
    places[number] = last;
    Ok(())
}

// Puts a function behind all others. Answers where it stands.
fn push_last(
    kept: &mut Vec<Option<DayFunction>>,
    function: Option<DayFunction>,
) -> Result<u32, NoMemory>
    ensures last { IfOk result (λ last. last ≡ length kept.old.items) }
    ensures put { OnOk result (kept.new.items ≡ kept.old.items ++ function ∷ []) }
    ensures same { OnErr result (kept.new.items ≡ kept.old.items) }
{
    let last = kept.len();
    if last >= u32::MAX as usize {
        return Err(NoMemory);
    }
    kept.push(function)?;
    Ok(last as u32)
}

// How many runs a function has, if there is one.
fn runs_of(function: &Option<DayFunction>) -> usize {
    match function {
        Some(function) => function.packed().len(),
        None => 0,
    }
}
