//! The lists that an edit moved.

ghost use Rattle.std.specs.Prelude.{◌≡◌, ◌≢◌, ◌≤◌, ◌<◌, ◌+◌, ◌*◌, ◌↔◌, ℕ, suc, All, IfNone, IfOk, IfSome, IsTrue, OnErr, Some, length, slice_get, slice_set};
ghost use Rattle.cu_chordal.specs.declared.graph.TheConstants.{MAX_EDGES};
ghost use Rattle.cu_runs.specs.Layers.{layered};
ghost use Rattle.cu_interval.specs.declared.ways.Dir.TheVariants.{Up, Down};
ghost use Rattle.cu_interval.specs.Hierarchies.{list_number};
ghost use Rattle.cu_edits.specs.Steps.Moving.{IsMovedTo, IsUnmoved, KeepsOutcome, LetsGo};

use crate::new_list::Outcome;
use cu_chordal::MAX_EDGES;
use cu_interval::{Dir, Shortcut};
use cu_model::NoMemory;
use cu_runs::{DayFunction, LayeredFunctions, PlacedFunctions};
use std::alloc::Global;
use std::marker::Model;

/// Lists whose ways an edit changed, or when these arrive, with their functions after it. Contracts see where the function
/// of each list stands, the functions, and below which rank they were let go of.
#[derive(Drop)]
pub struct MovedLists {
    // By list number: 0, or one more than where the function stands.
    places: Vec<u32>,
    functions: Vec<Option<DayFunction>>,
    // The functions of edges that lead up to lower ranks were let go of.
    low: u32,
}

impl Model for MovedLists {
    ghost use Rattle.std.specs.Prelude.{◌≤◌, All, length};
    ghost use Rattle.cu_edits.specs.Steps.Moving.{AreApart, MovedValue};

    ghost Value = { MovedValue };

    ghost view = { λ moved. record {
      places = moved.places.items;
      functions = moved.functions.items;
      low = moved.low;
    } };

    ghost invariant = { λ moved.
        All (λ place. place ≤ length moved.functions.items) moved.places.items
        × AreApart moved.places.items };
}

impl MovedLists {
    /// Of the lists of so many edges none was moved.
    pub fn new(alloc: Global, edges: u32) -> Result<MovedLists, NoMemory>
        requires edges { edges ≤ MAX_EDGES }
        ensures long { IfOk result (λ moved. length moved.places ≡ 2 * edges) }
        ensures none { IfOk result (λ moved. All (λ place. place ≡ 0) moved.places) }
        ensures low { IfOk result (λ moved. moved.low ≡ 0) }
    {
        Ok(MovedLists {
            places: vec![in alloc; 0; 2 * edges as usize]?,
            functions: Vec::new(alloc),
            low: 0,
        })
    }

    /// The rank below which functions of edges that lead up to it were let go of.
    pub fn low(&self) -> u32
        ensures { result ≡ self.now.low }
    {
        self.low
    }

    /// The functions of edges that lead up to lower ranks than this may be let go of from now on.
    pub fn rise_to(&mut self, rank: u32)
        ensures { self.new ≡ record self.old { low = rank } }
    {
        self.low = rank;
    }

    /// Lets go of the functions of both lists of an edge, as far as they were moved.
    pub fn let_go(&mut self, edge: u32)
        requires { 2 * edge + 1 < length self.old.places }
        ensures { LetsGo (λ list. (list ≢ 2 * edge) × (list ≢ 2 * edge + 1)) self.old self.new }
    {
        let up = Shortcut { edge, dir: Dir::Up }.list();
        self.let_go_of_list(up);
        self.let_go_of_list(up + 1);
    }

    // The same of the list with a number.
    fn let_go_of_list(&mut self, number: usize)
        requires { number < length self.old.places }
        ensures { LetsGo (λ list. list ≢ number) self.old self.new }
    {
        let place = self.places[number];
        if place == 0 {
            return;
        }
        self.functions[place as usize - 1] = None;
    }

    /// Was the list of an edge in a direction not moved?
    pub fn is_unmoved(&self, edge: u32, dir: Dir) -> bool
        requires { list_number edge dir < length self.now.places }
        ensures { IsTrue result ↔ IsUnmoved self.now edge dir }
    {
        self.places[Shortcut { edge, dir }.list()] == 0
    }

    /// The function of the list of an edge in a direction, if it was moved.
    pub fn function(&self, edge: u32, dir: Dir) -> Option<&Option<DayFunction>>
        requires { list_number edge dir < length self.now.places }
        ensures unmoved { IfNone result (IsUnmoved self.now edge dir) }
        ensures moved { IfSome result (λ function. IsMovedTo self.now edge dir function.now) }
    {
        let place = self.places[Shortcut { edge, dir }.list()];
        if place == 0 {
            return None;
        }
        Some(&self.functions[place as usize - 1])
    }

    /// These functions by list number, but those of moved lists in their place. Takes no memory.
    pub fn over<'a>(&'a self, functions: PlacedFunctions<'a>) -> LayeredFunctions<'a>
        ensures { result ≡ layered functions.entry self.now.places self.now.functions }
    {
        LayeredFunctions::over_placed(functions, &self.places, &self.functions)
    }

    /// Keeps what became of a list, until [`place`] says which list it is. Answers where.
    pub fn keep(&mut self, outcome: Outcome) -> Result<u32, NoMemory>
        ensures kept { IfOk result (KeepsOutcome self.old self.new outcome) }
        ensures same { OnErr result (self.new ≡ self.old) }
    {
        let Outcome::Moves(function) = outcome else {
            return Ok(0);
        };
        let place = self.functions.len();
        if place >= u32::MAX as usize {
            return Err(NoMemory);
        }
        self.functions.push(function)?;
        Ok(place as u32 + 1)
    }

    /// Both lists of an edge have become what is kept at these places, where no other list's function stands.
    pub fn place(&mut self, edge: u32, up: u32, down: u32)
        requires edge { list_number edge Down < length self.old.places }
        requires up { up ≤ length self.old.functions }
        requires down { down ≤ length self.old.functions }
        requires own { (list place : ℕ) → slice_get self.old.places list ≡ Some (suc place)
            → (suc place ≢ up) × (suc place ≢ down) }
        requires apart { up ≡ down → up ≡ 0 }
        ensures low { self.new.low ≡ self.old.low }
        ensures places { self.new.places ≡ slice_set (slice_set self.old.places
            (list_number edge Up) up) (list_number edge Down) down }
        ensures functions { self.new.functions ≡ self.old.functions }
    {
        let list = Shortcut { edge, dir: Dir::Up }.list();
        self.places[list] = up;
        self.places[list + 1] = down;
    }
}
