//! The functions that a list is settled by: one layer of them, or newer ones over it.

ghost use Rattle.std.specs.Prelude.{◌≡◌, ◌≤◌, ◌<◌, All, Some, length, slice_get};
ghost use Rattle.cu_runs.specs.Layers.{layered, older, placed};

use crate::day_function::DayFunction;
use std::marker::Model;

/// Functions of shortcuts by list number, which stand closer together than their numbers: each list has a place among those that
/// are kept, and many may share one that has none. Contracts see the list of functions.
#[derive(Drop)]
pub struct PlacedFunctions<'a> {
    places: &'a [u32],
    kept: &'a [Option<DayFunction>],
}

impl<'a> Model for PlacedFunctions<'a> {
    ghost use Rattle.std.specs.Prelude.{◌<◌, All, List, Option, length};
    ghost use Rattle.cu_arrival.specs.declared.runs.Run.{Run};
    ghost use Rattle.cu_runs.specs.Layers.{placed};

    ghost Value = { List (Option (List Run)) };

    ghost view = { λ all. placed all.places.now all.kept.now };

    ghost invariant = { λ all. All (λ place. place < length all.kept.now) all.places.now };
}

/// Functions of shortcuts by list number, some of them in the place of older ones. Contracts see the list of functions.
#[derive(Drop)]
pub struct LayeredFunctions<'a> {
    // The older ones, unless they have places.
    functions: &'a [Option<DayFunction>],
    with_places: Option<PlacedFunctions<'a>>,
    // For each list 0, or one more than where its newer function stands; shorter than the functions where the rest have
    // none.
    places: &'a [u32],
    newer: &'a [Option<DayFunction>],
}

impl<'a> Model for LayeredFunctions<'a> {
    ghost use Rattle.std.specs.Prelude.{◌≤◌, All, List, Option, length};
    ghost use Rattle.cu_arrival.specs.declared.runs.Run.{Run};
    ghost use Rattle.cu_runs.specs.Layers.{layered, older};

    ghost Value = { List (Option (List Run)) };

    ghost view = { λ all. layered (older all.with_places all.functions.now) all.places.now all.newer.now };

    ghost invariant = { λ all. All (λ place. place ≤ length all.newer.now) all.places.now };
}

impl<'a> PlacedFunctions<'a> {
    /// For each list the function at its place among these. Takes no memory.
    pub fn of(places: &'a [u32], kept: &'a [Option<DayFunction>]) -> PlacedFunctions<'a>
        requires { All (λ place. place < length kept.now) places.now }
        ensures { result ≡ placed places.now kept.now }
    {
        PlacedFunctions { places, kept }
    }

    /// The function of a list.
    pub fn get(&self, number: usize) -> &'a Option<DayFunction>
        requires { number < length self.now }
        ensures { slice_get self.now number ≡ Some result.now }
    {
        let places = self.places;
        let place = places[number] as usize;
        &self.kept[place]
    }
}

impl<'a> LayeredFunctions<'a> {
    /// These functions. Takes no memory.
    pub fn of(functions: &'a [Option<DayFunction>]) -> LayeredFunctions<'a>
        ensures { result ≡ functions.now }
    {
        LayeredFunctions {
            functions,
            with_places: None,
            places: &[],
            newer: &[],
        }
    }

    /// These functions, with the newer ones of the lists that have a place: 0 is none, any other number is one more than
    /// where the newer function stands, and lists behind the places have none. Takes no memory.
    pub fn with_newer(
        functions: &'a [Option<DayFunction>],
        places: &'a [u32],
        newer: &'a [Option<DayFunction>],
    ) -> LayeredFunctions<'a>
        requires places { All (λ place. place ≤ length newer.now) places.now }
        ensures { result ≡ layered functions.now places.now newer.now }
    {
        LayeredFunctions {
            functions,
            with_places: None,
            places,
            newer,
        }
    }

    /// [`LayeredFunctions::with_newer`], where the older functions have places too.
    pub fn over_placed(
        functions: PlacedFunctions<'a>,
        places: &'a [u32],
        newer: &'a [Option<DayFunction>],
    ) -> LayeredFunctions<'a>
        requires places { All (λ place. place ≤ length newer.now) places.now }
        ensures { result ≡ layered functions.entry places.now newer.now }
    {
        LayeredFunctions {
            functions: &[],
            with_places: Some(functions),
            places,
            newer,
        }
    }

    /// The function of a list.
    pub fn get(&self, number: usize) -> &'a Option<DayFunction>
        requires { number < length self.now }
        ensures { slice_get self.now number ≡ Some result.now }
    {
        if number < self.places.len() {
            let place = self.places[number] as usize;
            if place > 0 {
                return &self.newer[place - 1];
            }
        }
        older_at(&self.with_places, self.functions, number)
    }
}

// The function of a list among these with places, if there are such, or else among those without.
fn older_at<'a>(
    with_places: &Option<PlacedFunctions<'a>>,
    functions: &'a [Option<DayFunction>],
    number: usize,
) -> &'a Option<DayFunction>
    requires { number < length (older with_places.now functions.now) }
    ensures { slice_get (older with_places.now functions.now) number ≡ Some result.now }
{
    match with_places {
        Some(placed) => placed.get(number),
        None => &functions[number],
    }
}
