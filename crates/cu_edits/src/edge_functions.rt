//! The functions that settling an edge asks for, all of them known beforehand.

ghost use Rattle.std.specs.Prelude.{◌≡◌, ◌<◌, All, IfOk, None, Option, Some, length, slice_set};
ghost use Rattle.cu_edits.specs.declared.edge_functions.EdgeFunctions.{EdgeFunctions};
ghost use Rattle.cu_customize.specs.Functions.{IsFunction};
ghost use Rattle.cu_edits.specs.Steps.Known.{function_in, functions_of, values_of};

use crate::road_functions::road_function;
use cu_arrival::Arrival;
use cu_customize::Functions;
use cu_interval::Dir;
use cu_model::{NoMemory, Roads};
use std::alloc::Global;
use std::marker::Model;

/// The functions of an edge upwards and downwards; None where it has no way.
#[derive(Drop)]
pub struct EdgeFunctions {
    pub up: Option<Arrival>,
    pub down: Option<Arrival>,
}

/// The functions of roads, and those that are known of edges, by number. Contracts see the network of the roads and these.
#[derive(Drop)]
pub struct KnownFunctions<'a, R: Roads> {
    roads: &'a R,
    known: &'a [Option<EdgeFunctions>],
}

impl<'a, R: Roads> Model for KnownFunctions<'a, R> {
    ghost use Rattle.cu_edits.specs.Steps.Known.{KnownValue};

    ghost Value = { KnownValue };

    ghost view = { λ functions. record {
      network = R.network functions.roads.now;
      known = functions.known.now;
    } };
}

impl<'a, R: Roads> KnownFunctions<'a, R> {
    /// What is known of edges, and these roads. Takes no memory.
    pub fn of(roads: &'a R, known: &'a [Option<EdgeFunctions>]) -> KnownFunctions<'a, R>
        ensures { result ≡ record { network = R.network roads.now; known = known.now } }
    {
        KnownFunctions { roads, known }
    }
}

impl<'a, R: Roads> Functions for KnownFunctions<'a, R> {
    ghost state = { λ functions. functions_of functions };

    fn road(&mut self, alloc: Global, arc: u32) -> Result<Option<Arrival>, NoMemory> {
        road_function(alloc, self.roads, arc)
    }

    fn function(
        &mut self,
        alloc: Global,
        edge: u32,
        dir: Dir,
    ) -> Result<Option<Arrival>, NoMemory> {
        let Some(functions) = &self.known[edge as usize] else {
            unreachable!()
        };
        functions.copy(alloc, dir)
    }
}

impl EdgeFunctions {
    // A copy of the function in a direction.
    fn copy(&self, alloc: Global, dir: Dir) -> Result<Option<Arrival>, NoMemory>
        ensures { IfOk result
            (λ copy. IsFunction copy (values_of (function_in self.now dir))) }
    {
        match dir {
            Dir::Up => copy_function(alloc, &self.up),
            Dir::Down => copy_function(alloc, &self.down),
        }
    }
}

// A copy of a function, if there is one.
fn copy_function(alloc: Global, function: &Option<Arrival>) -> Result<Option<Arrival>, NoMemory>
    ensures { IfOk result (λ copy. IsFunction copy (values_of function.now)) }
{
    let Some(function) = function else {
        return Ok(None);
    };
    Ok(Some(function.copy(alloc)?))
}

/// Room for the functions of so many edges, of which none is known.
pub fn nothing_known(alloc: Global, edges: u32) -> Result<Vec<Option<EdgeFunctions>>, NoMemory>
    ensures long { IfOk result (λ known. length known.items ≡ edges) }
    ensures none { IfOk result (λ known. All (λ (one : Option EdgeFunctions). one ≡ None)
        known.items) }
{
    let mut known = Vec::with_capacity(alloc, edges as usize)?;
    'edges: for _edge in 0..edges {
        known.push(None)?;
    }
    Ok(known)
}

/// The functions of an edge, below the number of edges, are known. Takes no memory.
pub fn know(known: &mut [Option<EdgeFunctions>], edge: u32, functions: EdgeFunctions)
    requires { edge < length known.old }
    ensures { known.new ≡ slice_set known.old edge (Some functions) }
{
    known[edge as usize] = Some(functions);
}
