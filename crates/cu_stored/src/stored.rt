//! Relaxations by a store, and else by another relaxer.

ghost use Rattle.std.specs.Prelude.{◌≡◌, ◌<◌, ◌*◌, ◌^◌, None, length};
ghost use Rattle.cu_interval.specs.Hierarchies.{IsHierarchy};
ghost use Rattle.cu_store.specs.Known.{Knows};
ghost use Rattle.cu_stored.specs.Answering.{IsAnswer};

use cu_drive::WalkForm;
use cu_interval::{Call, Dir, Relaxed, Relaxer, Shortcut};
use cu_io::{Sink, SinkFailed};
use cu_model::DAY;
use cu_store::{Found, Store};
use cu_unpack::Walker;
use std::marker::Model;

/// Relaxes the shortcuts of another relaxer's hierarchy by what a store knows of their lists, or else by the other, and counts how
/// often it is asked. Contracts see the hierarchy. It doesn't tell its calls.
#[derive(Drop)]
pub struct Stored<'a, R: Relaxer> {
    store: &'a Store,
    other: R,
    asked: u32,
}

impl<'a, R: Relaxer> Model for Stored<'a, R> {
    ghost use Rattle.std.specs.Prelude.{◌≡◌, ◌*◌, length};
    ghost use Rattle.cu_interval.specs.Hierarchies.{HierarchyValue, IsHierarchy};
    ghost use Rattle.cu_store.specs.Known.{Knows};

    ghost Value = { HierarchyValue };

    ghost view = { λ stored. R.hierarchy stored.other };

    ghost invariant = { λ stored. IsHierarchy (R.hierarchy stored.other)
        × (length stored.store.now.known ≡ 2 * length (R.hierarchy stored.other).edges)
        × Knows (R.hierarchy stored.other) stored.store.now.known };
}

impl<'a, R: Relaxer> Stored<'a, R> {
    /// Relaxations by this store, which knows nothing but what is so of the other's hierarchy. Takes no memory.
    pub fn new(store: &'a Store, other: R) -> Stored<'a, R>
        requires sound { IsHierarchy (R.hierarchy other) }
        requires size { length store.now.known ≡ 2 * length (R.hierarchy other).edges }
        requires knows { Knows (R.hierarchy other) store.now.known }
        ensures { result ≡ R.hierarchy other }
    {
        Stored {
            store,
            other,
            asked: 0,
        }
    }

    /// How often it was asked, at most 4,294,967,295. Takes no memory.
    pub fn asked(&self) -> u32 {
        self.asked
    }

    /// Gives the other relaxer back. Takes no memory.
    pub fn into_other(self) -> R
        ensures { R.hierarchy result ≡ self.entry }
    {
        self.other
    }

    // What is known of a list at an absolute second.
    #[inline(always)]
    fn known_at(&self, edge: u32, dir: Dir, at: u64) -> Found
        requires edge { edge < length self.now.edges }
        requires time { at < 2 ^ 61 }
        ensures { IsAnswer self.now edge dir at result }
    {
        let in_day = at % u64::from(DAY);
        match self
            .store
            .value(Shortcut { edge, dir }.list(), in_day as u32)
        {
            Found::Unknown => Found::Unknown,
            Found::NoWay => Found::NoWay,
            Found::At(arrival) => Found::At(at - in_day + arrival),
        }
    }
}

impl<'a, R: Relaxer> Relaxer for Stored<'a, R> {
    ghost hierarchy = { λ stored. stored };

    ghost calls = { λ stored. None };

    #[inline(always)]
    fn relax(&mut self, edge: u32, dir: Dir, at: u64) -> Relaxed {
        self.asked = self.asked.saturating_add(1);
        match self.known_at(edge, dir, at) {
            Found::Unknown => self.other.relax(edge, dir, at),
            Found::NoWay => Relaxed::NoWay,
            Found::At(arrival) => Relaxed::At(arrival),
        }
    }

    #[inline(always)]
    fn least(&self, edge: u32, dir: Dir) -> u64 {
        self.other.least(edge, dir)
    }
}

impl<'a, R: Walker> Walker for Stored<'a, R> {
    fn write_walk<P: WalkForm, K: Sink>(
        &mut self,
        call: Call,
        first: bool,
        form: &P,
        sink: &mut K,
    ) -> Result<(), SinkFailed> {
        self.other.write_walk(call, first, form, sink)
    }
}
