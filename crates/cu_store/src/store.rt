//! A store of functions by list number.

ghost use Rattle.std.specs.Prelude.{◌≡◌, ◌≤◌, ◌<◌, ◌+◌, ◌-◌, ◌++◌, ◌∷◌, [], ℕ, All, IfOk, IfSome, Some, None, length, slice_get, slice_set, true, false};
ghost use Rattle.cu_model.specs.declared.limits.TheConstants.{DAY};
ghost use Rattle.cu_model.specs.Days.{IsOnward};
ghost use Rattle.cu_arrival.specs.Runs.{arrival_value};
ghost use Rattle.cu_runs.specs.PackedRuns.{IsDayList, end_run};
ghost use Rattle.cu_brief.specs.BriefRuns.{IsBrief, runs_of};
ghost use Rattle.cu_store.specs.Known.{HasNoRuns, HasRuns, IsLeftOut, ended, found_at};

use crate::rows::{Row, make_row, runs_of_row, value_in};
use cu_brief::{Brief, encode};
use cu_model::{DAY, NoMemory};
use cu_runs::{PackedRun, least_travel};
use std::alloc::Global;
use std::marker::Model;

/// What is found of a list at a second: nothing is known; it has no way; or it arrives then.
#[derive(Clone, Copy, PartialEq, Eq)]
pub enum Found {
    Unknown,
    NoWay,
    At(u64),
}

/// Functions by list number. Contracts see what is known of each list, how much of the room for runs is taken, and how much
/// there is, which is fixed when it is made.
#[derive(Drop)]
pub struct Store {
    lists: usize,
    rows: Vec<Row>,
    pool: Vec<u32>,
    room: usize,
}

impl Model for Store {
    ghost use Rattle.std.specs.Prelude.{◌≤◌, ◌<◌, ◌^◌, All, length, map, vec_capacity};
    ghost use Rattle.cu_store.specs.Known.{StoreValue};
    ghost use Rattle.cu_store.specs.Pool.{IsRowIn, known_by, rows_of};

    ghost Value = { StoreValue };

    ghost view = { λ store. record {
      known = map (known_by store.pool.items) (rows_of store.lists store.rows.items);
      used = length store.pool.items;
      room = store.room;
    } };

    ghost invariant = { λ store. All (IsRowIn store.pool.items) (rows_of store.lists store.rows.items)
        × (length store.pool.items ≤ store.room)
        × (store.room ≤ vec_capacity store.pool)
        × (store.room < 2 ^ 32)
        × (length store.rows.items ≤ store.lists)
        × (0 < store.room → store.lists ≤ vec_capacity store.rows) };
}

impl Store {
    /// A store for so many lists, none of which is known, with room for so many runs.
    pub fn new(alloc: Global, lists: usize, room: u32) -> Result<Store, NoMemory>
        ensures lists { IfOk result (λ store. length store.known ≡ lists) }
        ensures unknown { IfOk result (λ store. All (λ known. known ≡ None) store.known) }
        ensures used { IfOk result (λ store. store.used ≡ 0) }
        ensures room { IfOk result (λ store. store.room ≡ room) }
    {
        Ok(Store {
            lists,
            rows: Vec::with_capacity(alloc, lists)?,
            pool: Vec::with_capacity(alloc, room as usize)?,
            room: room as usize,
        })
    }

    /// A store for so many lists, none of which is ever known. Takes no memory.
    pub fn without_room(alloc: Global, lists: usize) -> Store
        ensures lists { length result.known ≡ lists }
        ensures unknown { All (λ known. known ≡ None) result.known }
        ensures used { result.used ≡ 0 }
        ensures room { result.room ≡ 0 }
    {
        Store {
            lists,
            rows: Vec::new(alloc),
            pool: Vec::new(alloc),
            room: 0,
        }
    }

    /// For how many runs there is room. Takes no memory.
    pub fn room(&self) -> usize
        ensures { result ≡ self.now.room }
    {
        self.room
    }

    /// Whether less than a sixteenth of the room for runs is left: it is time to forget all. Takes no memory.
    pub fn is_nearly_full(&self) -> bool {
        self.room - self.pool.len() < self.room / 16
    }

    /// What is known of a list at a second of the day. Takes no memory.
    #[inline(always)]
    pub fn value(&self, list: usize, second: u32) -> Found
        requires list { list < length self.now.known }
        requires second { second < DAY }
        ensures { result ≡ found_at (slice_get self.now.known list) second }
    {
        if list >= self.rows.len() {
            return Found::Unknown;
        }
        match self.rows[list] {
            Row::Unknown => Found::Unknown,
            Row::Empty => Found::NoWay,
            Row::Runs { base, start, count } => {
                Found::At(value_in(&self.pool, base, start, count, second))
            }
        }
    }

    /// The runs of the function of a list, but for the one that ends it. None where no function is known. Takes no memory.
    pub fn brief(&self, list: usize) -> Option<Brief<'_>>
        requires { list < length self.now.known }
        ensures known { IfSome result (λ brief. IsBrief brief.runs.now
            × HasRuns (slice_get self.now.known list) (runs_of brief.base brief.runs.now ++ end_run ∷ [])) }
        ensures unknown { result ≡ None → HasNoRuns (slice_get self.now.known list) }
    {
        if list >= self.rows.len() {
            return None;
        }
        let Row::Runs { base, start, count } = self.rows[list] else {
            return None;
        };
        Some(Brief {
            base,
            runs: runs_of_row(&self.pool, start, count),
        })
    }

    /// Nothing is known of the list from then on. Takes no memory.
    pub fn forget(&mut self, list: usize)
        requires { list < length self.old.known }
        ensures { self.new ≡ record self.old { known = slice_set self.old.known list None } }
    {
        if list < self.rows.len() {
            self.rows[list] = Row::Unknown;
        }
    }

    /// Nothing is known of any list from then on, and the room for runs is free. Takes no memory.
    pub fn clear(&mut self)
        ensures lists { length self.new.known ≡ length self.old.known }
        ensures unknown { All (λ known. known ≡ None) self.new.known }
        ensures used { self.new.used ≡ 0 }
        ensures room { self.new.room ≡ self.old.room }
    {
        self.rows.clear();
        self.pool.clear();
    }

    /// The list is known to be empty from then on. There is room for something. Takes no memory.
    pub fn put_empty(&mut self, list: usize)
        requires list { list < length self.old.known }
        requires room { 0 < self.old.room }
        ensures { self.new ≡ record self.old { known = slice_set self.old.known list (Some None) } }
    {
        make_row(&mut self.rows, list, self.lists);
        self.rows[list] = Row::Empty;
    }

    /// The list is known to have this function from then on, where it fits. False, and all as it was, where it is left out.
    /// Takes no memory.
    pub fn put(&mut self, list: usize, packed: &[PackedRun]) -> bool
        requires list { list < length self.old.known }
        requires day { IsDayList packed.now }
        requires onward { IsOnward (arrival_value packed.now) }
        ensures kept { result ≡ true → self.new ≡ record {
          known = slice_set self.old.known list (Some (Some (record { runs = ended packed.now })));
          used = self.old.used + (length packed.now - 1);
          room = self.old.room;
        } }
        ensures left { result ≡ false → self.new ≡ self.old }
        ensures why { result ≡ false → IsLeftOut self.old packed.now }
    {
        let start = self.pool.len();
        if packed.len() > self.room - start {
            return false;
        }
        let base = least_travel(packed);
        if base > u64::from(u32::MAX) {
            return false;
        }
        if !encode(packed, base as u32, &mut self.pool) {
            return false;
        }
        make_row(&mut self.rows, list, self.lists);
        self.rows[list] = Row::Runs {
            base: base as u32,
            start: start as u32,
            count: (packed.len() - 1) as u32,
        };
        true
    }
}
