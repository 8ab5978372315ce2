//! Rows of lists, and the pool of their runs.

ghost use Rattle.std.specs.Prelude.{◌≡◌, ◌≤◌, ◌<◌, ◌+◌, length, vec_capacity};
ghost use Rattle.cu_model.specs.declared.limits.TheConstants.{DAY};
ghost use Rattle.cu_arrival.specs.Runs.{arrival_value};
ghost use Rattle.cu_brief.specs.BriefRuns.{IsBrief, runs_of};
ghost use Rattle.cu_store.specs.Pool.{rows_of, runs_in};

use cu_brief::value_at;
use cu_model::DAY;

/// What is known of a list: nothing; that it is empty; or where its runs stand in the pool, and beside which base.
#[derive(Clone, Copy)]
pub enum Row {
    Unknown,
    Empty,
    Runs { base: u32, start: u32, count: u32 },
}

/// Makes the rows up to that of a list, one of so many, where they aren't there yet: nothing is known of these lists. There is room.
#[inline(always)]
pub(crate) fn make_row(rows: &mut Vec<Row>, list: usize, lists: usize)
    requires list { list < lists }
    requires most { length rows.old.items ≤ lists }
    requires room { lists ≤ vec_capacity rows.old }
    ensures same { rows_of lists rows.new.items ≡ rows_of lists rows.old.items }
    ensures there { list < length rows.new.items }
    ensures most { length rows.new.items ≤ lists }
    ensures room { lists ≤ vec_capacity rows.new }
{
    if rows.len() <= list {
        write_rows(rows, list + 1);
    }
}

// Writes rows that say nothing, so that there are so many.
fn write_rows(rows: &mut Vec<Row>, count: usize)
    requires most { length rows.old.items ≤ count }
    requires room { count ≤ vec_capacity rows.old }
    ensures rows { rows.new.items ≡ rows_of count rows.old.items }
    ensures room { vec_capacity rows.old ≤ vec_capacity rows.new }
{
    match rows.resize(count, Row::Unknown) {
        Ok(()) => {}
        Err(_) => unreachable!(),
    }
}

/// When so many runs of the pool from one on arrive, leaving on day 0 at a second of it. Takes no memory.
pub(crate) fn value_in(pool: &[u32], base: u32, start: u32, count: u32, second: u32) -> u64
    requires within { start + count ≤ length pool.now }
    requires brief { IsBrief (runs_in pool.now start count) }
    requires second { second < DAY }
    ensures { result ≡ arrival_value (runs_of base (runs_in pool.now start count)) second }
{
    let start = start as usize;
    value_at(&pool[start..start + count as usize], base, second)
}

/// So many runs of the pool from one on.
pub(crate) fn runs_of_row(pool: &[u32], start: u32, count: u32) -> &[u32]
    requires { start + count ≤ length pool.now }
    ensures { result.now ≡ runs_in pool.now start count }
{
    let start = start as usize;
    &pool[start..start + count as usize]
}
