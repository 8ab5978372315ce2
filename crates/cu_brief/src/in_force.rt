//! The brief run in force at a second of the day.

ghost use Rattle.std.specs.Prelude.{◌≡◌, ◌≤◌, ◌<◌, ◌^◌, ℕ, length, true};
ghost use Rattle.cu_model.specs.declared.limits.TheConstants.{DAY};
ghost use Rattle.cu_arrival.specs.Runs.{arrives, rule_number};
ghost use Rattle.cu_brief.specs.BriefRuns.{IsBrief, brief_value};
ghost use Rattle.cu_brief.specs.Steps.{IsInForce, end_at};

use crate::encoding::packed_of;
use crate::searching::{SECOND, begun};
use cu_model::DAY;
use cu_runs::PackedRun;

/// Brief runs, and the base that they are beside.
#[derive(Clone, Copy)]
pub struct Brief<'a> {
    pub base: u32,
    pub runs: &'a [u32],
}

/// A run in force, the second of the day until which it is, and its index.
#[derive(Clone, Copy)]
pub struct RunInForce {
    pub run: PackedRun,
    pub end: u32,
    pub index: usize,
}

/// The run in force at a second of the day. It is found at once where its index is `near`, or the next one. Takes no memory.
#[inline(always)]
pub fn in_force_at(brief: &Brief<'_>, near: usize, second: u32) -> RunInForce
    requires brief { IsBrief brief.now.runs.now }
    requires second { second < DAY }
    ensures some { second < result.end }
    ensures in_day { result.end ≤ DAY }
    ensures small { rule_number result.run.rule < 2 ^ 33 }
    ensures holds { (t : ℕ) → second ≤ t → t < result.end
        → arrives result.run.rule t ≡ brief_value brief.now.base brief.now.runs.now t }
{
    let index = index_near(brief.runs, near, second);
    RunInForce {
        run: packed_of(brief.runs[index], brief.base),
        end: end_of(brief.runs, index),
        index,
    }
}

// The index of the run in force at a second of the day.
#[inline(always)]
fn index_near(brief: &[u32], near: usize, second: u32) -> usize
    requires brief { IsBrief brief.now }
    requires second { second < DAY }
    ensures inside { result < length brief.now }
    ensures force { IsInForce brief.now second result }
{
    if is_in_force(brief, near, second) {
        return near;
    }
    let next = near.saturating_add(1);
    if is_in_force(brief, next, second) {
        return next;
    }
    begun(brief, second) - 1
}

// Whether there is a run of this index, and it is in force at a second of the day.
#[inline(always)]
fn is_in_force(brief: &[u32], index: usize, second: u32) -> bool
    ensures { result ≡ true → IsInForce brief.now second index }
{
    if index >= brief.len() {
        return false;
    }
    if brief[index] / SECOND > second {
        return false;
    }
    let end = end_of(brief, index);
    if end <= second {
        return false;
    }
    true
}

// The second of the day until which the run of an index is in force.
#[inline(always)]
fn end_of(brief: &[u32], index: usize) -> u32
    requires { index < length brief.now }
    ensures { result ≡ end_at brief.now index }
{
    match brief.get(index + 1) {
        Some(next) => *next / SECOND,
        None => DAY,
    }
}
