//! Packed runs as brief ones, and back.

ghost use Rattle.std.specs.Prelude.{◌≡◌, ◌≤◌, ◌<◌, ◌+◌, ◌++◌, ◌∷◌, [], ℕ, IfSome, None, false, length, true, vec_capacity, vec_len};
ghost use Rattle.cu_model.specs.declared.limits.TheConstants.{DAY};
ghost use Rattle.cu_runs.specs.PackedRuns.{IsDayList};
ghost use Rattle.cu_brief.specs.BriefRuns.{AddsMeant, HasNoBrief, HasUnfit, brief_from, run_of_brief};
ghost use Rattle.cu_brief.specs.Steps.{IsAbove};

use crate::searching::{FIXED, SECOND};
use cu_runs::PackedRun;

/// Adds the brief runs that mean those of a function of the day, where each has one beside this base. There is room for them,
/// so that no memory is taken. False, and all as it was, exactly where some run has none.
pub fn encode(packed: &[PackedRun], base: u32, brief: &mut Vec<u32>) -> bool
    requires day { IsDayList packed.now }
    requires room { vec_len brief.old + length packed.now ≤ vec_capacity brief.old }
    ensures means { result ≡ true
        → AddsMeant base packed.now brief.old.items brief.new.items }
    ensures unfit { result ≡ false → HasUnfit base packed.now }
    ensures same { result ≡ false → brief.new.items ≡ brief.old.items }
    ensures room { vec_capacity brief.old ≤ vec_capacity brief.new }
{
    let start = brief.len();
    'runs: for index in 0..packed.len() - 1 {
        let Some(bits) = brief_of(packed[index], base) else {
            brief.truncate(start);
            return false;
        };
        push_in(brief, bits);
    }
    true
}

// Adds a brief run to those for which there is room.
fn push_in(brief: &mut Vec<u32>, bits: u32)
    requires { vec_len brief.old < vec_capacity brief.old }
    ensures items { brief.new.items ≡ brief.old.items ++ bits ∷ [] }
    ensures room { vec_capacity brief.old ≤ vec_capacity brief.new }
{
    match brief.push(bits) {
        Ok(()) => {}
        Err(_) => unreachable!(),
    }
}

/// The brief run that means this one beside this base. None exactly where there is none.
pub fn brief_of(run: PackedRun, base: u32) -> Option<u32>
    requires { run.from < DAY }
    ensures means { IfSome result (λ bits. run_of_brief base bits ≡ run) }
    ensures none { result ≡ None → HasNoBrief base run }
{
    let kind = if run.is_fixed() { FIXED } else { 0 };
    let more = above(run, base)?;
    Some(run.from() as u32 * SECOND + kind + more)
}

// By how much a run takes longer than the base, leaving at its first second. None where it is less, or too much.
fn above(run: PackedRun, base: u32) -> Option<u32>
    ensures more { IfSome result (λ more. IsAbove base run more) }
    ensures none { result ≡ None → (more : ℕ) → IsAbove base run more → ⊥ }
{
    let own = if run.is_fixed() { run.from() } else { 0 };
    let least = own + u64::from(base);
    let number = run.number();
    if number < least {
        return None;
    }
    let more = number - least;
    if more >= u64::from(FIXED) {
        return None;
    }
    Some(more as u32)
}

// The run that a brief one means.
#[inline(always)]
pub(crate) fn packed_of(bits: u32, base: u32) -> PackedRun
    requires { brief_from bits < DAY }
    ensures { result ≡ run_of_brief base bits }
{
    let from = u64::from(bits / SECOND);
    let travel = u64::from(base) + u64::from(bits % FIXED);
    if bits / FIXED % 2 == 1 {
        PackedRun::of(from, true, from + travel)
    } else {
        PackedRun::of(from, false, travel)
    }
}
