//! When brief runs arrive.

ghost use Rattle.std.specs.Prelude.{◌≡◌, ◌≤◌, ◌<◌, ◌/◌, ◌%◌, ◌^◌, ℕ, length, nat_le, true, false};
ghost use Rattle.std.specs.List.Sorted.{IsNonDecreasingBy, IsPartitionPoint};
ghost use Rattle.cu_model.specs.declared.limits.TheConstants.{DAY};
ghost use Rattle.cu_arrival.specs.Runs.{arrives};
ghost use Rattle.cu_brief.specs.BriefRuns.{IsBrief, brief_from, brief_value, run_of_brief};

// What a brief run's second is multiplied by in its bits, 2^15, and what one that arrives at one second has beside, 2^14.
pub const SECOND: u32 = 32_768;

pub const FIXED: u32 = 16_384;

/// When these brief runs arrive, leaving on day 0 at a second of it. Takes no memory.
pub fn value_at(brief: &[u32], base: u32, second: u32) -> u64
    requires brief { IsBrief brief.now }
    requires second { second < DAY }
    ensures { result ≡ brief_value base brief.now second }
{
    arrival(brief[begun(brief, second) - 1], base, second)
}

// How many brief runs are from this second of the day or before it.
pub(crate) fn begun(brief: &[u32], second: u32) -> usize
    requires { IsNonDecreasingBy brief_from brief.now }
    ensures bound { result ≤ length brief.now }
    ensures point { IsPartitionPoint (λ bits. nat_le (brief_from bits) second ≡ true)
        (λ bits. nat_le (brief_from bits) second ≡ false) brief.now result }
{
    brief.partition_point(|bits| *bits / SECOND <= second)
}

// When a brief run arrives, leaving on day 0 at this second.
#[inline(always)]
fn arrival(bits: u32, base: u32, second: u32) -> u64
    ensures { result ≡ arrives (run_of_brief base bits).rule second }
{
    let travel = u64::from(base) + u64::from(bits % FIXED);
    let left = if bits / FIXED % 2 == 1 {
        bits / SECOND
    } else {
        second
    };
    u64::from(left) + travel
}
