//! Where the windows of a day begin and end: they are narrow where much changes in the profiles of a network. Bounds
//! over a window in which little changes are tight, so more candidates are left out.

ghost use Rattle.std.specs.Prelude.{◌≤◌, ◌<◌, length};

use crate::windows::WIDTHS;
use cu_model::{Roads, Rule};

// The day is in stretches of a minute, in which the weight of changes is counted: windows end between two of them.
const STRETCH: u32 = 60;

const STRETCHES: usize = 1_440;

// Whoever leaves so many drives before a change may meet it on the way: a shortcut stands for some thirty roads, so
// this many times what its road takes just before.
const ROADS_BEFORE: u32 = 30;

// At least five minutes, since many roads take but seconds, and at most two hours, which hardly a shortcut takes.
const LEAST_BEFORE: u32 = 300;

const MOST_BEFORE: u32 = 7_200;

// The weight of a change, shared by the stretches before it. It can be divided by every number up to ten.
const WEIGHT: u64 = 5_040;

// Of the mean of a stretch each has this part besides, so that no window is much too wide where little changes.
const EVEN_PART: u64 = 10;

// The windows that share the weight evenly: all but the first and the last.
const NARROW: u64 = 30;

// The last window begins so long behind the last change, so that those who leave just then are not in it.
const BEHIND: u32 = 60;

// So many windows have a width, and the next one begins at this second.
#[derive(Clone, Copy)]
struct Placed {
    count: usize,
    second: u32,
}

/// Widths of windows that are narrow where much changes in the profiles of a network.
pub fn widths_for<R: Roads>(roads: &R) -> [u16; WIDTHS] {
    let mut weights = [0; STRETCHES];
    for profile in 0..roads.profiles() {
        add_profile(roads, profile, &mut weights);
    }
    let begin = begin_of(&weights);
    let end = end_of(&weights);
    add_even_part(begin, end, &mut weights);
    widths_by(&weights, begin, end)
}

// Adds the changes of a profile.
fn add_profile<R: Roads>(roads: &R, profile: u32, weights: &mut [u64; STRETCHES])
    requires { profile < length (R.network roads.now).profiles }
{
    for index in 1..roads.pieces(profile) {
        let before = roads.piece(profile, index - 1);
        add_change(before.rule, roads.piece(profile, index).from, weights);
    }
}

// Adds the change from a rule to another one at a second: to each stretch in which one may leave who meets it.
fn add_change(before: Rule, second: u32, weights: &mut [u64; STRETCHES]) {
    let first = stretch_of(second.saturating_sub(long_before(before, second)));
    let last = stretch_of(second);
    let weight = WEIGHT / (last.saturating_sub(first) as u64 + 1);
    add_to_all(first, last + 1, weight, weights);
}

// How long before a change one may leave who meets it, by the rule that ends with it.
fn long_before(before: Rule, second: u32) -> u32 {
    let takes = match before {
        Rule::Travel(seconds) => seconds,
        Rule::Until(arrival) => arrival.saturating_sub(second),
        Rule::Closed(_) => 0,
    };
    takes
        .saturating_mul(ROADS_BEFORE)
        .max(LEAST_BEFORE)
        .min(MOST_BEFORE)
}

// The stretch of a second of the day.
fn stretch_of(second: u32) -> usize
    ensures { result < STRETCHES }
{
    ((second / STRETCH) as usize).min(STRETCHES - 1)
}

// Adds a weight to each stretch from one until another.
fn add_to_all(begin: usize, end: usize, weight: u64, weights: &mut [u64; STRETCHES])
    requires { end ≤ STRETCHES }
{
    for stretch in begin..end {
        weights[stretch] = weights[stretch].saturating_add(weight);
    }
}

// The first stretch that has a weight, or that of midnight.
fn begin_of(weights: &[u64; STRETCHES]) -> usize
    ensures { result < STRETCHES }
{
    for stretch in 0..STRETCHES {
        if weights[stretch] > 0 {
            return stretch;
        }
    }
    0
}

// The one behind the last stretch that has a weight, or the number of stretches.
fn end_of(weights: &[u64; STRETCHES]) -> usize
    ensures { result ≤ STRETCHES }
{
    for behind in 0..STRETCHES {
        let stretch = STRETCHES - 1 - behind;
        if weights[stretch] > 0 {
            return stretch + 1;
        }
    }
    STRETCHES
}

// Adds to each stretch from one until another the same part of what they have on an average, or a little more.
fn add_even_part(begin: usize, end: usize, weights: &mut [u64; STRETCHES])
    requires { end ≤ STRETCHES }
{
    let parts = EVEN_PART * (end.saturating_sub(begin) as u64).max(1);
    let part = (sum_of(weights) / parts).saturating_add(1);
    add_to_all(begin, end, part, weights);
}

// The sum of all weights.
fn sum_of(weights: &[u64; STRETCHES]) -> u64 {
    let mut sum = 0_u64;
    for stretch in 0..STRETCHES {
        sum = sum.saturating_add(weights[stretch]);
    }
    sum
}

// The widths of windows that have the same weight, but the first one, which ends where these stretches begin, and the
// last one, which begins behind their end.
fn widths_by(weights: &[u64; STRETCHES], begin: usize, end: usize) -> [u16; WIDTHS]
    requires begin { begin ≤ STRETCHES }
    requires end { end ≤ STRETCHES }
{
    let mut widths = [0; WIDTHS];
    let all = sum_of(weights);
    let mut placed = Placed {
        count: 0,
        second: 0,
    };
    placed = ended_at(placed, begin, 0, &mut widths);
    let mut sum = 0_u64;
    for stretch in begin..end {
        sum = sum.saturating_add(weights[stretch]);
        if has_share(placed, sum, all) {
            placed = ended_at(placed, stretch + 1, 0, &mut widths);
        }
    }
    ended_at(placed, end, BEHIND, &mut widths);
    widths
}

// Do the stretches so far have the share of as many narrow windows as end with them, the next one among these? The
// last narrow window ends behind all stretches, whatever they have.
fn has_share(placed: Placed, sum: u64, all: u64) -> bool {
    placed.count < WIDTHS - 1
        && sum.saturating_mul(NARROW) >= all.saturating_mul(placed.count as u64)
}

// Ends the next window where a stretch begins, or so long behind: as far as a width can say it.
fn ended_at(placed: Placed, stretch: usize, behind: u32, widths: &mut [u16; WIDTHS]) -> Placed
    requires { stretch ≤ STRETCHES }
{
    if placed.count >= WIDTHS {
        return placed;
    }
    let second = (stretch as u32 * STRETCH).saturating_add(behind);
    let width = second
        .saturating_sub(placed.second)
        .min(u32::from(u16::MAX));
    widths[placed.count] = width as u16;
    Placed {
        count: placed.count + 1,
        second: placed.second.saturating_add(width),
    }
}
