//! Adding the roads of lists to those that are kept.

ghost use Rattle.std.specs.Prelude.{◌≡◌, ◌≢◌, ◌≤◌, ◌<◌, ◌+◌, ◌∷◌, ◌++◌, [], IfSome, length, slice_index, vec_capacity};
ghost use Rattle.std.specs.List.{slice_range};
ghost use Rattle.cu_sequences.specs.Kept.{IsPlace, roads_at};
ghost use Rattle.cu_sequences.specs.Steps.Putting.{Grows, Puts, PutsBoth};

use crate::sequences::{MOST_ROADS, NO_START};

/// The roads that stand at a place, which may be none.
#[inline(always)]
pub fn roads_from(roads: &[u32], start: u32) -> Option<&[u32]>
    ensures some { IfSome result (λ found. start ≢ NO_START) }
    ensures roads { IfSome result (λ found. found.now ≡ roads_at roads.now start) }
{
    let place = start as usize;
    if start == NO_START || place >= roads.len() {
        return None;
    }
    let count = roads[place] as usize;
    let from = place + 1;
    if roads.len() - from < count {
        return None;
    }
    Some(&roads[from..from + count])
}

/// Adds one road, where there is room, and answers where it stands.
pub fn put_road(roads: &mut Vec<u32>, road: u32) -> u32
    ensures puts { Puts roads.old.items roads.new.items result (road ∷ []) }
    ensures grows { Grows roads.old.items roads.new.items }
{
    let start = roads.len();
    if start >= NO_START as usize || roads.capacity() - start < 2 {
        return NO_START;
    }
    put(roads, 1);
    put(roads, road);
    start as u32
}

/// Adds the roads that stand at two places, one behind the other, where they are few and there is room, and answers where they
/// stand.
pub fn put_both(roads: &mut Vec<u32>, first: u32, second: u32) -> u32
    ensures puts { PutsBoth roads.old.items roads.new.items result first second }
    ensures grows { Grows roads.old.items roads.new.items }
{
    let start = roads.len();
    let Some(one) = count_at(roads, first) else {
        return NO_START;
    };
    let Some(two) = count_at(roads, second) else {
        return NO_START;
    };
    let many = one + two;
    if many > MOST_ROADS as usize
        || start >= NO_START as usize
        || roads.capacity() - start < many + 1
    {
        return NO_START;
    }
    put(roads, many as u32);
    put_copy(roads, first as usize + 1, one);
    put_copy(roads, second as usize + 1, two);
    start as u32
}

// How many roads stand at a place, which may be none.
fn count_at(roads: &[u32], start: u32) -> Option<usize>
    ensures some { IfSome result (λ count. start ≢ NO_START) }
    ensures count { IfSome result (λ count. count ≡ slice_index roads.now start) }
    ensures place { IfSome result (λ count. start + 1 + count ≤ length roads.now) }
    ensures few { IfSome result (λ count. count < 4_294_967_296) }
{
    let place = start as usize;
    if start == NO_START || place >= roads.len() {
        return None;
    }
    let count = roads[place] as usize;
    if roads.len() - (place + 1) < count {
        return None;
    }
    Some(count)
}

// Adds a number, for which there is room.
fn put(roads: &mut Vec<u32>, number: u32)
    requires room { length roads.old.items < vec_capacity roads.old }
    ensures items { roads.new.items ≡ roads.old.items ++ (number ∷ []) }
    ensures room { vec_capacity roads.old ≤ vec_capacity roads.new }
{
    match roads.push(number) {
        Ok(()) => {}
        Err(_) => unreachable!(),
    }
}

// Adds so many numbers from a place on, for which there is room.
fn put_copy(roads: &mut Vec<u32>, from: usize, count: usize)
    requires there { from + count ≤ length roads.old.items }
    requires room { length roads.old.items + count ≤ vec_capacity roads.old }
    ensures items { roads.new.items
        ≡ roads.old.items ++ slice_range roads.old.items from (from + count) }
    ensures room { vec_capacity roads.old ≤ vec_capacity roads.new }
{
    match roads.extend_from_within(from..from + count) {
        Ok(()) => {}
        Err(_) => unreachable!(),
    }
}
