//! The least travels of profiles, by their pieces.

ghost use Rattle.std.specs.Prelude.{◌≡◌, ◌<◌, IfOk, length, map};
ghost use Rattle.cu_model.specs.Roads.{pieces_of};
ghost use Rattle.cu_interval.specs.LeastPieces.{pieces_least, rule_least};

use cu_model::{DAY, NoMemory, Roads, Rule};
use std::alloc::Global;

/// Longer than any travel: the bound of a list without ways.
pub const FAR: u64 = 1 << 60;

/// The least travel of each profile, by its number, in seconds.
pub fn least_travels<R: Roads>(alloc: Global, roads: &R) -> Result<Vec<u32>, NoMemory>
    ensures { IfOk result
        (λ travels. travels.items ≡ map pieces_least (R.network roads.now).profiles) }
{
    let mut travels = Vec::with_capacity(alloc, roads.profiles() as usize)?;
    for profile in 0..roads.profiles() {
        travels.push(least_travel(roads, profile))?;
    }
    Ok(travels)
}

// The least travel of a profile. Each piece ends where the next begins, so that the last comes first.
fn least_travel<R: Roads>(roads: &R, profile: u32) -> u32
    requires { profile < length (R.network roads.now).profiles }
    ensures { result ≡ pieces_least (pieces_of (R.network roads.now) profile) }
{
    let mut least = FAR;
    let mut until = DAY;
    for index in (0..roads.pieces(profile)).rev() {
        let piece = roads.piece(profile, index);
        least = least.min(u64::from(least_of_rule(piece.rule, until)));
        until = piece.from;
    }
    least as u32
}

// The least travel by a rule that holds until a second of the day.
fn least_of_rule(rule: Rule, until: u32) -> u32
    ensures { result ≡ rule_least rule until }
{
    match rule {
        Rule::Travel(seconds) => seconds,
        Rule::Until(arrival) => arrival.saturating_sub(until.saturating_sub(1)),
        Rule::Closed(_) => 0,
    }
}
