//! Day profiles: pieces that say when a road arrives, at each second of a day that repeats.

ghost use Rattle.std.specs.Prelude.{◌≡◌, ◌≤◌, ◌<◌, ◌^◌, ◌/◌, ◌%◌, ℕ, IfOk, MatchResult, length, nat_le, true, false};
ghost use Rattle.cu_model.specs.declared.profiles.Piece.{Piece};
ghost use Rattle.std.specs.List.Sorted.{IsNonDecreasingBy, IsPartitionPoint};
ghost use Rattle.cu_model.specs.Faults.{piece_fault};
ghost use Rattle.cu_model.specs.Profiles.{IsProfile, is_closed, is_closed_rule, is_rule_in_limit, piece_at, profile_value, rule_value};

use crate::checker::check_pieces;
use crate::limits::DAY;
use std::marker::Model;
use thiserror::Error;

/// What a piece does with a departure.
#[derive(Clone, Copy, Debug, PartialEq, Eq)]
pub enum Rule {
    /// Arrives this many seconds after the departure, 0 to 604,800.
    Travel(u32),
    /// Arrives at this second of the departure's day, 0 to 691,200, whenever it leaves: whoever is early waits.
    Until(u32),
    /// Lets nobody through, all day: the only piece of its profile. The value is 0.
    Closed(u32),
}

impl Rule {
    /// Whether it lets nobody through.
    pub fn is_closed(self) -> bool
        ensures { result ≡ is_closed_rule self }
    {
        matches!(self, Rule::Closed(_))
    }

    /// When it arrives, leaving at an absolute second of at most 2^62, so that the sum stays within 64 bits. The rule is
    /// within its limit, as each of a profile is. A closed one is asked by nobody: it answers the departure.
    pub fn arrival(self, second: u64) -> u64
        requires in_limit { is_rule_in_limit self ≡ true }
        requires time { second ≤ 2 ^ 62 }
        ensures { result ≡ rule_value self (second / DAY) (second % DAY) }
    {
        match self {
            Rule::Travel(seconds) => second + u64::from(seconds),
            Rule::Until(arrival) => second - second % u64::from(DAY) + u64::from(arrival),
            Rule::Closed(_) => second,
        }
    }
}

/// A rule, and the second of the day, 0 to 86,399, from which it holds.
#[derive(Clone, Copy, Debug, PartialEq, Eq)]
pub struct Piece {
    pub from: u32,
    pub rule: Rule,
}

/// Why a list of pieces is no profile. Where several apply, the one that stands first here is answered.
#[derive(Clone, Copy, Debug, PartialEq, Eq, Error)]
pub enum PieceFault {
    /// The first piece past a limit.
    #[error("piece {piece} is past a limit")]
    Limit { piece: u32 },
    /// There is no piece, or the first isn't from second 0.
    #[error("the first piece isn't from second 0")]
    Start,
    /// The first piece that isn't from a later second than the one before.
    #[error("piece {piece} isn't later than the one before")]
    Rising { piece: u32 },
    /// The first closed piece, where there is more than one piece.
    #[error("piece {piece} is closed and not alone")]
    Closed { piece: u32 },
    /// The least second of the day at which an arrival would be before its departure.
    #[error("an arrival before its departure at second {second}")]
    Early { second: u32 },
    /// The least second of the day after which leaving one second later arrives earlier.
    #[error("leaving after second {second} overtakes")]
    Fifo { second: u32 },
}

/// Why the pieces of a text or a script line are no profile.
#[derive(Clone, Copy, Debug, PartialEq, Eq, Error)]
pub enum PieceRefusal {
    #[error("a kind is none of travel, until and closed")]
    Kind,
    #[error("{0}")]
    Fault(PieceFault),
}

/// A day profile. Contracts see it as its list of pieces.
#[derive(Clone, Drop)]
pub struct Profile {
    pieces: Vec<Piece>,
}

impl Model for Profile {
    ghost use Rattle.std.specs.Prelude.{List};
    ghost use Rattle.cu_model.specs.declared.profiles.Piece.{Piece};
    ghost use Rattle.cu_model.specs.Profiles.{IsProfile};

    ghost Value = { List Piece };

    ghost view = { λ profile. profile.pieces.items };

    ghost invariant = { λ profile. IsProfile profile.pieces.items };
}

impl Profile {
    /// The profile of these pieces, fewer than 2^32, or the first fault that they have, in this order: `Limit`, the first
    /// piece past a limit; `Start`, where there is no piece or the first isn't from second 0; `Rising`, the first piece that
    /// isn't from a later second than the one before; `Closed`, the first closed piece, where there is more than one piece;
    /// `Early`, the least second of the day with an arrival before its departure; `Fifo`, the least second of the day, up to
    /// 86,399, after which leaving one second later arrives earlier. The pieces are dropped where they are refused. Takes no
    /// memory.
    pub fn of(pieces: Vec<Piece>) -> Result<Profile, PieceFault>
        requires { length pieces.items < 2 ^ 32 }
        ensures ok { IfOk result (λ profile. profile ≡ pieces.items) }
        ensures valid { IfOk result (λ profile. IsProfile profile) }
        ensures variant { MatchResult result
            (λ _. piece_fault pieces.items ≡ None)
            (λ fault. piece_fault pieces.items ≡ Some fault) }
    {
        check_pieces(&pieces)?;
        Ok(Profile { pieces })
    }

    /// Its pieces, by rising second, the first from second 0: 1 to 86,400 of them.
    pub fn pieces(&self) -> &[Piece]
        ensures all { result.now ≡ self.now }
        ensures valid { IsProfile self.now }
        ensures few { length result.now ≤ DAY }
    {
        &self.pieces
    }

    /// Whether it is closed: its only piece lets nobody through, and it has no arrivals.
    pub fn is_closed(&self) -> bool
        ensures { result ≡ is_closed self.now }
    {
        match self.pieces.as_slice() {
            [piece] => piece.rule.is_closed(),
            _ => false,
        }
    }

    // Takes over the pieces of another profile.
    pub(crate) fn replace(&mut self, other: Profile)
        ensures taken { self.new ≡ other }
        ensures valid { IsProfile other }
    {
        self.pieces = other.pieces;
    }

    /// When it arrives, leaving at an absolute second of at most 2^62; it isn't closed. It never arrives before it leaves,
    /// and leaving later never arrives earlier, over midnight and on later days as well.
    pub fn arrive(&self, second: u64) -> u64
        requires time { second ≤ 2 ^ 62 }
        requires open { is_closed self.now ≡ false }
        ensures value { result ≡ profile_value self.now second }
        ensures onward { second ≤ result }
        ensures fifo { (later : ℕ) → second ≤ later → result ≤ profile_value self.now later }
    {
        let piece = piece_begun(&self.pieces, (second % u64::from(DAY)) as u32);
        piece.rule.arrival(second)
    }
}

// The last piece that has begun by this second of the day.
fn piece_begun(pieces: &[Piece], time: u32) -> Piece
    requires { IsProfile pieces.now }
    ensures piece { piece_at pieces.now time ≡ Some result }
    ensures in_limit { is_rule_in_limit result.rule ≡ true }
{
    pieces[begun(pieces, time) - 1]
}

// How many pieces are from this second of the day or before it.
fn begun(pieces: &[Piece], time: u32) -> usize
    requires { IsNonDecreasingBy (λ (p : Piece). p.from) pieces.now }
    ensures bound { result ≤ length pieces.now }
    ensures point { IsPartitionPoint
        (λ (p : Piece). nat_le p.from time ≡ true)
        (λ (p : Piece). nat_le p.from time ≡ false)
        pieces.now result }
{
    pieces.partition_point(|piece| piece.from <= time)
}
