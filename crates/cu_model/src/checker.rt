//! Whether pieces make a day profile, in one pass that keeps no copy of them.

ghost use Rattle.std.specs.Prelude.{◌≡◌, ◌<◌, ◌+◌, ◌-◌, ◌^◌, ◌++◌, ◌∷◌, [], List, MatchResult, OnOk, length, nat_lt, if◌then◌else◌};
ghost use Rattle.cu_model.specs.declared.profiles.Piece.{Piece};
ghost use Rattle.cu_model.specs.Checker.{Checks, pushed, early_until, overtaken, overtaken_by};
ghost use Rattle.cu_model.specs.Steps.Checking.{behind, kept_closed, kept_fault, kept_seconds, overtaken_at_midnight};
ghost use Rattle.cu_model.specs.Faults.{piece_fault};
ghost use Rattle.cu_model.specs.Profiles.{IsProfile, is_closed_piece, is_in_limit, rule_value};

use crate::limits::{DAY, MAX_TRAVEL, MAX_UNTIL};
use crate::profiles::{Piece, PieceFault, Rule};

/// Checks the pieces of a day profile one by one, and keeps none of them but the first and the last. Takes time by the
/// number of pieces, however many seconds they hold: an arrival before its departure begins inside an `until` piece, and
/// a later departure overtakes only where a piece ends.
#[derive(Clone, Copy)]
pub struct PieceChecker {
    count: u32,
    ends: Option<Ends>,
    // The first piece past a limit, and the first that isn't from a later second than the one before.
    limit: Option<u32>,
    rising: Option<u32>,
    // The first closed piece.
    closed: Option<u32>,
    // The least early second and the least overtaken one of those before the last piece begins.
    early: Option<u32>,
    fifo: Option<u32>,
}

// The first piece and the last.
#[derive(Clone, Copy)]
struct Ends {
    first: Piece,
    last: Piece,
}

impl PieceChecker {
    /// A checker of no piece yet.
    pub fn new() -> PieceChecker
        ensures none { Checks result [] }
        ensures count { pushed result ≡ 0 }
    {
        PieceChecker {
            count: 0,
            ends: None,
            limit: None,
            rising: None,
            closed: None,
            early: None,
            fifo: None,
        }
    }

    /// Takes the next piece, whatever it is; fewer than 2^32 - 1 came before.
    pub fn push(&mut self, piece: Piece)
        requires { pushed self.old < 2 ^ 32 - 1 }
        ensures pieces { (pieces : List Piece) → Checks self.old pieces
            → Checks self.new (pieces ++ piece ∷ []) }
        ensures count { pushed self.new ≡ pushed self.old + 1 }
    {
        self.limit = self.limit.or(past_limit(piece, self.count));
        self.closed = self.closed.or(closed_at(piece, self.count));
        match self.ends {
            None => self.ends = Some(Ends {
                first: piece,
                last: piece,
            }),
            Some(ends) => self.push_behind(ends, piece),
        }
        self.count += 1;
    }

    // What one more piece says of the last one before it.
    fn push_behind(&mut self, ends: Ends, piece: Piece)
        ensures { self.new ≡ behind self.old ends piece }
    {
        let Ends { first, last } = ends;
        self.rising = self.rising.or(fallen(last, piece, self.count));
        self.early = self.early.or(early_until(last, piece.from));
        self.fifo = self.fifo.or(overtaken_by(last, piece));
        self.ends = Some(Ends { first, last: piece });
    }

    /// Whether the pieces so far make a profile, and if not why: the first fault in the order of `PieceFault`.
    pub fn finish(&self) -> Result<(), PieceFault>
        ensures { (pieces : List Piece) → Checks self.now pieces → (MatchResult result
            (λ _. piece_fault pieces ≡ None)
            (λ fault. piece_fault pieces ≡ Some fault)) }
    {
        match self.fault() {
            None => Ok(()),
            Some(fault) => Err(fault),
        }
    }

    fn fault(&self) -> Option<PieceFault>
        ensures { result ≡ kept_fault self.now }
    {
        if let Some(piece) = self.limit {
            return Some(PieceFault::Limit { piece });
        }
        let Some(ends) = self.ends else {
            return Some(PieceFault::Start);
        };
        if ends.first.from != 0 {
            return Some(PieceFault::Start);
        }
        if let Some(piece) = self.rising {
            return Some(PieceFault::Rising { piece });
        }
        self.closed_fault().or(self.second_fault(ends))
    }

    // A closed piece that isn't alone.
    fn closed_fault(&self) -> Option<PieceFault>
        ensures { result ≡ kept_closed self.now }
    {
        match self.closed {
            Some(piece) if self.count > 1 => Some(PieceFault::Closed { piece }),
            _ => None,
        }
    }

    // The first early second, or else the first overtaken one.
    fn second_fault(&self, ends: Ends) -> Option<PieceFault>
        ensures { result ≡ kept_seconds self.now ends }
    {
        let Ends { first, last } = ends;
        if let Some(second) = self.early.or(early_until(last, DAY)) {
            return Some(PieceFault::Early { second });
        }
        if let Some(second) = self.fifo.or(overtaken_at_midnight(last, first)) {
            return Some(PieceFault::Fifo { second });
        }
        None
    }
}

/// Whether pieces, fewer than 2^32, make a profile, and if not why: the first fault in the order of `PieceFault`.
/// Takes no memory.
pub fn check_pieces(pieces: &[Piece]) -> Result<(), PieceFault>
    requires { length pieces.now < 2 ^ 32 }
    ensures fault { MatchResult result
        (λ _. piece_fault pieces.now ≡ None)
        (λ fault. piece_fault pieces.now ≡ Some fault) }
    ensures valid { OnOk result (IsProfile pieces.now) }
{
    let mut checker = PieceChecker::new();
    for piece in pieces {
        checker.push(*piece);
    }
    checker.finish()
}

// This piece's number, where the piece is past a limit.
fn past_limit(piece: Piece, number: u32) -> Option<u32>
    ensures { result ≡ (if is_in_limit piece then None else Some number) }
{
    let in_limit = match piece.rule {
        Rule::Travel(seconds) => seconds <= MAX_TRAVEL,
        Rule::Until(arrival) => arrival <= MAX_UNTIL,
        Rule::Closed(value) => value == 0,
    };
    if piece.from < DAY && in_limit {
        None
    } else {
        Some(number)
    }
}

// This piece's number, where the piece is closed.
fn closed_at(piece: Piece, number: u32) -> Option<u32>
    ensures { result ≡ (if is_closed_piece piece then Some number else None) }
{
    if piece.rule.is_closed() {
        Some(number)
    } else {
        None
    }
}

// The next piece's number, where that isn't from a later second.
fn fallen(piece: Piece, next: Piece, number: u32) -> Option<u32>
    ensures { result ≡ (if nat_lt piece.from next.from then None else Some number) }
{
    if piece.from < next.from {
        None
    } else {
        Some(number)
    }
}

// The least second of a piece that holds until `end` at which it arrives before it leaves.
fn early_until(piece: Piece, end: u32) -> Option<u32>
    ensures { result ≡ early_until piece end }
{
    let Rule::Until(arrival) = piece.rule else {
        return None;
    };
    let second = u64::from(piece.from).max(u64::from(arrival) + 1);
    if second < u64::from(end) {
        Some(second as u32)
    } else {
        None
    }
}

// The last second of a piece, where the first of the next overtakes it.
fn overtaken_by(piece: Piece, next: Piece) -> Option<u32>
    ensures { result ≡ overtaken_by piece next }
{
    overtaken(
        piece.rule,
        next.from.saturating_sub(1),
        arrival_of(next.rule, next.from),
    )
}

// The last second of a day, where the first of the next day overtakes it.
fn overtaken_at_midnight(last: Piece, first: Piece) -> Option<u32>
    ensures { result ≡ overtaken_at_midnight last first }
{
    overtaken(
        last.rule,
        DAY - 1,
        u64::from(DAY) + arrival_of(first.rule, 0),
    )
}

// This second, where leaving then is overtaken by whoever arrives at `next`.
fn overtaken(rule: Rule, second: u32, next: u64) -> Option<u32>
    ensures { result ≡ overtaken rule second next }
{
    if next < arrival_of(rule, second) {
        Some(second)
    } else {
        None
    }
}

// When a rule arrives, leaving at a second of the first day. A closed one hinders nobody here: it is another fault where it
// isn't alone.
fn arrival_of(rule: Rule, second: u32) -> u64
    ensures value { result ≡ rule_value rule 0 second }
    ensures bound { result < 2 ^ 33 }
{
    match rule {
        Rule::Travel(seconds) => u64::from(second) + u64::from(seconds),
        Rule::Until(arrival) => u64::from(arrival),
        Rule::Closed(_) => u64::from(second),
    }
}
