//! The piece of a profile in force at a second of the day, and for how long.

ghost use Rattle.std.specs.Prelude.{◌≡◌, ◌≤◌, ◌<◌};
ghost use Rattle.cu_pack.specs.InForce.{IsPieceInForce};
ghost use Rattle.cu_pack.specs.Reading.{counts_in, piece_from, piece_place, profile_in};
ghost use Rattle.cu_pack.specs.Steps.Parts.{HasProfile};

use crate::cutting::Sections;
use cu_model::{DAY, Rule};

/// A rule, and the seconds of the day at which a road has it: from `from` until before `until`.
#[derive(Clone, Copy, PartialEq, Eq)]
pub struct RuleInForce {
    pub rule: Rule,
    pub from: u32,
    pub until: u32,
}

impl<'a> Sections<'a> {
    /// The rule of a profile at a second of the day, 0 to 86,399, and the seconds around it at each of which it is the one.
    pub fn rule_begun(&self, profile: u32, second: u32) -> RuleInForce
        requires profile { HasProfile self.now profile }
        requires day { second < DAY }
        ensures found { IsPieceInForce (profile_in self.now profile) second result }
    {
        let pieces = self.layout.pieces as usize;
        let start = self.profile_start(profile);
        let count = (self.profile_start(profile + 1) - start) as usize;
        let begun = self
            .body
            .count_up_to(pieces + 12 * start as usize, 12, count, second);
        let piece = self.piece(start + begun as u64 - 1);
        RuleInForce {
            rule: piece.rule,
            from: piece.from,
            until: self.begin_or_day(start + begun as u64, start + count as u64),
        }
    }

    // When a piece begins, counted over all profiles, or the end of the day where it isn't before this one.
    fn begin_or_day(&self, piece: u64, end: u64) -> u32
        requires end { end ≤ (counts_in self.now).pieces }
        ensures some { piece < end
            → result ≡ (piece_from self.now (piece_place self.now piece)).from }
        ensures none { end ≤ piece → result ≡ DAY }
    {
        if piece < end {
            self.piece(piece).from
        } else {
            DAY
        }
    }
}
