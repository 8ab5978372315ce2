//! Where an unpacking stands.

use crate::kept::Kept;
use crate::spans::{Driven, Span};

/// A list that is asked at a second of the day.
#[derive(Clone, Copy, PartialEq, Eq)]
pub struct Asked {
    pub list: u32,
    pub second: u32,
}

/// What was read of a list's row before the list is asked: the widest span of a third of the day, and the entry met last. Those
/// of both halves are read when a list is parted, so that the processor fetches both rows at once.
#[derive(Clone, Copy, PartialEq, Eq)]
pub struct Seen {
    pub widest: Span,
    pub met: Kept,
}

impl Seen {
    /// Nothing was read.
    pub const NOTHING: Seen = Seen {
        widest: Span::NOTHING,
        met: Kept::NOTHING,
    };
}

/// The half of a parted list that is in work: the first, where the list of the second one waits, with what was read of it;
/// or the second, where the first took this.
#[derive(Clone, Copy, PartialEq, Eq)]
pub enum Half {
    First { rest: u32, seen: Seen },
    Second { travel: u64, roads: u32 },
}

/// A list that was parted at its middle, for how many seconds before and from the second on that it is asked its halves take
/// the same, as far as they are known, and the half that is in work.
#[derive(Clone, Copy, PartialEq, Eq)]
pub struct Pending {
    pub asked: Asked,
    pub back: u32,
    pub ahead: u32,
    pub half: Half,
}

/// Where an unpacking stands: the list that is unpacked, the one that is next, what was read of it, how many are in work below
/// it, and how many roads were driven.
#[derive(Clone, Copy, PartialEq, Eq)]
pub struct Spot {
    pub whole: Asked,
    pub next: Asked,
    pub seen: Seen,
    pub depth: usize,
    pub roads: u32,
}

/// A list parted at the middle in force, over so many seconds before and from the second on: the lists of its halves.
#[derive(Clone, Copy, PartialEq, Eq)]
pub struct Parted {
    pub back: u32,
    pub ahead: u32,
    pub first: u32,
    pub rest: u32,
}

/// What is found of a list: what driving it takes, or its halves.
#[derive(Clone, Copy, PartialEq, Eq)]
pub enum Found {
    Driven(Driven),
    Parted(Parted),
}

/// What follows when a list was driven: the whole was, or a half that waited is next.
#[derive(Clone, Copy, PartialEq, Eq)]
pub enum After {
    Whole(Driven),
    Next(Spot),
}
