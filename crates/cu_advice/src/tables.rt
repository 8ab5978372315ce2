//! The tables, as refusals name them.

use crate::commands::{path_of, profiles_path};
use crate::ended::{Ended, Texts};
use cu_model::{DAY, MAX_ARCS, MAX_NODES, MAX_PROFILES, MAX_TRAVEL, MAX_UNTIL};

/// The most profiles of a table of measured ones.
pub const MAX_MEASURED: u32 = 49_710;

/// A table.
#[derive(Clone, Copy, PartialEq, Eq)]
pub enum Table {
    Nodes,
    Roads,
    Profiles,
    Measured,
}

impl Table {
    /// The table of a line that begins so.
    pub fn of(kind: &str, file: &str) -> Table {
        match (kind, file) {
            ("measured:", _) => Table::Measured,
            (_, "nodes") => Table::Nodes,
            (_, "roads") => Table::Roads,
            _ => Table::Profiles,
        }
    }

    /// Its header.
    pub fn header(self) -> &'static str {
        match self {
            Table::Nodes => "node,x,y",
            Table::Roads => "arc,tail,head,profile",
            Table::Profiles => "profile,from,kind,value",
            Table::Measured => "profile,second,mode,travel",
        }
    }

    /// The place of its field that is a word and no number; past all fields where each is a number.
    pub fn word_place(self) -> usize {
        match self {
            Table::Nodes | Table::Roads => 4,
            Table::Profiles | Table::Measured => 2,
        }
    }

    /// Its path.
    pub fn path<'a>(self, ended: &Ended<'a>) -> &'a str {
        match self {
            Table::Nodes => path_of(ended, "NODES"),
            Table::Roads => path_of(ended, "ROADS"),
            Table::Profiles | Table::Measured => profiles_path(ended),
        }
    }

    /// Its text.
    pub fn text(self, texts: &Texts) -> &[u8] {
        match self {
            Table::Nodes => texts.nodes.as_slice(),
            Table::Roads => texts.roads.as_slice(),
            Table::Profiles | Table::Measured => texts.profiles.as_slice(),
        }
    }

    /// What its rows are of, and how many of these it may have.
    pub fn most(self) -> (&'static str, u32) {
        match self {
            Table::Nodes => ("nodes", MAX_NODES),
            Table::Roads => ("roads", MAX_ARCS),
            Table::Profiles => ("profiles", MAX_PROFILES),
            Table::Measured => ("measured profiles", MAX_MEASURED),
        }
    }
}

/// The greatest value of a kind of piece.
pub fn most_of_kind(kind: &[u8]) -> u32 {
    if kind == b"travel".as_slice() {
        MAX_TRAVEL
    } else if kind == b"until".as_slice() {
        MAX_UNTIL
    } else {
        0
    }
}

/// The last second of a day.
pub const LAST_SECOND: u32 = DAY - 1;
