//! Measured profiles that are refused, and tables of the other kind.

use crate::ended::Texts;
use crate::network::Check;
use crate::pieces::{find_rising, find_start, is_past};
use crate::rows::Row;
use crate::tables::{LAST_SECOND, Table};
use crate::texts::shown;
use cu_model::{MAX_TRAVEL, NoMemory};
use std::alloc::Global;

/// What was found in the row of a point, and what is allowed.
pub fn find_measured(
    alloc: Global,
    texts: &Texts,
    check: Check<'_>,
    row: &Row,
) -> Result<String, NoMemory> {
    match check.word {
        "mode" => {
            let mode = shown(alloc, row.field(2))?;
            Ok(format!(in alloc; "mode is {mode}, and has to be line or step")?)
        }
        "limit" => find_point_limit(alloc, row),
        "start" => find_start(alloc, "second", row),
        _ => find_rising(alloc, texts, check, "second", row),
    }
}

fn find_point_limit(alloc: Global, row: &Row) -> Result<String, NoMemory> {
    if is_past(row.field(1), LAST_SECOND) {
        let second = shown(alloc, row.field(1))?;
        return Ok(format!(in alloc;
            "second is {second}, and a second of the day is at most {LAST_SECOND}"
        )?);
    }
    let travel = shown(alloc, row.field(3))?;
    Ok(format!(in alloc; "travel is {travel}, and is at most {MAX_TRAVEL}")?)
}

/// What is said of a table in the place of another.
pub fn find_other_kind(table: Table, found: &str) -> &'static str {
    if found == table.header() {
        ""
    } else if found == Table::Measured.header() && table == Table::Profiles {
        ". Measured times: catchup measure, or catchup wait"
    } else if found == Table::Profiles.header() && table == Table::Measured {
        ". A table of profiles: catchup serve, or catchup build"
    } else if found == Table::Nodes.header() {
        ". This is a table of nodes: are the words in their order?"
    } else if found == Table::Roads.header() {
        ". This is a table of roads: are the words in their order?"
    } else if found == Table::Profiles.header() {
        ". This is a table of profiles: are the words in their order?"
    } else {
        ""
    }
}
