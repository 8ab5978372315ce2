//! Profiles that are refused for their pieces.

use crate::ended::{Ended, Texts};
use crate::network::Check;
use crate::rows::{Row, number_of, row_at};
use crate::tables::{LAST_SECOND, most_of_kind};
use crate::texts::{Advice, clock, shown};
use cu_model::NoMemory;
use std::alloc::Global;

/// What was found in the row of a piece, and what is allowed.
pub fn find_piece(
    alloc: Global,
    texts: &Texts,
    check: Check<'_>,
    row: &Row,
) -> Result<String, NoMemory> {
    match check.word {
        "kind" => {
            let kind = shown(alloc, row.field(2))?;
            Ok(format!(in alloc; "kind is {kind}, and has to be travel, until or closed")?)
        }
        "limit" => find_piece_limit(alloc, row),
        "start" => find_start(alloc, "from", row),
        "rising" => find_rising(alloc, texts, check, "from", row),
        _ => {
            let profile = shown(alloc, row.field(0))?;
            Ok(format!(in alloc;
                "profile {profile} is closed here, and has other rows: a closed one has this row alone"
            )?)
        }
    }
}

fn find_piece_limit(alloc: Global, row: &Row) -> Result<String, NoMemory> {
    if is_past(row.field(1), LAST_SECOND) {
        let from = shown(alloc, row.field(1))?;
        return Ok(format!(in alloc;
            "from is {from}, and a second of the day is at most {LAST_SECOND}"
        )?);
    }
    let kind = shown(alloc, row.field(2))?;
    let value = shown(alloc, row.field(3))?;
    let most = most_of_kind(row.field(2));
    Ok(format!(in alloc; "value is {value}, and of {kind} it is at most {most}")?)
}

/// Whether a field is a number past a limit.
pub fn is_past(field: &[u8], most: u32) -> bool {
    match number_of(field) {
        Some(value) => value > u64::from(most),
        None => true,
    }
}

/// What is said of a profile that doesn't begin at second 0; `name` is that of its seconds.
pub fn find_start(alloc: Global, name: &str, row: &Row) -> Result<String, NoMemory> {
    let profile = shown(alloc, row.field(0))?;
    let second = shown(alloc, row.field(1))?;
    Ok(format!(in alloc;
        "{name} is {second}, and has to be 0 in the first row of profile {profile}"
    )?)
}

/// What is said of a row that isn't of a later second than the one before.
pub fn find_rising(
    alloc: Global,
    texts: &Texts,
    check: Check<'_>,
    name: &str,
    row: &Row,
) -> Result<String, NoMemory> {
    let profile = shown(alloc, row.field(0))?;
    let second = shown(alloc, row.field(1))?;
    match row_at(alloc, check.table.text(texts), check.row)? {
        Some(before) => {
            let last = shown(alloc, before.field(1))?;
            Ok(format!(in alloc;
                "{name} is {second}, and has to be later than {last}, that of the row before of profile {profile}"
            )?)
        }
        None => Ok(format!(in alloc;
            "{name} is {second}, and has to be later than that of the row before of profile {profile}"
        )?),
    }
}

/// What is said of a profile by which one arrives before one leaves, or later than who leaves later.
pub fn advise_overtaking(
    alloc: Global,
    ended: Ended<'_>,
    texts: &Texts,
    check: Check<'_>,
) -> Result<Advice, NoMemory> {
    let path = check.table.path(&ended);
    let time = clock(alloc, check.second)?;
    let place = check.row.saturating_add(1);
    let row = row_at(alloc, check.table.text(texts), place)?;
    let profile = match &row {
        Some(row) => named_profile(alloc, row)?,
        None => {
            let row = check.row;
            format!(in alloc; "the profile of row {row}")?
        }
    };
    let second = match &row {
        Some(row) => {
            let line = row.line;
            format!(in alloc; "{path}, line {line}: {profile} begins here")?
        }
        None => String::new(alloc),
    };
    let first = if check.word == "early" {
        format!(in alloc;
            "{path}: {profile} lets who departs at {time} arrive before that. Let an until piece end by the second that it names"
        )?
    } else {
        format!(in alloc;
            "{path}: {profile} lets who departs at {time} arrive later than who departs a second later. Measured times that do so: catchup measure, or catchup wait"
        )?
    };
    Ok(Advice { first, second })
}

fn named_profile(alloc: Global, row: &Row) -> Result<String, NoMemory> {
    let number = shown(alloc, row.field(0))?;
    Ok(format!(in alloc; "profile {number}")?)
}
