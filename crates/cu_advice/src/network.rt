//! Tables that are refused: the row, and what every table's rows have to be.

use crate::ended::{Ended, Texts};
use crate::measured::{find_measured, find_other_kind};
use crate::pieces::{advise_overtaking, find_piece};
use crate::rows::{Row, last_number, number_of, row_at};
use crate::tables::Table;
use crate::texts::{Advice, number, shown, word};
use cu_model::NoMemory;
use cu_roads::MAX_COORDINATE;
use std::alloc::Global;

/// The check of a table that its text fails.
#[derive(Clone, Copy)]
pub struct Check<'a> {
    pub table: Table,
    /// The row's number, from 0 on behind the header.
    pub row: u64,
    /// The check's word.
    pub word: &'a str,
    /// The second of the day that the line names, if it names one.
    pub second: u64,
}

impl<'a> Check<'a> {
    // The check that a line names.
    fn of(line: &'a str) -> Check<'a> {
        let table = Table::of(word(line, 0), word(line, 1));
        let place = if table == Table::Measured { 1 } else { 2 };
        let names_row = word(line, place) != "header";
        Check {
            table,
            row: number(line, place),
            word: word(line, if names_row { place + 1 } else { place }),
            second: number(line, place + 2),
        }
    }
}

/// What is said of tables that are refused.
pub fn advise_tables(alloc: Global, ended: Ended<'_>, texts: &Texts) -> Result<Advice, NoMemory> {
    let check = Check::of(ended.line);
    match check.word {
        "header" => advise_header(alloc, ended, texts, check.table),
        "early" | "fifo" => advise_overtaking(alloc, ended, texts, check),
        _ => advise_row(alloc, ended, texts, check),
    }
}

// What is said of a first row that isn't the header.
fn advise_header(
    alloc: Global,
    ended: Ended<'_>,
    texts: &Texts,
    table: Table,
) -> Result<Advice, NoMemory> {
    let path = table.path(&ended);
    let header = table.header();
    let Some(row) = row_at(alloc, table.text(texts), 0)? else {
        let first = format!(in alloc; "{path}: the first row has to be the header {header}")?;
        return Ok(Advice::of(alloc, first));
    };
    let found = joined(alloc, &row)?;
    let line = row.line;
    let other = find_other_kind(table, found.as_str());
    let first = format!(in alloc;
        "{path}, line {line}: the header is {found}, and has to be {header}{other}"
    )?;
    Ok(Advice::of(alloc, first))
}

// The fields of a row, with commas between them.
fn joined(alloc: Global, row: &Row) -> Result<String, NoMemory> {
    let mut bytes = Vec::new(alloc);
    for place in 0..row.count() {
        if place > 0 {
            bytes.push(b',')?;
        }
        bytes.extend_from_slice(row.field(place))?;
    }
    shown(alloc, &bytes)
}

// What is said of a row that fails a check.
fn advise_row(
    alloc: Global,
    ended: Ended<'_>,
    texts: &Texts,
    check: Check<'_>,
) -> Result<Advice, NoMemory> {
    let path = check.table.path(&ended);
    let place = check.row.saturating_add(1);
    let first = match row_at(alloc, check.table.text(texts), place)? {
        Some(row) => {
            let line = row.line;
            let found = find(alloc, ended, texts, check, &row)?;
            format!(in alloc; "{path}, line {line}: {found}")?
        }
        None => {
            let row = check.row;
            let rule = rule_of(check);
            format!(in alloc; "{path}, row {row} behind the header: {rule}")?
        }
    };
    Ok(Advice::of(alloc, first))
}

// What has to be so, where the row itself can't be read again.
fn rule_of(check: Check<'_>) -> &'static str {
    match check.word {
        "fields" => "a row has as many fields as the header",
        "number" => "numbers are whole, and x and y within their limit",
        "sequence" => "nodes, roads and profiles are numbered from 0 on, without gaps",
        "count" => "there are more rows than may be",
        "node" => "the tail and the head of a road are nodes",
        "profile" => "the profile of a road is one of the table's",
        "kind" => "a kind is travel, until or closed",
        "mode" => "a mode is line or step",
        "limit" => "a second or a value is too large",
        "start" => "a profile begins at second 0",
        "rising" => "each row of a profile is of a later second than the one before",
        _ => "a closed piece is the only one of its profile",
    }
}

// What was found in a row, and what is allowed.
fn find(
    alloc: Global,
    ended: Ended<'_>,
    texts: &Texts,
    check: Check<'_>,
    row: &Row,
) -> Result<String, NoMemory> {
    match check.word {
        "fields" => find_fields(alloc, check.table, row),
        "number" => find_number(alloc, check.table, row),
        "sequence" => find_sequence(alloc, texts, check, row),
        "count" => find_count(alloc, check.table),
        "node" => find_node(alloc, ended, texts, check, row),
        "profile" => find_profile(alloc, ended, texts, check, row),
        _ if check.table == Table::Measured => find_measured(alloc, texts, check, row),
        _ => find_piece(alloc, texts, check, row),
    }
}

fn find_fields(alloc: Global, table: Table, row: &Row) -> Result<String, NoMemory> {
    let header = table.header();
    let wanted = header.split(',').count();
    let count = row.count();
    let plural = if count == 1 { "field" } else { "fields" };
    Ok(format!(in alloc; "{count} {plural}, and a row has {wanted}: {header}")?)
}

// The first field that has to be a number and isn't, or of a place is too large.
fn find_number(alloc: Global, table: Table, row: &Row) -> Result<String, NoMemory> {
    for (place, name) in table.header().split(',').enumerate() {
        let most = most_at(table, place);
        if place != table.word_place() && !is_good_number(row.field(place), most) {
            let value = shown(alloc, row.field(place))?;
            return match most {
                Some(most) => Ok(format!(in alloc;
                    "{name} is {value}, and has to be a whole number from 0 to {most}"
                )?),
                None => Ok(format!(in alloc; "{name} is {value}, and has to be a whole number")?),
            };
        }
    }
    Ok(format!(in alloc; "a field has to be a whole number")?)
}

// The greatest number that the field at a place may be, where the check of numbers has a limit for it.
fn most_at(table: Table, place: usize) -> Option<u32> {
    if table == Table::Nodes && place > 0 {
        Some(MAX_COORDINATE)
    } else {
        None
    }
}

// Whether a field is a number, and within a limit.
fn is_good_number(field: &[u8], most: Option<u32>) -> bool {
    match (cu_model::parse_number(field), most) {
        (Some(cu_model::Number::Value(value)), Some(most)) => value <= u64::from(most),
        (Some(_), None) => true,
        _ => false,
    }
}

fn find_sequence(
    alloc: Global,
    texts: &Texts,
    check: Check<'_>,
    row: &Row,
) -> Result<String, NoMemory> {
    let value = shown(alloc, row.field(0))?;
    let number = check.row;
    if check.table == Table::Nodes || check.table == Table::Roads {
        let name = check.table.header().split(',').next().unwrap_or("");
        return Ok(format!(in alloc;
            "{name} is {value}, and has to be {number}: rows are numbered from 0 on, in their order"
        )?);
    }
    if number == 0 {
        return Ok(format!(in alloc;
            "profile is {value}, and has to be 0: profiles are numbered from 0 on"
        )?);
    }
    match number_before(alloc, texts, check)? {
        Some(last) => {
            let next = last.saturating_add(1);
            Ok(format!(in alloc;
                "profile is {value}, and has to be {last} or {next} behind profile {last}"
            )?)
        }
        None => Ok(format!(in alloc;
            "profile is {value}, and has to be that of the row before, or the next one"
        )?),
    }
}

// The profile of the row before.
fn number_before(alloc: Global, texts: &Texts, check: Check<'_>) -> Result<Option<u64>, NoMemory> {
    match row_at(alloc, check.table.text(texts), check.row)? {
        Some(row) => Ok(number_of(row.field(0))),
        None => Ok(None),
    }
}

fn find_count(alloc: Global, table: Table) -> Result<String, NoMemory> {
    let (what, most) = table.most();
    Ok(format!(in alloc; "there are more than {most} {what}, the most that catchup takes")?)
}

fn find_node(
    alloc: Global,
    ended: Ended<'_>,
    texts: &Texts,
    check: Check<'_>,
    row: &Row,
) -> Result<String, NoMemory> {
    let last = last_number(alloc, &texts.nodes)?;
    let (verb, field) = match (last, number_of(row.field(1))) {
        (Some(last), Some(tail)) if tail <= last => ("leads to", row.field(2)),
        _ => ("leaves from", row.field(1)),
    };
    let value = shown(alloc, field)?;
    let nodes = range(alloc, Table::Nodes, &ended, last)?;
    let arc = check.row;
    Ok(format!(in alloc; "arc {arc} {verb} node {value}; {nodes}")?)
}

fn find_profile(
    alloc: Global,
    ended: Ended<'_>,
    texts: &Texts,
    check: Check<'_>,
    row: &Row,
) -> Result<String, NoMemory> {
    let last = last_number(alloc, &texts.profiles)?;
    let value = shown(alloc, row.field(3))?;
    let profiles = range(alloc, Table::Profiles, &ended, last)?;
    let arc = check.row;
    Ok(format!(in alloc; "arc {arc} has profile {value}; {profiles}")?)
}

/// Which numbers a table has.
pub fn range(
    alloc: Global,
    table: Table,
    ended: &Ended<'_>,
    last: Option<u64>,
) -> Result<String, NoMemory> {
    let path = table.path(ended);
    let (what, _) = table.most();
    match last {
        Some(last) => Ok(format!(in alloc; "{path} has {what} 0 to {last}")?),
        None => Ok(format!(in alloc; "{path} has no {what}")?),
    }
}
