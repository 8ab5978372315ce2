//! Orders that are refused.

use crate::commands::path_of;
use crate::ended::{Ended, Texts};
use crate::network::range;
use crate::rows::{Row, last_number, number_of, place_of, row_at};
use crate::tables::Table;
use crate::texts::{Advice, number, shown, word};
use cu_model::NoMemory;
use std::alloc::Global;

/// What is said of an order that is refused.
pub fn advise_order(alloc: Global, ended: Ended<'_>, texts: &Texts) -> Result<Advice, NoMemory> {
    let path = path_of(&ended, "ORDER");
    let row = number(ended.line, 1);
    if word(ended.line, 2) == "count" {
        return advise_count(alloc, &ended, texts, row);
    }
    let first = match row_at(alloc, &texts.order, row)? {
        Some(found) => {
            let line = found.line;
            let said = find(alloc, &ended, texts, &found)?;
            format!(in alloc; "{path}, line {line}: {said}")?
        }
        None => format!(in alloc;
            "{path}, row {row}: each row is one node, and each node stands once"
        )?,
    };
    Ok(Advice::of(alloc, first))
}

// What is said of an order of fewer rows than there are nodes.
fn advise_count(
    alloc: Global,
    ended: &Ended<'_>,
    texts: &Texts,
    rows: u64,
) -> Result<Advice, NoMemory> {
    let path = path_of(ended, "ORDER");
    let nodes = range(
        alloc,
        Table::Nodes,
        ended,
        last_number(alloc, &texts.nodes)?,
    )?;
    let first = format!(in alloc;
        "{path} has {rows} rows, and {nodes}: each node stands once. To make an order: catchup order"
    )?;
    Ok(Advice::of(alloc, first))
}

// What was found in a row, and what is allowed.
fn find(alloc: Global, ended: &Ended<'_>, texts: &Texts, row: &Row) -> Result<String, NoMemory> {
    let value = shown(alloc, row.field(0))?;
    match word(ended.line, 2) {
        "range" => {
            let nodes = range(
                alloc,
                Table::Nodes,
                ended,
                last_number(alloc, &texts.nodes)?,
            )?;
            Ok(format!(in alloc; "there is no node {value}; {nodes}")?)
        }
        "twice" => {
            let line = line_before(alloc, texts, row)?;
            Ok(format!(in alloc;
                "node {value} stands in line {line} already, and each node stands once"
            )?)
        }
        _ if row.count() > 1 => {
            let count = row.count();
            Ok(format!(in alloc; "{count} fields, and a row has one, the number of a node")?)
        }
        _ => Ok(format!(in alloc;
            "node is {value}, and has to be a whole number; an order has no header"
        )?),
    }
}

// The line of the first row with the node of this one.
fn line_before(alloc: Global, texts: &Texts, row: &Row) -> Result<u64, NoMemory> {
    let Some(node) = number_of(row.field(0)) else {
        return Ok(0);
    };
    let Some(place) = place_of(alloc, &texts.order, node)? else {
        return Ok(0);
    };
    match row_at(alloc, &texts.order, place)? {
        Some(first) => Ok(first.line),
        None => Ok(0),
    }
}
