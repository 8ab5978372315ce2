//! Lines that ask for a table, `t,SECOND,K` and the numbers of K sources and of targets, whose nodes stay in the line.

ghost use Rattle.std.specs.Prelude.{◌≡◌, ◌≤◌, ◌<◌, ◌*◌, ◌^◌, None, Some, ℕ, bytes_eq, codes, drop, if◌then◌else◌, length, map, nat_le, nat_lt};
ghost use Rattle.cu_model.specs.Numbers.{as_number, number_value};
ghost use Rattle.cu_model.specs.Queries.{fields_of_line};
ghost use Rattle.cu_reach.specs.declared.lines.TheConstants.{MAX_TABLE};
ghost use Rattle.cu_reach.specs.NodeFields.{IsNodeWord, fields_in};
ghost use Rattle.cu_reach.specs.ReachLines.{checked_table, table_of};
ghost use Rattle.cu_reach.specs.Steps.Parts.{HasNodes, nodes_of};
ghost use Rattle.cu_reach.specs.Steps.TableFields.{HasScanned, HasTable, IsScanned};

use crate::lines::{MAX_TABLE, ManyRefusal, value_under};
use cu_model::{DAY, Number, cut_field, parse_number};
use std::marker::Model;

/// Nodes of a line, by their numbers as they are written there, which are read one by one and without memory. Contracts see the
/// list of those that are left.
#[derive(Drop)]
pub struct NodeFields<'a> {
    // The line from the next number on; none behind its last field.
    line: Option<&'a [u8]>,
    left: usize,
}

impl<'a> Model for NodeFields<'a> {
    ghost use Rattle.std.specs.Prelude.{ℕ, List};
    ghost use Rattle.cu_reach.specs.NodeFields.{AreNodes, nodes_in};

    ghost Value = { List ℕ };

    ghost view = { λ nodes. nodes_in nodes.line nodes.left };

    ghost invariant = { λ nodes. AreNodes nodes.line nodes.left };
}

impl Iterator for NodeFields<'_> {
    type Item = u32;

    ghost use Rattle.std.specs.Iterator.{YieldsFirst, item_count};

    ghost next_gives = { YieldsFirst (λ left. left) };

    ghost remaining = { item_count (λ left. left) };

    fn next(&mut self) -> Option<u32> {
        if self.left == 0 {
            return None;
        }
        let (field, rest) = cut_field(self.line?);
        self.line = rest;
        self.left -= 1;
        Some(node_of(field))
    }
}

// The node that a word names.
fn node_of(word: &[u8]) -> u32
    requires { IsNodeWord word.now }
    ensures { result ≡ number_value word.now }
{
    let Some(Number::Value(node)) = parse_number(word) else {
        unreachable!()
    };
    node as u32
}

// The fields from the next number of a line on, and how many of them are read.
#[derive(Clone, Copy)]
struct Part<'a> {
    line: Option<&'a [u8]>,
    count: usize,
}

// How many fields of nodes there are, and whether all nodes are below the number of nodes.
#[derive(Clone, Copy)]
struct Scan {
    count: usize,
    in_range: bool,
}

// The first fields of a line, and what stands behind the third.
#[derive(Clone, Copy)]
struct TableFields<'a> {
    word: &'a [u8],
    second: &'a [u8],
    count: &'a [u8],
    nodes: Option<&'a [u8]>,
}

/// A table asked: from each source to each target, leaving at a second of the day. Sources and targets stay in the line.
/// Contracts see the second and both lists.
#[derive(Drop)]
pub struct TableAsked<'a> {
    second: u32,
    sources: Part<'a>,
    targets: Part<'a>,
}

impl<'a> Model for TableAsked<'a> {
    ghost use Rattle.cu_reach.specs.NodeFields.{TableValue};
    ghost use Rattle.cu_reach.specs.Steps.Parts.{HasNodes, nodes_of};

    ghost Value = { TableValue };

    ghost view = { λ table. record {
      second = table.second;
      sources = nodes_of table.sources;
      targets = nodes_of table.targets;
    } };

    ghost invariant = { λ table. HasNodes table.sources × HasNodes table.targets };
}

impl TableAsked<'_> {
    /// The second of the day at which all leave.
    pub fn second(&self) -> u32
        ensures { result ≡ self.now.second }
    {
        self.second
    }

    /// The sources, in their order. Takes no memory.
    pub fn sources(&self) -> NodeFields<'_>
        ensures { result ≡ self.now.sources }
    {
        nodes_in(self.sources)
    }

    /// The targets, in their order. Takes no memory.
    pub fn targets(&self) -> NodeFields<'_>
        ensures { result ≡ self.now.targets }
    {
        nodes_in(self.targets)
    }
}

/// Checks a line that asks for a table, its line end cut off, against a network with so many nodes. The nodes behind the
/// second field are the sources, as many as that says, and then the targets. Takes no memory.
pub fn check_table(line: &[u8], nodes: u32) -> Result<TableAsked<'_>, ManyRefusal>
    ensures { result ≡ table_of nodes line.now }
{
    // A line has at most one field more than it has bytes.
    let _bytes = line.len();
    let Some(fields) = table_fields(line) else {
        return Err(ManyRefusal::Line);
    };
    if !asks_table(fields.word) {
        return Err(ManyRefusal::Line);
    }
    let Some(second) = parse_number(fields.second) else {
        return Err(ManyRefusal::Line);
    };
    let Some(count) = parse_number(fields.count) else {
        return Err(ManyRefusal::Line);
    };
    let Some(scan) = scan_nodes(fields.nodes, nodes) else {
        return Err(ManyRefusal::Line);
    };
    let Some(sources) = value_within(count, scan.count) else {
        return Err(ManyRefusal::Line);
    };
    table_asked(fields.nodes, scan, sources, second)
}

// A table whose first nodes are the sources, or the first check of its nodes, its second and its size that fails.
fn table_asked(
    line: Option<&[u8]>,
    scan: Scan,
    sources: usize,
    second: Number,
) -> Result<TableAsked<'_>, ManyRefusal>
    requires sources { sources ≤ scan.count }
    requires scanned { (n : ℕ) × (n ≤ 2 ^ 32) × IsScanned n (fields_in line) scan }
    ensures { (nodes s : ℕ) → IsScanned nodes (fields_in line.entry) scan → second ≡ as_number s
        → result ≡ checked_table nodes s sources (map number_value (fields_in line.entry)) }
{
    if !scan.in_range {
        return Err(ManyRefusal::Node);
    }
    let Some(second) = value_under(second, DAY) else {
        return Err(ManyRefusal::Second);
    };
    let targets = scan.count - sources;
    if is_large(sources, targets) {
        return Err(ManyRefusal::Limit);
    }
    Ok(TableAsked {
        second,
        sources: Part {
            line,
            count: sources,
        },
        targets: Part {
            line: behind(line, sources),
            count: targets,
        },
    })
}

// Whether so many sources and targets have too many entries.
fn is_large(sources: usize, targets: usize) -> bool
    ensures { result ≡ nat_lt MAX_TABLE (sources * targets) }
{
    match sources.checked_mul(targets) {
        Some(entries) => entries > MAX_TABLE as usize,
        None => true,
    }
}

// A number's value, where it isn't above a limit.
fn value_within(number: Number, limit: usize) -> Option<usize>
    ensures { (value : ℕ) → number ≡ as_number value
        → result ≡ (if nat_le value limit then Some value else None) }
{
    match number {
        Number::Value(value) if value <= limit as u64 => Some(value as usize),
        _ => None,
    }
}

// What fields of nodes are: none where one of them is no number word.
fn scan_nodes(line: Option<&[u8]>, nodes: u32) -> Option<Scan>
    requires few { length (fields_in line) < 2 ^ 64 }
    ensures { HasScanned nodes (fields_in line.entry) result }
{
    let mut rest = line;
    let mut count = 0;
    let mut in_range = true;
    'fields: while let Some(fields) = rest {
        let (field, more) = cut_field(fields);
        let number = parse_number(field)?;
        in_range = in_range && value_under(number, nodes).is_some();
        count += 1;
        rest = more;
    }
    Some(Scan { count, in_range })
}

// What stands behind so many fields.
fn behind(line: Option<&[u8]>, count: usize) -> Option<&[u8]>
    ensures { fields_in result ≡ drop count (fields_in line.entry) }
{
    let mut rest = line;
    let mut left = count;
    'fields: while left > 0 {
        let (_, more) = cut_field(rest?);
        rest = more;
        left -= 1;
    }
    rest
}

// Whether a line with this first word asks for a table.
fn asks_table(word: &[u8]) -> bool
    ensures { result ≡ bytes_eq word.now (codes "t") }
{
    word == b"t".as_slice()
}

// The fields of a line that has three or more.
fn table_fields(line: &[u8]) -> Option<TableFields<'_>>
    ensures { HasTable (fields_of_line line.now) result }
{
    let (word, rest) = cut_field(line);
    let (second, rest) = cut_field(rest?);
    let (count, nodes) = cut_field(rest?);
    Some(TableFields {
        word,
        second,
        count,
        nodes,
    })
}

// The nodes of a part of a line.
fn nodes_in(part: Part<'_>) -> NodeFields<'_>
    requires { HasNodes part }
    ensures { result ≡ nodes_of part.entry }
{
    NodeFields {
        line: part.line,
        left: part.count,
    }
}
