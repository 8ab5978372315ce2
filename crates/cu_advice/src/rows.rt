//! Rows of texts, and the lines that they begin on.

use csv::{ByteRecord, Reader, ReaderBuilder};
use cu_model::NoMemory;
use std::alloc::Global;

/// A row of a text.
#[derive(Drop)]
pub struct Row {
    /// The line that it begins on, from 1 on, as an editor counts them.
    pub line: u64,
    /// Its fields.
    pub fields: ByteRecord,
}

impl Row {
    /// A field, counted from 0; empty where there are not so many.
    pub fn field(&self, place: usize) -> &[u8] {
        self.fields.get(place).unwrap_or(&[])
    }

    /// How many fields it has.
    pub fn count(&self) -> usize {
        self.fields.len()
    }
}

/// The row at a place, counted from 0, the header among them; none where there are not so many.
pub fn row_at(alloc: Global, text: &[u8], place: u64) -> Result<Option<Row>, NoMemory> {
    let mut rows = rows_of(alloc, text);
    let mut fields = ByteRecord::new(alloc);
    for _ in 0..place {
        if !reads(&mut rows, &mut fields) {
            return Ok(None);
        }
    }
    if !reads(&mut rows, &mut fields) {
        return Ok(None);
    }
    let begins = match fields.position() {
        Some(position) => position.byte(),
        None => 0,
    };
    let line = line_at(text, begins);
    Ok(Some(Row { line, fields }))
}

/// The number in the first field of the last row; none where the header is the last, or no number stands there.
pub fn last_number(alloc: Global, text: &[u8]) -> Result<Option<u64>, NoMemory> {
    let mut rows = rows_of(alloc, text);
    let mut fields = ByteRecord::new(alloc);
    let mut last = None;
    let _ = reads(&mut rows, &mut fields);
    for _ in 0..u64::MAX {
        if !reads(&mut rows, &mut fields) {
            break;
        }
        last = number_of(fields.get(0).unwrap_or(&[]));
    }
    Ok(last)
}

/// The place of the first row whose first field is this number, the header among the rows.
pub fn place_of(alloc: Global, text: &[u8], number: u64) -> Result<Option<u64>, NoMemory> {
    let mut rows = rows_of(alloc, text);
    let mut fields = ByteRecord::new(alloc);
    for place in 0..u64::MAX {
        if !reads(&mut rows, &mut fields) {
            break;
        }
        if number_of(fields.get(0).unwrap_or(&[])) == Some(number) {
            return Ok(Some(place));
        }
    }
    Ok(None)
}

/// The number that a field is: one or more digits, at most 2^64 - 1.
pub fn number_of(field: &[u8]) -> Option<u64> {
    match cu_model::parse_number(field) {
        Some(cu_model::Number::Value(value)) => Some(value),
        _ => None,
    }
}

// The rows of a text, as the program reads them.
fn rows_of(alloc: Global, text: &[u8]) -> Reader<&[u8]> {
    ReaderBuilder::new()
        .has_headers(false)
        .flexible(true)
        .from_reader(alloc, text)
}

// Reads the next row, and answers whether there was one. An error of the reader ends them.
fn reads(rows: &mut Reader<&[u8]>, fields: &mut ByteRecord) -> bool {
    matches!(rows.read_byte_record(fields), Ok(true))
}

// The line of the first byte from here on that breaks no line. A line feed, a carriage return, and both behind each other
// are one break.
fn line_at(text: &[u8], begins: u64) -> u64 {
    let mut line = 1u64;
    let mut last = 0;
    for (place, byte) in text.iter().enumerate() {
        let breaks = *byte == b'\n' || *byte == b'\r';
        if place as u64 >= begins && !breaks {
            return line;
        }
        if breaks && !(*byte == b'\n' && last == b'\r') {
            line = line.saturating_add(1);
        }
        last = *byte;
    }
    line
}
