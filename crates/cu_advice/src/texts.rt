//! Texts of advice, of fields and of times of day.

ghost use Rattle.std.specs.Prelude.{◌≤◌, All, IfOk, OnOk};
ghost use Rattle.cu_advice.specs.Texts.{AddsLine, IsAdvice};

use cu_model::NoMemory;
use std::alloc::Global;

// How many bytes of a field are shown.
const SHOWN: usize = 60;

/// What is said: a line, and another one where `second` isn't empty.
#[derive(Drop)]
pub struct Advice {
    pub first: String,
    pub second: String,
}

impl Advice {
    /// Advice of one line.
    pub fn of(alloc: Global, first: String) -> Advice {
        Advice {
            first,
            second: String::new(alloc),
        }
    }
}

/// The text of advice. In the place of each byte that isn't printable stands a question mark.
pub fn spell(alloc: Global, advice: &Advice) -> Result<Vec<u8>, NoMemory>
    ensures { IfOk result (λ text. IsAdvice text.items) }
{
    let mut text = Vec::new(alloc);
    add_line(alloc, &mut text, advice.first.as_str())?;
    if !advice.second.is_empty() {
        add_line(alloc, &mut text, advice.second.as_str())?;
    }
    Ok(text)
}

// Adds a line to a text, and the program's name before it.
fn add_line(alloc: Global, text: &mut Vec<u8>, line: &str) -> Result<(), NoMemory>
    ensures { OnOk result (AddsLine text.old.items text.new.items) }
{
    let line = printable(alloc, line)?;
    text.extend_from_slice(&line)?;
    text.push(b'\n')?;
    Ok(())
}

// The program's name and a line behind it.
fn printable(alloc: Global, line: &str) -> Result<Vec<u8>, NoMemory>
    ensures { IfOk result (λ bytes. All (λ byte. 32 ≤ byte) bytes.items) }
{
    let mut bytes = Vec::from_slice(alloc, b"catchup: ")?;
    for byte in line.as_bytes() {
        bytes.push(printed(*byte))?;
    }
    Ok(bytes)
}

fn printed(byte: u8) -> u8
    ensures { 32 ≤ result }
{
    if byte < b' ' || byte == 127 {
        b'?'
    } else {
        byte
    }
}

/// A field as it is shown: cut where it is long, and `empty` where it has no bytes.
pub fn shown(alloc: Global, field: &[u8]) -> Result<String, NoMemory> {
    if field.is_empty() {
        return Ok(String::from_str(alloc, "empty")?);
    }
    let front = front_of(field);
    let mut text = String::from_utf8_lossy(alloc, front)?;
    if front.len() < field.len() {
        text.push_str("..")?;
    }
    Ok(text)
}

// The first bytes of a field.
fn front_of(field: &[u8]) -> &[u8] {
    field.get(..SHOWN).unwrap_or(field)
}

/// A second of the day as a time.
pub fn clock(alloc: Global, second: u64) -> Result<String, NoMemory> {
    let hours = second / 3600;
    let minutes = second / 60 % 60;
    let seconds = second % 60;
    Ok(format!(in alloc; "{hours:02}:{minutes:02}:{seconds:02}")?)
}

/// The word of a line at a place, counted from 0; empty where there are not so many.
pub fn word(line: &str, place: usize) -> &str {
    line.split(' ').nth(place).unwrap_or("")
}

/// The number of a line at a place; 0 where none stands there.
pub fn number(line: &str, place: usize) -> u64 {
    word(line, place).parse::<u64>().unwrap_or(0)
}
