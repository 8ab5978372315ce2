//! What a row of the tests asks.

use cu_advice::{Ended, Texts, advise};
use cu_model::NoMemory;
use std::alloc::Global;

/// A run that ended: its status, its words with a blank between two, and its last line; and what is said of it.
pub type Row = (u8, &'static str, &'static str, &'static str);

/// The texts that rows go by.
#[derive(Clone, Copy)]
pub struct Given {
    pub nodes: &'static str,
    pub roads: &'static str,
    pub profiles: &'static str,
    pub order: &'static str,
    pub reason: &'static str,
}

/// No texts.
pub const NOTHING: Given = Given {
    nodes: "",
    roads: "",
    profiles: "",
    order: "",
    reason: "",
};

fn bytes_of(alloc: Global, text: &str) -> Result<Vec<u8>, NoMemory> {
    Ok(Vec::from_slice(alloc, text.as_bytes())?)
}

fn texts_of(alloc: Global, given: &Given) -> Result<Texts, NoMemory> {
    Ok(Texts {
        nodes: bytes_of(alloc, given.nodes)?,
        roads: bytes_of(alloc, given.roads)?,
        profiles: bytes_of(alloc, given.profiles)?,
        order: bytes_of(alloc, given.order)?,
        reason: String::from_str(alloc, given.reason)?,
    })
}

// The words of a text with a blank between two; none of an empty one.
fn words_of(alloc: Global, text: &str) -> Result<Vec<String>, NoMemory> {
    let mut words = Vec::new(alloc);
    for word in text.split(' ') {
        if !text.is_empty() {
            words.push(String::from_str(alloc, word)?)?;
        }
    }
    Ok(words)
}

// A run over these words that ended so.
fn ended_so<'a>(status: u8, words: &'a [String], line: &'a str) -> Ended<'a> {
    let words = Some(words);
    Ended {
        status,
        words,
        line,
    }
}

/// Whether this is said of a run that ended so.
pub fn is_said(alloc: Global, given: &Given, row: Row) -> Result<bool, NoMemory> {
    let (status, words, line, said) = row;
    let words = words_of(alloc, words)?;
    let texts = texts_of(alloc, given)?;
    let ended = ended_so(status, &words, line);
    let advice = advise(alloc, ended, &texts)?;
    Ok(advice.as_slice() == said.as_bytes())
}

/// The number of the first row that isn't so; how many there are, where each is.
pub fn first_other(alloc: Global, given: &Given, rows: &[Row]) -> Result<usize, NoMemory> {
    for (number, row) in rows.iter().enumerate() {
        if !is_said(alloc, given, *row)? {
            return Ok(number);
        }
    }
    Ok(rows.len())
}
