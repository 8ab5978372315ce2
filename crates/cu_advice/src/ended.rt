//! How a run ended, and what is said of it.

ghost use Rattle.std.specs.Prelude.{◌≡◌, ◌⊎◌, [], IfOk};
ghost use Rattle.cu_advice.specs.Texts.{IsAdvice};

use crate::endings::{
    advise_closed_graph, advise_difference, advise_input, advise_long_input, advise_memory,
    advise_output, advise_size,
};
use crate::network::advise_tables;
use crate::orders::advise_order;
use crate::packed::advise_packed;
use crate::shelf::advise_shelf;
use crate::texts::{Advice, spell};
use crate::words::advise_words;
use cu_model::NoMemory;
use std::alloc::Global;

/// How a run ended.
#[derive(Clone, Copy)]
pub struct Ended<'a> {
    /// Its status.
    pub status: u8,
    /// The words after the program's name; none where one of them is no text.
    pub words: Option<&'a [String]>,
    /// The last line on standard output, without its line feed.
    pub line: &'a str,
}

impl<'a> Ended<'a> {
    /// A word, counted from the command as 0.
    pub fn word(&self, place: usize) -> Option<&'a str> {
        match self.words?.get(place) {
            Some(word) => Some(word.as_str()),
            None => None,
        }
    }

    /// The command; empty where there is none.
    pub fn command(&self) -> &'a str {
        self.word(0).unwrap_or("")
    }
}

/// What advice looks up once more: the texts of the tables and of the order, each empty where it can't be read again, and what the
/// system says, empty where it says nothing.
#[derive(Drop)]
pub struct Texts {
    pub nodes: Vec<u8>,
    pub roads: Vec<u8>,
    pub profiles: Vec<u8>,
    pub order: Vec<u8>,
    pub reason: String,
}

impl Texts {
    /// None of them.
    pub fn none(alloc: Global) -> Texts {
        Texts {
            nodes: Vec::new(alloc),
            roads: Vec::new(alloc),
            profiles: Vec::new(alloc),
            order: Vec::new(alloc),
            reason: String::new(alloc),
        }
    }
}

/// What is said on standard error of a run that ended so: nothing at status 0, and else a line or two.
pub fn advise(alloc: Global, ended: Ended<'_>, texts: &Texts) -> Result<Vec<u8>, NoMemory>
    ensures done { ended.entry.status ≡ 0 → IfOk result (λ text. text.items ≡ []) }
    ensures lines { IfOk result (λ text. (text.items ≡ []) ⊎ IsAdvice text.items) }
{
    if ended.status == 0 {
        return Ok(Vec::new(alloc));
    }
    let advice = advice_of(alloc, ended, texts)?;
    spell(alloc, &advice)
}

fn advice_of(alloc: Global, ended: Ended<'_>, texts: &Texts) -> Result<Advice, NoMemory> {
    match ended.status {
        2 => advise_words(alloc, ended),
        3 => advise_shelf(alloc, ended, texts),
        4 => advise_tables(alloc, ended, texts),
        5 => advise_order(alloc, ended, texts),
        6 => advise_packed(alloc, ended),
        7 => advise_input(alloc, texts),
        8 => advise_output(alloc, texts),
        10 => advise_difference(alloc, ended),
        11 => advise_closed_graph(alloc, ended),
        12 => advise_long_input(alloc),
        13 => advise_size(alloc, ended),
        _ => advise_memory(alloc, ended, texts),
    }
}

/// What is said where there is no memory to say more.
pub fn brief(status: u8) -> &'static str {
    match status {
        2 => "catchup: no command takes these words. See: catchup --help\n",
        3 => "catchup: a file can't be read or stored\n",
        4 | 5 | 6 => "catchup: a file is refused, and the line on standard output says why\n",
        7 => "catchup: cannot read standard input\n",
        8 => "catchup: cannot write standard output\n",
        _ => "catchup: out of memory\n",
    }
}
