//! Words that no command takes.

use crate::commands::{COMMANDS, names_behind};
use crate::ended::Ended;
use crate::texts::Advice;
use cu_model::{NoMemory, Number, parse_number};
use cu_roads::MAX_SIDE;
use std::alloc::Global;
use strsim::osa_distance;

// The most queries of a trial.
const MAX_TURNS: u64 = 1_000_000;

// How many slips of the keyboard a misspelt command may have.
const SLIPS: usize = 2;

/// What is said of words that no command takes.
pub fn advise_words(alloc: Global, ended: Ended<'_>) -> Result<Advice, NoMemory> {
    let Some(words) = ended.words else {
        let first = format!(in alloc; "a word is no text in UTF-8. See: catchup --help")?;
        return Ok(Advice::of(alloc, first));
    };
    if words.is_empty() {
        let first = format!(in alloc; "there is no command. See: catchup --help")?;
        return Ok(Advice::of(alloc, first));
    }
    match names_behind(ended.command()) {
        None => advise_command(alloc, ended.command()),
        Some(names) => advise_behind(alloc, ended, names, words.len() - 1),
    }
}

// What is said of a word that is no command.
fn advise_command(alloc: Global, word: &str) -> Result<Advice, NoMemory> {
    let first = match nearest(alloc, word)? {
        Some(near) => format!(in alloc;
            "{word} is no command; the nearest is {near}. See: catchup --help"
        )?,
        None => format!(in alloc; "{word} is no command. See: catchup --help")?,
    };
    Ok(Advice::of(alloc, first))
}

// The first of the commands that the fewest slips make of a word, where there are few.
fn nearest(alloc: Global, word: &str) -> Result<Option<&'static str>, NoMemory> {
    let mut best = None;
    let mut least = SLIPS + 1;
    for (name, _) in &COMMANDS {
        let slips = osa_distance(alloc, word, *name)?;
        if slips < least {
            best = Some(*name);
            least = slips;
        }
    }
    Ok(best)
}

// What is said of the words behind a command.
fn advise_behind(
    alloc: Global,
    ended: Ended<'_>,
    names: &str,
    count: usize,
) -> Result<Advice, NoMemory> {
    let wanted = names.split(' ').count();
    if count == wanted {
        return advise_numbers(alloc, ended, names);
    }
    let command = ended.command();
    let plural = if wanted == 1 { "word" } else { "words" };
    let were = if count == 1 { "was" } else { "were" };
    let first = format!(in alloc;
        "{command} takes {names} ({wanted} {plural}), and there {were} {count}. See: catchup --help"
    )?;
    Ok(Advice::of(alloc, first))
}

// What is said of a word that has to be a number.
fn advise_numbers(alloc: Global, ended: Ended<'_>, names: &str) -> Result<Advice, NoMemory> {
    for (place, name) in names.split(' ').enumerate() {
        let word = ended.word(place.saturating_add(1)).unwrap_or("");
        let (least, most) = range_of(name);
        if most > 0 && !is_within(word, least, most) {
            let command = ended.command();
            let first = format!(in alloc;
                "{command}: {name} is a whole number from {least} to {most}, and here it is {word}. See: catchup --help"
            )?;
            return Ok(Advice::of(alloc, first));
        }
    }
    let first = format!(in alloc; "these words are no command's. See: catchup --help")?;
    Ok(Advice::of(alloc, first))
}

// The range of a word that is a number; else the greatest is 0.
fn range_of(name: &str) -> (u64, u64) {
    match name {
        "START" => (0, u64::MAX),
        "W" | "H" => (1, u64::from(MAX_SIDE)),
        "K" => (0, MAX_TURNS),
        _ => (0, 0),
    }
}

fn is_within(word: &str, least: u64, most: u64) -> bool {
    match parse_number(word.as_bytes()) {
        Some(Number::Value(value)) => least <= value && value <= most,
        _ => false,
    }
}
