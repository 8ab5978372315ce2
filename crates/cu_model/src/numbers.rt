//! Number words, as every table, script line and command word has them.

ghost use Rattle.std.specs.Prelude.{◌≡◌, ◌<◌, length, true};
ghost use Rattle.std.specs.List.{list_all};
ghost use Rattle.std.specs.Char.{is_ascii_digit};
ghost use Rattle.cu_model.specs.Numbers.{as_number, number_of, number_value};

use std::str;

/// The value of a number word of any length: itself, or only that it is 2^64 or more.
#[derive(Clone, Copy, PartialEq, Eq)]
pub enum Number {
    Value(u64),
    Huge,
}

/// Reads a number word, one or more ASCII digits and nothing else; leading zeros are allowed. `None` is any other word.
pub fn parse_number(word: &[u8]) -> Option<Number>
    ensures { result ≡ number_of word.now }
{
    if word.is_empty() {
        return None;
    }
    if !are_digits(word) {
        return None;
    }
    Some(parse_digits(word))
}

fn are_digits(word: &[u8]) -> bool
    ensures { result ≡ list_all is_ascii_digit word.now }
{
    word.iter().all(|byte| byte.is_ascii_digit())
}

fn parse_digits(word: &[u8]) -> Number
    requires some { 0 < length word.now }
    requires digits { list_all is_ascii_digit word.now ≡ true }
    ensures { result ≡ as_number (number_value word.now) }
{
    let Ok(text) = str::from_utf8(word) else {
        unreachable!()
    };
    match text.parse::<u64>() {
        Ok(value) => Number::Value(value),
        Err(_) => Number::Huge,
    }
}
