//! What words of commands ask for: files by their names, an order, the size of a grid.

ghost use Rattle.std.specs.Prelude.{◌≡◌, ◌≤◌, IfSome};
ghost use Rattle.cu_roads.specs.Grids.{IsSide};
ghost use Rattle.cu_roads.specs.declared.grids.TheConstants.{MAX_SIDE};
ghost use Rattle.cu_cli.specs.Steps.Asks.{AsksForGrid, order_asked};
ghost use Rattle.cu_cli.specs.Words.{grid_of, number_within, order_of_word};

use cu_model::{Number, parse_number};
use cu_roads::MAX_SIDE;

mod grid;

pub use grid::GridWords;

/// The order that a word asks for.
#[derive(Clone, Copy)]
pub enum OrderWord<'a> {
    /// Each node is its own rank.
    Identity,
    /// The order follows from the places and the roads by dissection.
    Dissected,
    /// A file of this name has the order.
    Named(&'a str),
}

/// The files of a network's tables, by their names.
#[derive(Clone, Copy)]
pub struct TableNames<'a> {
    pub nodes: &'a str,
    pub roads: &'a str,
    pub profiles: &'a str,
}

/// The order of a word.
pub fn parse_order(word: &str) -> OrderWord<'_>
    ensures { order_of_word word.now ≡ order_asked result }
{
    match word {
        "identity" => OrderWord::Identity,
        "dissect" => OrderWord::Dissected,
        name => OrderWord::Named(name),
    }
}

/// The grid of three number words; none where one of them is no number of its range.
pub fn parse_grid(start: &str, width: &str, height: &str) -> Option<GridWords>
    ensures { AsksForGrid (grid_of start.now width.now height.now) result }
{
    let start = parse_within(start, 0, u64::MAX)?;
    let width = parse_side(width)?;
    let height = parse_side(height)?;
    Some(GridWords {
        start,
        width,
        height,
    })
}

// How many nodes a grid is wide or high.
fn parse_side(word: &str) -> Option<u32>
    ensures value { result ≡ number_within 1 MAX_SIDE word.now }
    ensures side { IfSome result IsSide }
{
    let side = parse_within(word, 1, u64::from(MAX_SIDE))?;
    Some(side as u32)
}

/// The value of a number word, where it is in a range.
pub fn parse_within(word: &str, least: u64, most: u64) -> Option<u64>
    ensures value { result ≡ number_within least most word.now }
    ensures least { IfSome result (λ value. least ≤ value) }
    ensures most { IfSome result (λ value. value ≤ most) }
{
    let Some(Number::Value(value)) = parse_number(word.as_bytes()) else {
        return None;
    };
    if value < least || most < value {
        return None;
    }
    Some(value)
}
