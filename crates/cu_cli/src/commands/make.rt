//! `make`: the tables of a grid network, stored.

ghost use Rattle.std.specs.Prelude.{map, string_bytes};
ghost use Rattle.cu_io.specs.Sources.{SourceState};
ghost use Rattle.cu_io.specs.Sinks.{WroteLine};
ghost use Rattle.cu_cli.specs.Commands.Make.{made_text, make_of, tables_made};
ghost use Rattle.cu_cli.specs.Steps.Asks.{Parses, grid_asked, make_asked, tables_asked};
ghost use Rattle.cu_cli.specs.Steps.Outcomes.{Works, stop_of, world_of};
ghost use Rattle.cu_cli.specs.Steps.Storing.{StoresInTurn};

use crate::saying::put_numbers_line;
use crate::stops::{Role, Stop};
use crate::storing::store_file;
use crate::words::{GridWords, TableNames, parse_grid};
use cu_io::{Shelf, Sink, SinkFailed};
use cu_roads::{Draws, GridTexts, grid, grid_roads};
use std::alloc::Global;

/// A grid, and the files that get its tables.
#[derive(Clone, Copy)]
pub struct MakeWords<'a> {
    pub grid: GridWords,
    pub tables: TableNames<'a>,
}

/// The grid and the files of the words behind `make`; none where they are not six, or the first three no grid.
pub fn parse(words: &[String]) -> Option<MakeWords<'_>>
    ensures { Parses make_asked (make_of (map string_bytes words.now)) result }
{
    let [start, width, height, nodes, roads, profiles] = words else {
        return None;
    };
    Some(MakeWords {
        grid: parse_grid(start.as_str(), width.as_str(), height.as_str())?,
        tables: TableNames {
            nodes: nodes.as_str(),
            roads: roads.as_str(),
            profiles: profiles.as_str(),
        },
    })
}

/// Stores the tables of a grid and says how many nodes, roads and profiles it has. Nothing is taken from a source.
pub fn make<H: Shelf, K: Sink>(
    alloc: Global,
    asked: MakeWords<'_>,
    shelf: &mut H,
    sink: &mut K,
) -> Result<(), Stop>
    ensures works { (source : SourceState) → Works (make_asked asked.entry) (stop_of result)
        (world_of (H.state shelf.old) source (K.state sink.old))
        (world_of (H.state shelf.new) source (K.state sink.new)) }
{
    let mut draws = Draws::new(asked.grid.start);
    let texts = grid(alloc, &mut draws, asked.grid.width, asked.grid.height)?;
    store_tables(alloc, asked.tables, &texts, shelf)?;
    say_made(sink, asked.grid)?;
    Ok(())
}

// Stores three tables in the order of their words.
fn store_tables<H: Shelf>(
    alloc: Global,
    tables: TableNames<'_>,
    texts: &GridTexts,
    shelf: &mut H,
) -> Result<(), Stop>
    ensures stores { StoresInTurn (H.state shelf.old) (H.state shelf.new)
        (tables_made (tables_asked tables.entry) texts.now) result }
{
    store_file(alloc, Role::Nodes, tables.nodes, &texts.nodes, shelf)?;
    store_file(alloc, Role::Roads, tables.roads, &texts.roads, shelf)?;
    store_file(
        alloc,
        Role::Profiles,
        tables.profiles,
        &texts.profiles,
        shelf,
    )
}

// Says that the tables of a grid are stored.
fn say_made<K: Sink>(sink: &mut K, size: GridWords) -> Result<(), SinkFailed>
    ensures wrote { WroteLine (K.state sink.old) (K.state sink.new) result
        (made_text (grid_asked size)) }
{
    let nodes = u64::from(size.width * size.height);
    let roads = u64::from(grid_roads(size.width, size.height));
    put_numbers_line(sink, b"made", &[nodes, roads, 64])
}
