//! `build`: the packed file of a network's built hierarchy, stored.

ghost use Rattle.std.specs.Prelude.{None, false, map, string_bytes};
ghost use Rattle.cu_io.specs.Shelves.{ShelfState};
ghost use Rattle.cu_io.specs.Sources.{SourceState};
ghost use Rattle.cu_io.specs.Sinks.{WroteLine};
ghost use Rattle.cu_cli.specs.Commands.Build.{build_of, built_text};
ghost use Rattle.cu_cli.specs.Steps.Asks.{Parses, build_asked};
ghost use Rattle.cu_cli.specs.Steps.Loading.{OnlyLoads};
ghost use Rattle.cu_cli.specs.Steps.Outcomes.{Did, Works, stop_of, world_of};
ghost use Rattle.cu_cli.specs.Steps.Storing.{EndsBuilt};

use crate::preparing::prepare;
use crate::saying::put_numbers_line;
use crate::stops::{Role, Stop};
use crate::storing::store_file;
use crate::words::{OrderWord, TableNames, parse_order};
use cu_customize::customize_telling;
use cu_interval::{Hierarchy, Ways};
use cu_io::{Shelf, Sink, SinkFailed};
use cu_model::Roads;
use cu_pack::pack_telling;
use cu_progress::{Progress, Stage, begin};
use std::alloc::Global;

/// The tables of a network with its order, and the file that gets its packed hierarchy.
#[derive(Clone, Copy)]
pub struct BuildWords<'a> {
    pub tables: TableNames<'a>,
    pub order: OrderWord<'a>,
    pub out: &'a str,
}

/// What the words behind `build` name; none where they are not five.
pub fn parse(words: &[String]) -> Option<BuildWords<'_>>
    ensures { Parses build_asked (build_of (map string_bytes words.now)) result }
{
    let [nodes, roads, profiles, order, out] = words else {
        return None;
    };
    Some(BuildWords {
        tables: TableNames {
            nodes: nodes.as_str(),
            roads: roads.as_str(),
            profiles: profiles.as_str(),
        },
        order: parse_order(order.as_str()),
        out: out.as_str(),
    })
}

/// Builds the hierarchy of the tables, stores its packed file and says how many nodes, roads, edges and bytes it has.
/// Nothing is stored where the file has more bytes than the shelf loads. Nothing is taken from a source.
pub fn build<H: Shelf, K: Sink, P: Progress>(
    alloc: Global,
    asked: BuildWords<'_>,
    shelf: &mut H,
    sink: &mut K,
    progress: &mut P,
) -> Result<(), Stop>
    ensures works { (source : SourceState) → Works (build_asked asked.entry) (stop_of result)
        (world_of (H.state shelf.old) source (K.state sink.old))
        (world_of (H.state shelf.new) source (K.state sink.new)) }
{
    let prepared = prepare(alloc, asked.tables, asked.order, shelf, progress)?;
    let hierarchy = customize_telling(
        alloc,
        prepared.network,
        prepared.order,
        prepared.graph,
        progress,
    )?;
    store_built(alloc, asked.out, &hierarchy, shelf, sink, progress)
}

// Stores the packed file of a hierarchy and says it, where it hasn't more bytes than the shelf loads. Files may have been loaded
// before.
fn store_built<H: Shelf, K: Sink, P: Progress>(
    alloc: Global,
    out: &str,
    hierarchy: &Hierarchy,
    shelf: &mut H,
    sink: &mut K,
    progress: &mut P,
) -> Result<(), Stop>
    ensures did { (first : ShelfState) (source : SourceState)
        → OnlyLoads None first (H.state shelf.old)
        → Did false (stop_of result) (EndsBuilt out.now hierarchy.now)
        (world_of first source (K.state sink.old))
        (world_of (H.state shelf.new) source (K.state sink.new)) }
{
    let bytes = pack_telling(alloc, hierarchy, progress)?;
    let length = bytes.len() as u64;
    if length > shelf.limit() {
        return Err(Stop::TooLarge(length));
    }
    begin(progress, Stage::Storing);
    store_file(alloc, Role::Out, out, &bytes, shelf)?;
    begin(progress, Stage::Done);
    say_built(sink, hierarchy, length)?;
    Ok(())
}

// Says that the file of a hierarchy is stored, with so many bytes.
fn say_built<K: Sink>(sink: &mut K, hierarchy: &Hierarchy, bytes: u64) -> Result<(), SinkFailed>
    ensures wrote { WroteLine (K.state sink.old) (K.state sink.new) result
        (built_text hierarchy.now bytes) }
{
    let nodes = u64::from(hierarchy.nodes());
    let arcs = u64::from(hierarchy.arcs());
    let edges = u64::from(hierarchy.edges());
    put_numbers_line(sink, b"built", &[nodes, arcs, edges, bytes])
}
