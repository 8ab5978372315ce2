//! `serve`: the queries and edits of the source answered over a network.

ghost use Rattle.std.specs.Prelude.{IfOk, IfErr, map, string_bytes};
ghost use Rattle.cu_interval.specs.Hierarchies.{HierarchyValue};
ghost use Rattle.cu_pack.specs.Checks.{Spells};
ghost use Rattle.cu_cli.specs.Commands.Serve.{serve_of};
ghost use Rattle.cu_cli.specs.Preparing.{StopsPreparing};
ghost use Rattle.cu_cli.specs.Steps.Asks.{Parses, order_asked, serve_asked, tables_asked};
ghost use Rattle.cu_cli.specs.Steps.Loading.{HasBuilt, OnlyLoads};
ghost use Rattle.cu_cli.specs.Steps.Outcomes.{IsBeforeScript, Works, stop_of, world_of};

use crate::manner::Manner;
use crate::preparing::{pack_prepared, prepare};
use crate::stops::Stop;
use crate::words::{OrderWord, TableNames, parse_order};
use cu_io::{Shelf, Sink, Source};
use cu_progress::{Progress, Stage, begin};
use cu_session::answer_built;
use std::alloc::Global;

/// The tables of a network, and its order.
#[derive(Clone, Copy)]
pub struct ServeWords<'a> {
    pub tables: TableNames<'a>,
    pub order: OrderWord<'a>,
}

/// What the words behind `serve` name; none where they are not four.
pub fn parse(words: &[String]) -> Option<ServeWords<'_>>
    ensures { Parses serve_asked (serve_of (map string_bytes words.now)) result }
{
    let [nodes, roads, profiles, order] = words else {
        return None;
    };
    Some(ServeWords {
        tables: TableNames {
            nodes: nodes.as_str(),
            roads: roads.as_str(),
            profiles: profiles.as_str(),
        },
        order: parse_order(order.as_str()),
    })
}

/// Packs the built hierarchy of the tables, and answers the script of the source over its bytes. All that a query needs
/// is made before the first reply; an edit takes memory of its own.
pub fn serve<H: Shelf, S: Source, K: Sink, P: Progress>(
    alloc: Global,
    asked: ServeWords<'_>,
    shelf: &mut H,
    source: &mut S,
    sink: &mut K,
    manner: Manner<'_, P>,
) -> Result<(), Stop>
    ensures works { Works (serve_asked asked.entry) (stop_of result)
        (world_of (H.state shelf.old) (S.state source.old) (K.state sink.old))
        (world_of (H.state shelf.new) (S.state source.new) (K.state sink.new)) }
{
    let Manner { progress, room } = manner;
    let bytes = pack_tables(alloc, asked, shelf, progress)?;
    begin(progress, Stage::Done);
    answer_built(alloc, bytes, room, source, sink)?;
    Ok(())
}

// The packed bytes of the built hierarchy of the tables.
fn pack_tables<H: Shelf, P: Progress>(
    alloc: Global,
    asked: ServeWords<'_>,
    shelf: &mut H,
    progress: &mut P,
) -> Result<Vec<u8>, Stop>
    ensures ok { IfOk result (λ bytes. (h : HierarchyValue)
        × HasBuilt (H.state shelf.old) (tables_asked asked.entry.tables) (order_asked asked.entry.order) h × Spells bytes.items h) }
    ensures err { IfErr result (StopsPreparing (H.state shelf.old) (H.state shelf.new)
        (tables_asked asked.entry.tables) (order_asked asked.entry.order)) }
    ensures before { IfErr result IsBeforeScript }
    ensures loads { OnlyLoads (stop_of result) (H.state shelf.old) (H.state shelf.new) }
{
    let prepared = prepare(alloc, asked.tables, asked.order, shelf, progress)?;
    Ok(pack_prepared(alloc, prepared, progress)?)
}
