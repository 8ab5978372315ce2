//! `wait`: the queries and edits of the source answered over a network whose profiles are measured.

ghost use Rattle.std.specs.Prelude.{IfOk, IfErr, map, string_bytes};
ghost use Rattle.cu_interval.specs.Hierarchies.{HierarchyValue};
ghost use Rattle.cu_pack.specs.Checks.{Spells};
ghost use Rattle.cu_cli.specs.Commands.Wait.{wait_of};
ghost use Rattle.cu_cli.specs.PreparingWaiting.{StopsWaiting};
ghost use Rattle.cu_cli.specs.Steps.Asks.{Parses, order_asked, tables_asked, wait_asked};
ghost use Rattle.cu_cli.specs.Steps.Loading.{OnlyLoads};
ghost use Rattle.cu_cli.specs.Steps.Measuring.{HasBuiltMeasured};
ghost use Rattle.cu_cli.specs.Steps.Outcomes.{IsBeforeScript, Works, stop_of, world_of};

use crate::manner::Manner;
use crate::measuring::{PreparedWaiting, prepare_measured};
use crate::preparing::pack_prepared;
use crate::stops::Stop;
use crate::words::{OrderWord, TableNames, parse_order};
use cu_io::{Shelf, Sink, Source};
use cu_progress::{Progress, Stage, begin};
use cu_session::answer_waiting;
use cu_wait::MeasuredProfile;
use std::alloc::Global;

/// The tables of a network, of which that of the profiles is measured, and its order.
#[derive(Clone, Copy)]
pub struct WaitWords<'a> {
    pub tables: TableNames<'a>,
    pub order: OrderWord<'a>,
}

// The packed bytes of a hierarchy over pieces that stand for measured profiles, and the points of these.
#[derive(Drop)]
struct PackedWaiting {
    bytes: Vec<u8>,
    measured: Vec<MeasuredProfile>,
}

/// What the words behind `wait` name; none where they are not four.
pub fn parse(words: &[String]) -> Option<WaitWords<'_>>
    ensures { Parses wait_asked (wait_of (map string_bytes words.now)) result }
{
    let [nodes, roads, measured, order] = words else {
        return None;
    };
    Some(WaitWords {
        tables: TableNames {
            nodes: nodes.as_str(),
            roads: roads.as_str(),
            profiles: measured.as_str(),
        },
        order: parse_order(order.as_str()),
    })
}

/// Packs the built hierarchy of the tables, once the measured profiles are converted to those that arrive when whoever
/// waits best does, and answers the script of the source over its bytes. All that a query needs is made before the first
/// reply; an edit takes memory of its own, and one that sets a profile puts its pieces in the place of what was measured.
pub fn wait<H: Shelf, S: Source, K: Sink, P: Progress>(
    alloc: Global,
    asked: WaitWords<'_>,
    shelf: &mut H,
    source: &mut S,
    sink: &mut K,
    manner: Manner<'_, P>,
) -> Result<(), Stop>
    ensures works { Works (wait_asked asked.entry) (stop_of result)
        (world_of (H.state shelf.old) (S.state source.old) (K.state sink.old))
        (world_of (H.state shelf.new) (S.state source.new) (K.state sink.new)) }
{
    let Manner { progress, room } = manner;
    let packed = pack_measured(alloc, asked, shelf, progress)?;
    begin(progress, Stage::Done);
    answer_waiting(alloc, packed.bytes, packed.measured, room, source, sink)?;
    Ok(())
}

// The packed bytes of the built hierarchy of the converted network, and the points of the measured profiles.
fn pack_measured<H: Shelf, P: Progress>(
    alloc: Global,
    asked: WaitWords<'_>,
    shelf: &mut H,
    progress: &mut P,
) -> Result<PackedWaiting, Stop>
    ensures ok { IfOk result (λ packed. (h : HierarchyValue)
        × HasBuiltMeasured (H.state shelf.old) (tables_asked asked.entry.tables)
        (order_asked asked.entry.order) packed.measured.items h
        × Spells packed.bytes.items h) }
    ensures err { IfErr result (StopsWaiting (H.state shelf.old) (H.state shelf.new)
        (tables_asked asked.entry.tables) (order_asked asked.entry.order)) }
    ensures before { IfErr result IsBeforeScript }
    ensures loads { OnlyLoads (stop_of result) (H.state shelf.old) (H.state shelf.new) }
{
    let ready = prepare_measured(alloc, asked.tables, asked.order, shelf, progress)?;
    let PreparedWaiting { prepared, measured } = ready;
    let bytes = pack_prepared(alloc, prepared, progress)?;
    Ok(PackedWaiting { bytes, measured })
}
