//! What a command over measured profiles prepares before its work: profiles in pieces which stand for them, and the other
//! tables read with these. Their points are kept beside.

ghost use Rattle.std.specs.Prelude.{IfOk, IfErr};
ghost use Rattle.cu_chordal.specs.Edges.{IsClosureOf};
ghost use Rattle.cu_cli.specs.PreparingWaiting.{StopsWaiting};
ghost use Rattle.cu_cli.specs.Steps.Asks.{order_asked, tables_asked};
ghost use Rattle.cu_cli.specs.Steps.Loading.{OnlyLoads};
ghost use Rattle.cu_cli.specs.Steps.Measuring.{HasPreparedMeasured, IsReadMeasured, StopsReadingMeasured};
ghost use Rattle.cu_cli.specs.Steps.Outcomes.{IsBeforeScript, IsRefusal, stop_of};

use crate::preparing::{
    OrderGiven, Prepared, STEPS, TableTexts, close_read, load_order, load_tables,
};
use crate::stops::Stop;
use crate::words::{OrderWord, TableNames};
use cu_io::Shelf;
use cu_progress::{Progress, Stage};
use cu_roads::read_roads;
use cu_wait::{MeasuredProfile, ReadProfiles, read_with_points};
use std::alloc::Global;

/// What is prepared of tables whose profiles are measured: the network in pieces that stand for these, and their points.
#[derive(Drop)]
pub struct PreparedWaiting {
    pub prepared: Prepared,
    pub measured: Vec<MeasuredProfile>,
}

/// Loads the tables, of which that of the profiles is measured, and the order; reads and converts the measured profiles,
/// and then reads the other texts; and closes the graph.
pub fn prepare_measured<H: Shelf, P: Progress>(
    alloc: Global,
    tables: TableNames<'_>,
    order: OrderWord<'_>,
    shelf: &mut H,
    progress: &mut P,
) -> Result<PreparedWaiting, Stop>
    ensures ok { IfOk result
        (HasPreparedMeasured (H.state shelf.old) (tables_asked tables.entry) (order_asked order.entry)) }
    ensures closed { IfOk result (λ ready.
        IsClosureOf ready.prepared.network ready.prepared.order ready.prepared.graph) }
    ensures err { IfErr result (StopsWaiting (H.state shelf.old) (H.state shelf.new)
        (tables_asked tables.entry) (order_asked order.entry)) }
    ensures before { IfErr result IsBeforeScript }
    ensures loads { OnlyLoads (stop_of result) (H.state shelf.old) (H.state shelf.new) }
{
    progress.tell(Stage::Reading, 0, STEPS);
    let texts = load_tables(alloc, tables, shelf)?;
    let given = load_order(alloc, order, shelf)?;
    read_converted(alloc, texts, &given, progress)
}

// The network of the tables, its order, and the graph closed under it, once the measured profiles are converted. Their text is
// let go as soon as it is read.
fn read_converted<P: Progress>(
    alloc: Global,
    texts: TableTexts,
    given: &OrderGiven,
    progress: &mut P,
) -> Result<PreparedWaiting, Stop>
    ensures ok { IfOk result (IsReadMeasured texts given.now) }
    ensures closed { IfOk result (λ ready.
        IsClosureOf ready.prepared.network ready.prepared.order ready.prepared.graph) }
    ensures err { IfErr result (StopsReadingMeasured texts given.now) }
    ensures before { IfErr result IsRefusal }
{
    let TableTexts {
        nodes,
        roads,
        profiles: text,
    } = texts;
    let read = read_with_points(alloc, &text, progress)?;
    drop(text);
    let ReadProfiles { profiles, measured } = read;
    progress.tell(Stage::Reading, 1, STEPS);
    let (network, places) = read_roads(alloc, &nodes, &roads, profiles)?;
    let prepared = close_read(alloc, network, &places, given, progress)?;
    Ok(PreparedWaiting { prepared, measured })
}
