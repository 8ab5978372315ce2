//! `order`: the order of a network by dissection, stored.

ghost use Rattle.std.specs.Prelude.{map, string_bytes};
ghost use Rattle.cu_io.specs.Sources.{SourceState};
ghost use Rattle.cu_cli.specs.Commands.Order.{order_of};
ghost use Rattle.cu_cli.specs.Steps.Asks.{Parses, order_words_asked};
ghost use Rattle.cu_cli.specs.Steps.Outcomes.{Works, stop_of, world_of};

use crate::preparing::{STEPS, load_tables, read_tables};
use crate::saying::put_numbers_line;
use crate::stops::{Role, Stop};
use crate::storing::store_file;
use crate::words::TableNames;
use cu_dissect::dissect_telling;
use cu_io::{Shelf, Sink};
use cu_model::Roads;
use cu_order::write_order;
use cu_progress::{Progress, Stage, begin};
use std::alloc::Global;

/// The tables of a network, and the file that gets its order.
#[derive(Clone, Copy)]
pub struct OrderWords<'a> {
    pub tables: TableNames<'a>,
    pub out: &'a str,
}

/// What the words behind `order` name; none where they are not four.
pub fn parse(words: &[String]) -> Option<OrderWords<'_>>
    ensures { Parses order_words_asked (order_of (map string_bytes words.now)) result }
{
    let [nodes, roads, profiles, out] = words else {
        return None;
    };
    Some(OrderWords {
        tables: TableNames {
            nodes: nodes.as_str(),
            roads: roads.as_str(),
            profiles: profiles.as_str(),
        },
        out: out.as_str(),
    })
}

/// Dissects the network of the tables, stores its order and says of how many nodes it is. Nothing is taken from a
/// source.
pub fn order<H: Shelf, K: Sink, P: Progress>(
    alloc: Global,
    asked: OrderWords<'_>,
    shelf: &mut H,
    sink: &mut K,
    progress: &mut P,
) -> Result<(), Stop>
    ensures works { (source : SourceState) → Works (order_words_asked asked.entry) (stop_of result)
        (world_of (H.state shelf.old) source (K.state sink.old))
        (world_of (H.state shelf.new) source (K.state sink.new)) }
{
    progress.tell(Stage::Reading, 0, STEPS);
    let texts = load_tables(alloc, asked.tables, shelf)?;
    progress.tell(Stage::Reading, 1, STEPS);
    let (network, places) = read_tables(alloc, &texts)?;
    let (order, _splits) = dissect_telling(alloc, &network, &places, progress)?;
    let text = write_order(alloc, &order)?;
    begin(progress, Stage::Storing);
    store_file(alloc, Role::Out, asked.out, &text, shelf)?;
    begin(progress, Stage::Done);
    put_numbers_line(sink, b"ordered", &[u64::from(network.nodes())])?;
    Ok(())
}
