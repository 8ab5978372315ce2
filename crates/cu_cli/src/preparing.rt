//! What a command prepares before its work: its files loaded, their texts read, and the graph closed. Whatever is
//! refused stops the run.

ghost use Rattle.std.specs.Prelude.{◌≡◌, ◌≤◌, ◌<◌, ℕ, Some, Ok, IfOk, IfErr, length, slice_get};
ghost use Rattle.cu_chordal.specs.Edges.{IsClosureOf};
ghost use Rattle.cu_interval.specs.Hierarchies.{HierarchyValue, IsBuilt};
ghost use Rattle.cu_pack.specs.Checks.{Spells};
ghost use Rattle.cu_dissect.specs.Dissection.{dissected};
ghost use Rattle.cu_model.specs.Networks.{IsNetwork};
ghost use Rattle.cu_model.specs.Orders.{IsOrder};
ghost use Rattle.cu_model.specs.declared.limits.TheConstants.{MAX_NODES};
ghost use Rattle.cu_cli.specs.Preparing.{AreLoaded, HasFewEdges, IsLoaded, IsOrderGiven, IsOrderOf, StopsLoad, StopsLoading, StopsNetwork, StopsOrder, StopsPreparing};
ghost use Rattle.cu_cli.specs.Steps.Asks.{order_asked, tables_asked};
ghost use Rattle.cu_cli.specs.Steps.Loading.{HasPrepared, IsGivenBy, IsReadFrom, OnlyLoads, RefusesOrder, StopsReading, named_by, order_kind, order_texts, table_texts};
ghost use Rattle.cu_cli.specs.Steps.Outcomes.{IsBeforeScript, IsRefusal, stop_of};
ghost use Rattle.cu_cli.specs.Words.{network_files, order_files};

use crate::stops::{Role, Stop};
use crate::words::{OrderWord, TableNames};
use cu_chordal::{Chordal, close};
use cu_customize::customize_telling;
use cu_dissect::dissect_telling;
use cu_io::{LoadFailed, Shelf};
use cu_model::{Network, NoMemory, Order, Roads};
use cu_order::{OrderRefusal, read_order};
use cu_pack::pack_telling;
use cu_progress::{Progress, Stage, begin};
use cu_roads::{Places, read_network};
use std::alloc::Global;

/// The texts of a network's tables.
#[derive(Drop)]
pub struct TableTexts {
    pub nodes: Vec<u8>,
    pub roads: Vec<u8>,
    pub profiles: Vec<u8>,
}

/// What gives the order of a network's nodes.
#[derive(Drop)]
pub enum OrderGiven {
    /// Each node is its own rank.
    Identity,
    /// The order follows from the places and the roads by dissection.
    Dissected,
    /// The bytes of a file have the order.
    Text(Vec<u8>),
}

/// A network, an order of its nodes, and the graph closed under this order.
#[derive(Drop)]
pub struct Prepared {
    pub network: Network,
    pub order: Order,
    pub graph: Chordal,
}

/// In how many steps tables are read, as they are told: they are loaded, and then their texts are read.
pub const STEPS: u64 = 2;

/// Loads the tables and the order, reads them, and closes the graph.
pub fn prepare<H: Shelf, P: Progress>(
    alloc: Global,
    tables: TableNames<'_>,
    order: OrderWord<'_>,
    shelf: &mut H,
    progress: &mut P,
) -> Result<Prepared, Stop>
    ensures ok { IfOk result
        (HasPrepared (H.state shelf.old) (tables_asked tables.entry) (order_asked order.entry)) }
    ensures closed { IfOk result
        (λ prepared. IsClosureOf prepared.network prepared.order prepared.graph) }
    ensures err { IfErr result (StopsPreparing (H.state shelf.old) (H.state shelf.new)
        (tables_asked tables.entry) (order_asked order.entry)) }
    ensures before { IfErr result IsBeforeScript }
    ensures loads { OnlyLoads (stop_of result) (H.state shelf.old) (H.state shelf.new) }
{
    progress.tell(Stage::Reading, 0, STEPS);
    let texts = load_tables(alloc, tables, shelf)?;
    let given = load_order(alloc, order, shelf)?;
    read_prepared(alloc, &texts, &given, progress)
}

/// Loads the tables of a network, in the order of their words.
pub fn load_tables<H: Shelf>(
    alloc: Global,
    tables: TableNames<'_>,
    shelf: &mut H,
) -> Result<TableTexts, Stop>
    ensures ok { IfOk result (λ texts. AreLoaded (H.state shelf.old)
        (network_files (tables_asked tables.entry)) (table_texts texts)) }
    ensures err { IfErr result (StopsLoading (H.state shelf.old) (H.state shelf.new)
        (network_files (tables_asked tables.entry))) }
    ensures before { IfErr result IsBeforeScript }
    ensures loads { OnlyLoads (stop_of result) (H.state shelf.old) (H.state shelf.new) }
{
    let nodes = load_file(alloc, Role::Nodes, tables.nodes, shelf)?;
    let roads = load_file(alloc, Role::Roads, tables.roads, shelf)?;
    let profiles = load_file(alloc, Role::Profiles, tables.profiles, shelf)?;
    Ok(TableTexts {
        nodes,
        roads,
        profiles,
    })
}

/// What gives the order, with the bytes of its file where a file has it.
pub fn load_order<H: Shelf>(
    alloc: Global,
    order: OrderWord<'_>,
    shelf: &mut H,
) -> Result<OrderGiven, Stop>
    ensures ok { IfOk result (λ given. AreLoaded (H.state shelf.old)
        (order_files (order_asked order.entry)) (order_texts given)) }
    ensures given { IfOk result (IsGivenBy (order_asked order.entry)) }
    ensures err { IfErr result (StopsLoading (H.state shelf.old) (H.state shelf.new)
        (order_files (order_asked order.entry))) }
    ensures before { IfErr result IsBeforeScript }
    ensures loads { OnlyLoads (stop_of result) (H.state shelf.old) (H.state shelf.new) }
{
    match order {
        OrderWord::Identity => Ok(OrderGiven::Identity),
        OrderWord::Dissected => Ok(OrderGiven::Dissected),
        OrderWord::Named(name) => {
            let text = load_file(alloc, Role::Order, name, shelf)?;
            Ok(OrderGiven::Text(text))
        }
    }
}

/// The bytes of the file under a role's word.
pub fn load_file<H: Shelf>(
    alloc: Global,
    role: Role,
    name: &str,
    shelf: &mut H,
) -> Result<Vec<u8>, Stop>
    ensures ok { IfOk result (λ bytes.
        IsLoaded (H.state shelf.old) (record { role = role; name = name.now }) bytes.items) }
    ensures err { IfErr result (StopsLoad (H.state shelf.old) (H.state shelf.new)
        (record { role = role; name = name.now })) }
    ensures before { IfErr result IsBeforeScript }
    ensures loads { OnlyLoads (stop_of result) (H.state shelf.old) (H.state shelf.new) }
{
    let mut bytes = Vec::new(alloc);
    match shelf.load(alloc, name, &mut bytes) {
        Ok(()) => Ok(bytes),
        Err(LoadFailed::Fault) => Err(Stop::Fault(role)),
        Err(LoadFailed::TooLong) => Err(Stop::TooLong(role)),
        Err(LoadFailed::NoMemory) => Err(Stop::NoMemory),
    }
}

/// The network of the tables, and the places of its nodes.
pub fn read_tables(alloc: Global, texts: &TableTexts) -> Result<(Network, Places), Stop>
    ensures ok { IfOk result (λ read. named_by texts.now
        ≡ Ok (record { network = read.0; places = read.1 })) }
    ensures places { IfOk result (λ read. length read.1 ≡ read.0.nodes) }
    ensures sound { IfOk result (λ read. IsNetwork read.0) }
    ensures err { IfErr result (StopsNetwork (named_by texts.now)) }
    ensures before { IfErr result IsRefusal }
{
    Ok(read_network(alloc, &texts.nodes, &texts.roads, &texts.profiles)?)
}

/// The network of the tables, its order, and the graph closed under it.
pub fn read_prepared<P: Progress>(
    alloc: Global,
    texts: &TableTexts,
    given: &OrderGiven,
    progress: &mut P,
) -> Result<Prepared, Stop>
    ensures ok { IfOk result (IsReadFrom texts.now given.now) }
    ensures closed { IfOk result
        (λ prepared. IsClosureOf prepared.network prepared.order prepared.graph) }
    ensures err { IfErr result (StopsReading texts.now given.now) }
    ensures before { IfErr result IsRefusal }
{
    progress.tell(Stage::Reading, 1, STEPS);
    let (network, places) = read_tables(alloc, texts)?;
    close_read(alloc, network, &places, given, progress)
}

/// A network that was read with the places of its nodes, the order that is given, and the graph closed under it.
pub fn close_read<P: Progress>(
    alloc: Global,
    network: Network,
    places: &Places,
    given: &OrderGiven,
    progress: &mut P,
) -> Result<Prepared, Stop>
    requires places { length places.now ≡ network.nodes }
    ensures network { IfOk result (λ prepared. prepared.network ≡ network) }
    ensures order { IfOk result (λ prepared. IsOrderOf (order_kind given.now)
        (record { network = network; places = places.now }) (order_texts given.now) prepared.order) }
    ensures few { IfOk result (λ prepared. HasFewEdges network prepared.order) }
    ensures closed { IfOk result
        (λ prepared. IsClosureOf prepared.network prepared.order prepared.graph) }
    ensures err { IfErr result (StopsOrder (order_kind given.now)
        (record { network = network; places = places.now }) (order_texts given.now)) }
    ensures before { IfErr result IsRefusal }
{
    let order = make_order(alloc, given, &network, places, progress)?;
    begin(progress, Stage::Closing);
    let graph = close(alloc, &network, &order)?;
    Ok(Prepared {
        network,
        order,
        graph,
    })
}

/// The packed file of the built hierarchy of what is prepared. The hierarchy itself is let go.
pub fn pack_prepared<P: Progress>(
    alloc: Global,
    prepared: Prepared,
    progress: &mut P,
) -> Result<Vec<u8>, NoMemory>
    requires count { length prepared.order.node_at ≡ prepared.network.nodes }
    requires closed { IsClosureOf prepared.network prepared.order prepared.graph }
    ensures built { IfOk result (λ bytes. (h : HierarchyValue) × IsBuilt h
        × (h.network ≡ prepared.network) × (h.order ≡ prepared.order) × Spells bytes.items h) }
{
    let hierarchy = customize_telling(
        alloc,
        prepared.network,
        prepared.order,
        prepared.graph,
        progress,
    )?;
    pack_telling(alloc, &hierarchy, progress)
}

// The order that is given.
fn make_order<P: Progress>(
    alloc: Global,
    given: &OrderGiven,
    network: &Network,
    places: &Places,
    progress: &mut P,
) -> Result<Order, OrderRefusal>
    requires { length places.now ≡ network.now.nodes }
    ensures given { IfOk result (IsOrderGiven (order_kind given.now)
        (record { network = network.now; places = places.now }) (order_texts given.now)) }
    ensures count { IfOk result (λ order. length order.node_at ≡ network.now.nodes) }
    ensures sound { IfOk result IsOrder }
    ensures refused { IfErr result
        (RefusesOrder given.now (record { network = network.now; places = places.now })) }
{
    match given {
        OrderGiven::Identity => own_ranks(alloc, network.nodes()),
        OrderGiven::Dissected => dissected_order(alloc, network, places, progress),
        OrderGiven::Text(text) => read_order(alloc, text, network.nodes()),
    }
}

// The order in which each node is its own rank.
fn own_ranks(alloc: Global, nodes: u32) -> Result<Order, OrderRefusal>
    requires { nodes ≤ MAX_NODES }
    ensures same { IfOk result
        (λ order. (rank : ℕ) → rank < nodes → slice_get order.node_at rank ≡ Some rank) }
    ensures count { IfOk result (λ order. length order.node_at ≡ nodes) }
    ensures sound { IfOk result IsOrder }
    ensures refused { IfErr result (λ refusal. refusal ≡ OrderRefusal.NoMemory) }
{
    Ok(Order::identity(alloc, nodes)?)
}

// The order of the dissection.
fn dissected_order<P: Progress>(
    alloc: Global,
    network: &Network,
    places: &Places,
    progress: &mut P,
) -> Result<Order, OrderRefusal>
    requires { length places.now ≡ network.now.nodes }
    ensures given { IfOk result
        (λ order. order.node_at ≡ (dissected network.now places.now).order) }
    ensures count { IfOk result (λ order. length order.node_at ≡ network.now.nodes) }
    ensures sound { IfOk result IsOrder }
    ensures refused { IfErr result (λ refusal. refusal ≡ OrderRefusal.NoMemory) }
{
    let (order, _splits) = dissect_telling(alloc, network, places, progress)?;
    Ok(order)
}
