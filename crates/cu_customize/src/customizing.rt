//! Customization: the built way lists of all shortcuts.

ghost use Rattle.std.specs.Prelude.{◌≡◌, ◌<◌, ◌+◌, ◌*◌, IfOk, OnOk, length};
ghost use Rattle.cu_chordal.specs.Edges.{IsClosureOf};
ghost use Rattle.cu_interval.specs.Hierarchies.{IsBuilt};
ghost use Rattle.cu_interval.specs.Shortcuts.{number_of};
ghost use Rattle.cu_customize.specs.Steps.Building.{AreParts};
ghost use Rattle.cu_customize.specs.Steps.Kept.{AreBuilt, IsBuilding, IsBuildingFrom};
ghost use Rattle.cu_customize.specs.Triangles.{AreTrianglesOf};

use crate::dropping::drop_edges_to;
use crate::gathering::Gatherer;
use crate::pulling::pull;
use crate::task::Task;
use crate::triangles::{Triangle, Triangles};
use cu_chordal::Chordal;
use cu_interval::{Dir, EdgeArcs, Hierarchy, Shortcut, WayList, leg_of};
use cu_model::{Network, NoMemory, Order, Roads};
use cu_progress::{Progress, Silent, Stage, Telling};
use cu_runs::{DayFunction, LayeredFunctions, PackedRun, Windows, staying};
use std::alloc::Global;

// What is customized, with the function of a road that takes no time. What the edges of the graph are is said by the
// order.
#[derive(Clone, Copy)]
struct Parts<'a> {
    network: &'a Network,
    order: &'a Order,
    graph: &'a Chordal,
    arcs: &'a EdgeArcs,
    stay: &'a [PackedRun],
    windows: Windows,
}

// The functions and the lists of the first shortcuts, by list number; no function where there is none or where no later
// list needs it.
#[derive(Drop)]
struct Building {
    functions: Vec<Option<DayFunction>>,
    lists: Vec<WayList>,
}

// Settles the next list, by the triangles of its edge.
fn settle_next(
    alloc: Global,
    parts: &Parts<'_>,
    shortcut: Shortcut,
    triangles: &[Triangle],
    gatherer: &mut Gatherer,
    building: &mut Building,
) -> Result<(), NoMemory>
    requires parts { AreParts parts.now }
    requires edge { shortcut.edge < length parts.now.graph.now.edges }
    requires triangles { AreTrianglesOf parts.now.graph.now.edges shortcut.edge triangles.now }
    requires built { IsBuilding parts.now.network.now parts.now.order.now
        parts.now.graph.now.edges shortcut.edge (number_of shortcut)
        building.old.functions.items building.old.lists.items }
    ensures { OnOk result (IsBuilding parts.now.network.now parts.now.order.now
        parts.now.graph.now.edges shortcut.edge (number_of shortcut + 1)
        building.new.functions.items building.new.lists.items) }
{
    let ends = parts.graph.ends(shortcut.edge);
    let functions = LayeredFunctions::of(&building.functions);
    let task = Task {
        graph: parts.graph,
        functions: &functions,
        stay: parts.stay,
        windows: parts.windows,
        leg: leg_of(ends, shortcut.dir),
        arcs: parts.arcs.arcs(shortcut.edge, shortcut.dir),
        triangles,
    };
    gatherer.gather(parts.network, &task)?;
    let pulled = pull(alloc, &task, &gatherer.merger)?;
    building.functions.push(pulled.function)?;
    building.lists.push(pulled.ways)?;
    Ok(())
}

// Settles both lists of the next edge, by its triangles.
fn settle_edge(
    alloc: Global,
    parts: &Parts<'_>,
    edge: u32,
    triangles: &[Triangle],
    gatherer: &mut Gatherer,
    building: &mut Building,
) -> Result<(), NoMemory>
    requires parts { AreParts parts.now }
    requires edge { edge < length parts.now.graph.now.edges }
    requires triangles { AreTrianglesOf parts.now.graph.now.edges edge triangles.now }
    requires built { IsBuilding parts.now.network.now parts.now.order.now
        parts.now.graph.now.edges edge (2 * edge)
        building.old.functions.items building.old.lists.items }
    ensures { OnOk result (IsBuilding parts.now.network.now parts.now.order.now
        parts.now.graph.now.edges (edge + 1) (2 * (edge + 1))
        building.new.functions.items building.new.lists.items) }
{
    let up = Shortcut { edge, dir: Dir::Up };
    settle_next(alloc, parts, up, triangles, gatherer, building)?;
    let down = Shortcut {
        edge,
        dir: Dir::Down,
    };
    settle_next(alloc, parts, down, triangles, gatherer, building)?;
    Ok(())
}

// Settles the lists of all edges up from the next rank, and drops the functions that no later list takes a half from.
fn settle_rank(
    alloc: Global,
    parts: &Parts<'_>,
    rank: u32,
    triangles: &mut Triangles,
    gatherer: &mut Gatherer,
    building: &mut Building,
) -> Result<(), NoMemory>
    requires parts { AreParts parts.now }
    requires rank { rank < parts.now.graph.now.ranks }
    requires room { length triangles.old.places.items ≡ parts.now.graph.now.ranks }
    requires built { IsBuildingFrom parts.now.network.now parts.now.order.now
        parts.now.graph.now.edges rank
        building.old.functions.items building.old.lists.items }
    ensures built { OnOk result (IsBuildingFrom parts.now.network.now parts.now.order.now
        parts.now.graph.now.edges (rank + 1)
        building.new.functions.items building.new.lists.items) }
    ensures room { OnOk result
        (length triangles.new.places.items ≡ parts.now.graph.now.ranks) }
{
    let first = parts.graph.first_edge(rank);
    triangles.find(alloc, parts.graph, rank)?;
    for place in 0..parts.graph.up(rank).len() {
        let edge = first + place as u32;
        settle_edge(
            alloc,
            parts,
            edge,
            triangles.group(place),
            gatherer,
            building,
        )?;
    }
    drop_edges_to(parts.graph, rank, &mut building.functions);
    Ok(())
}

// How much there is to settle: the edges of a graph, and each time that an edge has a lower triangle.
fn count_work(graph: &Chordal) -> u64 {
    let mut work = 0u64;
    for rank in 0..graph.ranks() {
        let highs = graph.up(rank).len() as u64;
        work = work.saturating_add(highs.saturating_mul(highs.saturating_add(1)) / 2);
    }
    work
}

// Settles all lists, by rising number, and tells how much of them is done.
fn build_lists<P: Progress>(
    alloc: Global,
    parts: &Parts<'_>,
    progress: &mut P,
) -> Result<Building, NoMemory>
    requires { AreParts parts.now }
    ensures { IfOk result (λ building. AreBuilt parts.now.network.now parts.now.order.now
        parts.now.graph.now.edges building.lists.items) }
{
    let lists = 2 * parts.graph.edges() as usize;
    let mut triangles = Triangles::new(alloc, parts.graph.ranks())?;
    let mut gatherer = Gatherer::new(alloc, parts.windows)?;
    let mut building = Building {
        functions: Vec::with_capacity(alloc, lists)?,
        lists: Vec::with_capacity(alloc, lists)?,
    };
    let mut telling = Telling::begin(progress, Stage::Customizing, count_work(parts.graph));
    for rank in 0..parts.graph.ranks() {
        settle_rank(
            alloc,
            parts,
            rank,
            &mut triangles,
            &mut gatherer,
            &mut building,
        )?;
        telling.add(triangles.settled());
    }
    Ok(building)
}

/// The lists of the hierarchy that is built of a network and an order, whose chordal graph this is, by list number: the
/// maximal runs of first ways. How much of them is settled is told as it goes.
pub fn built_lists_telling<P: Progress>(
    alloc: Global,
    network: &Network,
    order: &Order,
    graph: &Chordal,
    progress: &mut P,
) -> Result<Vec<WayList>, NoMemory>
    requires same { length order.now.node_at ≡ network.now.nodes }
    requires closed { IsClosureOf network.now order.now graph.now }
    ensures built { IfOk result (λ lists. IsBuilt (record {
      network = network.now;
      order = order.now;
      edges = graph.now.edges;
      lists = lists.items;
    })) }
    ensures graph { graph.now.ranks ≡ network.now.nodes }
{
    prove_eq!(network.nodes(), order.nodes());
    prove_eq!(order.nodes(), graph.ranks());
    let arcs = EdgeArcs::of(alloc, network, order, graph)?;
    let stay = staying();
    let parts = Parts {
        network,
        order,
        graph,
        arcs: &arcs,
        stay: &stay,
        windows: Windows::of(network),
    };
    let building = build_lists(alloc, &parts, progress)?;
    Ok(building.lists)
}

/// The lists of the hierarchy that is built of a network and an order, whose chordal graph this is, by list number: the
/// maximal runs of first ways.
pub fn built_lists(
    alloc: Global,
    network: &Network,
    order: &Order,
    graph: &Chordal,
) -> Result<Vec<WayList>, NoMemory>
    requires same { length order.now.node_at ≡ network.now.nodes }
    requires closed { IsClosureOf network.now order.now graph.now }
    ensures built { IfOk result (λ lists. IsBuilt (record {
      network = network.now;
      order = order.now;
      edges = graph.now.edges;
      lists = lists.items;
    })) }
    ensures graph { graph.now.ranks ≡ network.now.nodes }
{
    built_lists_telling(alloc, network, order, graph, &mut Silent)
}

/// The built hierarchy of a network and an order, whose chordal graph this is. The network, the order and the graph are
/// dropped where memory runs out. How much of it is settled is told as it goes.
pub fn customize_telling<P: Progress>(
    alloc: Global,
    network: Network,
    order: Order,
    graph: Chordal,
    progress: &mut P,
) -> Result<Hierarchy, NoMemory>
    requires same { length order.node_at ≡ network.nodes }
    requires closed { IsClosureOf network order graph }
    ensures network { IfOk result (λ hierarchy. hierarchy.network ≡ network) }
    ensures order { IfOk result (λ hierarchy. hierarchy.order ≡ order) }
    ensures edges { IfOk result (λ hierarchy. hierarchy.edges ≡ graph.edges) }
    ensures built { IfOk result IsBuilt }
{
    let lists = built_lists_telling(alloc, &network, &order, &graph, progress)?;
    Ok(Hierarchy::of(network, order, graph, lists))
}

/// The built hierarchy of a network and an order, whose chordal graph this is. The network, the order and the graph are
/// dropped where memory runs out.
pub fn customize(
    alloc: Global,
    network: Network,
    order: Order,
    graph: Chordal,
) -> Result<Hierarchy, NoMemory>
    requires same { length order.node_at ≡ network.nodes }
    requires closed { IsClosureOf network order graph }
    ensures network { IfOk result (λ hierarchy. hierarchy.network ≡ network) }
    ensures order { IfOk result (λ hierarchy. hierarchy.order ≡ order) }
    ensures edges { IfOk result (λ hierarchy. hierarchy.edges ≡ graph.edges) }
    ensures built { IfOk result IsBuilt }
{
    customize_telling(alloc, network, order, graph, &mut Silent)
}
