//! One-to-all.

ghost use Rattle.std.specs.Prelude.{◌≡◌, ◌≤◌, ◌<◌, IfOk, Some, length, slice_get};
ghost use Rattle.std.specs.List.{range_with_len};
ghost use Rattle.cu_elimtree.specs.SweepArcs.{parents_in};
ghost use Rattle.cu_interval.specs.Hierarchies.{IsHierarchyOf};
ghost use Rattle.cu_model.specs.declared.limits.TheConstants.{DAY, MAX_NODES};
ghost use Rattle.cu_reach.specs.declared.reaching.Reached.TheVariants.{Done};
ghost use Rattle.cu_short.specs.Shortness.{NeverLong};
ghost use Rattle.cu_reach.specs.Aims.{IsPath};
ghost use Rattle.cu_reach.specs.Reaching.{HoldsLabelsOver, HoldsReached, IsAllWhereBuilt, calls_over, reached, reached_by};
ghost use Rattle.cu_sweep.specs.Sweeps.{AddsAll, until_long};
ghost use Rattle.cu_sweep.specs.ToAll.{reach_calls};

use cu_chordal::Chordal;
use cu_elimtree::Tree;
use cu_interval::{Call, Dir, Relaxer};
use cu_model::NoMemory;
use cu_sweep::{Labels, Unlinked};
use std::alloc::Global;
use std::marker::Model;

/// That every rank has its label, or a relaxation whose walk was too long.
#[derive(Clone, Copy, PartialEq, Eq)]
pub enum Reached {
    Done,
    Long { edge: u32, dir: Dir, second: u64 },
}

/// Room for the labels of all ranks, made once. Contracts see the second at which each rank is reached, none where it isn't.
#[derive(Drop)]
pub struct ReachDesk {
    labels: Labels<Unlinked>,
    // All ranks, rising: the downward pass goes over them as a query's goes over the ancestors of its end.
    ranks: Vec<u32>,
}

impl Model for ReachDesk {
    ghost use Rattle.std.specs.Prelude.{ℕ, List, Option, ◌≡◌};
    ghost use Rattle.std.specs.List.{range_with_len};
    ghost use Rattle.cu_reach.specs.Reaching.{labels_of};

    ghost Value = { List (Option ℕ) };

    ghost view = { λ desk. labels_of desk.labels };

    ghost invariant = { λ desk. desk.ranks.items ≡ range_with_len 0 desk.labels.nodes };
}

impl ReachDesk {
    /// A desk for so many nodes, which are at most `MAX_NODES` of `cu_model`.
    pub fn new(alloc: Global, nodes: u32) -> Result<ReachDesk, NoMemory>
        requires { nodes ≤ MAX_NODES }
        ensures nodes { IfOk result (λ desk. length desk ≡ nodes) }
    {
        Ok(ReachDesk {
            labels: Labels::new(alloc, nodes)?,
            ranks: list_ranks(alloc, nodes)?,
        })
    }

    /// When the last reach came to a rank, which is below the number of nodes: none where it didn't. That reach was done. Takes
    /// no memory.
    pub fn label(&self, rank: u32) -> Option<u64>
        requires { rank < length self.now }
        ensures { slice_get self.now rank ≡ Some result }
    {
        self.labels.second(rank)
    }
}

// All ranks, rising.
fn list_ranks(alloc: Global, nodes: u32) -> Result<Vec<u32>, NoMemory>
    ensures { IfOk result (λ ranks. ranks.items ≡ range_with_len 0 nodes) }
{
    Ok((0..nodes).collect(alloc)?)
}

/// Labels every rank by its earliest arrival from a rank, leaving at a second of the day, in a built hierarchy the least arrival
/// over all walks. Each edge is asked at most once a sweep, and a call that can't make a label earlier is left out. The labels
/// of an earlier reach are forgotten. The rank is below the number of ranks, the tree is that of the graph, the desk was made
/// for as many nodes, and the relaxer stands for a hierarchy with this graph. Takes no memory.
pub fn reach<R: Relaxer>(
    tree: &Tree,
    graph: &Chordal,
    desk: &mut ReachDesk,
    relaxer: &mut R,
    from: u32,
    second: u32,
) -> Reached
    requires from { from < graph.now.ranks }
    requires second { second < DAY }
    requires tree { tree.now ≡ parents_in graph.now }
    requires desk { length desk.old ≡ graph.now.ranks }
    requires graph { IsHierarchyOf graph.now (R.hierarchy relaxer.old) }
    ensures reached { result ≡ reached (R.hierarchy relaxer.old) from second }
    ensures told { AddsAll (R.calls relaxer.old) (R.calls relaxer.new)
        (until_long (R.hierarchy relaxer.old)
        (reach_calls (R.hierarchy relaxer.old) from second)) }
    ensures holds { HoldsReached (R.hierarchy relaxer.old) from second result desk.new }
    ensures least { IsAllWhereBuilt (R.hierarchy relaxer.old) from second result desk.new }
    ensures nodes { length desk.new ≡ length desk.old }
    ensures stays { R.hierarchy relaxer.new ≡ R.hierarchy relaxer.old }
{
    let ranks = &desk.ranks;
    let labels = &mut desk.labels;
    reached_of(labels.reach_all(tree, graph, relaxer, from, second, ranks))
}

/// From which rank a reach leaves, and at which second of the day.
#[derive(Clone, Copy)]
pub struct Start {
    pub from: u32,
    pub second: u32,
}

/// Labels the ranks of a path, which has all higher neighbours of its ranks, as [`reach`] would, where no walk is too long. Of the
/// downward calls only those to its ranks are made. The other labels mean nothing. All else is as of [`reach`].
pub fn reach_over<R: Relaxer>(
    tree: &Tree,
    graph: &Chordal,
    desk: &mut ReachDesk,
    relaxer: &mut R,
    start: Start,
    path: &[u32],
)
    requires from { start.from < graph.now.ranks }
    requires second { start.second < DAY }
    requires tree { tree.now ≡ parents_in graph.now }
    requires desk { length desk.old ≡ graph.now.ranks }
    requires graph { IsHierarchyOf graph.now (R.hierarchy relaxer.old) }
    requires path { IsPath graph.now path.now }
    requires short { NeverLong (R.hierarchy relaxer.old) }
    ensures reached { reached (R.hierarchy relaxer.old) start.from start.second ≡ Done }
    ensures told { AddsAll (R.calls relaxer.old) (R.calls relaxer.new)
        (calls_over (R.hierarchy relaxer.old) start.from start.second path.now) }
    ensures holds { HoldsLabelsOver (R.hierarchy relaxer.old) start.from start.second
        path.now desk.new }
    ensures nodes { length desk.new ≡ length desk.old }
    ensures stays { R.hierarchy relaxer.new ≡ R.hierarchy relaxer.old }
{
    let Start { from, second } = start;
    let labels = &mut desk.labels;
    labels.begin(tree, from, second, path);
    // Neither pass ends early, since no walk is too long.
    let _none = labels.sweep_up(tree, graph, relaxer, from);
    let _none = labels.sweep_down(graph, relaxer, path);
}

// That the reach is done, or ended with this call.
fn reached_of(long: Option<Call>) -> Reached
    ensures { result ≡ reached_by long }
{
    match long {
        None => Reached::Done,
        Some(call) => Reached::Long {
            edge: call.edge,
            dir: call.dir,
            second: call.second,
        },
    }
}
