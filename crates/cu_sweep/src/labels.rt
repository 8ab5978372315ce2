//! Labels of sweeps, and the links that lead to them.

ghost use Rattle.std.specs.Prelude.{◌≡◌, ◌≤◌, ◌<◌, ◌+◌, ◌*◌, ◌⊎◌, ℕ, All, IfOk, None, Some, false, length, reverse};
ghost use Rattle.std.specs.List.{AllPairs, Contains, range_with_len};
ghost use Rattle.cu_model.specs.declared.limits.TheConstants.{DAY, MAX_NODES};
ghost use Rattle.cu_chordal.specs.Graphs.{HasEdge};
ghost use Rattle.cu_elimtree.specs.SweepArcs.{ancestors_in, parents_in};
ghost use Rattle.cu_elimtree.specs.Trees.{ancestors_of};
ghost use Rattle.cu_interval.specs.Hierarchies.{HierarchyValue, IsHierarchyOf, graph_of};
ghost use Rattle.cu_sweep.specs.Places.{AreKept, KeepsLinks, second_at};
ghost use Rattle.cu_sweep.specs.Sweeps.{up_calls};
ghost use Rattle.cu_sweep.specs.Swept.{IsBegun, IsSweptDown, IsSweptUp, Makes, Sweep, begun_second, path_calls};
ghost use Rattle.cu_sweep.specs.ToAll.{AreReached, AreTimesWhereBuilt, reach_calls};
ghost use Rattle.cu_sweep.specs.Steps.Ahead.{FallsOff, LeadsUp};
ghost use Rattle.cu_sweep.specs.Steps.Made.{IsMadeDown, IsMadeUp, Led, down_calls_of, sweep_of, up_calls_of};
ghost use Rattle.cu_sweep.specs.Steps.Ready.{IsReadyBy};

use crate::limits::{Always, Limits};
use crate::linking::Linking;
use crate::over_ranks::{pass_down, pass_up};
use cu_chordal::Chordal;
use cu_elimtree::Tree;
use cu_interval::{Call, Relaxer};
use cu_model::NoMemory;
use std::alloc::Global;
use std::marker::Model;

/// Room for the labels of both passes of a sweep, and for the links that lead to them, where these are kept, made once: upwards
/// over the ancestors of a start, and then downwards over any path of ranks that has all higher neighbours of its ranks.
/// Contracts see for how many nodes it was made, when each place is reached and by which link, and whether links were turned
/// since. After each pass links are kept by a linking that keeps any.
#[derive(Drop)]
pub struct Labels<K: Linking> {
    nodes: u32,
    // Place x is rank x upwards, place nodes + x is rank x downwards.
    pub(crate) seconds: Vec<Option<u64>>,
    pub(crate) chain: K,
}

impl<K: Linking> Model for Labels<K> {
    ghost use Rattle.cu_sweep.specs.Swept.{LabelsValue};
    ghost use Rattle.cu_sweep.specs.Steps.Ready.{IsReadyBy};

    ghost Value = { LabelsValue };

    ghost view = { λ labels. record {
      nodes = labels.nodes;
      seconds = labels.seconds.items;
      links = K.links labels.chain;
      turned = K.turned labels.chain;
    } };

    ghost invariant = { λ labels. IsReadyBy K.links K.turned labels.nodes labels.seconds.items labels.chain };
}

impl<K: Linking> Labels<K> {
    /// Room for so many nodes, at most `MAX_NODES` of `cu_model`. No place is reached.
    pub fn new(alloc: Global, nodes: u32) -> Result<Labels<K>, NoMemory>
        requires { nodes ≤ MAX_NODES }
        ensures nodes { IfOk result (λ labels. labels.nodes ≡ nodes) }
        ensures unturned { IfOk result (λ labels. labels.turned ≡ false) }
    {
        Ok(Labels {
            nodes,
            seconds: vec![in alloc; None; 2 * nodes as usize + 1]?,
            chain: K::with_places(alloc, 2 * nodes + 1)?,
        })
    }

    /// For how many nodes there is room, at most `MAX_NODES` of `cu_model`.
    pub fn nodes(&self) -> u32
        ensures count { result ≡ self.now.nodes }
        ensures few { result ≤ MAX_NODES }
    {
        self.nodes
    }

    /// When a rank, which is below the number of nodes, is reached downwards.
    pub fn second(&self, rank: u32) -> Option<u64>
        requires { rank < self.now.nodes }
        ensures { result ≡ second_at self.now.seconds (self.now.nodes + rank) }
    {
        self.seconds[(self.nodes + rank) as usize]
    }

    /// Begins a sweep from a rank, at a second of a day, that is to go down over this path. Rank and path are of the tree, which
    /// has as many nodes as there is room for. What the sweep before left at the places of the ranks that this one passes is
    /// taken away, and so are all links. Takes no memory.
    pub fn begin(&mut self, tree: &Tree, from: u32, second: u32, path: &[u32])
        requires from { from < length tree.now }
        requires second { second < DAY }
        requires path { All (λ rank. rank < length tree.now) path.now }
        requires nodes { self.old.nodes ≡ length tree.now }
        ensures nodes { self.new.nodes ≡ self.old.nodes }
        ensures unturned { self.new.turned ≡ false }
        ensures begun { (h : HierarchyValue) → tree.now ≡ parents_in (graph_of h)
            → IsBegun h (record { from = from; second = second; path = path.now }) self.new }
    {
        begin_in(tree, &mut self.seconds, &mut self.chain, from, second, path);
    }

    /// Goes up from the start of a sweep that has begun: relaxes the edges from each ancestor of the start to its higher
    /// neighbours, but for those that can't make a label earlier. Answers the first call whose walk is too long, with which it
    /// ends. The tree is that of the graph, and the relaxer stands for a hierarchy with this graph. Takes no memory.
    pub fn sweep_up<R: Relaxer>(
        &mut self,
        tree: &Tree,
        graph: &Chordal,
        relaxer: &mut R,
        from: u32,
    ) -> Option<Call>
        requires from { from < graph.now.ranks }
        requires tree { tree.now ≡ parents_in graph.now }
        requires graph { IsHierarchyOf graph.now (R.hierarchy relaxer.old) }
        requires nodes { self.old.nodes ≡ graph.now.ranks }
        requires unturned { self.old.turned ≡ false }
        ensures nodes { self.new.nodes ≡ self.old.nodes }
        ensures unturned { self.new.turned ≡ false }
        ensures stays { R.hierarchy relaxer.new ≡ R.hierarchy relaxer.old }
        ensures makes { (q : Sweep) → q.from ≡ from → IsBegun (R.hierarchy relaxer.old) q self.old
            → Makes (R.hierarchy relaxer.old) (up_calls (R.hierarchy relaxer.old) q.from q.second)
            (R.calls relaxer.old) (R.calls relaxer.new) result }
        ensures swept { (q : Sweep) → q.from ≡ from → IsBegun (R.hierarchy relaxer.old) q self.old
            → result ≡ None → IsSweptUp (R.hierarchy relaxer.old) q self.new }
        ensures kept { KeepsLinks K.links → AreKept self.new.links }
    {
        self.rise(tree, graph, relaxer, &Always, from)
    }

    /// Goes down over the path of a sweep that went up: relaxes the edges to each of its ranks, the last first, from the
    /// higher neighbours, all of which are on the path, but for those that can't make a label earlier. Its ranks rise. Answers
    /// the first call whose walk is too long, with which it ends; else each rank of the path is reached as it can be. The
    /// relaxer stands for a hierarchy with this graph. Takes no memory.
    pub fn sweep_down<R: Relaxer>(
        &mut self,
        graph: &Chordal,
        relaxer: &mut R,
        path: &[u32],
    ) -> Option<Call>
        requires path { All (λ rank. rank < graph.now.ranks) path.now }
        requires rising { AllPairs (λ a b. a < b) path.now }
        requires upwards { (low high : ℕ) → Contains path.now low
            → HasEdge graph.now.edges low high → Contains path.now high }
        requires graph { IsHierarchyOf graph.now (R.hierarchy relaxer.old) }
        requires nodes { self.old.nodes ≡ graph.now.ranks }
        requires unturned { self.old.turned ≡ false }
        ensures nodes { self.new.nodes ≡ self.old.nodes }
        ensures unturned { self.new.turned ≡ false }
        ensures stays { R.hierarchy relaxer.new ≡ R.hierarchy relaxer.old }
        ensures makes { (q : Sweep) → q.path ≡ path.now
            → IsSweptUp (R.hierarchy relaxer.old) q self.old
            → Makes (R.hierarchy relaxer.old) (path_calls (R.hierarchy relaxer.old) q)
            (R.calls relaxer.old) (R.calls relaxer.new) result }
        ensures swept { (q : Sweep) → q.path ≡ path.now
            → IsSweptUp (R.hierarchy relaxer.old) q self.old
            → result ≡ None → IsSweptDown (R.hierarchy relaxer.old) q self.new }
        ensures kept { KeepsLinks K.links → AreKept self.new.links }
    {
        self.fall(graph, relaxer, &Always, path)
    }

    /// Reaches all ranks from one, leaving at a second of a day: both passes of a sweep, downwards over all ranks, which are
    /// given rising. Answers the first call whose walk is too long, with which it ends; else each rank is reached as it can be,
    /// in a built hierarchy at the least arrival over all walks to its node, and not where there is none. A call that can't make
    /// a label earlier, by the least bound of its list, is left out. What an earlier sweep left is taken away. The tree is that of
    /// the graph, there is room for as many nodes, and the relaxer stands for a hierarchy with this graph. Takes no memory.
    pub fn reach_all<R: Relaxer>(
        &mut self,
        tree: &Tree,
        graph: &Chordal,
        relaxer: &mut R,
        from: u32,
        second: u32,
        ranks: &[u32],
    ) -> Option<Call>
        requires from { from < graph.now.ranks }
        requires second { second < DAY }
        requires ranks { ranks.now ≡ range_with_len 0 graph.now.ranks }
        requires tree { tree.now ≡ parents_in graph.now }
        requires graph { IsHierarchyOf graph.now (R.hierarchy relaxer.old) }
        requires nodes { self.old.nodes ≡ graph.now.ranks }
        ensures nodes { self.new.nodes ≡ self.old.nodes }
        ensures unturned { self.new.turned ≡ false }
        ensures stays { R.hierarchy relaxer.new ≡ R.hierarchy relaxer.old }
        ensures makes { Makes (R.hierarchy relaxer.old)
            (reach_calls (R.hierarchy relaxer.old) from second)
            (R.calls relaxer.old) (R.calls relaxer.new) result }
        ensures reached { result ≡ None
            → AreReached (R.hierarchy relaxer.old) from second self.new }
        ensures least { AreTimesWhereBuilt (R.hierarchy relaxer.old) from second result self.new }
        ensures kept { KeepsLinks K.links → AreKept self.new.links }
    {
        self.begin(tree, from, second, ranks);
        if let Some(call) = self.sweep_up(tree, graph, relaxer, from) {
            return Some(call);
        }
        self.sweep_down(graph, relaxer, ranks)
    }
}

impl<K: Linking> Labels<K> {
    // `sweep_up` by the calls that may be made.
    pub(crate) fn rise<R: Relaxer, L: Limits>(
        &mut self,
        tree: &Tree,
        graph: &Chordal,
        relaxer: &mut R,
        limits: &L,
        from: u32,
    ) -> Option<Call>
        requires from { from < graph.now.ranks }
        requires tree { tree.now ≡ parents_in graph.now }
        requires graph { IsHierarchyOf graph.now (R.hierarchy relaxer.old) }
        requires known { L.knows limits.now (R.hierarchy relaxer.old) }
        requires leads { All (LeadsUp (R.hierarchy relaxer.old) (L.allows limits.now)) (ancestors_in graph.now from) }
        requires nodes { self.old.nodes ≡ graph.now.ranks }
        requires unturned { self.old.turned ≡ false }
        ensures nodes { self.new.nodes ≡ self.old.nodes }
        ensures unturned { self.new.turned ≡ false }
        ensures stays { R.hierarchy relaxer.new ≡ R.hierarchy relaxer.old }
        ensures makes { (q : Led) → q.from ≡ from → q.allows ≡ L.allows limits.now
            → IsBegun (R.hierarchy relaxer.old) (sweep_of q) self.old
            → Makes (R.hierarchy relaxer.old) (up_calls_of (R.hierarchy relaxer.old) q
            (ancestors_in (graph_of (R.hierarchy relaxer.old)) q.from))
            (R.calls relaxer.old) (R.calls relaxer.new) result }
        ensures swept { (q : Led) → q.from ≡ from → q.allows ≡ L.allows limits.now
            → IsBegun (R.hierarchy relaxer.old) (sweep_of q) self.old
            → result ≡ None → IsMadeUp (R.hierarchy relaxer.old) q self.new }
        ensures kept { KeepsLinks K.links → AreKept self.new.links }
    {
        pass_up(
            graph,
            &mut self.seconds,
            &mut self.chain,
            relaxer,
            limits,
            tree.ancestors(from),
        )
    }

    // `sweep_down` by the calls that may be made.
    pub(crate) fn fall<R: Relaxer, L: Limits>(
        &mut self,
        graph: &Chordal,
        relaxer: &mut R,
        limits: &L,
        path: &[u32],
    ) -> Option<Call>
        requires path { All (λ rank. rank < graph.now.ranks) path.now }
        requires rising { AllPairs (λ a b. a < b) path.now }
        requires upwards { (low high : ℕ) → Contains path.now low
            → HasEdge graph.now.edges low high → Contains path.now high }
        requires graph { IsHierarchyOf graph.now (R.hierarchy relaxer.old) }
        requires known { L.knows limits.now (R.hierarchy relaxer.old) }
        requires falls { FallsOff (L.allows limits.now) }
        requires nodes { self.old.nodes ≡ graph.now.ranks }
        requires unturned { self.old.turned ≡ false }
        ensures nodes { self.new.nodes ≡ self.old.nodes }
        ensures unturned { self.new.turned ≡ false }
        ensures stays { R.hierarchy relaxer.new ≡ R.hierarchy relaxer.old }
        ensures makes { (q : Led) → q.path ≡ path.now → q.allows ≡ L.allows limits.now
            → IsMadeUp (R.hierarchy relaxer.old) q self.old
            → Makes (R.hierarchy relaxer.old)
            (down_calls_of (R.hierarchy relaxer.old) q (reverse q.path))
            (R.calls relaxer.old) (R.calls relaxer.new) result }
        ensures swept { (q : Led) → q.path ≡ path.now → q.allows ≡ L.allows limits.now
            → IsMadeUp (R.hierarchy relaxer.old) q self.old
            → result ≡ None → IsMadeDown (R.hierarchy relaxer.old) q self.new }
        ensures kept { KeepsLinks K.links → AreKept self.new.links }
    {
        pass_down(
            graph,
            &mut self.seconds,
            &mut self.chain,
            relaxer,
            limits,
            path,
        )
    }
}

// Takes away what the sweep before left at the ranks that this one passes, and all links, and labels the start.
fn begin_in<K: Linking>(
    tree: &Tree,
    labels: &mut [Option<u64>],
    chain: &mut K,
    from: u32,
    second: u32,
    path: &[u32],
)
    requires from { from < length tree.now }
    requires second { second < DAY }
    requires path { All (λ rank. rank < length tree.now) path.now }
    requires ready { IsReadyBy K.links K.turned (length tree.now) labels.old chain.old }
    ensures ready { IsReadyBy K.links K.turned (length tree.now) labels.new chain.new }
    ensures unturned { K.turned chain.new ≡ false }
    ensures begins { (y : ℕ) → Contains (ancestors_of tree.now from) y ⊎ Contains path.now y
        → second_at labels.new y ≡ begun_second from second y }
    ensures unlinked { All (λ link. link ≡ None) (K.links chain.new) }
{
    clear_above(tree, labels, from);
    clear_along(labels, path);
    chain.clear();
    labels[from as usize] = Some(u64::from(second));
}

// Takes the labels of a rank and its ancestors away.
fn clear_above(tree: &Tree, labels: &mut [Option<u64>], rank: u32)
    requires rank { rank < length tree.now }
    requires places { length tree.now ≤ length labels.old }
    ensures cleared { (y : ℕ) → Contains (ancestors_of tree.now rank) y
        → second_at labels.new y ≡ None }
    ensures kept { (place second : ℕ) → second_at labels.new place ≡ Some second
        → second_at labels.old place ≡ Some second }
{
    'ranks: for ancestor in tree.ancestors(rank) {
        labels[ancestor as usize] = None;
    }
}

// Takes the labels of these ranks away.
fn clear_along(labels: &mut [Option<u64>], path: &[u32])
    requires places { All (λ rank. rank < length labels.old) path.now }
    ensures cleared { (y : ℕ) → Contains path.now y → second_at labels.new y ≡ None }
    ensures kept { (place second : ℕ) → second_at labels.new place ≡ Some second
        → second_at labels.old place ≡ Some second }
{
    'ranks: for rank in path {
        labels[*rank as usize] = None;
    }
}
