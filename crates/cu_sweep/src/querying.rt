//! Queries by two sweeps.

ghost use Rattle.std.specs.Prelude.{◌≡◌, ◌≤◌, ◌<◌, ◌+◌, false, length, take};
ghost use Rattle.cu_model.specs.declared.limits.TheConstants.{DAY};
ghost use Rattle.cu_elimtree.specs.SweepArcs.{ancestors_in, parents_in};
ghost use Rattle.cu_elimtree.specs.Trees.{ancestors_of};
ghost use Rattle.cu_interval.specs.Hierarchies.{IsHierarchyOf};
ghost use Rattle.cu_sweep.specs.declared.finding.Found.TheVariants.{Long};
ghost use Rattle.cu_sweep.specs.Answers.{IsLeastWhereBuilt, IsReal};
ghost use Rattle.cu_sweep.specs.Desks.{HoldsFound};
ghost use Rattle.cu_sweep.specs.Sweeps.{AddsAll, found, sweep_calls, until_long};
ghost use Rattle.cu_sweep.specs.Swept.{desk_of};
ghost use Rattle.cu_sweep.specs.Steps.Sweeping.{answer_by};

use crate::desk::SweepDesk;
use crate::finding::Found;
use crate::labels::Labels;
use cu_chordal::Chordal;
use cu_elimtree::Tree;
use cu_interval::{Call, Relaxer};
use cu_links::Chain;

/// A query's ranks, and the second of a day at which it leaves.
#[derive(Clone, Copy)]
pub struct Question {
    pub from: u32,
    pub to: u32,
    pub second: u32,
}

/// The earliest arrival from one rank at another, by the upward sweep over the ancestors of the first and the downward sweep
/// over those of the second. A call that can't make a label earlier, by the least bound of its list, is left out: labels and
/// walk are those of all calls. Both ranks are below the number of ranks, the second is one of a day, the tree is that of the
/// graph, the desk was made for as many nodes, and the relaxer stands for a hierarchy with this graph. Takes no memory.
pub fn query<R: Relaxer>(
    tree: &Tree,
    graph: &Chordal,
    desk: &mut SweepDesk,
    relaxer: &mut R,
    from: u32,
    to: u32,
    second: u32,
) -> Found
    requires ranks { (from < graph.now.ranks) × (to < graph.now.ranks) }
    requires second { second < DAY }
    requires tree { tree.now ≡ parents_in graph.now }
    requires desk { desk.old.nodes ≡ graph.now.ranks }
    requires graph { IsHierarchyOf graph.now (R.hierarchy relaxer.old) }
    ensures found { result ≡ found (R.hierarchy relaxer.old) from to second }
    ensures told { AddsAll (R.calls relaxer.old) (R.calls relaxer.new)
        (until_long (R.hierarchy relaxer.old)
        (sweep_calls (R.hierarchy relaxer.old) from to second)) }
    ensures stays { R.hierarchy relaxer.new ≡ R.hierarchy relaxer.old }
    ensures nodes { desk.new.nodes ≡ desk.old.nodes }
    ensures holds { HoldsFound (R.hierarchy relaxer.old) from to second result desk.new }
    ensures least { IsLeastWhereBuilt (R.hierarchy relaxer.old) from to second result }
    ensures real { IsReal (R.hierarchy relaxer.old) from to second desk.new.calls result }
{
    let count = climb(tree, to, &mut desk.path);
    let question = Question { from, to, second };
    let path = &desk.path[..count];
    let found = sweep(tree, graph, &mut desk.labels, path, relaxer, question);
    desk.end = desk.labels.nodes() + to;
    found
}

// Both sweeps of a query, the downward one over the ancestors of its end.
fn sweep<R: Relaxer>(
    tree: &Tree,
    graph: &Chordal,
    labels: &mut Labels<Chain>,
    path: &[u32],
    relaxer: &mut R,
    question: Question,
) -> Found
    requires ranks { (question.from < graph.now.ranks) × (question.to < graph.now.ranks) }
    requires second { question.second < DAY }
    requires tree { tree.now ≡ parents_in graph.now }
    requires graph { IsHierarchyOf graph.now (R.hierarchy relaxer.old) }
    requires labels { labels.old.nodes ≡ graph.now.ranks }
    requires path { path.now ≡ ancestors_in graph.now question.to }
    ensures found { result ≡ found (R.hierarchy relaxer.old)
        question.from question.to question.second }
    ensures told { AddsAll (R.calls relaxer.old) (R.calls relaxer.new)
        (until_long (R.hierarchy relaxer.old)
        (sweep_calls (R.hierarchy relaxer.old) question.from question.to question.second)) }
    ensures stays { R.hierarchy relaxer.new ≡ R.hierarchy relaxer.old }
    ensures nodes { labels.new.nodes ≡ labels.old.nodes }
    ensures holds { HoldsFound (R.hierarchy relaxer.old)
        question.from question.to question.second
        result (desk_of labels.new (labels.new.nodes + question.to)) }
{
    labels.begin(tree, question.from, question.second, path);
    if let Some(call) = labels.sweep_up(tree, graph, relaxer, question.from) {
        return long_of(call);
    }
    if let Some(call) = labels.sweep_down(graph, relaxer, path) {
        return long_of(call);
    }
    answer_of(labels.second(question.to))
}

// That a call's walk is too long.
fn long_of(call: Call) -> Found
    ensures { result ≡ Long call.edge call.dir call.second }
{
    Found::Long {
        edge: call.edge,
        dir: call.dir,
        second: call.second,
    }
}

// What is found by the end's label.
fn answer_of(second: Option<u64>) -> Found
    ensures { result ≡ answer_by second }
{
    match second {
        None => Found::NoWalk,
        Some(second) => Found::Arrive(second),
    }
}

// Lists the ancestors of a rank, rising, and answers how many they are.
pub(crate) fn climb(tree: &Tree, rank: u32, path: &mut [u32]) -> usize
    requires rank { rank < length tree.now }
    requires places { length path.old ≡ length tree.now }
    ensures count { result ≤ length path.new }
    ensures path { take result path.new ≡ ancestors_of tree.now rank }
{
    let mut count = 0;
    'ranks: for ancestor in tree.ancestors(rank) {
        path[count] = ancestor;
        count += 1;
    }
    count
}
