//! The edges that an edit touches, found from the lowest rank on.

ghost use Rattle.std.specs.Prelude.{◌≡◌, ◌≤◌, ◌<◌, ℕ, IfOk, length, min};
ghost use Rattle.cu_model.specs.Edits.{IsEditInRange};
ghost use Rattle.cu_interval.specs.Hierarchies.{IsHierarchyOf};
ghost use Rattle.cu_interval.specs.Touching.{NumbersTouched};
ghost use Rattle.cu_edits.specs.Steps.Spreading.{Adds, AreBucketsOf, IsAbove, IsBetween, IsLowEnd, IsOfChanged, IsOfProfile, IsOfRoad, Takes};

use cu_chordal::Chordal;
use cu_interval::Ways;
use cu_links::RankBuckets;
use cu_model::{Edit, NoMemory, Roads};
use std::alloc::Global;

/// The edges that an edit touches, by rising number: those of the changed roads, and those over a lower triangle with a
/// touched side. The edit's numbers are in range, the graph is that of the hierarchy, and the buckets were made for its
/// ranks and edges. The buckets are cleared first. Where memory runs out the hierarchy is as before.
pub fn plan<W: Ways>(
    alloc: Global,
    ways: &W,
    edit: &Edit,
    graph: &Chordal,
    buckets: &mut RankBuckets,
) -> Result<Vec<u32>, NoMemory>
    requires edit { IsEditInRange (W.hierarchy ways.now).network edit.now }
    requires graph { IsHierarchyOf graph.now (W.hierarchy ways.now) }
    requires ranks { buckets.old.ranks ≡ graph.now.ranks }
    requires edges { length buckets.old.states ≡ length graph.now.edges }
    ensures touched { IfOk result
        (λ touched. NumbersTouched (W.hierarchy ways.now) edit.now touched.items) }
    ensures ranks { buckets.new.ranks ≡ buckets.old.ranks }
    ensures edges { length buckets.new.states ≡ length buckets.old.states }
{
    buckets.clear();
    add_changed(ways, edit, graph, buckets);
    let mut touched = Vec::new(alloc);
    'edges: while let Some(edge) = next_touched(graph, buckets) {
        touched.push(edge)?;
    }
    touched.sort_unstable();
    Ok(touched)
}

// Takes out an edge of the lowest rank, and adds the edges above it, which are of higher ranks: so each is taken out once.
fn next_touched(graph: &Chordal, buckets: &mut RankBuckets) -> Option<u32>
    requires fit { AreBucketsOf graph.now buckets.old }
    ensures takes { Takes graph.now.edges buckets.old buckets.new result }
{
    let (edge, _rank) = buckets.pop()?;
    add_above(graph, buckets, edge);
    Some(edge)
}

// Adds the edges over the lower triangles that an edge is a lower side of: from its higher end to the other higher
// neighbours of its lower end.
fn add_above(graph: &Chordal, buckets: &mut RankBuckets, edge: u32)
    requires fit { AreBucketsOf graph.now buckets.old }
    requires last { IsLowEnd graph.now.edges edge buckets.old.last }
    ensures { Adds graph.now.edges (IsAbove graph.now.edges edge) buckets.old buckets.new }
{
    let ends = graph.ends(edge);
    for high in graph.up(ends.low) {
        add_between(graph, buckets, *high, ends.high);
    }
}

// Adds the edges of the changed roads.
fn add_changed<W: Ways>(ways: &W, edit: &Edit, graph: &Chordal, buckets: &mut RankBuckets)
    requires edit { IsEditInRange (W.hierarchy ways.now).network edit.now }
    requires graph { IsHierarchyOf graph.now (W.hierarchy ways.now) }
    requires fit { AreBucketsOf graph.now buckets.old }
    requires onward { buckets.old.last ≡ 0 }
    ensures { Adds graph.now.edges (IsOfChanged (W.hierarchy ways.now) edit.now)
        buckets.old buckets.new }
{
    match edit {
        Edit::Set { profile, .. } => add_driven_by(ways, *profile, graph, buckets),
        Edit::Assign { arc, .. } => add_road(ways, *arc, graph, buckets),
    }
}

// Adds the edges of the roads with a profile.
fn add_driven_by<W: Ways>(ways: &W, profile: u32, graph: &Chordal, buckets: &mut RankBuckets)
    requires graph { IsHierarchyOf graph.now (W.hierarchy ways.now) }
    requires fit { AreBucketsOf graph.now buckets.old }
    requires onward { buckets.old.last ≡ 0 }
    ensures { Adds graph.now.edges (IsOfProfile (W.hierarchy ways.now) profile
        (length (W.hierarchy ways.now).network.arcs)) buckets.old buckets.new }
{
    for arc in 0..ways.arcs() {
        if ways.arc(arc).profile == profile {
            add_road(ways, arc, graph, buckets);
        }
    }
}

// Adds the edge of a road. A loop has none.
fn add_road<W: Ways>(ways: &W, arc: u32, graph: &Chordal, buckets: &mut RankBuckets)
    requires arc { arc < length (W.hierarchy ways.now).network.arcs }
    requires graph { IsHierarchyOf graph.now (W.hierarchy ways.now) }
    requires fit { AreBucketsOf graph.now buckets.old }
    requires onward { buckets.old.last ≡ 0 }
    ensures { Adds graph.now.edges (IsOfRoad (W.hierarchy ways.now) arc) buckets.old buckets.new }
{
    let road = ways.arc(arc);
    add_between(graph, buckets, ways.rank(road.tail), ways.rank(road.head));
}

// Adds the edge between two ranks, at the lower of them, if there is one. None joins a rank with itself.
fn add_between(graph: &Chordal, buckets: &mut RankBuckets, first: u32, second: u32)
    requires first { first < graph.now.ranks }
    requires second { second < graph.now.ranks }
    requires fit { AreBucketsOf graph.now buckets.old }
    requires onward { buckets.old.last ≤ min first second }
    ensures { Adds graph.now.edges (IsBetween graph.now.edges first second)
        buckets.old buckets.new }
{
    let low = first.min(second);
    if let Some(edge) = graph.edge(low, first.max(second)) {
        buckets.add(edge, low);
    }
}
