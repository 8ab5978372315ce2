//! Dropping the functions of lists that no later list takes a half from.

ghost use Rattle.std.specs.Prelude.{◌≡◌, ◌<◌, ◌+◌, ◌*◌, List, Option, length};
ghost use Rattle.cu_arrival.specs.declared.runs.Run.{Run};
ghost use Rattle.cu_chordal.specs.Graphs.{first_edge_of};
ghost use Rattle.cu_customize.specs.Steps.Kept.{AreDropped, DropsEdge, Keeps};

use cu_chordal::Chordal;
use cu_interval::{Dir, Shortcut};
use cu_runs::DayFunction;

/// Drops the functions of the edges to this rank from lower ones. A list takes halves from edges to its own ends alone,
/// and the lists that are still to be settled have both ends above the rank.
pub fn drop_edges_to(graph: &Chordal, rank: u32, functions: &mut [Option<DayFunction>])
    requires rank { rank < graph.now.ranks }
    requires settled { length functions.old ≡ 2 * first_edge_of graph.now.edges (rank + 1) }
    ensures keeps { (whole : List (Option (List Run)))
        → Keeps graph.now.edges (first_edge_of graph.now.edges (rank + 1)) whole functions.old
        → Keeps graph.now.edges (first_edge_of graph.now.edges (rank + 1)) whole functions.new }
    ensures dropped { AreDropped graph.now.edges rank functions.new }
{
    for middle in graph.down(rank) {
        if let Some(edge) = graph.edge(*middle, rank) {
            drop_edge(edge, functions);
        }
    }
}

// Drops the functions of both lists of an edge.
fn drop_edge(edge: u32, functions: &mut [Option<DayFunction>])
    requires { 2 * edge + 1 < length functions.old }
    ensures { DropsEdge edge functions.old functions.new }
{
    let up = Shortcut { edge, dir: Dir::Up }.list();
    functions[up] = None;
    functions[up + 1] = None;
}
