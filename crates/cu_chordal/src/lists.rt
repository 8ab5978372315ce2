//! Chordal graphs from two lists.

ghost use Rattle.std.specs.Prelude.{◌≡◌, ◌≤◌, ◌<◌, ◌+◌, ◌-◌, Some, IfOk, length, slice_get};
ghost use Rattle.cu_model.specs.declared.limits.TheConstants.{MAX_NODES};
ghost use Rattle.cu_chordal.specs.Graphs.{IsChordal};
ghost use Rattle.cu_chordal.specs.Lists.{EndWith, EntriesAreHigher, EntriesAreJoined, NeverFall, PartsRise, edges_of_lists};
ghost use Rattle.cu_chordal.specs.Steps.Listing.{AreLows};

use crate::graph::{Chordal, MAX_EDGES};
use crate::table::EdgeTable;
use cu_model::NoMemory;
use std::alloc::Global;

impl Chordal {
    /// The graph that two lists hold. `starts` has where each rank's part begins in `uppers`, and behind these where
    /// the last part ends; an edge leads from each rank to each entry of its part. A part rises from above its rank,
    /// and of any two entries the greater is in the part of the lesser. There are at most 262,144 ranks and
    /// [`MAX_EDGES`] edges. The lists become the graph's own.
    pub fn of_lists(alloc: Global, starts: Vec<u32>, uppers: Vec<u32>) -> Result<Chordal, NoMemory>
        requires few_ranks { length starts.items ≤ MAX_NODES + 1 }
        requires few_edges { length uppers.items ≤ MAX_EDGES }
        requires first { slice_get starts.items 0 ≡ Some 0 }
        requires starts_rise { NeverFall starts.items }
        requires whole { EndWith starts.items uppers.items }
        requires parts_rise { PartsRise starts.items uppers.items }
        requires higher { EntriesAreHigher starts.items uppers.items }
        requires joined { EntriesAreJoined starts.items uppers.items }
        ensures ranks { IfOk result (λ graph. graph.ranks ≡ length starts.items - 1) }
        ensures edges { IfOk result
            (λ graph. graph.edges ≡ edges_of_lists starts.items uppers.items) }
        ensures sound { IfOk result IsChordal }
    {
        let ranks = (starts.len() - 1) as u32;
        let lows = lower_ends(alloc, ranks, &starts, &uppers)?;
        let table = EdgeTable {
            lows,
            starts,
            highs: uppers,
        };
        Chordal::of_table(alloc, ranks, table)
    }
}

// The lower end of each edge: as many times each rank as its part has entries.
fn lower_ends(
    alloc: Global,
    ranks: u32,
    starts: &[u32],
    uppers: &[u32],
) -> Result<Vec<u32>, NoMemory>
    requires long { length starts.now ≡ ranks + 1 }
    requires first { slice_get starts.now 0 ≡ Some 0 }
    requires starts_rise { NeverFall starts.now }
    requires whole { EndWith starts.now uppers.now }
    ensures { IfOk result (λ lows. AreLows starts.now uppers.now lows.items) }
{
    let mut lows = Vec::with_capacity(alloc, uppers.len())?;
    for rank in 0..ranks {
        lows.resize(starts[rank as usize + 1] as usize, rank)?;
    }
    Ok(lows)
}
