//! Edges in buckets by rank, taken out from the lowest rank on.

ghost use Rattle.std.specs.Prelude.{◌≡◌, ◌≤◌, ◌<◌, ◌^◌, ◌↔◌, true, false, IfOk, IfSome, IsTrue, length, slice_set};
ghost use Rattle.cu_links.specs.Buckets.{IsFree, Pops, cleared};
ghost use Rattle.cu_links.specs.Steps.Bucketed.{FindsFirst};
ghost use Rattle.cu_links.specs.declared.buckets.EdgeState.TheVariants.{Held};

use cu_model::NoMemory;
use std::alloc::Global;
use std::marker::Model;

/// How an edge stands since the last clear.
#[derive(Clone, Copy)]
pub enum EdgeState {
    /// It wasn't added.
    Free,
    /// It is held at this rank.
    Held(u32),
    /// It was popped.
    Done,
}

/// Edges, each held at one rank. Those of one rank come out in any order. Contracts see the number of ranks, the state of
/// each edge, and the last rank popped since the last clear.
#[derive(Drop)]
pub struct RankBuckets {
    // The first edge held at each rank, and the one held behind each.
    firsts: Vec<Option<u32>>,
    nexts: Vec<Option<u32>>,
    states: Vec<EdgeState>,
    // No edge is held at a lower rank.
    last: u32,
}

impl Model for RankBuckets {
    ghost use Rattle.std.specs.Prelude.{length};
    ghost use Rattle.cu_links.specs.Buckets.{BucketsValue};
    ghost use Rattle.cu_links.specs.Steps.Bucketed.{AreBuckets};

    ghost Value = { BucketsValue };

    ghost view = { λ b. record {
      ranks = length b.firsts.items;
      states = b.states.items;
      last = b.last;
    } };

    ghost invariant = { λ b. AreBuckets b.firsts.items b.nexts.items b.states.items b.last };
}

impl RankBuckets {
    /// Buckets for so many ranks and edges, with nothing added.
    pub fn new(alloc: Global, ranks: u32, edges: u32) -> Result<RankBuckets, NoMemory>
        ensures { IfOk result (λ buckets. buckets ≡ cleared ranks edges) }
    {
        Ok(RankBuckets {
            firsts: vec![in alloc; None; ranks as usize]?,
            nexts: vec![in alloc; None; edges as usize]?,
            states: vec![in alloc; EdgeState::Free; edges as usize]?,
            last: 0,
        })
    }

    /// Holds an edge at a rank, and answers true. False exactly where the edge was added since the last clear: nothing
    /// changes then. The edge is below the number of edges, the rank below the number of ranks and not below the last rank
    /// popped since the last clear. Takes no memory.
    pub fn add(&mut self, edge: u32, rank: u32) -> bool
        requires edge { edge < length self.old.states }
        requires rank { rank < self.old.ranks }
        requires onward { self.old.last ≤ rank }
        ensures fresh { IsTrue result ↔ IsFree self.old edge }
        ensures held { result ≡ true
            → self.new ≡ record self.old { states = slice_set self.old.states edge (Held rank) } }
        ensures stays { result ≡ false → self.new ≡ self.old }
    {
        let EdgeState::Free = self.states[edge as usize] else {
            return false;
        };
        self.nexts[edge as usize] = self.firsts[rank as usize];
        self.firsts[rank as usize] = Some(edge);
        self.states[edge as usize] = EdgeState::Held(rank);
        true
    }

    /// Takes out an edge of the lowest rank held, and answers the edge and that rank, which is not below the last one. None
    /// exactly where no edge is held. Takes no memory.
    pub fn pop(&mut self) -> Option<(u32, u32)>
        ensures pops { Pops self.old self.new result }
        ensures onward { IfSome result
            (λ popped. (self.old.last ≤ popped.1) × (popped.1 < self.old.ranks)) }
    {
        let (edge, rank) = first_held(&self.firsts, self.last)?;
        self.firsts[rank as usize] = self.nexts[edge as usize];
        self.states[edge as usize] = EdgeState::Done;
        self.last = rank;
        Some((edge, rank))
    }

    /// Forgets all that was added, in the time of the ranks and edges. Takes no memory.
    pub fn clear(&mut self)
        ensures { self.new ≡ cleared self.old.ranks (length self.old.states) }
    {
        self.firsts.fill(None);
        self.states.fill(EdgeState::Free);
        self.last = 0;
    }
}

// The first edge of the first rank from this one on that holds any, and that rank.
fn first_held(firsts: &[Option<u32>], from: u32) -> Option<(u32, u32)>
    requires { length firsts.now < 2 ^ 32 }
    ensures { FindsFirst firsts.now from result }
{
    'ranks: for rank in from..firsts.len() as u32 {
        if let Some(edge) = firsts[rank as usize] {
            return Some((edge, rank));
        }
    }
    None
}
