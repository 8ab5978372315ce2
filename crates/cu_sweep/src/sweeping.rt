//! The sweeps over the ancestors of a query's start and end, in places for labels and links.

ghost use Rattle.std.specs.Prelude.{◌≡◌, ◌≢◌, ◌≤◌, ◌<◌, ◌+◌, ◌*◌, ◌^◌, ◌++◌, ◌∷◌, [], ℕ, List, Some, None, All, false, length, slice_index_or, slice_set};
ghost use Rattle.cu_links.specs.Chains.{IsOnChainTo};
ghost use Rattle.std.specs.List.{Contains};
ghost use Rattle.cu_chordal.specs.Graphs.{HasEdge};
ghost use Rattle.cu_interval.specs.Calls.{IfAt};
ghost use Rattle.cu_interval.specs.Hierarchies.{IsHierarchy, IsHierarchyOf};
ghost use Rattle.cu_sweep.specs.Sweeps.{AddsAll, first_long, is_by, until_long};
ghost use Rattle.cu_sweep.specs.Places.{KeepsLinks, calls_of_some, second_at};
ghost use Rattle.cu_sweep.specs.Swept.{IsPassed};
ghost use Rattle.cu_sweep.specs.Steps.Ahead.{FallsOff, LeadsUp};
ghost use Rattle.cu_sweep.specs.Steps.Made.{Led, made_up_after, rows_up, sweep_of, up_made};
ghost use Rattle.cu_sweep.specs.Steps.Ready.{IsReadyBy};
ghost use Rattle.cu_sweep.specs.Steps.Sweeping.{IfSecond, IsDownSwept, IsRankDown, IsUpSwept, answer_in, begun_links, call_into, is_earlier, links_after, long_by, seconds_after};

use crate::limits::Limits;
use crate::linking::Linking;
use cu_chordal::Chordal;
use cu_interval::{Call, Dir, Relaxed, Relaxer};

// An edge in a direction, with the places that it leads from and into.
#[derive(Clone, Copy)]
struct Leg {
    edge: u32,
    dir: Dir,
    from: u32,
    into: u32,
}

/// A rank that is swept down to. No higher neighbour of it is reached sooner than the second.
#[derive(Clone, Copy)]
pub(crate) struct Below {
    pub rank: u32,
    pub soonest: u64,
}

/// Relaxes the edges from a rank to its higher neighbours, by rising rank, but for those that may not be made or can't make a label
/// earlier: none is looked at where the rank is reached too late for any. Answers the first call whose walk is too long, with which it
/// ends.
pub(crate) fn lead_from<R: Relaxer, L: Limits, K: Linking>(
    graph: &Chordal,
    labels: &mut [Option<u64>],
    chain: &mut K,
    relaxer: &mut R,
    limits: &L,
    rank: u32,
) -> Option<Call>
    requires rank { rank < graph.now.ranks }
    requires graph { IsHierarchyOf graph.now (R.hierarchy relaxer.old) }
    requires known { L.knows limits.now (R.hierarchy relaxer.old) }
    requires ready { IsReadyBy K.links K.turned graph.now.ranks labels.old chain.old }
    requires unturned { K.turned chain.old ≡ false }
    requires leads { LeadsUp (R.hierarchy relaxer.old) (L.allows limits.now) rank }
    ensures ready { IsReadyBy K.links K.turned graph.now.ranks labels.new chain.new }
    ensures unturned { K.turned chain.new ≡ false }
    ensures stays { R.hierarchy relaxer.new ≡ R.hierarchy relaxer.old }
    ensures long { result ≡ first_long (R.hierarchy relaxer.old)
        (rows_up (R.hierarchy relaxer.old) (L.allows limits.now) rank (second_at labels.old rank)
        (second_at labels.old)) }
    ensures told { AddsAll (R.calls relaxer.old) (R.calls relaxer.new)
        (until_long (R.hierarchy relaxer.old)
        (rows_up (R.hierarchy relaxer.old) (L.allows limits.now) rank (second_at labels.old rank)
        (second_at labels.old))) }
    ensures swept { (q : Led) (done : List ℕ)
        → IsUpSwept (R.hierarchy relaxer.old) q done labels.old (K.links chain.old)
        → IsPassed (R.hierarchy relaxer.old) (sweep_of q) rank
        → made_up_after (R.hierarchy relaxer.old) q done rank
        ≡ up_made (R.hierarchy relaxer.old) q rank
        → q.allows ≡ L.allows limits.now
        → result ≡ None
        → IsUpSwept (R.hierarchy relaxer.old) q (done ++ (rank ∷ [])) labels.new (K.links chain.new) }
{
    if !leads_on(limits, rank, labels[rank as usize]) {
        return None;
    }
    let mut edge = graph.first_edge(rank);
    let highers = graph.up(rank);
    'edges: for higher in highers {
        let leg = Leg {
            edge,
            dir: Dir::Up,
            from: rank,
            into: *higher,
        };
        let long = relax_into(labels, chain, relaxer, limits, leg);
        if long.is_some() {
            return long;
        }
        edge += 1;
    }
    None
}

// May a call be made from a rank that is reached at this second, as far as the rank tells?
fn leads_on<L: Limits>(limits: &L, rank: u32, second: Option<u64>) -> bool
    ensures { result ≡ false → IfSecond second (λ at. L.allows limits.now rank at ≡ false) }
{
    match second {
        None => false,
        Some(second) => limits.allow(rank, second),
    }
}

/// Relaxes the edges to a rank from its higher neighbours, by rising rank, but for those that may not be made or can't make its label
/// earlier, after its downward label has begun as the upward one: none is looked at where the neighbours are reached too late for any.
/// Answers the first call whose walk is too long, with which it ends.
pub(crate) fn lead_to<R: Relaxer, L: Limits, K: Linking>(
    graph: &Chordal,
    labels: &mut [Option<u64>],
    chain: &mut K,
    relaxer: &mut R,
    limits: &L,
    below: Below,
) -> Option<Call>
    requires rank { below.rank < graph.now.ranks }
    requires graph { IsHierarchyOf graph.now (R.hierarchy relaxer.old) }
    requires known { L.knows limits.now (R.hierarchy relaxer.old) }
    requires ready { IsReadyBy K.links K.turned graph.now.ranks labels.old chain.old }
    requires unturned { K.turned chain.old ≡ false }
    requires falls { FallsOff (L.allows limits.now) }
    requires soonest { (y : ℕ) → HasEdge graph.now.edges below.rank y
        → IfSecond (second_at labels.old (graph.now.ranks + y)) (λ at. below.soonest ≤ at) }
    ensures ready { IsReadyBy K.links K.turned graph.now.ranks labels.new chain.new }
    ensures unturned { K.turned chain.new ≡ false }
    ensures stays { R.hierarchy relaxer.new ≡ R.hierarchy relaxer.old }
    ensures others { (y : ℕ) → y ≢ below.rank → second_at labels.new (graph.now.ranks + y)
        ≡ second_at labels.old (graph.now.ranks + y) }
    ensures over { (q : Led) (done : List ℕ)
        → IsDownSwept (R.hierarchy relaxer.old) q done labels.old (K.links chain.old)
        → IsPassed (R.hierarchy relaxer.old) (sweep_of q) below.rank
        → ((y : ℕ) → HasEdge graph.now.edges below.rank y → Contains done y)
        → q.allows ≡ L.allows limits.now
        → IsRankDown (R.hierarchy relaxer.old) q below.rank done
        (R.calls relaxer.old) (R.calls relaxer.new) labels.new (K.links chain.new) result }
{
    let nodes = graph.ranks();
    begin_down(labels, chain, nodes, below.rank);
    if !limits.allow(nodes + below.rank, below.soonest) {
        return None;
    }
    let mut edge = graph.first_edge(below.rank);
    let highers = graph.up(below.rank);
    'edges: for higher in highers {
        let leg = Leg {
            edge,
            dir: Dir::Down,
            from: nodes + *higher,
            into: nodes + below.rank,
        };
        let long = relax_into(labels, chain, relaxer, limits, leg);
        if long.is_some() {
            return long;
        }
        edge += 1;
    }
    None
}

// A downward label begins as the upward one, without a call of its own.
fn begin_down<K: Linking>(labels: &mut [Option<u64>], chain: &mut K, nodes: u32, rank: u32)
    requires rank { rank < nodes }
    requires ready { IsReadyBy K.links K.turned nodes labels.old chain.old }
    requires unturned { K.turned chain.old ≡ false }
    ensures ready { IsReadyBy K.links K.turned nodes labels.new chain.new }
    ensures unturned { K.turned chain.new ≡ false }
    ensures labels { labels.new ≡ slice_set labels.old (nodes + rank) (second_at labels.old rank) }
    ensures links { K.links chain.new
        ≡ begun_links (K.links chain.old) rank (nodes + rank) (second_at labels.old rank) }
{
    labels[(nodes + rank) as usize] = labels[rank as usize];
    if labels[rank as usize].is_some() {
        chain.set(nodes + rank, rank, 0);
    }
}

// Relaxes an edge from the label of one place, and gives another place the label where that is strictly earlier. Answers the
// call where its walk is too long. The call is left out where it may not be made, or where the other label is no later than any
// that it could give.
#[inline(always)]
fn relax_into<R: Relaxer, L: Limits, K: Linking>(
    labels: &mut [Option<u64>],
    chain: &mut K,
    relaxer: &mut R,
    limits: &L,
    leg: Leg,
) -> Option<Call>
    requires edge { leg.edge < length (R.hierarchy relaxer.old).edges }
    requires from { leg.from < length labels.old }
    requires into { leg.into < length labels.old }
    requires places { KeepsLinks K.links → length (K.links chain.old) ≡ length labels.old }
    requires time { IfSecond (second_at labels.old leg.from) (λ at. at < 2 ^ 61) }
    requires unturned { K.turned chain.old ≡ false }
    requires apart { IsOnChainTo (K.links chain.old) leg.into leg.from → ⊥ }
    requires sound { IsHierarchy (R.hierarchy relaxer.old) }
    requires known { L.knows limits.now (R.hierarchy relaxer.old) }
    ensures labels { labels.new ≡ seconds_after labels.old leg.into
        (answer_in (R.hierarchy relaxer.old) (L.allows limits.now leg.into) leg.edge leg.dir
        (second_at labels.old leg.from)) }
    ensures links { K.links chain.new ≡ links_after labels.old (K.links chain.old) leg.from leg.edge leg.into
        (answer_in (R.hierarchy relaxer.old) (L.allows limits.now leg.into) leg.edge leg.dir
        (second_at labels.old leg.from)) }
    ensures unturned { K.turned chain.new ≡ false }
    ensures long { result ≡ first_long (R.hierarchy relaxer.old)
        (calls_of_some (call_into (R.hierarchy relaxer.old) (L.allows limits.now) labels.old
        (Some leg.edge) leg.dir leg.from leg.into)) }
    ensures near { IfSecond (second_at labels.old leg.from)
        (λ at. IfAt (answer_in (R.hierarchy relaxer.old) (L.allows limits.now leg.into) leg.edge
        leg.dir (Some at)) (λ (arrival : ℕ). arrival ≤ at + 2 ^ 38)) }
    ensures stays { R.hierarchy relaxer.new ≡ R.hierarchy relaxer.old }
    ensures told { AddsAll (R.calls relaxer.old) (R.calls relaxer.new)
        (calls_of_some (call_into (R.hierarchy relaxer.old) (L.allows limits.now) labels.old
        (Some leg.edge) leg.dir leg.from leg.into)) }
{
    let Leg {
        edge,
        dir,
        from,
        into,
    } = leg;
    let Some(second) = labels[from as usize] else {
        return None;
    };
    let soonest = second + limits.least(relaxer, edge, dir);
    if !limits.allow(into, soonest) {
        return None;
    }
    if is_reached_by(labels[into as usize], soonest) {
        return None;
    }
    let answer = relaxer.relax(edge, dir, second);
    give(labels, chain, from, edge, into, answer);
    long_of(answer, Call { edge, dir, second })
}

// The call, where it is answered by a walk that is too long.
fn long_of(answer: Relaxed, call: Call) -> Option<Call>
    ensures { result ≡ long_by answer (Some call) }
{
    match answer {
        Relaxed::At(_) => None,
        Relaxed::NoWay => None,
        Relaxed::Long => Some(call),
    }
}

// Gives a place the label of a call that arrives, where that is strictly earlier than the label it has.
fn give<K: Linking>(
    labels: &mut [Option<u64>],
    chain: &mut K,
    from: u32,
    edge: u32,
    into: u32,
    answer: Relaxed,
)
    requires from { from < length labels.old }
    requires into { into < length labels.old }
    requires places { KeepsLinks K.links → length (K.links chain.old) ≡ length labels.old }
    requires unturned { K.turned chain.old ≡ false }
    requires apart { IsOnChainTo (K.links chain.old) into from → ⊥ }
    ensures labels { labels.new ≡ seconds_after labels.old into answer }
    ensures links { K.links chain.new ≡ links_after labels.old (K.links chain.old) from edge into answer }
    ensures unturned { K.turned chain.new ≡ false }
{
    if let Relaxed::At(arrival) = answer {
        if is_earlier_than(arrival, labels[into as usize]) {
            labels[into as usize] = Some(arrival);
            chain.set(into, from, u64::from(edge));
        }
    }
}

// Whether an arrival is earlier than a second, or there is none.
fn is_earlier_than(arrival: u64, second: Option<u64>) -> bool
    ensures { result ≡ is_earlier arrival second }
{
    match second {
        None => true,
        Some(second) => arrival < second,
    }
}

// Whether there is a second, no later than another.
fn is_reached_by(second: Option<u64>, soonest: u64) -> bool
    ensures { result ≡ is_by second soonest }
{
    match second {
        None => false,
        Some(second) => second <= soonest,
    }
}
