//! `trial`: queries and edits drawn over a grid, and what they come to.

ghost use Rattle.std.specs.Prelude.{◌≡◌, ◌≤◌, ◌<◌, ◌+◌, ◌++◌, IfOk, IfErr, OnOk, decimal, length, map, string_bytes};
ghost use Rattle.std.specs.List.{sum_by};
ghost use Rattle.cu_io.specs.Shelves.{ShelfState};
ghost use Rattle.cu_io.specs.Sources.{SourceState};
ghost use Rattle.cu_io.specs.Sinks.{Wrote, WroteLine};
ghost use Rattle.cu_chordal.specs.Edges.{IsClosureOf};
ghost use Rattle.cu_interval.specs.Hierarchies.{IsBuilt};
ghost use Rattle.cu_model.specs.Networks.{NetworkValue};
ghost use Rattle.cu_model.specs.declared.limits.TheConstants.{DAY};
ghost use Rattle.cu_roads.specs.Draws.{after};
ghost use Rattle.cu_roads.specs.Grids.{behind_grid};
ghost use Rattle.cu_cli.specs.Commands.Trial.{trial_of};
ghost use Rattle.cu_cli.specs.Steps.Asks.{Parses, grid_asked, trial_asked};
ghost use Rattle.cu_cli.specs.Steps.Outcomes.{Works, stop_of, world_of};
ghost use Rattle.cu_cli.specs.Steps.Trials.{IsDrawable, IsSmall, StopsGrid, standing};
ghost use Rattle.cu_cli.specs.Trials.{IsEditedBy, IsGridOrder, IsQueried, IsTried, IsTurn, drawn_edit, drawn_query, edits_text, hierarchy_text, queries_text};
ghost use Rattle.cu_cli.specs.Words.{grid_read};
ghost use Rattle.cu_cli.specs.declared.commands.trial.turns.TheConstants.{MAX_TURNS};

use crate::preparing::{Prepared, pack_prepared};
use crate::stops::Stop;
use crate::words::{GridWords, parse_grid, parse_within};
use cu_chordal::close;
use cu_dissect::dissect;
use cu_interval::{Dir, Ways};
use cu_io::{Sink, SinkFailed, end_line, put_all, put_number};
use cu_model::{DAY, Edit, Network, NoMemory, Profile, Query, Roads};
use cu_pack::PackedView;
use cu_progress::Silent;
use cu_roads::{Draws, Places, draw_day, draw_grid};
use cu_session::{ListRoom, Router};
use std::alloc::Global;

mod turns;

pub use turns::{MAX_TURNS, TrialWords};

// How many profiles a grid has.
const PROFILES: u32 = 64;

// The number, modulo 10, of a turn with an edit.
const EDITING: u32 = 9;

/// What the turns of a trial came to so far, and where its draws stand.
#[derive(Clone, Copy)]
pub struct Tally {
    draws: Draws,
    reached: u32,
    sum: u64,
    edits: u32,
    touched: u64,
}

/// The grid and the turns of the words behind `trial`; none where they are not four, or no grid and turns.
pub fn parse(words: &[String]) -> Option<TrialWords>
    ensures { Parses trial_asked (trial_of (map string_bytes words.now)) result }
{
    let [start, width, height, turns] = words else {
        return None;
    };
    Some(TrialWords {
        grid: parse_grid(start.as_str(), width.as_str(), height.as_str())?,
        turns: parse_within(turns.as_str(), 0, u64::from(MAX_TURNS))? as u32,
    })
}

/// Draws a grid, builds its hierarchy under the order of its dissection, draws and answers queries, makes an edit in
/// each tenth turn, and says what they came to. Nothing is loaded, stored or taken from a source.
pub fn trial<K: Sink>(alloc: Global, asked: TrialWords, sink: &mut K) -> Result<(), Stop>
    ensures works { (shelf : ShelfState) (source : SourceState) →
        Works (trial_asked asked) (stop_of result) (world_of shelf source (K.state sink.old))
        (world_of shelf source (K.state sink.new)) }
{
    let mut draws = Draws::new(asked.grid.start);
    let mut router = build_grid(alloc, &mut draws, asked.grid)?;
    let tried = try_grid(alloc, &mut router, draws, asked, sink);
    // Let go as its file, which is a vector, where a router has many parts.
    let _file = router.into_file();
    tried
}

// Takes the turns over the packed hierarchy of a grid, and says what they came to.
fn try_grid<K: Sink>(
    alloc: Global,
    router: &mut Router,
    draws: Draws,
    asked: TrialWords,
    sink: &mut K,
) -> Result<(), Stop>
    requires network { router.old.network ≡ (grid_read (grid_asked asked.grid)).network }
    requires order { IsGridOrder (grid_asked asked.grid) router.old.order }
    requires built { IsBuilt router.old }
    requires behind { draws ≡ behind_grid asked.grid.start asked.grid.width asked.grid.height }
    ensures works { (shelf : ShelfState) (source : SourceState) →
        Works (trial_asked asked) (stop_of result) (world_of shelf source (K.state sink.old))
        (world_of shelf source (K.state sink.new)) }
{
    let mut tally = Tally {
        draws,
        reached: 0,
        sum: 0,
        edits: 0,
        touched: 0,
    };
    take_turns(alloc, router, &mut tally, asked.turns)?;
    let view = router.view();
    say_tried(sink, &view, asked.turns, &tally)?;
    Ok(())
}

// Draws a grid, and packs its built hierarchy under the order of its dissection.
fn build_grid(alloc: Global, draws: &mut Draws, size: GridWords) -> Result<Router, Stop>
    requires start { draws.old ≡ size.start }
    ensures network { IfOk result
        (λ router. router.network ≡ (grid_read (grid_asked size)).network) }
    ensures order { IfOk result (λ router. IsGridOrder (grid_asked size) router.order) }
    ensures built { IfOk result IsBuilt }
    ensures behind { OnOk result (draws.new ≡ behind_grid size.start size.width size.height) }
    ensures err { IfErr result (StopsGrid (grid_asked size)) }
{
    let prepared = prepare_grid(alloc, draws, size)?;
    Ok(packed_router(alloc, prepared)?)
}

// Draws a grid, and closes its graph under the order of its dissection.
fn prepare_grid(alloc: Global, draws: &mut Draws, size: GridWords) -> Result<Prepared, Stop>
    requires start { draws.old ≡ size.start }
    ensures network { IfOk result
        (λ prepared. prepared.network ≡ (grid_read (grid_asked size)).network) }
    ensures order { IfOk result (λ prepared. IsGridOrder (grid_asked size) prepared.order) }
    ensures count { IfOk result
        (λ prepared. length prepared.order.node_at ≡ prepared.network.nodes) }
    ensures closed { IfOk result
        (λ prepared. IsClosureOf prepared.network prepared.order prepared.graph) }
    ensures behind { OnOk result (draws.new ≡ behind_grid size.start size.width size.height) }
    ensures err { IfErr result (StopsGrid (grid_asked size)) }
{
    let (network, places) = draw_network(alloc, draws, size)?;
    let (order, _splits) = dissect(alloc, &network, &places)?;
    let graph = close(alloc, &network, &order)?;
    Ok(Prepared {
        network,
        order,
        graph,
    })
}

// Draws the network of a grid, and the places of its nodes.
fn draw_network(
    alloc: Global,
    draws: &mut Draws,
    size: GridWords,
) -> Result<(Network, Places), Stop>
    requires start { draws.old ≡ size.start }
    ensures read { IfOk result (λ read. record { network = read.0; places = read.1 }
        ≡ grid_read (grid_asked size)) }
    ensures places { IfOk result (λ read. length read.1 ≡ read.0.nodes) }
    ensures behind { OnOk result (draws.new ≡ behind_grid size.start size.width size.height) }
    ensures err { IfErr result (StopsGrid (grid_asked size)) }
{
    Ok(draw_grid(alloc, draws, size.width, size.height)?)
}

// The packed bytes of the built hierarchy of what is prepared, and the room for its queries and edits.
fn packed_router(alloc: Global, prepared: Prepared) -> Result<Router, NoMemory>
    requires count { length prepared.order.node_at ≡ prepared.network.nodes }
    requires closed { IsClosureOf prepared.network prepared.order prepared.graph }
    ensures network { IfOk result (λ router. router.network ≡ prepared.network) }
    ensures order { IfOk result (λ router. router.order ≡ prepared.order) }
    ensures built { IfOk result IsBuilt }
{
    let bytes = pack_prepared(alloc, prepared, &mut Silent)?;
    // Only replies make lists known, and a trial asks for none.
    Router::built(alloc, bytes, ListRoom::none())
}

// Takes so many turns.
fn take_turns(
    alloc: Global,
    router: &mut Router,
    tally: &mut Tally,
    turns: u32,
) -> Result<(), NoMemory>
    requires turns { turns ≤ MAX_TURNS }
    requires built { IsBuilt router.old }
    requires drawable { IsDrawable router.old.network }
    requires none { (tally.old.reached ≡ 0) × (tally.old.edits ≡ 0) }
    requires small { IsSmall tally.old }
    ensures tried { OnOk result (IsTried router.old.order (standing router.old.network tally.old)
        turns (standing router.new.network tally.new)) }
    ensures built { OnOk result (IsBuilt router.new) }
    ensures order { OnOk result (router.new.order ≡ router.old.order) }
{
    'turns: for number in 0..turns {
        take_turn(alloc, router, tally, number)?;
    }
    Ok(())
}

// Takes the turn with this number: counts a query, and makes an edit in each tenth turn.
fn take_turn(
    alloc: Global,
    router: &mut Router,
    tally: &mut Tally,
    number: u32,
) -> Result<(), NoMemory>
    requires built { IsBuilt router.old }
    requires drawable { IsDrawable router.old.network }
    requires reached { tally.old.reached < MAX_TURNS }
    requires edits { tally.old.edits < MAX_TURNS }
    requires small { IsSmall tally.old }
    ensures turn { OnOk result (IsTurn router.old.order number
        (standing router.old.network tally.old) (standing router.new.network tally.new)) }
    ensures built { OnOk result (IsBuilt router.new) }
    ensures order { OnOk result (router.new.order ≡ router.old.order) }
    ensures drawable { OnOk result (IsDrawable router.new.network) }
    ensures reached { OnOk result (tally.new.reached ≤ tally.old.reached + 1) }
    ensures edits { OnOk result (tally.new.edits ≤ tally.old.edits + 1) }
    ensures small { OnOk result (IsSmall tally.new) }
{
    count_query(router, tally);
    if number % 10 == EDITING {
        return count_edit(alloc, router, tally);
    }
    Ok(())
}

// Draws a query, and counts it with its arrival where there is a walk.
fn count_query(router: &mut Router, tally: &mut Tally)
    requires built { IsBuilt router.old }
    requires drawable { IsDrawable router.old.network }
    requires reached { tally.old.reached < MAX_TURNS }
    requires small { IsSmall tally.old }
    ensures queried { IsQueried (standing router.old.network tally.old)
        (standing router.new.network tally.new) }
    ensures stays { router.new ≡ router.old }
    ensures reached { tally.new.reached ≤ tally.old.reached + 1 }
    ensures small { IsSmall tally.new }
{
    let query = draw_query(&mut tally.draws, count_nodes(router));
    let Some(arrival) = router.find(query) else {
        return;
    };
    tally.reached += 1;
    tally.sum += arrival;
}

// How many nodes the network has.
fn count_nodes(router: &Router) -> u32
    ensures { result ≡ router.now.network.nodes }
{
    router.view().nodes()
}

// Draws a query between nodes below so many.
fn draw_query(draws: &mut Draws, nodes: u32) -> Query
    requires { 0 < nodes }
    ensures query { result ≡ drawn_query nodes draws.old }
    ensures state { draws.new ≡ after 3 draws.old }
    ensures from { result.from < nodes }
    ensures to { result.to < nodes }
    ensures second { result.second < DAY }
{
    Query {
        from: draws.next(nodes),
        to: draws.next(nodes),
        second: draws.next(DAY),
    }
}

// Draws an edit, makes it, and counts it with the edges that it touches.
fn count_edit(alloc: Global, router: &mut Router, tally: &mut Tally) -> Result<(), NoMemory>
    requires built { IsBuilt router.old }
    requires drawable { IsDrawable router.old.network }
    requires edits { tally.old.edits < MAX_TURNS }
    requires small { IsSmall tally.old }
    ensures edited { OnOk result (IsEditedBy router.old.order
        (standing router.old.network tally.old) (standing router.new.network tally.new)) }
    ensures built { OnOk result (IsBuilt router.new) }
    ensures order { OnOk result (router.new.order ≡ router.old.order) }
    ensures drawable { OnOk result (IsDrawable router.new.network) }
    ensures small { OnOk result (IsSmall tally.new) }
{
    let edit = draw_edit(alloc, &mut tally.draws)?;
    let touched = router.edit(alloc, edit)?;
    tally.edits += 1;
    tally.touched += touched as u64;
    Ok(())
}

// Draws an edit: a day for one of the profiles of a grid.
fn draw_edit(alloc: Global, draws: &mut Draws) -> Result<Edit, NoMemory>
    ensures edit { IfOk result (λ edit. edit ≡ drawn_edit draws.old) }
    ensures state { OnOk result (draws.new ≡ after 3 draws.old) }
{
    let profile = draws.next(PROFILES);
    let day = draw_day(draws);
    let mut pieces = Vec::new(alloc);
    pieces.extend_from_slice(&day)?;
    Ok(Edit::Set {
        profile,
        pieces: Profile::of(pieces).unwrap(),
    })
}

// Says what a trial came to.
fn say_tried<K: Sink>(
    sink: &mut K,
    view: &PackedView<'_>,
    turns: u32,
    tally: &Tally,
) -> Result<(), SinkFailed>
    ensures wrote { WroteLine (K.state sink.old) (K.state sink.new) result
        (hierarchy_text view.now
        ++ queries_text turns (standing view.now.network tally.now)
        ++ edits_text (standing view.now.network tally.now)) }
{
    put_hierarchy(sink, view)?;
    put_queries(sink, turns, tally)?;
    put_edits(sink, tally)?;
    end_line(sink)
}

// Writes what a hierarchy comes to.
fn put_hierarchy<K: Sink>(sink: &mut K, view: &PackedView<'_>) -> Result<(), SinkFailed>
    ensures wrote { Wrote (K.state sink.old) (K.state sink.new) result (hierarchy_text view.now) }
{
    put_count(sink, b"nodes ", u64::from(view.nodes()))?;
    put_count(sink, b" arcs ", u64::from(view.arcs()))?;
    put_count(sink, b" edges ", u64::from(view.edges()))?;
    put_count(sink, b" entries ", count_entries(view))
}

// How many entries all lists of a hierarchy have.
fn count_entries(view: &PackedView<'_>) -> u64
    ensures { result ≡ sum_by (λ list. length list) view.now.lists }
{
    let mut entries = 0;
    'edges: for edge in 0..view.edges() {
        entries += u64::from(view.entries(edge, Dir::Up));
        entries += u64::from(view.entries(edge, Dir::Down));
    }
    entries
}

// Writes what the queries of so many turns come to.
fn put_queries<K: Sink>(sink: &mut K, turns: u32, tally: &Tally) -> Result<(), SinkFailed>
    ensures wrote { (g : NetworkValue) → Wrote (K.state sink.old) (K.state sink.new) result
        (queries_text turns (standing g tally.now)) }
{
    put_count(sink, b" queries ", u64::from(turns))?;
    put_count(sink, b" reached ", u64::from(tally.reached))?;
    put_count(sink, b" sum ", tally.sum)
}

// Writes what the edits come to.
fn put_edits<K: Sink>(sink: &mut K, tally: &Tally) -> Result<(), SinkFailed>
    ensures wrote { (g : NetworkValue) → Wrote (K.state sink.old) (K.state sink.new) result
        (edits_text (standing g tally.now)) }
{
    put_count(sink, b" edits ", u64::from(tally.edits))?;
    put_count(sink, b" touched ", tally.touched)
}

// Writes what is counted and its number.
fn put_count<K: Sink>(sink: &mut K, word: &[u8], count: u64) -> Result<(), SinkFailed>
    ensures wrote { Wrote (K.state sink.old) (K.state sink.new) result
        (word.now ++ decimal count) }
{
    put_all(sink, word)?;
    put_number(sink, count)
}
