//! The sections of a packed file, each appended to the bytes before it.

ghost use Rattle.std.specs.Prelude.{◌≡◌, ◌<◌, ◌+◌, ◌*◌, ◌++◌, IfOk, OnOk, length, map, suc, take};
ghost use Rattle.std.specs.List.{flat_map, range_with_len};
ghost use Rattle.cu_model.specs.Roads.{pieces_of};
ghost use Rattle.cu_chordal.specs.declared.graph.Ends.{Ends};
ghost use Rattle.cu_chordal.specs.Graphs.{first_edge_of};
ghost use Rattle.cu_interval.specs.Hierarchies.{list_of};
ghost use Rattle.cu_interval.specs.declared.ways.Dir.TheVariants.{Up};
ghost use Rattle.cu_pack.specs.Layouts.{file_length};
ghost use Rattle.cu_pack.specs.Spelling.{arc_bytes, entry_bytes, header, long, piece_bytes, starts_from, total, short};

use crate::layout::Counts;
use crate::numbers::{put_arc, put_entry, put_long, put_piece, put_short};
use crate::targets::Target;
use cu_chordal::Chordal;
use cu_interval::{Dir, Hierarchy, Ways};
use cu_model::{NoMemory, Order, Roads};

// Whose file it is, the version, the counts and the length of the whole file.
pub fn put_header<T: Target>(bytes: &mut T, counts: &Counts, length: u64) -> Result<(), T::Failed>
    requires { length ≡ file_length counts.now }
    ensures { OnOk result (T.grows bytes.old bytes.new (header counts.now)) }
{
    bytes.put(b"CATCHUPH")?;
    put_short(bytes, counts.version)?;
    put_short(bytes, counts.nodes)?;
    put_short(bytes, counts.arcs)?;
    put_short(bytes, counts.profiles)?;
    put_short(bytes, counts.edges)?;
    put_long(bytes, counts.pieces)?;
    put_long(bytes, counts.entries)?;
    put_long(bytes, length)
}

// The node at each rank, and the rank of each node.
pub fn put_order(bytes: &mut Vec<u8>, order: &Order) -> Result<(), NoMemory>
    ensures { OnOk result (bytes.new.items ≡ bytes.old.items
        ++ (flat_map short order.now.node_at ++ flat_map short order.now.rank_of)) }
{
    put_nodes(bytes, order)?;
    put_ranks(bytes, order)
}

fn put_nodes(bytes: &mut Vec<u8>, order: &Order) -> Result<(), NoMemory>
    ensures { OnOk result
        (bytes.new.items ≡ bytes.old.items ++ flat_map short order.now.node_at) }
{
    for rank in 0..order.nodes() {
        put_short(bytes, order.node(rank))?;
    }
    Ok(())
}

fn put_ranks(bytes: &mut Vec<u8>, order: &Order) -> Result<(), NoMemory>
    ensures { OnOk result
        (bytes.new.items ≡ bytes.old.items ++ flat_map short order.now.rank_of) }
{
    for node in 0..order.nodes() {
        put_short(bytes, order.rank(node))?;
    }
    Ok(())
}

// The roads.
pub fn put_arcs<T: Target, R: Roads>(bytes: &mut T, roads: &R) -> Result<(), T::Failed>
    ensures { OnOk result
        (T.grows bytes.old bytes.new (flat_map arc_bytes (R.network roads.now).arcs)) }
{
    for arc in 0..roads.arcs() {
        put_arc(bytes, roads.arc(arc))?;
    }
    Ok(())
}

// How many pieces are before each profile, and in all; and the pieces.
pub fn put_profiles<T: Target, R: Roads>(bytes: &mut T, roads: &R) -> Result<(), T::Failed>
    ensures { OnOk result (T.grows bytes.old bytes.new
        (flat_map long (starts_from 0 (R.network roads.now).profiles)
        ++ flat_map (flat_map piece_bytes) (R.network roads.now).profiles)) }
{
    put_profile_starts(bytes, roads)?;
    put_all_pieces(bytes, roads)
}

fn put_profile_starts<T: Target, R: Roads>(bytes: &mut T, roads: &R) -> Result<(), T::Failed>
    ensures { OnOk result (T.grows bytes.old bytes.new
        (flat_map long (starts_from 0 (R.network roads.now).profiles))) }
{
    let mut start = 0;
    for profile in 0..roads.profiles() {
        put_long(bytes, start)?;
        start += u64::from(roads.pieces(profile));
    }
    put_long(bytes, start)
}

fn put_all_pieces<T: Target, R: Roads>(bytes: &mut T, roads: &R) -> Result<(), T::Failed>
    ensures { OnOk result (T.grows bytes.old bytes.new
        (flat_map (flat_map piece_bytes) (R.network roads.now).profiles)) }
{
    for profile in 0..roads.profiles() {
        put_pieces(bytes, roads, profile)?;
    }
    Ok(())
}

fn put_pieces<T: Target, R: Roads>(bytes: &mut T, roads: &R, profile: u32) -> Result<(), T::Failed>
    requires { profile < length (R.network roads.now).profiles }
    ensures { OnOk result (T.grows bytes.old bytes.new
        (flat_map piece_bytes (pieces_of (R.network roads.now) profile))) }
{
    for index in 0..roads.pieces(profile) {
        put_piece(bytes, roads.piece(profile, index))?;
    }
    Ok(())
}

// How many edges are before each rank, and in all; and the higher rank of each.
pub fn put_edges(bytes: &mut Vec<u8>, graph: &Chordal) -> Result<(), NoMemory>
    ensures { OnOk result (bytes.new.items ≡ bytes.old.items
        ++ (flat_map short
        (map (first_edge_of graph.now.edges) (range_with_len 0 (suc graph.now.ranks)))
        ++ flat_map short (map (λ (ends : Ends). ends.high) graph.now.edges))) }
{
    put_edge_starts(bytes, graph)?;
    put_uppers(bytes, graph)
}

fn put_edge_starts(bytes: &mut Vec<u8>, graph: &Chordal) -> Result<(), NoMemory>
    ensures { OnOk result (bytes.new.items ≡ bytes.old.items ++ flat_map short
        (map (first_edge_of graph.now.edges) (range_with_len 0 (suc graph.now.ranks)))) }
{
    for rank in 0..graph.ranks() {
        put_short(bytes, graph.first_edge(rank))?;
    }
    put_short(bytes, graph.edges())
}

fn put_uppers(bytes: &mut Vec<u8>, graph: &Chordal) -> Result<(), NoMemory>
    ensures { OnOk result (bytes.new.items ≡ bytes.old.items
        ++ flat_map short (map (λ (ends : Ends). ends.high) graph.now.edges)) }
{
    for edge in 0..graph.edges() {
        put_short(bytes, graph.ends(edge).high)?;
    }
    Ok(())
}

// How many entries are before each way list, and in all; and the entries.
pub fn put_ways(bytes: &mut Vec<u8>, hierarchy: &Hierarchy) -> Result<(), NoMemory>
    ensures { OnOk result (bytes.new.items ≡ bytes.old.items
        ++ (flat_map long (starts_from 0 hierarchy.now.lists)
        ++ flat_map (flat_map entry_bytes) hierarchy.now.lists)) }
{
    put_way_starts(bytes, hierarchy)?;
    put_all_entries(bytes, hierarchy)
}

fn put_way_starts(bytes: &mut Vec<u8>, hierarchy: &Hierarchy) -> Result<(), NoMemory>
    ensures { OnOk result (bytes.new.items
        ≡ bytes.old.items ++ flat_map long (starts_from 0 hierarchy.now.lists)) }
{
    let mut start = 0;
    for edge in 0..hierarchy.edges() {
        start = put_starts(bytes, hierarchy, edge, start)?;
    }
    put_long(bytes, start)
}

// How many entries are before both way lists of an edge; answers how many are before those of the next.
fn put_starts(
    bytes: &mut Vec<u8>,
    hierarchy: &Hierarchy,
    edge: u32,
    start: u64,
) -> Result<u64, NoMemory>
    requires edge { edge < length hierarchy.now.edges }
    requires start { start ≡ total (take (2 * edge) hierarchy.now.lists) }
    ensures put { OnOk result (bytes.new.items ≡ bytes.old.items
        ++ (long start ++ long (start + length (list_of hierarchy.now edge Up)))) }
    ensures next { IfOk result
        (λ next. next ≡ total (take (2 * (edge + 1)) hierarchy.now.lists)) }
{
    let middle = start + u64::from(hierarchy.entries(edge, Dir::Up));
    let next = middle + u64::from(hierarchy.entries(edge, Dir::Down));
    put_long(bytes, start)?;
    put_long(bytes, middle)?;
    Ok(next)
}

fn put_all_entries(bytes: &mut Vec<u8>, hierarchy: &Hierarchy) -> Result<(), NoMemory>
    ensures { OnOk result (bytes.new.items
        ≡ bytes.old.items ++ flat_map (flat_map entry_bytes) hierarchy.now.lists) }
{
    for edge in 0..hierarchy.edges() {
        put_entries(bytes, hierarchy, edge, Dir::Up)?;
        put_entries(bytes, hierarchy, edge, Dir::Down)?;
    }
    Ok(())
}

fn put_entries(
    bytes: &mut Vec<u8>,
    hierarchy: &Hierarchy,
    edge: u32,
    dir: Dir,
) -> Result<(), NoMemory>
    requires { edge < length hierarchy.now.edges }
    ensures { OnOk result (bytes.new.items
        ≡ bytes.old.items ++ flat_map entry_bytes (list_of hierarchy.now edge dir)) }
{
    for index in 0..hierarchy.entries(edge, dir) {
        put_entry(bytes, hierarchy.entry(edge, dir, index))?;
    }
    Ok(())
}
