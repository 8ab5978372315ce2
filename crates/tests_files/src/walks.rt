//! Walks as relaxations that remember write them, with the seconds at which their roads are entered and without, beside those of an
//! unpacking that remembers nothing.

ghost use Rattle.std.specs.Prelude.{◌≡◌, ◌<◌, ◌*◌, ◌^◌, length};
ghost use Rattle.cu_sequences.specs.Kept.{AreSequences};
ghost use Rattle.cu_store.specs.Known.{Knows};
ghost use Rattle.cu_unpack.specs.Answers.{IsArriving};

use crate::sequences::{CHAIN, all_sequences, some_sequences};
use crate::stored::{empty_store, made_store};
use cu_drive::{NumberAlone, WalkForm, WithSecond};
use cu_interval::{Call, Dir, Relaxed, Relaxer, Ways};
use cu_io::MemorySink;
use cu_model::Roads;
use cu_pack::{PackedView, chordal_of};
use cu_recall::{Recall, Room};
use cu_samples::{BUILT, FORGED, ROW, packed};
use cu_sequences::Sequences;
use cu_store::Store;
use cu_unpack::{Unpacker, Walker, Work};
use std::alloc::Global;
use std::test::Fail;

// On both sides of where the ways and the second road of the built file change, of midnight and of the day after.
const SECONDS: [u64; 14] = [
    0, 28_739, 28_740, 28_741, 28_800, 35_799, 35_800, 35_850, 35_851, 36_000, 86_399, 86_400,
    115_139, 115_140,
];

// The walk of a call that arrives, as it is written in a form.
fn written<W: Walker, P: WalkForm>(
    alloc: Global,
    walker: &mut W,
    call: Call,
    form: &P,
) -> Result<MemorySink, Fail>
    requires edge { call.edge < length (W.hierarchy walker.old).edges }
    requires time { call.second < 2 ^ 61 }
    requires answers { IsArriving (W.hierarchy walker.old) call.edge call.dir call.second }
    ensures stays { W.hierarchy walker.new ≡ W.hierarchy walker.old }
{
    let mut sink = MemorySink::new(alloc, 1_024, Vec::new(alloc))?;
    walker.write_walk(call, true, form, &mut sink)?;
    Ok(sink)
}

// Is it the same as an unpacking writes it, and as relaxations that remember do, in this form?
fn is_written_alike<P: WalkForm>(
    alloc: Global,
    unpacker: &mut Unpacker<'_, PackedView<'_>>,
    recall: &mut Recall<'_>,
    call: Call,
    form: &P,
) -> Result<bool, Fail>
    requires same { recall.old ≡ unpacker.old }
    requires edge { call.edge < length unpacker.old.edges }
    requires time { call.second < 2 ^ 61 }
    requires answers { IsArriving unpacker.old call.edge call.dir call.second }
    ensures unpacker { unpacker.new ≡ unpacker.old }
    ensures recall { recall.new ≡ recall.old }
{
    let plain = written(alloc, unpacker, call, form)?;
    let learnt = written(alloc, recall, call, form)?;
    Ok(plain.bytes() == learnt.bytes())
}

// Are the walks the same, if there is one, with seconds and without, before relaxations that remember are asked for it?
fn is_same(
    alloc: Global,
    unpacker: &mut Unpacker<'_, PackedView<'_>>,
    recall: &mut Recall<'_>,
    edge: u32,
    dir: Dir,
    at: u64,
) -> Result<bool, Fail>
    requires same { recall.old ≡ unpacker.old }
    requires edge { edge < length unpacker.old.edges }
    ensures unpacker { unpacker.new ≡ unpacker.old }
    ensures recall { recall.new ≡ recall.old }
{
    if at >= 1 << 60 {
        return Ok(false);
    }
    let Relaxed::At(_) = unpacker.relax(edge, dir, at) else {
        return Ok(true);
    };
    let second = at;
    let call = Call { edge, dir, second };
    let seconds = is_written_alike(alloc, unpacker, recall, call, &WithSecond)?;
    let numbers = is_written_alike(alloc, unpacker, recall, call, &NumberAlone)?;
    recall.relax(edge, dir, at);
    Ok(seconds && numbers)
}

// Are they at each of the seconds, asked one after the other?
fn are_same(
    alloc: Global,
    unpacker: &mut Unpacker<'_, PackedView<'_>>,
    recall: &mut Recall<'_>,
    edge: u32,
    dir: Dir,
) -> Result<bool, Fail>
    requires same { recall.old ≡ unpacker.old }
    requires edge { edge < length unpacker.old.edges }
    ensures unpacker { unpacker.new ≡ unpacker.old }
    ensures recall { recall.new ≡ recall.old }
{
    let mut same = true;
    'seconds: for at in &SECONDS {
        same &= is_same(alloc, unpacker, recall, edge, dir, *at)?;
    }
    Ok(same)
}

// Are they over this edge, in both directions?
fn are_both_same(
    alloc: Global,
    unpacker: &mut Unpacker<'_, PackedView<'_>>,
    recall: &mut Recall<'_>,
    edge: u32,
) -> Result<bool, Fail>
    requires same { recall.old ≡ unpacker.old }
    requires edge { edge < length unpacker.old.edges }
    ensures unpacker { unpacker.new ≡ unpacker.old }
    ensures recall { recall.new ≡ recall.old }
{
    let up = are_same(alloc, unpacker, recall, edge, Dir::Up)?;
    let down = are_same(alloc, unpacker, recall, edge, Dir::Down)?;
    Ok(up && down)
}

// Are they over all edges, behind one another?
fn same_over_edges(
    alloc: Global,
    unpacker: &mut Unpacker<'_, PackedView<'_>>,
    recall: &mut Recall<'_>,
    edges: u32,
) -> Result<bool, Fail>
    requires same { recall.old ≡ unpacker.old }
    requires known { edges ≡ length unpacker.old.edges }
{
    let mut same = true;
    'edges: for edge in 0..edges {
        same &= are_both_same(alloc, unpacker, recall, edge)?;
    }
    Ok(same)
}

// Are the walks of this recall over a file those of an unpacking?
fn is_unpacked(alloc: Global, view: &PackedView<'_>, recall: &mut Recall<'_>) -> Result<bool, Fail>
    requires same { recall.old ≡ view.now }
{
    let mut unpacker = Unpacker::new(view, Work::new(alloc, view.nodes())?);
    same_over_edges(alloc, &mut unpacker, recall, view.edges())
}

// Are they, of one that knows nothing yet but these sequences and these functions?
fn same_by(
    alloc: Global,
    view: &PackedView<'_>,
    sequences: &Sequences,
    store: &Store,
) -> Result<bool, Fail>
    requires sequences { AreSequences view.now sequences.now }
    requires size { length store.now.known ≡ 2 * length view.now.edges }
    requires knows { Knows view.now store.now.known }
{
    let graph = chordal_of(alloc, view)?;
    let edges = view.edges();
    let room = Room::new(alloc, view.nodes(), edges)?;
    let mut recall = Recall::new(view, &graph, sequences, store, room);
    is_unpacked(alloc, view, &mut recall)
}

// Are they, by the sequences of all lists, of some and of none?
fn same_beside(alloc: Global, view: &PackedView<'_>, store: &Store) -> Result<bool, Fail>
    requires size { length store.now.known ≡ 2 * length view.now.edges }
    requires knows { Knows view.now store.now.known }
{
    let all = all_sequences(alloc, view);
    let some = some_sequences(alloc, view);
    let none = Sequences::none(alloc);
    let by_all = same_by(alloc, view, &all, store)?;
    let by_some = same_by(alloc, view, &some, store)?;
    let by_none = same_by(alloc, view, &none, store)?;
    Ok(by_all && by_some && by_none)
}

// Are they, by the functions of all lists and of none?
fn all_same(alloc: Global, view: &PackedView<'_>) -> Result<bool, Fail> {
    let made = made_store(alloc, view)?;
    let empty = empty_store(alloc, view);
    let by_made = same_beside(alloc, view, &made)?;
    let by_empty = same_beside(alloc, view, &empty)?;
    Ok(by_made && by_empty)
}

// Are they over a file with these bytes?
fn file_same(alloc: Global, file: &[u8]) -> Result<bool, Fail> {
    let view = PackedView::open(alloc, file)?;
    all_same(alloc, &view)
}

#[test]
fn writes_as_an_unpacking_does(rt: HostRuntime) -> Result<(), Fail> {
    let alloc = rt.alloc();
    assert!(rt; file_same(alloc, &BUILT)?);
    assert!(rt; file_same(alloc, &FORGED)?);
    assert!(rt; file_same(alloc, &packed(alloc, ROW)?)?);
    assert!(rt; file_same(alloc, &packed(alloc, CHAIN)?)?);
    Ok(())
}
