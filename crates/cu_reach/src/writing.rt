//! Writing the replies to lines that ask for more than one answer.

ghost use Rattle.std.specs.Prelude.{◌≡◌, ◌<◌, ◌≤◌, ◌+◌, ◌++◌, [], ℕ, All, OnOk, codes, decimal, length};
ghost use Rattle.std.specs.List.{range_with_len};
ghost use Rattle.cu_io.specs.Sinks.{Wrote};
ghost use Rattle.cu_reach.specs.declared.block.TheConstants.{LONGEST, SIZE};
ghost use Rattle.cu_reach.specs.declared.reaching.Reached.TheVariants.{Done};
ghost use Rattle.cu_reach.specs.Reaching.{HoldsLabels, HoldsReached, HoldsTimes};
ghost use Rattle.cu_reach.specs.ReachTexts.{damage_text, dir_text, reach_text, row_then, time_text, times_at, times_text};
ghost use Rattle.cu_reach.specs.Steps.Gathering.{Gathered};

use crate::block::Block;
use crate::reaching::{ReachDesk, Reached};
use crate::tables::NodeFields;
use cu_interval::{Dir, Ways};
use cu_io::{Sink, SinkFailed, put_all, put_number};

/// Writes what a reach found of all nodes, by rising number: `reach`, and for each node a blank and when the reach comes to it, or
/// `-`; or that the walk of a relaxation is too long. The desk was made for as many nodes, and no other reach was made on it
/// since. No line end is written. Takes no memory.
///
/// Refused only where a write is: the count of faults rose, and some first bytes of the text were written.
pub fn put_reach<W: Ways, K: Sink>(
    ways: &W,
    desk: &ReachDesk,
    reached: Reached,
    sink: &mut K,
) -> Result<(), SinkFailed>
    requires desk { length desk.now ≡ (W.hierarchy ways.now).network.nodes }
    ensures wrote { (from second : ℕ)
        → HoldsReached (W.hierarchy ways.now) from second reached desk.now
        → Wrote (K.state sink.old) (K.state sink.new) result
        (reach_text (W.hierarchy ways.now) from second reached) }
{
    match reached {
        Reached::Done => put_done(ways, desk, sink),
        Reached::Long { edge, dir, second } => put_damage(edge, dir, second, sink),
    }
}

/// Writes the row of a table: for each of these nodes a blank and when the reach comes to it, or `-`; or a blank and that the walk
/// of a relaxation is too long. Nodes and desk are of the hierarchy, and no other reach was made on the desk since. Takes no
/// memory.
///
/// Refused only where a write is: the count of faults rose, and some first bytes of the text were written.
pub fn put_row<W: Ways, K: Sink>(
    ways: &W,
    desk: &ReachDesk,
    reached: Reached,
    targets: NodeFields<'_>,
    sink: &mut K,
) -> Result<(), SinkFailed>
    requires desk { length desk.now ≡ (W.hierarchy ways.now).network.nodes }
    requires targets { All (λ node. node < (W.hierarchy ways.now).network.nodes) targets }
    ensures wrote { (from second : ℕ)
        → HoldsReached (W.hierarchy ways.now) from second reached desk.now
        → Wrote (K.state sink.old) (K.state sink.new) result
        (row_then (W.hierarchy ways.now) from second targets.entry reached []) }
{
    match reached {
        Reached::Done => put_times(ways, desk, targets, sink),
        Reached::Long { edge, dir, second } => put_end(edge, dir, second, sink),
    }
}

// Writes when the reach comes to each of all nodes.
fn put_done<W: Ways, K: Sink>(ways: &W, desk: &ReachDesk, sink: &mut K) -> Result<(), SinkFailed>
    requires desk { length desk.now ≡ (W.hierarchy ways.now).network.nodes }
    ensures wrote { (from second : ℕ) → HoldsLabels (W.hierarchy ways.now) from second desk.now
        → Wrote (K.state sink.old) (K.state sink.new) result
        (reach_text (W.hierarchy ways.now) from second Done) }
{
    put_all(sink, b"reach")?;
    put_all_times(ways, desk, sink)
}

// Writes the times of all nodes.
fn put_all_times<W: Ways, K: Sink>(
    ways: &W,
    desk: &ReachDesk,
    sink: &mut K,
) -> Result<(), SinkFailed>
    requires desk { length desk.now ≡ (W.hierarchy ways.now).network.nodes }
    ensures wrote { (from second : ℕ) → HoldsLabels (W.hierarchy ways.now) from second desk.now
        → Wrote (K.state sink.old) (K.state sink.new) result
        (times_text (times_at (W.hierarchy ways.now) from second
        (range_with_len 0 (W.hierarchy ways.now).network.nodes))) }
{
    let mut block = Block::new();
    'nodes: for node in 0..ways.ranks() {
        put_time(&mut block, sink, desk.label(ways.rank(node)))?;
    }
    put_all(sink, block.text())
}

/// Writes the row of a table of which the times of these nodes are known: for each a blank and when the reach comes to it, or `-`.
/// Nodes and desk are of the hierarchy, and no other reach was made on the desk since. Takes no memory.
///
/// Refused only where a write is: the count of faults rose, and some first bytes of the text were written.
pub fn put_times<W: Ways, K: Sink>(
    ways: &W,
    desk: &ReachDesk,
    nodes: NodeFields<'_>,
    sink: &mut K,
) -> Result<(), SinkFailed>
    requires desk { length desk.now ≡ (W.hierarchy ways.now).network.nodes }
    requires nodes { All (λ node. node < (W.hierarchy ways.now).network.nodes) nodes }
    ensures wrote { (from second : ℕ)
        → HoldsTimes (W.hierarchy ways.now) from second nodes.entry desk.now
        → Wrote (K.state sink.old) (K.state sink.new) result
        (times_text (times_at (W.hierarchy ways.now) from second nodes.entry)) }
{
    let mut block = Block::new();
    'nodes: for node in nodes {
        put_time(&mut block, sink, desk.label(ways.rank(node)))?;
    }
    put_all(sink, block.text())
}

// Adds an arrival, or that there is none, to a block, which is written first where it has no room.
fn put_time<K: Sink>(block: &mut Block, sink: &mut K, time: Option<u64>) -> Result<(), SinkFailed>
    ensures gathered { Gathered (K.state sink.old) (K.state sink.new) result block.old block.new
        (time_text time) }
{
    make_room(block, sink)?;
    block.add(time);
    Ok(())
}

// Writes a block where it has no room for one more time.
fn make_room<K: Sink>(block: &mut Block, sink: &mut K) -> Result<(), SinkFailed>
    ensures gathered { Gathered (K.state sink.old) (K.state sink.new) result block.old block.new
        [] }
    ensures room { OnOk result (length block.new + LONGEST ≤ SIZE) }
{
    if block.has_room() {
        return Ok(());
    }
    put_all(sink, block.text())?;
    block.clear();
    Ok(())
}

// Writes what ends a table: behind a blank, that the walk of a relaxation is too long.
fn put_end<K: Sink>(edge: u32, dir: Dir, second: u64, sink: &mut K) -> Result<(), SinkFailed>
    ensures wrote { Wrote (K.state sink.old) (K.state sink.new) result
        (codes " " ++ damage_text edge dir second) }
{
    put_all(sink, b" ")?;
    put_damage(edge, dir, second, sink)
}

/// Writes that the walk of a relaxation is too long.
pub fn put_damage<K: Sink>(edge: u32, dir: Dir, second: u64, sink: &mut K) -> Result<(), SinkFailed>
    ensures wrote { Wrote (K.state sink.old) (K.state sink.new) result
        (damage_text edge dir second) }
{
    put_word_and_long(sink, b"damaged ", u64::from(edge))?;
    put_all(sink, b" ")?;
    put_dir(sink, dir)?;
    put_word_and_long(sink, b" ", second)
}

/// Writes a direction.
pub fn put_dir<K: Sink>(sink: &mut K, dir: Dir) -> Result<(), SinkFailed>
    ensures wrote { Wrote (K.state sink.old) (K.state sink.new) result (dir_text dir) }
{
    match dir {
        Dir::Up => put_all(sink, b"up"),
        Dir::Down => put_all(sink, b"down"),
    }
}

/// Writes a word and a number.
pub fn put_word_and_long<K: Sink>(sink: &mut K, word: &[u8], number: u64) -> Result<(), SinkFailed>
    ensures wrote { Wrote (K.state sink.old) (K.state sink.new) result (word.now ++ decimal number) }
{
    put_all(sink, word)?;
    put_number(sink, number)
}
