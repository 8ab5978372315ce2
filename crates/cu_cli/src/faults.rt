//! The lines that say why a run ended before its work was done.

ghost use Rattle.std.specs.Prelude.{◌≡◌, ◌++◌, codes, decimal};
ghost use Rattle.cu_io.specs.Sinks.{Wrote, WroteLine};
ghost use Rattle.cu_router.specs.Swept.{dir_word};
ghost use Rattle.cu_cli.specs.Stops.{difference_text, field_word, file_fault, file_word, measured_fault, order_fault, place_words, profile_fault, road_fault, row_fault, way_words};

use crate::stops::Difference;
use cu_interval::{Dir, Way};
use cu_io::{Sink, SinkFailed, end_line, put_all, put_number};
use cu_order::OrderRefusal;
use cu_pack::{Field, PackRefusal};
use cu_profile::ProfileRefusal;
use cu_roads::{File, RoadRefusal};
use cu_session::{put_dir, put_piece_refusal, put_word_and_long, put_word_and_number};
use cu_wait::MeasuredRefusal;

/// Writes and ends the line of a refused network.
pub fn put_network_line<K: Sink>(sink: &mut K, refusal: RoadRefusal) -> Result<(), SinkFailed>
    ensures wrote { WroteLine (K.state sink.old) (K.state sink.new) result (codes "network: " ++ road_fault refusal) }
{
    put_all(sink, b"network: ")?;
    put_road_fault(sink, refusal)?;
    end_line(sink)
}

fn put_road_fault<K: Sink>(sink: &mut K, refusal: RoadRefusal) -> Result<(), SinkFailed>
    ensures wrote { Wrote (K.state sink.old) (K.state sink.new) result (road_fault refusal) }
{
    match refusal {
        RoadRefusal::Header { file } => {
            put_all(sink, file_text(file))?;
            put_all(sink, b" header")
        }
        RoadRefusal::Fields { file, row } => put_row_fault(sink, file_text(file), row, b"fields"),
        RoadRefusal::Number { file, row } => put_row_fault(sink, file_text(file), row, b"number"),
        RoadRefusal::Sequence { file, row } => put_row_fault(
            sink,
            file_text(file),
            row,
            b"sequence",
        ),
        RoadRefusal::TooManyNodes { row } => put_row_fault(sink, b"nodes", row, b"count"),
        RoadRefusal::TooManyArcs { row } => put_row_fault(sink, b"roads", row, b"count"),
        RoadRefusal::NodeRange { row } => put_row_fault(sink, b"roads", row, b"node"),
        RoadRefusal::ProfileRange { row } => put_row_fault(sink, b"roads", row, b"profile"),
        RoadRefusal::Profiles(refusal) => put_profile_fault(sink, refusal),
        RoadRefusal::NoMemory => Ok(()),
    }
}

fn put_profile_fault<K: Sink>(sink: &mut K, refusal: ProfileRefusal) -> Result<(), SinkFailed>
    ensures wrote { Wrote (K.state sink.old) (K.state sink.new) result (profile_fault refusal) }
{
    match refusal {
        ProfileRefusal::Header => put_all(sink, b"profiles header"),
        ProfileRefusal::Fields { row } => put_row_fault(sink, b"profiles", row, b"fields"),
        ProfileRefusal::Number { row } => put_row_fault(sink, b"profiles", row, b"number"),
        ProfileRefusal::Sequence { row } => put_row_fault(sink, b"profiles", row, b"sequence"),
        ProfileRefusal::TooMany { row } => put_row_fault(sink, b"profiles", row, b"count"),
        ProfileRefusal::Row { row, refusal } => {
            put_row_fault(sink, b"profiles", row, b"")?;
            put_piece_refusal(sink, refusal)
        }
        ProfileRefusal::NoMemory => Ok(()),
    }
}

// Writes a table, a row of it and a word.
fn put_row_fault<K: Sink>(
    sink: &mut K,
    file: &[u8],
    row: u32,
    word: &[u8],
) -> Result<(), SinkFailed>
    ensures wrote { Wrote (K.state sink.old) (K.state sink.new) result
        (row_fault file.now row word.now) }
{
    put_all(sink, file)?;
    put_all(sink, b" ")?;
    put_number(sink, u64::from(row))?;
    put_all(sink, b" ")?;
    put_all(sink, word)
}

fn file_text(file: File) -> &'static [u8]
    ensures { result.now ≡ file_word file }
{
    match file {
        File::Nodes => b"nodes",
        File::Roads => b"roads",
    }
}

/// Writes and ends the line of a refused text of measured profiles.
pub fn put_measured_line<K: Sink>(sink: &mut K, refusal: MeasuredRefusal) -> Result<(), SinkFailed>
    ensures wrote { WroteLine (K.state sink.old) (K.state sink.new) result (codes "measured: " ++ measured_fault refusal) }
{
    put_all(sink, b"measured: ")?;
    put_measured_words(sink, refusal)?;
    end_line(sink)
}

fn put_measured_words<K: Sink>(sink: &mut K, refusal: MeasuredRefusal) -> Result<(), SinkFailed>
    ensures wrote { Wrote (K.state sink.old) (K.state sink.new) result (measured_fault refusal) }
{
    match refusal {
        MeasuredRefusal::Header => put_all(sink, b"header"),
        MeasuredRefusal::Fields { row } => put_number_and_word(sink, row, b" fields"),
        MeasuredRefusal::Number { row } => put_number_and_word(sink, row, b" number"),
        MeasuredRefusal::Sequence { row } => put_number_and_word(sink, row, b" sequence"),
        MeasuredRefusal::TooMany { row } => put_number_and_word(sink, row, b" count"),
        MeasuredRefusal::Mode { row } => put_number_and_word(sink, row, b" mode"),
        MeasuredRefusal::Limit { row } => put_number_and_word(sink, row, b" limit"),
        MeasuredRefusal::Start { row } => put_number_and_word(sink, row, b" start"),
        MeasuredRefusal::Rising { row } => put_number_and_word(sink, row, b" rising"),
        MeasuredRefusal::NoMemory => Ok(()),
    }
}

/// Writes and ends the line of a refused order.
pub fn put_order_line<K: Sink>(sink: &mut K, refusal: OrderRefusal) -> Result<(), SinkFailed>
    ensures wrote { WroteLine (K.state sink.old) (K.state sink.new) result (codes "order: " ++ order_fault refusal) }
{
    put_all(sink, b"order: ")?;
    put_order_words(sink, refusal)?;
    end_line(sink)
}

fn put_order_words<K: Sink>(sink: &mut K, refusal: OrderRefusal) -> Result<(), SinkFailed>
    ensures wrote { Wrote (K.state sink.old) (K.state sink.new) result (order_fault refusal) }
{
    match refusal {
        OrderRefusal::Number { row } => put_number_and_word(sink, row, b" number"),
        OrderRefusal::Range { row } => put_number_and_word(sink, row, b" range"),
        OrderRefusal::Twice { row } => put_number_and_word(sink, row, b" twice"),
        OrderRefusal::Count { rows } => put_number_and_word(sink, rows, b" count"),
        OrderRefusal::NoMemory => Ok(()),
    }
}

fn put_number_and_word<K: Sink>(sink: &mut K, number: u32, word: &[u8]) -> Result<(), SinkFailed>
    ensures wrote { Wrote (K.state sink.old) (K.state sink.new) result
        (decimal number ++ word.now) }
{
    put_number(sink, u64::from(number))?;
    put_all(sink, word)
}

/// Writes and ends the line of a file that is no packed hierarchy.
pub fn put_file_line<K: Sink>(sink: &mut K, refusal: PackRefusal) -> Result<(), SinkFailed>
    ensures wrote { WroteLine (K.state sink.old) (K.state sink.new) result (codes "file: " ++ file_fault refusal) }
{
    put_all(sink, b"file: ")?;
    put_file_fault(sink, refusal)?;
    end_line(sink)
}

fn put_file_fault<K: Sink>(sink: &mut K, refusal: PackRefusal) -> Result<(), SinkFailed>
    ensures wrote { Wrote (K.state sink.old) (K.state sink.new) result (file_fault refusal) }
{
    match refusal {
        PackRefusal::Short => put_all(sink, b"short"),
        PackRefusal::Magic => put_all(sink, b"magic"),
        PackRefusal::Version { found } => put_word_and_number(sink, b"version ", found),
        PackRefusal::Length { said, found } => put_word_and_two(sink, b"length ", said, found),
        PackRefusal::Digest => put_all(sink, b"digest"),
        PackRefusal::Limit { field } => {
            put_all(sink, b"limit ")?;
            put_all(sink, field_text(field))
        }
        PackRefusal::Size { counted, found } => put_word_and_two(sink, b"size ", counted, found),
        PackRefusal::Order { rank } => put_word_and_number(sink, b"order ", rank),
        PackRefusal::RoadArc { arc } => put_word_and_number(sink, b"arc ", arc),
        PackRefusal::Profile { number } => put_word_and_number(sink, b"profile ", number),
        PackRefusal::Graph { rank } => put_word_and_number(sink, b"graph ", rank),
        PackRefusal::Ways { edge, dir } => put_shortcut(sink, b"ways ", edge, dir),
        PackRefusal::Bound { edge, dir } => put_shortcut(sink, b"bound ", edge, dir),
        PackRefusal::NoMemory => Ok(()),
    }
}

// Writes a word, an edge and a direction.
fn put_shortcut<K: Sink>(sink: &mut K, word: &[u8], edge: u32, dir: Dir) -> Result<(), SinkFailed>
    ensures wrote { Wrote (K.state sink.old) (K.state sink.new) result
        (word.now ++ decimal edge ++ codes " " ++ dir_word dir) }
{
    put_word_and_number(sink, word, edge)?;
    put_all(sink, b" ")?;
    put_dir(sink, dir)
}

// Writes a word and two numbers.
fn put_word_and_two<K: Sink>(
    sink: &mut K,
    word: &[u8],
    first: u64,
    second: u64,
) -> Result<(), SinkFailed>
    ensures wrote { Wrote (K.state sink.old) (K.state sink.new) result
        (word.now ++ decimal first ++ codes " " ++ decimal second) }
{
    put_word_and_long(sink, word, first)?;
    put_word_and_long(sink, b" ", second)
}

/// Writes and ends the line of a hierarchy that isn't the built one.
pub fn put_difference_line<K: Sink>(sink: &mut K, found: Difference) -> Result<(), SinkFailed>
    ensures wrote { WroteLine (K.state sink.old) (K.state sink.new) result
        (difference_text found) }
{
    put_place(sink, found.edge, found.dir, found.second)?;
    put_way(sink, found.stored)?;
    put_way(sink, found.built)?;
    end_line(sink)
}

// Writes which list differs, and from which second on.
fn put_place<K: Sink>(sink: &mut K, edge: u32, dir: Dir, second: u32) -> Result<(), SinkFailed>
    ensures wrote { Wrote (K.state sink.old) (K.state sink.new) result
        (place_words edge dir second) }
{
    put_word_and_number(sink, b"differs ", edge)?;
    put_all(sink, b" ")?;
    put_dir(sink, dir)?;
    put_word_and_number(sink, b" ", second)
}

// Writes a blank and the way that a list takes.
fn put_way<K: Sink>(sink: &mut K, way: Option<Way>) -> Result<(), SinkFailed>
    ensures wrote { Wrote (K.state sink.old) (K.state sink.new) result
        (codes " " ++ way_words way) }
{
    match way {
        None => put_all(sink, b" none"),
        Some(Way::Road(arc)) => put_word_and_number(sink, b" road ", arc),
        Some(Way::Via(rank)) => put_word_and_number(sink, b" via ", rank),
    }
}

fn field_text(field: Field) -> &'static [u8]
    ensures { result.now ≡ field_word field }
{
    match field {
        Field::Nodes => b"nodes",
        Field::Arcs => b"arcs",
        Field::Profiles => b"profiles",
        Field::Edges => b"edges",
        Field::Pieces => b"pieces",
        Field::Entries => b"entries",
    }
}
