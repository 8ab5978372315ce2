//! The words of a refusal.

ghost use Rattle.std.specs.Prelude.{◌++◌, codes};
ghost use Rattle.cu_io.specs.Sinks.{Wrote};
ghost use Rattle.cu_session.specs.Refusals.{check_word, many_check_word, piece_refusal_words};

use cu_io::{Sink, SinkFailed, put_all};
use cu_model::{PieceFault, PieceRefusal, QueryRefusal};
use cu_reach::ManyRefusal;
use cu_router::put_word_and_number;

/// Writes why the pieces of a profile are refused.
pub fn put_piece_refusal<K: Sink>(sink: &mut K, refusal: PieceRefusal) -> Result<(), SinkFailed>
    ensures wrote { Wrote (K.state sink.old) (K.state sink.new) result
        (piece_refusal_words refusal) }
{
    match refusal {
        PieceRefusal::Kind => put_all(sink, b"kind"),
        PieceRefusal::Fault(PieceFault::Limit { .. }) => put_all(sink, b"limit"),
        PieceRefusal::Fault(PieceFault::Start) => put_all(sink, b"start"),
        PieceRefusal::Fault(PieceFault::Rising { .. }) => put_all(sink, b"rising"),
        PieceRefusal::Fault(PieceFault::Closed { .. }) => put_all(sink, b"closed"),
        PieceRefusal::Fault(PieceFault::Early { second }) => put_word_and_number(
            sink, b"early ", second,
        ),
        PieceRefusal::Fault(PieceFault::Fifo { second }) => put_word_and_number(
            sink, b"fifo ", second,
        ),
    }
}

// Writes the reply to a query line, or one that asks for the drive of a query, which fails a check.
pub(crate) fn put_query_refusal<K: Sink>(
    refusal: QueryRefusal,
    sink: &mut K,
) -> Result<(), SinkFailed>
    ensures wrote { Wrote (K.state sink.old) (K.state sink.new) result
        (codes "refused: " ++ check_word refusal) }
{
    match refusal {
        QueryRefusal::Line => put_all(sink, b"refused: line"),
        QueryRefusal::Node => put_all(sink, b"refused: node"),
        QueryRefusal::Second => put_all(sink, b"refused: second"),
    }
}

// Writes the reply to a line that fails a check for reaches, tables and latest departures.
pub(crate) fn put_many_refusal<K: Sink>(
    refusal: ManyRefusal,
    sink: &mut K,
) -> Result<(), SinkFailed>
    ensures wrote { Wrote (K.state sink.old) (K.state sink.new) result
        (codes "refused: " ++ many_check_word refusal) }
{
    match refusal {
        ManyRefusal::Line => put_all(sink, b"refused: line"),
        ManyRefusal::Node => put_all(sink, b"refused: node"),
        ManyRefusal::Second => put_all(sink, b"refused: second"),
        ManyRefusal::Limit => put_all(sink, b"refused: limit"),
    }
}
