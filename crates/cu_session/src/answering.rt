//! The lines of a source, each answered before the next is read.

ghost use Rattle.std.specs.Prelude.{◌≡◌, ◌<◌, ◌≤◌, ℕ, List, Ok, Option, true, false, length, map};
ghost use Rattle.cu_io.specs.Sinks.{WroteLine};
ghost use Rattle.cu_interval.specs.Hierarchies.{HierarchyValue, IsBuilt};
ghost use Rattle.cu_pack.specs.Checks.{Spells};
ghost use Rattle.cu_wait.specs.Converted.{IsConverted};
ghost use Rattle.cu_wait.specs.Networks.{Measured, RawNetwork};
ghost use Rattle.cu_session.specs.Held.{IsHeldReplyTo};
ghost use Rattle.cu_session.specs.Questions.{asked_of};
ghost use Rattle.cu_session.specs.Scripts.{line_limit};
ghost use Rattle.cu_session.specs.declared.stops.SessionStop.{SessionStop};
ghost use Rattle.cu_session.specs.Sessions.{EndsLines, EndsSession, EndsWaiting, session_status, stop_of};
ghost use Rattle.cu_session.specs.Steps.Turns.{TakesTurn, left_to_read};

use crate::answerer::LineAnswerer;
use crate::questions::put_reply;
use crate::stops::SessionStop;
use crate::waiting::{WaitingRouter, keep_all};
use cu_io::{Line, LineReader, Sink, SinkFailed, Source, end_line, put_line};
use cu_router::{ListRoom, Router};
use cu_script::MAX_EDIT_LINE;
use cu_wait::MeasuredProfile;
use std::alloc::Global;

/// The most bytes of a line before its end.
pub(crate) const LINE_LIMIT: u32 = MAX_EDIT_LINE;

/// The most bytes taken in a run, 2^40.
const TAKE_LIMIT: u64 = 1 << 40;

/// Answers the lines of the source over the packed bytes of a hierarchy. All that a query needs is made before the first
/// reply. Edits change the hierarchy for the lines behind them. What is known of its lists may take so much room, on which no
/// reply depends.
pub fn answer_script<S: Source, K: Sink>(
    alloc: Global,
    bytes: Vec<u8>,
    room: ListRoom,
    source: &mut S,
    sink: &mut K,
) -> Result<(), SessionStop>
    requires spelled { (h : HierarchyValue) × Spells bytes.items h }
    ensures ended { (h : HierarchyValue) → Spells bytes.items h
        → EndsSession h (stop_of result) (S.state source.old) (S.state source.new)
        (K.state sink.old) (K.state sink.new) }
{
    let router = Router::new(alloc, bytes, room)?;
    answer_by(alloc, router, source, sink)
}

/// [`answer_script`], where the hierarchy is built.
pub fn answer_built<S: Source, K: Sink>(
    alloc: Global,
    bytes: Vec<u8>,
    room: ListRoom,
    source: &mut S,
    sink: &mut K,
) -> Result<(), SessionStop>
    requires spelled { (h : HierarchyValue) × Spells bytes.items h }
    requires built { (h : HierarchyValue) → Spells bytes.items h → IsBuilt h }
    ensures ended { (h : HierarchyValue) → Spells bytes.items h
        → EndsSession h (stop_of result) (S.state source.old) (S.state source.new)
        (K.state sink.old) (K.state sink.new) }
{
    let router = Router::built(alloc, bytes, room)?;
    answer_by(alloc, router, source, sink)
}

/// [`answer_built`] where the network is in pieces that stand for measured profiles, which are handed in: its lines are answered over
/// all walks and all waits by these, as long as no edit sets them. All that is kept of them is there before the first reply.
pub fn answer_waiting<S: Source, K: Sink>(
    alloc: Global,
    bytes: Vec<u8>,
    measured: Vec<MeasuredProfile>,
    room: ListRoom,
    source: &mut S,
    sink: &mut K,
) -> Result<(), SessionStop>
    requires spelled { (h : HierarchyValue) × Spells bytes.items h }
    requires built { (h : HierarchyValue) → Spells bytes.items h → IsBuilt h }
    ensures ended { (h : HierarchyValue) (raw : RawNetwork) → Spells bytes.items h
        → IsConverted raw h.network → raw.profiles ≡ map Measured measured.items
        → EndsWaiting raw h.order (stop_of result) (S.state source.old) (S.state source.new)
        (K.state sink.old) (K.state sink.new) }
{
    let kept = keep_all(alloc, measured)?;
    let router = Router::built(alloc, bytes, room)?;
    let mut waiting = WaitingRouter { router, kept };
    answer_lines(alloc, &mut waiting, source, sink)
}

// Answers the lines of the source from a router.
fn answer_by<S: Source, K: Sink>(
    alloc: Global,
    router: Router,
    source: &mut S,
    sink: &mut K,
) -> Result<(), SessionStop>
    ensures ended { EndsSession router (stop_of result) (S.state source.old)
        (S.state source.new) (K.state sink.old) (K.state sink.new) }
{
    let mut router = router;
    answer_lines(alloc, &mut router, source, sink)
}

/// Answers the lines of the source, each before the next is read, by whatever answers one. Its room for lines is made before the
/// first reply; where there is none nothing was taken or written.
pub fn answer_lines<A: LineAnswerer, S: Source, K: Sink>(
    alloc: Global,
    answerer: &mut A,
    source: &mut S,
    sink: &mut K,
) -> Result<(), SessionStop>
    ensures ended { EndsLines A.replies answerer.old answerer.new (stop_of result)
        (S.state source.old) (S.state source.new) (K.state sink.old) (K.state sink.new) }
{
    let mut reader = LineReader::open(alloc, LINE_LIMIT, TAKE_LIMIT)?;
    'lines: while answer_next(alloc, answerer, &mut reader, source, sink)? {}
    Ok(())
}

/// Answers the script of the source over the packed bytes of a hierarchy, built or not, and writes the replies. The status: 0
/// where the source was read to its end, 7 where it failed, 8 where the sink failed, 9 where memory ran out before the first
/// reply, and 12 where 2^40 bytes were taken and the end wasn't seen.
pub fn session<S: Source, K: Sink>(
    alloc: Global,
    bytes: Vec<u8>,
    source: &mut S,
    sink: &mut K,
) -> u8
    requires spelled { (h : HierarchyValue) × Spells bytes.items h }
    ensures ended { (h : HierarchyValue) → Spells bytes.items h → (why : Option SessionStop)
        × (result ≡ session_status why)
        × EndsSession h why (S.state source.old) (S.state source.new)
        (K.state sink.old) (K.state sink.new) }
{
    match answer_script(alloc, bytes, ListRoom::as_ever(), source, sink) {
        Ok(()) => 0,
        Err(stop) => stop.status(),
    }
}

// Answers the next line of the source; false at the end of input.
fn answer_next<A: LineAnswerer, S: Source, K: Sink>(
    alloc: Global,
    answerer: &mut A,
    reader: &mut LineReader,
    source: &mut S,
    sink: &mut K,
) -> Result<bool, SessionStop>
    requires more { reader.old.over ≡ false }
    requires limit { reader.old.line_limit ≡ line_limit }
    ensures turn { TakesTurn A.replies answerer.old answerer.new result reader.old reader.new
        (S.state source.old) (S.state source.new) (K.state sink.old) (K.state sink.new) }
    ensures limit { reader.new.line_limit ≡ line_limit }
    ensures falls { result ≡ Ok true → left_to_read reader.new < left_to_read reader.old }
{
    match reader.next_line(source) {
        Line::Text(line) => answerer.answer_line(alloc, line, sink)?,
        Line::Long => put_line(sink, b"refused: long")?,
        Line::End => return Ok(false),
        Line::Fault => return Err(SessionStop::Source),
        Line::Spent => return Err(SessionStop::TakeLimit),
    }
    Ok(true)
}

impl LineAnswerer for Router {
    ghost use Rattle.cu_session.specs.Held.{IsTextReply};

    ghost replies = { IsTextReply };

    fn answer_line<K: Sink>(
        &mut self,
        alloc: Global,
        line: &[u8],
        sink: &mut K,
    ) -> Result<(), SinkFailed> {
        answer_text(alloc, self, line, sink)
    }
}

// Writes the reply to the text of a line, ends it by a line feed and flushes the sink; an edit is made before. The line
// has at most 4,194,304 bytes. Edits and days alone take memory; where there is none they are answered so, and nothing
// has changed.
fn answer_text<K: Sink>(
    alloc: Global,
    router: &mut Router,
    line: &[u8],
    sink: &mut K,
) -> Result<(), SinkFailed>
    requires few { length line.now ≤ line_limit }
    ensures reply { (reply : List ℕ) × IsHeldReplyTo router.old
        (asked_of router.old.network line.now) reply router.new
        × WroteLine (K.state sink.old) (K.state sink.new) result reply }
{
    put_reply(alloc, router, line, sink)?;
    end_line(sink)
}
