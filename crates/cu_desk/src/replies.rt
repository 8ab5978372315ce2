//! The reply to each line of a desk.

ghost use Rattle.std.specs.Prelude.{◌≡◌, ◌≤◌, ◌<◌, ◌++◌, ℕ, List, IsOk, None, Ok, codes, decimal, length};
ghost use Rattle.cu_io.specs.Sinks.{Wrote, WroteLine};
ghost use Rattle.cu_model.specs.declared.limits.TheConstants.{DAY};
ghost use Rattle.cu_model.specs.Queries.{fields_of_line, query_of};
ghost use Rattle.cu_model.specs.declared.roads.Edit.{Edit};
ghost use Rattle.cu_interval.specs.Hierarchies.{IsHierarchy};
ghost use Rattle.cu_script.specs.EditLines.{edit_of};
ghost use Rattle.cu_session.specs.Refusals.{piece_refusal_words};
ghost use Rattle.cu_session.specs.Scripts.{line_limit};
ghost use Rattle.cu_desk.specs.DeskLines.{asked_by_edit, asked_by_query, checked_client, client_asked, desk_asked_of};
ghost use Rattle.cu_desk.specs.HeldDesks.{IsHeldDeskReply, MakesHeld, TouchesHeld, state_of};
ghost use Rattle.cu_desk.specs.Machine.{AsksCancel, AsksQuery, Begins, FailsFor, said_to};
ghost use Rattle.cu_desk.specs.Says.{begun_text, cancel_text, stepped_text};
ghost use Rattle.cu_desk.specs.Steps.Refused.{IsRefusal};

use crate::begun::Begun;
use crate::desk::Desk;
use crate::lines::{ClientText, Kind, MAX_CLIENT, cut_client, kind_of};
use crate::stepped::Stepped;
use cu_io::{Sink, SinkFailed, end_line, put_all, put_number};
use cu_model::{PieceRefusal, Query, QueryRefusal, Roads, check_query};
use cu_router::put_word_and_number;
use cu_script::{EditLine, EditRefusal, check_edit};
use cu_session::{LineAnswerer, put_piece_refusal};
use std::alloc::Global;

impl LineAnswerer for Desk {
    ghost use Rattle.cu_desk.specs.HeldDesks.{IsHeldDeskText};

    ghost replies = { IsHeldDeskText };

    fn answer_line<K: Sink>(
        &mut self,
        alloc: Global,
        line: &[u8],
        sink: &mut K,
    ) -> Result<(), SinkFailed> {
        answer_text(alloc, self, line, sink)
    }
}

// Writes the reply to the text of a line, ends it by a line feed and flushes the sink; what the line asks for is done before.
fn answer_text<K: Sink>(
    alloc: Global,
    desk: &mut Desk,
    line: &[u8],
    sink: &mut K,
) -> Result<(), SinkFailed>
    requires few { length line.now ≤ line_limit }
    ensures reply { (reply : List ℕ) × IsHeldDeskReply desk.old
        (desk_asked_of desk.old.published.network line.now) reply desk.new
        × WroteLine (K.state sink.old) (K.state sink.new) result reply }
{
    put_reply(alloc, desk, line, sink)?;
    end_line(sink)
}

// Writes the reply to the text of a line; what the line asks for is done before.
fn put_reply<K: Sink>(
    alloc: Global,
    desk: &mut Desk,
    line: &[u8],
    sink: &mut K,
) -> Result<(), SinkFailed>
    requires few { length line.now ≤ line_limit }
    ensures reply { (reply : List ℕ) × IsHeldDeskReply desk.old
        (desk_asked_of desk.old.published.network line.now) reply desk.new
        × Wrote (K.state sink.old) (K.state sink.new) result reply }
{
    if line == b"step".as_slice() {
        let stepped = desk.step(alloc);
        return put_stepped(stepped, sink);
    }
    match cut_client(line) {
        Some(asked) => put_client_reply(alloc, desk, asked, sink),
        None => put_all(sink, b"refused: line"),
    }
}

// Writes the reply to what stands behind a client's number.
fn put_client_reply<K: Sink>(
    alloc: Global,
    desk: &mut Desk,
    asked: ClientText<'_>,
    sink: &mut K,
) -> Result<(), SinkFailed>
    requires few { length asked.text.now ≤ line_limit }
    ensures reply { (reply : List ℕ) × IsHeldDeskReply desk.old
        (client_asked desk.old.published.network.nodes (length desk.old.published.network.arcs)
        (length desk.old.published.network.profiles) asked.entry.client (fields_of_line asked.entry.text.now))
        reply desk.new
        × Wrote (K.state sink.old) (K.state sink.new) result reply }
{
    match kind_of(asked.text) {
        Kind::Query => put_query_reply(desk, asked, sink),
        Kind::Cancel => put_cancel_reply(desk, asked.client, sink),
        Kind::Edit => put_edit_reply(alloc, desk, asked, sink),
    }
}

// Writes the reply to a query line.
fn put_query_reply<K: Sink>(
    desk: &mut Desk,
    asked: ClientText<'_>,
    sink: &mut K,
) -> Result<(), SinkFailed>
    ensures reply { (reply : List ℕ) × IsHeldDeskReply desk.old (checked_client asked.entry.client
        (asked_by_query asked.entry.client (query_of desk.old.published.network.nodes asked.entry.text.now)))
        reply desk.new
        × Wrote (K.state sink.old) (K.state sink.new) result reply }
{
    let nodes = desk.view().nodes();
    match check_query(asked.text, nodes) {
        Ok(query) => put_query(desk, asked.client, query, sink),
        Err(QueryRefusal::Line) => put_all(sink, b"refused: line"),
        Err(QueryRefusal::Node) => put_refused(asked.client, b"node", sink),
        Err(QueryRefusal::Second) => put_refused(asked.client, b"second", sink),
    }
}

// Writes the reply to a query over what is published, or that there is no such client.
fn put_query<K: Sink>(
    desk: &mut Desk,
    client: u32,
    query: Query,
    sink: &mut K,
) -> Result<(), SinkFailed>
    requires sound { IsHierarchy desk.old.published }
    requires from { query.from < desk.old.published.network.nodes }
    requires to { query.to < desk.old.published.network.nodes }
    requires second { query.second < DAY }
    ensures reply { (reply : List ℕ) × IsHeldDeskReply desk.old
        (checked_client client (AsksQuery client query)) reply desk.new
        × Wrote (K.state sink.old) (K.state sink.new) result reply }
{
    if client > MAX_CLIENT {
        return put_all(sink, b"refused: client");
    }
    put_client(client, sink)?;
    desk.put_answer(query, sink)
}

// Drops the client's edit in work, and writes whether there was one, or that there is no such client.
fn put_cancel_reply<K: Sink>(desk: &mut Desk, client: u32, sink: &mut K) -> Result<(), SinkFailed>
    ensures reply { (reply : List ℕ) × IsHeldDeskReply desk.old
        (checked_client client (AsksCancel client)) reply desk.new
        × Wrote (K.state sink.old) (K.state sink.new) result reply }
{
    if client > MAX_CLIENT {
        return put_all(sink, b"refused: client");
    }
    let is_cancelled = desk.cancel(client);
    put_client(client, sink)?;
    put_all(sink, cancel_word(is_cancelled))
}

// What is said of a cancel.
fn cancel_word(is_cancelled: bool) -> &'static [u8]
    ensures { result.now ≡ cancel_text is_cancelled }
{
    if is_cancelled {
        b"cancelled"
    } else {
        b"refused: none"
    }
}

// Writes the reply to an edit line; the edit is begun before.
fn put_edit_reply<K: Sink>(
    alloc: Global,
    desk: &mut Desk,
    asked: ClientText<'_>,
    sink: &mut K,
) -> Result<(), SinkFailed>
    requires few { length asked.text.now ≤ line_limit }
    ensures reply { (reply : List ℕ) × IsHeldDeskReply desk.old (checked_client asked.entry.client
        (asked_by_edit asked.entry.client (edit_of (length desk.old.published.network.arcs)
        (length desk.old.published.network.profiles) asked.entry.text.now))) reply desk.new
        × Wrote (K.state sink.old) (K.state sink.new) result reply }
{
    let view = desk.view();
    let arcs = view.arcs();
    let profiles = view.profiles();
    match check_edit(asked.text, arcs, profiles) {
        Ok(checked) => put_edit(alloc, desk, asked.client, checked, sink),
        Err(EditRefusal::Line) => put_all(sink, b"refused: line"),
        Err(EditRefusal::Arc) => put_refused(asked.client, b"arc", sink),
        Err(EditRefusal::Profile) => put_refused(asked.client, b"profile", sink),
        Err(EditRefusal::Piece(refusal)) => put_piece_refused(asked.client, refusal, sink),
    }
}

// Begins the edit of a line while none is in work, and writes what came of it, or that there is no such client.
fn put_edit<K: Sink>(
    alloc: Global,
    desk: &mut Desk,
    client: u32,
    checked: EditLine<'_>,
    sink: &mut K,
) -> Result<(), SinkFailed>
    requires sound { IsOk (edit_of checked.arcs checked.profiles checked.line) }
    requires arcs { checked.arcs ≡ length desk.old.published.network.arcs }
    requires profiles { checked.profiles ≡ length desk.old.published.network.profiles }
    ensures reply { (reply : List ℕ) × IsHeldDeskReply desk.old (checked_client client
        (asked_by_edit client
        (edit_of checked.entry.arcs checked.entry.profiles checked.entry.line))) reply desk.new
        × Wrote (K.state sink.old) (K.state sink.new) result reply }
{
    if client > MAX_CLIENT {
        return put_all(sink, b"refused: client");
    }
    if let Some(owner) = desk.owner() {
        put_client(client, sink)?;
        return put_word_and_number(sink, b"busy ", owner);
    }
    let begun = begin_checked(alloc, desk, client, checked);
    put_client(client, sink)?;
    put_begun(begun, sink)
}

// Begins the edit of a line while none is in work.
fn begin_checked(alloc: Global, desk: &mut Desk, client: u32, checked: EditLine<'_>) -> Begun
    requires idle { desk.old.work ≡ None }
    requires sound { IsOk (edit_of checked.arcs checked.profiles checked.line) }
    requires arcs { checked.arcs ≡ length desk.old.published.network.arcs }
    requires profiles { checked.profiles ≡ length desk.old.published.network.profiles }
    ensures begun { (edit : Edit)
        × (edit_of checked.entry.arcs checked.entry.profiles checked.entry.line ≡ Ok edit)
        × Begins TouchesHeld MakesHeld (state_of desk.old) client edit
        (said_to client (begun_text result)) (state_of desk.new) }
{
    match checked.take(alloc) {
        Ok(edit) => desk.begin(alloc, client, edit),
        Err(_none) => Begun::NoMemory,
    }
}

// Writes the check that a client's line fails, or that there is no such client.
fn put_refused<K: Sink>(client: u32, word: &[u8], sink: &mut K) -> Result<(), SinkFailed>
    ensures reply { (reply : List ℕ)
        × IsRefusal (checked_client client (FailsFor client word.now)) reply
        × Wrote (K.state sink.old) (K.state sink.new) result reply }
{
    if client > MAX_CLIENT {
        return put_all(sink, b"refused: client");
    }
    put_client(client, sink)?;
    put_all(sink, b"refused: ")?;
    put_all(sink, word)
}

// Writes why the pieces of a client's profile are refused, or that there is no such client.
fn put_piece_refused<K: Sink>(
    client: u32,
    refusal: PieceRefusal,
    sink: &mut K,
) -> Result<(), SinkFailed>
    ensures reply { (reply : List ℕ)
        × IsRefusal (checked_client client (FailsFor client (piece_refusal_words refusal))) reply
        × Wrote (K.state sink.old) (K.state sink.new) result reply }
{
    if client > MAX_CLIENT {
        return put_all(sink, b"refused: client");
    }
    put_client(client, sink)?;
    put_all(sink, b"refused: ")?;
    put_piece_refusal(sink, refusal)
}

// Writes whose reply follows.
fn put_client<K: Sink>(client: u32, sink: &mut K) -> Result<(), SinkFailed>
    ensures wrote { Wrote (K.state sink.old) (K.state sink.new) result
        (decimal client ++ codes " ") }
{
    put_number(sink, u64::from(client))?;
    put_all(sink, b" ")
}

// Writes what a step did.
fn put_stepped<K: Sink>(stepped: Stepped, sink: &mut K) -> Result<(), SinkFailed>
    ensures wrote { Wrote (K.state sink.old) (K.state sink.new) result (stepped_text stepped) }
{
    match stepped {
        Stepped::Idle => put_all(sink, b"idle"),
        Stepped::Left(edges) => put_word_and_number(sink, b"left ", edges),
        Stepped::Published(client) => put_word_and_number(sink, b"published ", client),
        Stepped::NoMemory => put_all(sink, b"no memory"),
    }
}

// Writes what the beginning of an edit did.
fn put_begun<K: Sink>(begun: Begun, sink: &mut K) -> Result<(), SinkFailed>
    ensures wrote { Wrote (K.state sink.old) (K.state sink.new) result (begun_text begun) }
{
    match begun {
        Begun::Done => put_all(sink, b"done 0"),
        Begun::Begun(edges) => put_word_and_number(sink, b"begun ", edges),
        Begun::NoMemory => put_all(sink, b"no memory"),
    }
}
