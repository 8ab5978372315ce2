//! Questions of a script, each kind by the first byte of its lines, and their answers.

ghost use Rattle.std.specs.Prelude.{◌≡◌, ◌≤◌, ◌<◌, ℕ, List, true, length};
ghost use Rattle.cu_io.specs.Sinks.{Wrote};
ghost use Rattle.cu_model.specs.Queries.{query_of};
ghost use Rattle.cu_drive.specs.DriveLines.{drive_of};
ghost use Rattle.cu_day.specs.DayLines.{day_of};
ghost use Rattle.cu_reach.specs.ReachLines.{latest_of, reach_of, table_of};
ghost use Rattle.cu_session.specs.Held.{IsHeldAnswerTo, IsHeldReplyTo};
ghost use Rattle.cu_session.specs.Questions.{MayLack, asked_by_day, asked_by_drive, asked_by_latest, asked_by_query, asked_by_reach, asked_by_table, asked_of, day_question, kind_of};
ghost use Rattle.cu_session.specs.Scripts.{line_limit};

use crate::edit_lines::put_edit_reply;
use crate::refusals::{put_many_refusal, put_query_refusal};
use cu_day::{DayAsked, DayRefusal, check_day, write_day};
use cu_drive::check_drive;
use cu_io::{Sink, SinkFailed, put_all};
use cu_model::{NoMemory, Roads, check_query};
use cu_reach::{check_latest, check_reach, check_table};
use cu_router::Router;
use std::alloc::Global;

/// The kinds of line.
#[derive(Clone, Copy)]
pub enum Kind {
    Query,
    Drive,
    Day,
    Reach,
    Table,
    Latest,
    Edit,
}

/// The kind of a line, by its first byte. What is no question may be an edit.
pub(crate) fn kind_of(line: &[u8]) -> Kind
    ensures { result ≡ kind_of line.now }
{
    match line {
        [b'q', ..] => Kind::Query,
        [b'v', ..] => Kind::Drive,
        [b'd', ..] => Kind::Day,
        [b'r', ..] => Kind::Reach,
        [b't', ..] => Kind::Table,
        [b'l', ..] => Kind::Latest,
        _ => Kind::Edit,
    }
}

// Writes the reply to the text of a line; an edit is made before.
pub(crate) fn put_reply<K: Sink>(
    alloc: Global,
    router: &mut Router,
    line: &[u8],
    sink: &mut K,
) -> Result<(), SinkFailed>
    requires few { length line.now ≤ line_limit }
    ensures reply { (reply : List ℕ) × IsHeldReplyTo router.old
        (asked_of router.old.network line.now) reply router.new
        × Wrote (K.state sink.old) (K.state sink.new) result reply }
{
    match kind_of(line) {
        Kind::Query => put_query_reply(router, line, sink),
        Kind::Drive => put_drive_reply(router, line, sink),
        Kind::Day => put_day_reply(alloc, router, line, sink),
        Kind::Reach => put_reach_reply(router, line, sink),
        Kind::Table => put_table_reply(router, line, sink),
        Kind::Latest => put_latest_reply(router, line, sink),
        Kind::Edit => put_edit_reply(alloc, router, line, sink),
    }
}

// Writes the reply to the text of a query line.
fn put_query_reply<K: Sink>(
    router: &mut Router,
    line: &[u8],
    sink: &mut K,
) -> Result<(), SinkFailed>
    ensures reply { (reply : List ℕ) × IsHeldReplyTo router.old
        (asked_by_query (query_of router.old.network.nodes line.now)) reply router.new
        × Wrote (K.state sink.old) (K.state sink.new) result reply }
{
    match check_query(line, router.view().nodes()) {
        Ok(query) => router.put_answer(query, sink),
        Err(refusal) => put_query_refusal(refusal, sink),
    }
}

// Writes the reply to the text of a line that asks for the drive of a query.
fn put_drive_reply<K: Sink>(
    router: &mut Router,
    line: &[u8],
    sink: &mut K,
) -> Result<(), SinkFailed>
    ensures reply { (reply : List ℕ) × IsHeldReplyTo router.old
        (asked_by_drive (drive_of router.old.network.nodes line.now)) reply router.new
        × Wrote (K.state sink.old) (K.state sink.new) result reply }
{
    match check_drive(line, router.view().nodes()) {
        Ok(query) => router.put_drive(query, sink),
        Err(refusal) => put_query_refusal(refusal, sink),
    }
}

// Writes the reply to the text of a line that asks for a whole day.
fn put_day_reply<K: Sink>(
    alloc: Global,
    router: &mut Router,
    line: &[u8],
    sink: &mut K,
) -> Result<(), SinkFailed>
    ensures reply { (reply : List ℕ) × IsHeldReplyTo router.old
        (asked_by_day (day_of router.old.network.nodes line.now)) reply router.new
        × Wrote (K.state sink.old) (K.state sink.new) result reply }
{
    match check_day(line, router.view().nodes()) {
        Ok(query) => put_day(alloc, router, query, sink),
        Err(DayRefusal::Line) => put_all(sink, b"refused: line"),
        Err(DayRefusal::Node) => put_all(sink, b"refused: node"),
    }
}

// Writes the arrivals over a day between two nodes; that there is no way; or that there was no memory to find them.
fn put_day<K: Sink>(
    alloc: Global,
    router: &mut Router,
    query: DayAsked,
    sink: &mut K,
) -> Result<(), SinkFailed>
    requires from { query.from < router.old.network.nodes }
    requires to { query.to < router.old.network.nodes }
    ensures reply { (reply : List ℕ)
        × MayLack true reply (IsHeldAnswerTo router.old (day_question query) reply)
        × Wrote (K.state sink.old) (K.state sink.new) result reply }
    ensures stays { router.new ≡ router.old }
{
    match router.find_day(alloc, query) {
        Ok(Some(function)) => write_day(&function, sink),
        Ok(None) => put_all(sink, b"unreachable"),
        Err(NoMemory) => put_all(sink, b"no memory"),
    }
}

// Writes the reply to the text of a line that asks for all nodes.
fn put_reach_reply<K: Sink>(
    router: &mut Router,
    line: &[u8],
    sink: &mut K,
) -> Result<(), SinkFailed>
    ensures reply { (reply : List ℕ) × IsHeldReplyTo router.old
        (asked_by_reach (reach_of router.old.network.nodes line.now)) reply router.new
        × Wrote (K.state sink.old) (K.state sink.new) result reply }
{
    match check_reach(line, router.view().nodes()) {
        Ok(asked) => router.put_reach(asked, sink),
        Err(refusal) => put_many_refusal(refusal, sink),
    }
}

// Writes the reply to the text of a line that asks for a table.
fn put_table_reply<K: Sink>(
    router: &mut Router,
    line: &[u8],
    sink: &mut K,
) -> Result<(), SinkFailed>
    ensures reply { (reply : List ℕ) × IsHeldReplyTo router.old
        (asked_by_table (table_of router.old.network.nodes line.now)) reply router.new
        × Wrote (K.state sink.old) (K.state sink.new) result reply }
{
    let asked = match check_table(line, router.view().nodes()) {
        Ok(asked) => asked,
        Err(refusal) => return put_many_refusal(refusal, sink),
    };
    router.put_table(&asked, sink)
}

// Writes the reply to the text of a line that asks for the latest departure.
fn put_latest_reply<K: Sink>(
    router: &mut Router,
    line: &[u8],
    sink: &mut K,
) -> Result<(), SinkFailed>
    ensures reply { (reply : List ℕ) × IsHeldReplyTo router.old
        (asked_by_latest (latest_of router.old.network.nodes line.now)) reply router.new
        × Wrote (K.state sink.old) (K.state sink.new) result reply }
{
    match check_latest(line, router.view().nodes()) {
        Ok(asked) => router.put_latest(asked, sink),
        Err(refusal) => put_many_refusal(refusal, sink),
    }
}
