//! Edit lines of a script, or of a file of edits, and what they make.

ghost use Rattle.std.specs.Prelude.{◌≡◌, ◌≤◌, ◌++◌, ℕ, List, Ok, IfOk, OnErr, codes, decimal, length};
ghost use Rattle.cu_io.specs.Sinks.{Wrote, WroteLine};
ghost use Rattle.cu_script.specs.EditLines.{edit_of};
ghost use Rattle.cu_model.specs.declared.roads.Edit.{Edit};
ghost use Rattle.cu_router.specs.Edited.{IsEdited};
ghost use Rattle.cu_interval.specs.Hierarchies.{IsHierarchy};
ghost use Rattle.cu_resettled.specs.ResettlingAll.{edited_all};
ghost use Rattle.cu_edits.specs.EditLists.{FitsList};
ghost use Rattle.cu_session.specs.AtOnce.{IsSaidOf};
ghost use Rattle.cu_session.specs.Held.{IsHeldReplyTo, edit_asked_of};
ghost use Rattle.cu_session.specs.Questions.{asked_by_edit};
ghost use Rattle.cu_session.specs.Refusals.{edit_check_words};
ghost use Rattle.cu_session.specs.Scripts.{line_limit};
ghost use Rattle.cu_session.specs.Steps.Planning.{said_text};

use crate::editing::Said;
use crate::refusals::put_piece_refusal;
use cu_edits::EditList;
use cu_io::{Sink, SinkFailed, end_line, put_all, put_number};
use cu_model::{NoMemory, Roads};
use cu_router::{HeldFile, Router};
use cu_script::{EditLine, EditRefusal, check_edit};
use std::alloc::Global;

// Writes the reply to the text of a line that is no question; an edit is made before.
pub(crate) fn put_edit_reply<K: Sink>(
    alloc: Global,
    router: &mut Router,
    line: &[u8],
    sink: &mut K,
) -> Result<(), SinkFailed>
    requires few { length line.now ≤ line_limit }
    ensures reply { (reply : List ℕ) × IsHeldReplyTo router.old
        (edit_asked_of router.old line.now) reply router.new
        × Wrote (K.state sink.old) (K.state sink.new) result reply }
{
    let view = router.view();
    let arcs = view.arcs();
    let profiles = view.profiles();
    match check_edit(line, arcs, profiles) {
        Ok(checked) => put_edited(alloc, router, checked, sink),
        Err(refusal) => put_edit_refusal(refusal, sink),
    }
}

// Adds the edit of the text of a line to a list, if it is one, and tells what is said of it. Where memory runs out the list is as
// before.
pub(crate) fn plan_edit(
    alloc: Global,
    held: &HeldFile,
    edits: &mut EditList,
    line: &[u8],
) -> Result<Said, NoMemory>
    requires few { length line.now ≤ line_limit }
    requires edits { FitsList held.now edits.old }
    ensures fits { FitsList held.now edits.new }
    ensures said { IfOk result (λ said. (made : List Edit)
        × IsSaidOf (edited_all held.now.network edits.old.edits) held.now.order
        (edit_asked_of held.now line.now) (said_text said) made
        × (edits.new.edits ≡ edits.old.edits ++ made)) }
{
    let view = held.view();
    let arcs = view.arcs();
    let profiles = view.profiles();
    match check_edit(line, arcs, profiles) {
        Ok(checked) => plan_checked(alloc, held, edits, checked),
        Err(refusal) => Ok(Said::Refused(refusal)),
    }
}

// Adds the edit of a line to a list, and tells how many edges it touches over the network as those before it leave it.
fn plan_checked(
    alloc: Global,
    held: &HeldFile,
    edits: &mut EditList,
    checked: EditLine<'_>,
) -> Result<Said, NoMemory>
    requires arcs { checked.arcs ≡ length held.now.network.arcs }
    requires profiles { checked.profiles ≡ length held.now.network.profiles }
    requires sound { IsHierarchy held.now }
    requires edits { FitsList held.now edits.old }
    ensures fits { FitsList held.now edits.new }
    ensures said { IfOk result (λ said. (made : List Edit)
        × IsSaidOf (edited_all held.now.network edits.old.edits) held.now.order
        (asked_by_edit (edit_of checked.entry.arcs checked.entry.profiles checked.entry.line))
        (said_text said) made
        × (edits.new.edits ≡ edits.old.edits ++ made)) }
{
    let edit = checked.take(alloc)?;
    let count = held.add_edit(alloc, edits, edit)?;
    Ok(Said::Done(count))
}

// Writes the line of an edit that was made and touches so many edges.
pub(crate) fn answer_done<K: Sink>(count: usize, sink: &mut K) -> Result<(), SinkFailed>
    ensures wrote { WroteLine (K.state sink.old) (K.state sink.new) result
        (codes "done " ++ decimal count) }
{
    put_done(count, sink)?;
    end_line(sink)
}

// Writes the line of an edit that fails a check.
pub(crate) fn answer_refused<K: Sink>(refusal: EditRefusal, sink: &mut K) -> Result<(), SinkFailed>
    ensures wrote { WroteLine (K.state sink.old) (K.state sink.new) result
        (codes "refused: " ++ edit_check_words refusal) }
{
    put_edit_refusal(refusal, sink)?;
    end_line(sink)
}

/// Writes how many edges an edit touches.
pub(crate) fn put_done<K: Sink>(count: usize, sink: &mut K) -> Result<(), SinkFailed>
    ensures wrote { Wrote (K.state sink.old) (K.state sink.new) result
        (codes "done " ++ decimal count) }
{
    put_all(sink, b"done ")?;
    put_number(sink, count as u64)
}

// Makes the edit of a line, and writes how many edges it touches, or that there was no memory for it.
fn put_edited<K: Sink>(
    alloc: Global,
    router: &mut Router,
    checked: EditLine<'_>,
    sink: &mut K,
) -> Result<(), SinkFailed>
    requires arcs { checked.arcs ≡ length router.old.network.arcs }
    requires profiles { checked.profiles ≡ length router.old.network.profiles }
    ensures reply { (reply : List ℕ) × IsHeldReplyTo router.old
        (asked_by_edit (edit_of checked.entry.arcs checked.entry.profiles checked.entry.line)) reply
        router.new
        × Wrote (K.state sink.old) (K.state sink.new) result reply }
{
    match make_edit(alloc, router, checked) {
        Ok(count) => put_done(count, sink),
        Err(NoMemory) => put_all(sink, b"no memory"),
    }
}

// Makes the edit of a line, and answers how many edges it touches.
fn make_edit(alloc: Global, router: &mut Router, checked: EditLine<'_>) -> Result<usize, NoMemory>
    requires arcs { checked.arcs ≡ length router.old.network.arcs }
    requires profiles { checked.profiles ≡ length router.old.network.profiles }
    ensures edited { IfOk result (λ count. (edit : Edit)
        × (edit_of checked.entry.arcs checked.entry.profiles checked.entry.line ≡ Ok edit)
        × IsEdited router.old edit router.new count) }
    ensures kept { OnErr result (router.new ≡ router.old) }
{
    let edit = checked.take(alloc)?;
    router.edit(alloc, edit)
}

/// Writes the check that an edit line fails.
pub(crate) fn put_edit_refusal<K: Sink>(
    refusal: EditRefusal,
    sink: &mut K,
) -> Result<(), SinkFailed>
    ensures wrote { Wrote (K.state sink.old) (K.state sink.new) result
        (codes "refused: " ++ edit_check_words refusal) }
{
    match refusal {
        EditRefusal::Line => put_all(sink, b"refused: line"),
        EditRefusal::Arc => put_all(sink, b"refused: arc"),
        EditRefusal::Profile => put_all(sink, b"refused: profile"),
        EditRefusal::Piece(refusal) => {
            put_all(sink, b"refused: ")?;
            put_piece_refusal(sink, refusal)
        }
    }
}
