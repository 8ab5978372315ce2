//! A text of edits, made together, and answered line by line.

ghost use Rattle.std.specs.Prelude.{◌≡◌, ◌∷◌, ◌++◌, ◌<◌, ◌==◌, List, IfErr, IfOk, None, Some, position, length};
ghost use Rattle.cu_io.specs.Lines.{lines_of, without_return};
ghost use Rattle.cu_io.specs.Sinks.{WroteLine};
ghost use Rattle.cu_model.specs.declared.roads.Edit.{Edit};
ghost use Rattle.cu_interval.specs.Hierarchies.{HierarchyValue};
ghost use Rattle.cu_resettled.specs.ResettlingAll.{edited_all};
ghost use Rattle.cu_edits.specs.EditLists.{FitsList};
ghost use Rattle.cu_session.specs.AtOnce.{AreSaid, IsSaid};
ghost use Rattle.cu_session.specs.Sessions.{EndsEdits, stop_of};
ghost use Rattle.cu_session.specs.Steps.Planning.{WritesText, said_text, said_texts};

use crate::answering::LINE_LIMIT;
use crate::edit_lines::{answer_done, answer_refused, plan_edit};
use crate::stops::SessionStop;
use cu_edits::EditList;
use cu_io::{Sink, SinkFailed, put_line};
use cu_model::NoMemory;
use cu_progress::{Progress, Silent, Stage, Telling, begin};
use cu_router::{EditedFile, Editor, HeldFile, Router};
use cu_script::EditRefusal;
use std::alloc::Global;

/// The packed file that the edits of a text leave, made all together; then it writes the replies to its lines: each is that of the
/// network as the edits before it leave it, and each edge that some of them touches is settled once. A query line is refused, as
/// it is no edit line. Where memory runs out nothing is made or written; where the sink fails in the reply to a line, all were
/// made. How much of the text is read, and how many edges are settled, is told as it goes.
pub fn answer_edits_telling<'a, K: Sink, P: Progress>(
    alloc: Global,
    editor: &'a Editor,
    text: &[u8],
    sink: &mut K,
    progress: &mut P,
) -> Result<EditedFile<'a>, SessionStop>
    ensures ended { IfOk result (λ file. EndsEdits editor.now file text.now None
        (K.state sink.old) (K.state sink.new)) }
    ensures stopped { IfErr result (λ stop. (after : HierarchyValue)
        × EndsEdits editor.now after text.now (Some stop) (K.state sink.old) (K.state sink.new)) }
{
    let (edits, said) = plan_edits(alloc, editor.held(), text, progress)?;
    let file = editor.edit_all(alloc, edits, progress)?;
    begin(progress, Stage::Done);
    put_all_said(&said, sink)?;
    Ok(file)
}

/// The same in a router, which makes the edits in what it holds, and tells nothing.
pub fn answer_edits<K: Sink>(
    alloc: Global,
    router: &mut Router,
    text: &[u8],
    sink: &mut K,
) -> Result<(), SessionStop>
    ensures ended { EndsEdits router.old router.new text.now (stop_of result)
        (K.state sink.old) (K.state sink.new) }
{
    let (list, replies) = plan_edits(alloc, router.held(), text, &mut Silent)?;
    router.edit_all(alloc, &list, &mut Silent)?;
    put_all_said(&replies, sink)?;
    Ok(())
}

/// What is said of a line of edits.
#[derive(Clone, Copy)]
pub(crate) enum Said {
    /// It is longer than a line may be.
    Long,
    /// It fails a check.
    Refused(EditRefusal),
    /// Its edit is made, and touches so many edges.
    Done(u32),
}

// The edits of the lines of a text, in turn, and what is said of each line. None is made yet.
fn plan_edits<P: Progress>(
    alloc: Global,
    held: &HeldFile,
    text: &[u8],
    progress: &mut P,
) -> Result<(EditList, Vec<Said>), NoMemory>
    ensures fits { IfOk result (λ (edits, said). FitsList held.now edits) }
    ensures said { IfOk result (λ (edits, said). AreSaid held.now.network held.now.order
        (lines_of text.now) (said_texts said.items) edits.edits) }
{
    let mut telling = Telling::begin(progress, Stage::Editing, text.len() as u64);
    let mut edits = held.begin_edits(alloc)?;
    let mut said = Vec::new(alloc);
    let mut rest = text;
    'lines: while !rest.is_empty() {
        let (line, behind) = cut_line(rest);
        said.push(plan_line(alloc, held, &mut edits, line)?)?;
        telling.add((line.len() as u64).saturating_add(1));
        rest = behind;
    }
    Ok((edits, said))
}

// Adds the edit of a line to a list, if it is one, and tells what is said of the line.
fn plan_line(
    alloc: Global,
    held: &HeldFile,
    edits: &mut EditList,
    line: &[u8],
) -> Result<Said, NoMemory>
    requires edits { FitsList held.now edits.old }
    ensures fits { FitsList held.now edits.new }
    ensures said { IfOk result (λ said. (made : List Edit)
        × IsSaid (edited_all held.now.network edits.old.edits) held.now.order line.now
        (said_text said) made × (edits.new.edits ≡ edits.old.edits ++ made)) }
{
    if line.len() > LINE_LIMIT as usize {
        return Ok(Said::Long);
    }
    plan_edit(alloc, held, edits, trim_return(line))
}

// Writes what is said of all lines, each ended by a line feed.
fn put_all_said<K: Sink>(said: &[Said], sink: &mut K) -> Result<(), SinkFailed>
    ensures wrote { WritesText result (said_texts said.now) (K.state sink.old) (K.state sink.new) }
{
    for one in said {
        put_said(*one, sink)?;
    }
    Ok(())
}

fn put_said<K: Sink>(said: Said, sink: &mut K) -> Result<(), SinkFailed>
    ensures wrote { WroteLine (K.state sink.old) (K.state sink.new) result (said_text said) }
{
    match said {
        Said::Long => put_line(sink, b"refused: long"),
        Said::Refused(refusal) => answer_refused(refusal, sink),
        Said::Done(count) => answer_done(count as usize, sink),
    }
}

// The first line of a text, without its line feed, and what stands behind it.
fn cut_line(text: &[u8]) -> (&[u8], &[u8])
    requires some { 0 < length text.now }
    ensures lines { lines_of text.now ≡ result.0.now ∷ lines_of result.1.now }
    ensures shorter { length result.1.now < length text.now }
{
    match line_feed(text) {
        Some(end) => (&text[..end], &text[end + 1..]),
        None => (text, &text[..0]),
    }
}

fn line_feed(text: &[u8]) -> Option<usize>
    ensures { result ≡ position (λ byte. byte == 10) text.now }
{
    text.iter().position(|byte| *byte == b'\n')
}

// A line without one carriage return at its end.
fn trim_return(line: &[u8]) -> &[u8]
    ensures { result.now ≡ without_return line.now }
{
    match line {
        [front @ .., b'\r'] => front,
        _ => line,
    }
}
