//! `edit`: a file of edits made in a packed file, and the packed file after them stored.

ghost use Rattle.std.specs.Prelude.{map, string_bytes};
ghost use Rattle.cu_io.specs.Sources.{SourceState};
ghost use Rattle.cu_cli.specs.Commands.Edit.{edit_of};
ghost use Rattle.cu_cli.specs.Steps.Asks.{Parses, edit_asked};
ghost use Rattle.cu_cli.specs.Steps.Outcomes.{Works, stop_of, world_of};

use crate::opening::open_edited;
use crate::saying::put_numbers_line;
use crate::stops::{Role, Stop};
use crate::storing::store_content;
use cu_io::{Shelf, Sink};
use cu_progress::{Progress, Stage, begin};
use cu_session::{Editor, answer_edits_telling};
use std::alloc::Global;

/// The file of a packed hierarchy, the file of its edits, and the file that gets the packed hierarchy after them.
#[derive(Clone, Copy)]
pub struct EditWords<'a> {
    pub hierarchy: &'a str,
    pub edits: &'a str,
    pub out: &'a str,
}

/// What the words behind `edit` name; none where they are not three.
pub fn parse(words: &[String]) -> Option<EditWords<'_>>
    ensures { Parses edit_asked (edit_of (map string_bytes words.now)) result }
{
    let [hierarchy, edits, out] = words else {
        return None;
    };
    Some(EditWords {
        hierarchy: hierarchy.as_str(),
        edits: edits.as_str(),
        out: out.as_str(),
    })
}

/// Opens a packed file, whose hierarchy may be built or not, makes the lines of a file of edits in it, and says of each
/// what it did. Behind the last the packed file of the hierarchy after them is stored, and its bytes said. Nothing is
/// stored where the file has more bytes than the shelf loads, where memory runs out at a line, or where the sink fails in
/// a reply. Nothing is taken from a source.
pub fn edit<H: Shelf, K: Sink, P: Progress>(
    alloc: Global,
    asked: EditWords<'_>,
    shelf: &mut H,
    sink: &mut K,
    progress: &mut P,
) -> Result<(), Stop>
    ensures works { (source : SourceState) → Works (edit_asked asked.entry) (stop_of result)
        (world_of (H.state shelf.old) source (K.state sink.old))
        (world_of (H.state shelf.new) source (K.state sink.new)) }
{
    let file = open_edited(alloc, asked.hierarchy, asked.edits, shelf, progress)?;
    let editor = Editor::new(alloc, file.hierarchy)?;
    let packed = answer_edits_telling(alloc, &editor, &file.edits, sink, progress)?;
    let length = packed.length();
    if length > shelf.limit() {
        return Err(Stop::TooLarge(length));
    }
    begin(progress, Stage::Storing);
    store_content(alloc, Role::Out, asked.out, &packed, shelf)?;
    begin(progress, Stage::Done);
    put_numbers_line(sink, b"stored", &[length])?;
    Ok(())
}
