//! `desk`: many clients' queries over a packed file, answered while one of their edits is in work, and the packed file after the
//! edits stored.

ghost use Rattle.std.specs.Prelude.{map, string_bytes};
ghost use Rattle.cu_cli.specs.Commands.Desk.{desk_of};
ghost use Rattle.cu_cli.specs.Steps.Asks.{Parses, desk_asked};
ghost use Rattle.cu_cli.specs.Steps.Outcomes.{Works, stop_of, world_of};

use crate::manner::Manner;
use crate::opening::open_file;
use crate::saying::put_numbers_line;
use crate::stops::{Role, Stop};
use crate::storing::store_file;
use cu_desk::Desk;
use cu_io::{Shelf, Sink, Source};
use cu_progress::{Progress, Stage, begin};
use cu_session::{Router, answer_lines};
use std::alloc::Global;

/// The file of a packed hierarchy, and the file that gets the packed hierarchy that is published at the end of input.
#[derive(Clone, Copy)]
pub struct DeskWords<'a> {
    pub hierarchy: &'a str,
    pub out: &'a str,
}

/// What the words behind `desk` name; none where they are not two.
pub fn parse(words: &[String]) -> Option<DeskWords<'_>>
    ensures { Parses desk_asked (desk_of (map string_bytes words.now)) result }
{
    let [hierarchy, out] = words else {
        return None;
    };
    Some(DeskWords {
        hierarchy: hierarchy.as_str(),
        out: out.as_str(),
    })
}

/// Opens a packed file, whose hierarchy may be built or not, and answers the lines of the source by a desk over its bytes. All that
/// a query needs is made before the first reply. At the end of input the packed file of the published hierarchy is stored, and its
/// bytes said; an edit that is still in work is dropped. Nothing is stored where the file has more bytes than the shelf loads, or
/// where the source or the sink fails before.
pub fn desk<H: Shelf, S: Source, K: Sink, P: Progress>(
    alloc: Global,
    asked: DeskWords<'_>,
    shelf: &mut H,
    source: &mut S,
    sink: &mut K,
    manner: Manner<'_, P>,
) -> Result<(), Stop>
    ensures works { Works (desk_asked asked.entry) (stop_of result)
        (world_of (H.state shelf.old) (S.state source.old) (K.state sink.old))
        (world_of (H.state shelf.new) (S.state source.new) (K.state sink.new)) }
{
    let Manner { progress, room } = manner;
    let bytes = open_file(alloc, asked.hierarchy, shelf, progress)?;
    let router = Router::new(alloc, bytes, room)?;
    let mut desk = Desk::over(router);
    begin(progress, Stage::Done);
    let answered = answer_lines(alloc, &mut desk, source, sink);
    let packed = desk.into_file();
    answered?;
    let bytes = packed.as_slice();
    let length = bytes.len() as u64;
    if length > shelf.limit() {
        return Err(Stop::TooLarge(length));
    }
    begin(progress, Stage::Storing);
    store_file(alloc, Role::Out, asked.out, bytes, shelf)?;
    begin(progress, Stage::Done);
    put_numbers_line(sink, b"stored", &[length])?;
    Ok(())
}
