//! `ask`: the queries and edits of the source answered over a packed file.

ghost use Rattle.std.specs.Prelude.{map, string_bytes};
ghost use Rattle.cu_cli.specs.Commands.Ask.{ask_of};
ghost use Rattle.cu_cli.specs.Steps.Asks.{Parses, ask_asked};
ghost use Rattle.cu_cli.specs.Steps.Outcomes.{Works, stop_of, world_of};

use crate::manner::Manner;
use crate::opening::open_file;
use crate::stops::Stop;
use cu_io::{Shelf, Sink, Source};
use cu_progress::{Progress, Stage, begin};
use cu_session::answer_script;
use std::alloc::Global;

/// The file of a packed hierarchy.
#[derive(Clone, Copy)]
pub struct AskWords<'a> {
    pub hierarchy: &'a str,
}

/// What the words behind `ask` name; none where they are not one.
pub fn parse(words: &[String]) -> Option<AskWords<'_>>
    ensures { Parses ask_asked (ask_of (map string_bytes words.now)) result }
{
    let [hierarchy] = words else {
        return None;
    };
    Some(AskWords {
        hierarchy: hierarchy.as_str(),
    })
}

/// Opens a packed file, whose hierarchy may be built or not, and answers the script of the source over its bytes. All
/// that a query needs is made before the first reply; an edit takes memory of its own. Nothing is stored.
pub fn ask<H: Shelf, S: Source, K: Sink, P: Progress>(
    alloc: Global,
    asked: AskWords<'_>,
    shelf: &mut H,
    source: &mut S,
    sink: &mut K,
    manner: Manner<'_, P>,
) -> Result<(), Stop>
    ensures works { Works (ask_asked asked.entry) (stop_of result)
        (world_of (H.state shelf.old) (S.state source.old) (K.state sink.old))
        (world_of (H.state shelf.new) (S.state source.new) (K.state sink.new)) }
{
    let Manner { progress, room } = manner;
    let bytes = open_file(alloc, asked.hierarchy, shelf, progress)?;
    begin(progress, Stage::Done);
    answer_script(alloc, bytes, room, source, sink)?;
    Ok(())
}
