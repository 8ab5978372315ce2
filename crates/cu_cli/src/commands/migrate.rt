//! `migrate`: the packed file, in version 2, of the hierarchy of a packed file, stored.

ghost use Rattle.std.specs.Prelude.{map, string_bytes};
ghost use Rattle.cu_io.specs.Sources.{SourceState};
ghost use Rattle.cu_cli.specs.Commands.Migrate.{migrate_of};
ghost use Rattle.cu_cli.specs.Steps.Asks.{Parses, migrate_asked};
ghost use Rattle.cu_cli.specs.Steps.Outcomes.{Works, stop_of, world_of};

use crate::opening::open_file;
use crate::saying::put_numbers_line;
use crate::stops::{Role, Stop};
use crate::storing::store_file;
use cu_io::{Shelf, Sink};
use cu_progress::{Progress, Stage, begin};
use std::alloc::Global;

/// The file of a packed hierarchy, and the file that gets it in version 2.
#[derive(Clone, Copy)]
pub struct MigrateWords<'a> {
    pub hierarchy: &'a str,
    pub out: &'a str,
}

/// What the words behind `migrate` name; none where they are not two.
pub fn parse(words: &[String]) -> Option<MigrateWords<'_>>
    ensures { Parses migrate_asked (migrate_of (map string_bytes words.now)) result }
{
    let [hierarchy, out] = words else {
        return None;
    };
    Some(MigrateWords {
        hierarchy: hierarchy.as_str(),
        out: out.as_str(),
    })
}

/// Opens a packed file of either version, whose hierarchy may be built or not, stores its packed file in version 2 and says
/// how many bytes it has. Nothing is stored where it has more bytes than the shelf loads. Nothing is taken from a source.
pub fn migrate<H: Shelf, K: Sink, P: Progress>(
    alloc: Global,
    asked: MigrateWords<'_>,
    shelf: &mut H,
    sink: &mut K,
    progress: &mut P,
) -> Result<(), Stop>
    ensures works { (source : SourceState) → Works (migrate_asked asked.entry) (stop_of result)
        (world_of (H.state shelf.old) source (K.state sink.old))
        (world_of (H.state shelf.new) source (K.state sink.new)) }
{
    let bytes = open_file(alloc, asked.hierarchy, shelf, progress)?;
    let length = bytes.len() as u64;
    if length > shelf.limit() {
        return Err(Stop::TooLarge(length));
    }
    begin(progress, Stage::Storing);
    store_file(alloc, Role::Out, asked.out, &bytes, shelf)?;
    begin(progress, Stage::Done);
    put_numbers_line(sink, b"migrated", &[length])?;
    Ok(())
}
