//! `measure`: the table of the profiles that stand for measured ones, stored.

ghost use Rattle.std.specs.Prelude.{map, string_bytes};
ghost use Rattle.cu_io.specs.Sources.{SourceState};
ghost use Rattle.cu_cli.specs.Commands.Measure.{measure_of};
ghost use Rattle.cu_cli.specs.Steps.Asks.{Parses, measure_asked};
ghost use Rattle.cu_cli.specs.Steps.Outcomes.{Works, stop_of, world_of};

use crate::preparing::load_file;
use crate::saying::put_numbers_line;
use crate::stops::{Role, Stop};
use crate::storing::store_file;
use cu_io::{Shelf, Sink};
use cu_profile::write_profiles;
use cu_progress::{Progress, Stage, begin};
use cu_wait::read_measured_telling;
use std::alloc::Global;

/// The file of measured profiles, and the file that gets the table of those that stand for them.
#[derive(Clone, Copy)]
pub struct MeasureWords<'a> {
    pub measured: &'a str,
    pub out: &'a str,
}

/// What the words behind `measure` name; none where they are not two.
pub fn parse(words: &[String]) -> Option<MeasureWords<'_>>
    ensures { Parses measure_asked (measure_of (map string_bytes words.now)) result }
{
    let [measured, out] = words else {
        return None;
    };
    Some(MeasureWords {
        measured: measured.as_str(),
        out: out.as_str(),
    })
}

/// Reads measured profiles, stores the table of the profiles that stand for them and says how many they are. Nothing is taken
/// from a source.
pub fn measure<H: Shelf, K: Sink, P: Progress>(
    alloc: Global,
    asked: MeasureWords<'_>,
    shelf: &mut H,
    sink: &mut K,
    progress: &mut P,
) -> Result<(), Stop>
    ensures works { (source : SourceState) → Works (measure_asked asked.entry) (stop_of result)
        (world_of (H.state shelf.old) source (K.state sink.old))
        (world_of (H.state shelf.new) source (K.state sink.new)) }
{
    begin(progress, Stage::Reading);
    let text = load_file(alloc, Role::Profiles, asked.measured, shelf)?;
    let profiles = read_measured_telling(alloc, &text, progress)?;
    begin(progress, Stage::Packing);
    let table = write_profiles(alloc, &profiles)?;
    begin(progress, Stage::Storing);
    store_file(alloc, Role::Out, asked.out, &table, shelf)?;
    begin(progress, Stage::Done);
    put_numbers_line(sink, b"measured", &[profiles.len() as u64])?;
    Ok(())
}
