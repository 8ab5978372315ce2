//! `verify`: a packed file compared with the hierarchy that is built of its network and order.

ghost use Rattle.std.specs.Prelude.{IfOk, map, string_bytes};
ghost use Rattle.cu_io.specs.Sources.{SourceState};
ghost use Rattle.cu_cli.specs.Commands.Verify.{verify_of};
ghost use Rattle.cu_cli.specs.Steps.Asks.{Parses, verify_asked};
ghost use Rattle.cu_cli.specs.Steps.Differing.{FindsDifference};
ghost use Rattle.cu_cli.specs.Steps.Outcomes.{Works, stop_of, world_of};

use crate::opening::open_file;
use crate::stops::{Difference, Stop};
use cu_io::{Shelf, Sink, put_line};
use cu_model::NoMemory;
use cu_pack::PackedView;
use cu_progress::{Progress, Stage, begin};
use cu_verify::Verdict;
use std::alloc::Global;

/// The file of a packed hierarchy.
#[derive(Clone, Copy)]
pub struct VerifyWords<'a> {
    pub hierarchy: &'a str,
}

/// What the words behind `verify` name; none where they are not one.
pub fn parse(words: &[String]) -> Option<VerifyWords<'_>>
    ensures { Parses verify_asked (verify_of (map string_bytes words.now)) result }
{
    let [hierarchy] = words else {
        return None;
    };
    Some(VerifyWords {
        hierarchy: hierarchy.as_str(),
    })
}

/// Opens a packed file, builds the hierarchy of its network and order anew, and says that the file has the same, or stops for
/// where it first differs. Nothing is stored, and nothing taken from a source.
pub fn verify<H: Shelf, K: Sink, P: Progress>(
    alloc: Global,
    asked: VerifyWords<'_>,
    shelf: &mut H,
    sink: &mut K,
    progress: &mut P,
) -> Result<(), Stop>
    ensures works { (source : SourceState) → Works (verify_asked asked.entry) (stop_of result)
        (world_of (H.state shelf.old) source (K.state sink.old))
        (world_of (H.state shelf.new) source (K.state sink.new)) }
{
    let bytes = open_file(alloc, asked.hierarchy, shelf, progress)?;
    let view = PackedView::adopt(&bytes);
    if let Some(found) = difference(alloc, &view, progress)? {
        return Err(Stop::Differs(found));
    }
    begin(progress, Stage::Done);
    put_line(sink, b"same")?;
    Ok(())
}

// Where a packed file first differs from the built one, if it does.
fn difference<P: Progress>(
    alloc: Global,
    view: &PackedView<'_>,
    progress: &mut P,
) -> Result<Option<Difference>, NoMemory>
    ensures found { IfOk result (FindsDifference view.now) }
{
    match cu_verify::verify_telling(alloc, view, progress)? {
        Verdict::Same => Ok(None),
        Verdict::Differs {
            edge,
            dir,
            second,
            stored,
            built,
        } => Ok(Some(Difference {
            edge,
            dir,
            second,
            stored,
            built,
        })),
    }
}
