//! The program over objects that never fail.

ghost use Rattle.std.specs.Prelude.{◌≡◌, ◌≢◌, ◌⊎◌, map, string_bytes};
ghost use Rattle.cu_cli.specs.Commands.{meaning_of};
ghost use Rattle.cu_cli.specs.Endings.{Ending};
ghost use Rattle.cu_cli.specs.Numbers.{AreTheNumbers};
ghost use Rattle.cu_cli.specs.Runs.{EndsRun, IsShort, MayStop, Moves};
ghost use Rattle.cu_cli.specs.Stops.{status_at};
ghost use Rattle.cu_cli.specs.Storing.{Stores};
ghost use Rattle.cu_cli.specs.Sure.{IsFaultless, shelf_state};
ghost use Rattle.cu_session.specs.Sessions.{Leaves};

use crate::program::run;
use cu_io::{Sink, Source, SureShelf, SureSink, SureSource};
use std::alloc::Global;

/// [`run`] over a shelf, a source and a sink that never fail: no fault of theirs ends it, so its status is neither 7 nor
/// 8, and at 3 a file was too long. What [`run`] says of a run that meets no fault, it says of every one.
pub fn run_surely(
    alloc: Global,
    words: &Vec<String>,
    shelf: &mut SureShelf,
    source: &mut SureSource,
    sink: &mut SureSink,
) -> u8
    ensures source { result ≢ 7 }
    ensures sink { result ≢ 8 }
    ensures ended { (ending : Ending) × (result ≡ status_at ending.stop) × IsFaultless ending.stop
        × EndsRun (shelf_state shelf.old) (shelf_state shelf.new)
        (⟦<SureSource as Source>⟧.state source.old)
        (⟦<SureSource as Source>⟧.state source.new)
        (map string_bytes words.now.items)
        ending
        × Moves
        (⟦<SureSource as Source>⟧.state source.old)
        (⟦<SureSource as Source>⟧.state source.new)
        (⟦<SureSink as Sink>⟧.state sink.old)
        (⟦<SureSink as Sink>⟧.state sink.new)
        ending
        × Stores (shelf_state shelf.old).held ending.stored (shelf_state shelf.new).held }
    ensures leaves { Leaves
        (meaning_of (map string_bytes words.now.items)).script
        result
        (⟦<SureSource as Source>⟧.state source.old)
        (⟦<SureSource as Source>⟧.state source.new)
        (⟦<SureSink as Sink>⟧.state sink.old)
        (⟦<SureSink as Sink>⟧.state sink.new) }
    ensures numbers { AreTheNumbers }
    ensures complete { (meaning_of (map string_bytes words.now.items)).can (shelf_state shelf.old)
        → IsShort (⟦<SureSource as Source>⟧.state source.old)
        → (result ≡ 0) ⊎ (result ≡ 9)
        ⊎ MayStop (meaning_of (map string_bytes words.now.items)) result }
{
    run(alloc, words, shelf, source, sink)
}
