//! The program but for its edge: words, files, script and replies, over any shelf, source and sink.

ghost use Rattle.std.specs.Prelude.{◌≡◌, ◌⊎◌, map, string_bytes};
ghost use Rattle.cu_cli.specs.Commands.{meaning_of};
ghost use Rattle.cu_cli.specs.Endings.{Ending};
ghost use Rattle.cu_cli.specs.Numbers.{AreTheNumbers};
ghost use Rattle.cu_cli.specs.Runs.{EndsRun, IsShort, MayStop, MeetsNoFault, Moves};
ghost use Rattle.cu_cli.specs.Steps.Outcomes.{Works, stop_of, world_of};
ghost use Rattle.cu_cli.specs.Stops.{status_at};
ghost use Rattle.cu_cli.specs.Storing.{Stores};
ghost use Rattle.cu_session.specs.Sessions.{Leaves};

use crate::commands::{parse_words, perform};
use crate::manner::Manner;
use crate::stops::{Stop, refuse};
use cu_io::{Shelf, Sink, Source};
use cu_progress::{Progress, Silent, Stage, begin};
use cu_session::ListRoom;
use std::alloc::Global;

/// Does all that the program does: what the words ask for, over the files of the shelf and the script of the source,
/// with the replies, and the line that says what was stored, written to the sink. Answers the program's exit status.
/// Where the sink failed, what was written are first bytes of the replies to some first lines, or of that line.
pub fn run<H: Shelf, S: Source, K: Sink>(
    alloc: Global,
    words: &Vec<String>,
    shelf: &mut H,
    source: &mut S,
    sink: &mut K,
) -> u8
    ensures ended { (ending : Ending) × (result ≡ status_at ending.stop)
        × EndsRun (H.state shelf.old) (H.state shelf.new) (S.state source.old) (S.state source.new)
        (map string_bytes words.now.items) ending
        × Moves (S.state source.old) (S.state source.new) (K.state sink.old) (K.state sink.new)
        ending
        × Stores (H.state shelf.old).held ending.stored (H.state shelf.new).held }
    ensures leaves { Leaves
        (meaning_of (map string_bytes words.now.items)).script
        result
        (S.state source.old)
        (S.state source.new)
        (K.state sink.old)
        (K.state sink.new) }
    ensures numbers { AreTheNumbers }

    // Where the words ask for what can be done with the files, nothing fails and the input has fewer than 2^40 bytes,
    // all is done but for want of memory, or for what the meaning of the words says: a packed file past the limit, or a
    // hierarchy that isn't the built one.
    ensures complete { (meaning_of (map string_bytes words.now.items)).can (H.state shelf.old)
        → IsShort (S.state source.old)
        → MeetsNoFault (H.state shelf.old) (H.state shelf.new) (S.state source.old)
        (S.state source.new) (K.state sink.old) (K.state sink.new)
        → (result ≡ 0) ⊎ (result ≡ 9)
        ⊎ MayStop (meaning_of (map string_bytes words.now.items)) result }
{
    run_telling(alloc, words, shelf, source, sink, &mut Silent)
}

/// [`run`], which tells how far long work is as it goes. Whatever is made of that, it changes no answer, byte or status.
pub fn run_telling<H: Shelf, S: Source, K: Sink, P: Progress>(
    alloc: Global,
    words: &Vec<String>,
    shelf: &mut H,
    source: &mut S,
    sink: &mut K,
    progress: &mut P,
) -> u8
    ensures ended { (ending : Ending) × (result ≡ status_at ending.stop)
        × EndsRun (H.state shelf.old) (H.state shelf.new) (S.state source.old) (S.state source.new)
        (map string_bytes words.now.items) ending
        × Moves (S.state source.old) (S.state source.new) (K.state sink.old) (K.state sink.new)
        ending
        × Stores (H.state shelf.old).held ending.stored (H.state shelf.new).held }
    ensures leaves { Leaves
        (meaning_of (map string_bytes words.now.items)).script
        result
        (S.state source.old)
        (S.state source.new)
        (K.state sink.old)
        (K.state sink.new) }
    ensures numbers { AreTheNumbers }

    // Where the words ask for what can be done with the files, nothing fails and the input has fewer than 2^40 bytes,
    // all is done but for want of memory, or for what the meaning of the words says: a packed file past the limit, or a
    // hierarchy that isn't the built one.
    ensures complete { (meaning_of (map string_bytes words.now.items)).can (H.state shelf.old)
        → IsShort (S.state source.old)
        → MeetsNoFault (H.state shelf.old) (H.state shelf.new) (S.state source.old)
        (S.state source.new) (K.state sink.old) (K.state sink.new)
        → (result ≡ 0) ⊎ (result ≡ 9)
        ⊎ MayStop (meaning_of (map string_bytes words.now.items)) result }
{
    let manner = Manner {
        progress,
        room: ListRoom::as_ever(),
    };
    run_within(alloc, words, shelf, source, sink, manner)
}

/// [`run_telling`] in a manner: it keeps to so much memory for what is known of shortcuts. That changes no answer, byte or status.
pub fn run_within<H: Shelf, S: Source, K: Sink, P: Progress>(
    alloc: Global,
    words: &Vec<String>,
    shelf: &mut H,
    source: &mut S,
    sink: &mut K,
    manner: Manner<'_, P>,
) -> u8
    ensures ended { (ending : Ending) × (result ≡ status_at ending.stop)
        × EndsRun (H.state shelf.old) (H.state shelf.new) (S.state source.old) (S.state source.new)
        (map string_bytes words.now.items) ending
        × Moves (S.state source.old) (S.state source.new) (K.state sink.old) (K.state sink.new)
        ending
        × Stores (H.state shelf.old).held ending.stored (H.state shelf.new).held }
    ensures leaves { Leaves
        (meaning_of (map string_bytes words.now.items)).script
        result
        (S.state source.old)
        (S.state source.new)
        (K.state sink.old)
        (K.state sink.new) }
    ensures numbers { AreTheNumbers }

    // Where the words ask for what can be done with the files, nothing fails and the input has fewer than 2^40 bytes,
    // all is done but for want of memory, or for what the meaning of the words says: a packed file past the limit, or a
    // hierarchy that isn't the built one.
    ensures complete { (meaning_of (map string_bytes words.now.items)).can (H.state shelf.old)
        → IsShort (S.state source.old)
        → MeetsNoFault (H.state shelf.old) (H.state shelf.new) (S.state source.old)
        (S.state source.new) (K.state sink.old) (K.state sink.new)
        → (result ≡ 0) ⊎ (result ≡ 9)
        ⊎ MayStop (meaning_of (map string_bytes words.now.items)) result }
{
    let Manner { progress, room } = manner;
    let manner = Manner {
        progress: &mut *progress,
        room,
    };
    let Err(stop) = perform_words(alloc, words, shelf, source, sink, manner) else {
        return 0;
    };
    begin(progress, Stage::Done);
    refuse(stop, sink)
}

// Does what the words ask for.
fn perform_words<H: Shelf, S: Source, K: Sink, P: Progress>(
    alloc: Global,
    words: &Vec<String>,
    shelf: &mut H,
    source: &mut S,
    sink: &mut K,
    manner: Manner<'_, P>,
) -> Result<(), Stop>
    ensures works { Works (meaning_of (map string_bytes words.now.items)) (stop_of result)
        (world_of (H.state shelf.old) (S.state source.old) (K.state sink.old))
        (world_of (H.state shelf.new) (S.state source.new) (K.state sink.new)) }
{
    let Some(command) = parse_words(words) else {
        return Err(Stop::Words);
    };
    perform(alloc, command, shelf, source, sink, manner)
}
