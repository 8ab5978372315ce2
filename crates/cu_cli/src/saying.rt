//! Lines of a word and numbers.

ghost use Rattle.cu_io.specs.Sinks.{WroteLine};
ghost use Rattle.cu_cli.specs.Stops.{numbers_text};

use cu_io::{Sink, SinkFailed, end_line, put_all};
use cu_session::put_word_and_long;

/// Writes and ends a line of a word, and numbers behind it, each behind a space.
pub fn put_numbers_line<K: Sink>(
    sink: &mut K,
    word: &[u8],
    numbers: &[u64],
) -> Result<(), SinkFailed>
    ensures wrote { WroteLine (K.state sink.old) (K.state sink.new) result
        (numbers_text word.now numbers.now) }
{
    put_all(sink, word)?;
    for number in numbers {
        put_word_and_long(sink, b" ", *number)?;
    }
    end_line(sink)
}
