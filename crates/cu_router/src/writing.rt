//! Words and numbers of a reply.

ghost use Rattle.std.specs.Prelude.{◌++◌, decimal};
ghost use Rattle.cu_io.specs.Sinks.{Wrote};

use cu_io::{Sink, SinkFailed};
use cu_reach::put_word_and_long;

/// Writes a word and a number.
pub fn put_word_and_number<K: Sink>(
    sink: &mut K,
    word: &[u8],
    number: u32,
) -> Result<(), SinkFailed>
    ensures wrote { Wrote (K.state sink.old) (K.state sink.new) result
        (word.now ++ decimal number) }
{
    put_word_and_long(sink, word, u64::from(number))
}
