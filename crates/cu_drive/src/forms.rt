//! Forms in which walks are written.

ghost use Rattle.std.specs.Prelude.{◌≡◌, ◌≤◌, ◌^◌, ℕ, Bool, List, codes, false};
ghost use Rattle.cu_io.specs.Sinks.{Wrote};
ghost use Rattle.cu_drive.specs.RoadTexts.{entered_text, number_text};

use crate::road_text::RoadText;
use cu_io::{Sink, SinkFailed, put_all};

/// A form in which walks are written: a word, and behind it the roads in the order in which they are driven.
pub trait WalkForm {
    /// What stands before the roads.
    ghost word: { Self → List ℕ };

    /// What is written for a road: by whether it is the first of all, its number, and the second at which it is entered.
    ghost text: { Self → Bool → ℕ → ℕ → List ℕ };

    /// What stands before the roads.
    fn word(&self) -> &[u8]
        ensures { result.now ≡ word self.now };

    /// Whether what is written for a road may hang on the second at which it is entered.
    fn tells_seconds(&self) -> bool
        ensures same { result ≡ false → (first : Bool) (road s t : ℕ)
            → text self.now first road s ≡ text self.now first road t };

    /// Writes a road that is entered at an absolute second of at most 2^62. Takes no memory.
    ///
    /// Refused only where a write is: the sink's count of faults rose, and some first bytes were written.
    fn put<K: Sink>(
        &self,
        road: u32,
        second: u64,
        first: bool,
        sink: &mut K,
    ) -> Result<(), SinkFailed>
        requires time { second ≤ 2 ^ 62 }
        ensures wrote { Wrote (K.state sink.old) (K.state sink.new) result
            (text self.now first road second) };
}

/// Each road by its number.
#[derive(Clone, Copy, Drop)]
pub struct NumberAlone;

impl WalkForm for NumberAlone {
    ghost word = { λ _. codes " arcs=" };

    ghost text = { λ _ first road second. number_text first road second };

    fn word(&self) -> &[u8] {
        b" arcs="
    }

    fn tells_seconds(&self) -> bool {
        false
    }

    fn put<K: Sink>(
        &self,
        road: u32,
        _second: u64,
        first: bool,
        sink: &mut K,
    ) -> Result<(), SinkFailed> {
        let mut text = RoadText::of(u64::from(road));
        text.put_blank(first);
        put_all(sink, text.bytes())
    }
}

/// Each road by its number and, behind a comma, the second at which it is entered.
#[derive(Clone, Copy, Drop)]
pub struct WithSecond;

impl WalkForm for WithSecond {
    ghost word = { λ _. codes " drive=" };

    ghost text = { λ _ first road second. entered_text first road second };

    fn word(&self) -> &[u8] {
        b" drive="
    }

    fn tells_seconds(&self) -> bool {
        true
    }

    fn put<K: Sink>(
        &self,
        road: u32,
        second: u64,
        first: bool,
        sink: &mut K,
    ) -> Result<(), SinkFailed> {
        let mut text = RoadText::of(second);
        text.put_before(u64::from(road));
        text.put_blank(first);
        put_all(sink, text.bytes())
    }
}
