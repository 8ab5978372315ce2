//! What is known of one list.

ghost use Rattle.std.specs.Prelude.{◌≡◌, ◌≤◌, ◌<◌, ◌↔◌, ℕ, IfSome, IsTrue};
ghost use Rattle.cu_interval.specs.Hierarchies.{HierarchyValue};
ghost use Rattle.cu_recall.specs.Spans.{HasSecond, HoldsMet, HoldsRow, HoldsSpan, met_of};
ghost use Rattle.cu_recall.specs.Windows.{HoldsDriven, IsWindow};

use crate::kept::Kept;
use std::mem::size_of;

/// Seconds of the day, `seconds` of them from `from` on, at each of which a list's walk takes `travel` seconds over `roads`
/// roads. Where there are none it says nothing.
#[derive(Clone, Copy, PartialEq, Eq)]
pub struct Span {
    pub from: u32,
    pub seconds: u16,
    pub roads: u16,
    pub travel: u32,
}

/// What a way consists of: one road, by its number, or two halves, by the numbers of their lists, in the order driven.
#[derive(Clone, Copy, PartialEq, Eq)]
pub enum Parts {
    Road(u32),
    Halves { first: u32, second: u32 },
}

/// The parts of the way in force at each second of the day from `from` until before `until`. Where there is no such second
/// it says nothing.
#[derive(Clone, Copy, PartialEq, Eq)]
pub struct Met {
    pub from: u32,
    pub until: u32,
    pub parts: Parts,
}

/// What is known of one list: the latest span, the widest that was met in each third of the day, and the entry met last.
///
/// It has as many bytes as a line of the processor's cache. The C library lets a large table begin 16 bytes behind the start
/// of a line, so the spans, which most calls need alone, come first: all four are then on one line.
#[derive(Clone, Copy, PartialEq, Eq)]
pub struct Row {
    pub latest: Span,
    pub early: Span,
    pub noon: Span,
    pub late: Span,
    pub met: Kept,
}

/// What driving a list from a second of the day takes, and for how many seconds before it, and how many from it on, that
/// stays the same.
#[derive(Clone, Copy, PartialEq, Eq)]
pub struct Driven {
    pub back: u32,
    pub ahead: u32,
    pub travel: u64,
    pub roads: u32,
}

/// How many thirds a day has.
pub const THIRDS: u32 = 3;

// Where the second and the last third of the day begin.
const SECOND_THIRD: u32 = 28_800;

const LAST_THIRD: u32 = 57_600;

const _: () = prove!(size_of::<Row>() == 64);

/// The third of the day that has this second, counted from 0. A number past the day's last second is of the last third.
pub fn third_of(second: u32) -> u32
    ensures { result < 3 }
{
    if second < SECOND_THIRD {
        0
    } else if second < LAST_THIRD {
        1
    } else {
        2
    }
}

impl Span {
    /// A span that has no second.
    pub const NOTHING: Span = Span {
        from: 0,
        seconds: 0,
        roads: 0,
        travel: 0,
    };

    /// Whether it has this second of the day.
    #[inline(always)]
    pub fn has(&self, second: u32) -> bool
        ensures { IsTrue result ↔ HasSecond self.now second }
    {
        self.from <= second && second - self.from < u32::from(self.seconds)
    }
}

impl Row {
    /// A row that says nothing.
    pub const NOTHING: Row = Row {
        latest: Span::NOTHING,
        early: Span::NOTHING,
        noon: Span::NOTHING,
        late: Span::NOTHING,
        met: Kept::NOTHING,
    };

    /// A span that has this second of the day, where one is found: first the one of its third of the day is asked, which most
    /// often has it.
    #[inline(always)]
    pub fn at(&self, second: u32) -> Option<Span>
        ensures inside { IfSome result (λ span. HasSecond span second) }
        ensures holds { (h : HierarchyValue) (list : ℕ) → HoldsRow h list self.now
            → IfSome result (λ span. HoldsSpan h list span) }
    {
        let widest = self.widest(second);
        if widest.has(second) {
            return Some(widest);
        }
        self.any(second)
    }

    /// The span of this second's third of the day.
    #[inline(always)]
    pub fn widest(&self, second: u32) -> Span
        ensures holds { (h : HierarchyValue) (list : ℕ) → HoldsRow h list self.now
            → HoldsSpan h list result }
    {
        if second < SECOND_THIRD {
            self.early
        } else if second < LAST_THIRD {
            self.noon
        } else {
            self.late
        }
    }

    // A span that has this second of the day, if one does.
    fn any(&self, second: u32) -> Option<Span>
        ensures inside { IfSome result (λ span. HasSecond span second) }
        ensures holds { (h : HierarchyValue) (list : ℕ) → HoldsRow h list self.now
            → IfSome result (λ span. HoldsSpan h list span) }
    {
        if self.latest.has(second) {
            return Some(self.latest);
        }
        if self.early.has(second) {
            return Some(self.early);
        }
        if self.noon.has(second) {
            return Some(self.noon);
        }
        if self.late.has(second) {
            return Some(self.late);
        }
        None
    }

    /// Takes in a span that was met at this second of the day, where it may be of use: as the latest, and for its third of
    /// the day where it is wider than the one there. A row that says what is so of a list goes on to do so.
    pub fn keep(&mut self, second: u32, span: Span)
        ensures holds { (h : HierarchyValue) (list : ℕ) → HoldsRow h list self.old
            → HoldsSpan h list span → HoldsRow h list self.new }
    {
        self.latest = span;
        if second < SECOND_THIRD {
            self.early = wider(self.early, span);
        } else if second < LAST_THIRD {
            self.noon = wider(self.noon, span);
        } else {
            self.late = wider(self.late, span);
        }
    }

    /// Takes in an entry that was met. A row that says what is so of a list goes on to do so.
    pub fn meet(&mut self, met: Kept)
        ensures holds { (h : HierarchyValue) (list : ℕ) → HoldsRow h list self.old
            → HoldsMet h list (met_of met) → HoldsRow h list self.new }
    {
        self.met = met;
    }
}

// The wider of two spans.
fn wider(span: Span, other: Span) -> Span
    ensures holds { (h : HierarchyValue) (list : ℕ) → HoldsSpan h list span
        → HoldsSpan h list other → HoldsSpan h list result }
{
    if span.seconds < other.seconds {
        other
    } else {
        span
    }
}

impl Driven {
    /// A span of it, driven from this second of the day: of the seconds before and after, 32,767 each at most. None where it
    /// finds no room in one, as of long travel or many roads.
    pub fn span(&self, second: u32) -> Option<Span>
        requires window { IsWindow second self.now.back self.now.ahead }
        ensures holds { (h : HierarchyValue) (list : ℕ) → HoldsDriven h list second self.now
            → IfSome result (λ span. HoldsSpan h list span) }
    {
        if self.roads > 65_535 {
            return None;
        }
        if self.travel > 4_294_967_295 {
            return None;
        }
        let back = self.back.min(32_767);
        let ahead = self.ahead.min(32_767);
        Some(Span {
            from: second - back,
            seconds: (back + ahead) as u16,
            roads: self.roads as u16,
            travel: self.travel as u32,
        })
    }
}
