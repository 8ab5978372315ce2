//! Taking in what was met, row by row.

ghost use Rattle.std.specs.Prelude.{◌≡◌, ◌≤◌, ◌<◌, length};
ghost use Rattle.cu_interval.specs.Hierarchies.{HierarchyValue};
ghost use Rattle.cu_recall.specs.Spans.{HoldsMet, Knows};
ghost use Rattle.cu_recall.specs.Windows.{HoldsDriven, IsWindow};

use crate::kept::Kept;
use crate::spans::{Driven, Met, Row};
use cu_model::DAY;

/// Takes in what driving a list from a second of the day took, where it finds room. Rows that know only what is so of a
/// hierarchy go on to do so.
pub fn remember(rows: &mut [Row], list: u32, second: u32, driven: Driven)
    requires list { list < length rows.old }
    requires window { IsWindow second driven.back driven.ahead }
    ensures knows { (h : HierarchyValue) → Knows h rows.old → HoldsDriven h list second driven
        → Knows h rows.new }
{
    if let Some(span) = driven.span(second) {
        rows[list as usize].keep(second, span);
    }
}

/// Takes in an entry of a list. Rows that know only what is so of a hierarchy go on to do so.
pub fn meet(rows: &mut [Row], list: u32, met: Met)
    requires list { list < length rows.old }
    requires order { met.from ≤ met.until }
    requires day { met.until ≤ DAY }
    ensures knows { (h : HierarchyValue) → Knows h rows.old → HoldsMet h list met
        → Knows h rows.new }
{
    rows[list as usize].meet(Kept::of(met));
}
