//! Looking a list up: in what is known, or else in the bytes, and then it is known.

ghost use Rattle.std.specs.Prelude.{◌≡◌, ◌≤◌, ◌<◌, ◌-◌, ◌*◌, ◌/◌, ◌↔◌, ℕ, IfSome, IsTrue, length};
ghost use Rattle.cu_interval.specs.Hierarchies.{HierarchyValue, IsHierarchy, graph_of};
ghost use Rattle.cu_interval.specs.Shortcuts.{IsMiddle};
ghost use Rattle.cu_recall.specs.Spans.{AreHalvesAt, HasSecond, HoldsMet, HoldsSpan, IsListFrom, Knows, dir_of, met_of};
ghost use Rattle.cu_recall.specs.declared.spans.Parts.TheVariants as part;
ghost use Rattle.cu_recall.specs.Windows.{HoldsDriven};
ghost use Rattle.cu_recall.specs.Steps.Looks.{Finds, HoldsPartsOf, HoldsSeen, IsAsked, IsMetAt};

use crate::driving::drive;
use crate::kept::Kept;
use crate::pending::{Asked, Found, Parted, Seen};
use crate::remembering::{meet, remember};
use crate::spans::{Driven, Met, Parts, Row, Span};
use cu_chordal::Chordal;
use cu_interval::{Dir, Way, find_halves};
use cu_model::DAY;
use cu_pack::PackedView;

/// What driving a list takes, where that is known or its way is a road; else the halves of the way in force. What was read of the
/// list before is asked first.
pub fn look(
    view: &PackedView<'_>,
    graph: &Chordal,
    rows: &mut [Row],
    asked: Asked,
    seen: Seen,
) -> Found
    requires graph { graph.now ≡ graph_of view.now }
    requires asked { IsAsked view.now asked }
    requires size { length rows.old ≡ 2 * length view.now.edges }
    requires knows { Knows view.now rows.old }
    requires seen { HoldsSeen view.now asked.list seen }
    requires sound { IsHierarchy view.now }
    ensures finds { Finds view.now asked result }
    ensures knows { Knows view.now rows.new }
{
    if let Some(driven) = known_from(rows, asked, seen.widest) {
        return Found::Driven(driven);
    }
    let met = met_from(view, graph, rows, asked, seen.met);
    match met.parts {
        Parts::Road(road) => Found::Driven(drive_met(view, rows, asked, met, road)),
        Parts::Halves { first, second } => Found::Parted(Parted {
            back: asked.second - met.from,
            ahead: met.until - asked.second,
            first,
            rest: second,
        }),
    }
}

/// What a row says first of a list that will be asked near this second of the day.
#[inline(always)]
pub fn see(rows: &[Row], list: u32, second: u32) -> Seen
    requires list { list < length rows.now }
    ensures holds { (h : HierarchyValue) → Knows h rows.now → HoldsSeen h list result }
{
    let row = &rows[list as usize];
    Seen {
        widest: row.widest(second),
        met: row.met,
    }
}

// What driving a list takes, by a span of it that was read, or as far as that is known.
#[inline(always)]
fn known_from(rows: &[Row], asked: Asked, span: Span) -> Option<Driven>
    requires list { asked.list < length rows.now }
    ensures holds { (h : HierarchyValue) → Knows h rows.now → HoldsSpan h asked.list span
        → IfSome result (λ driven. HoldsDriven h asked.list asked.second driven) }
{
    if span.has(asked.second) {
        return Some(over_span(span, asked.second));
    }
    known(rows, asked)
}

/// What driving a list takes, as far as that is known.
#[inline(always)]
pub fn known(rows: &[Row], asked: Asked) -> Option<Driven>
    requires list { asked.list < length rows.now }
    ensures holds { (h : HierarchyValue) → Knows h rows.now
        → IfSome result (λ driven. HoldsDriven h asked.list asked.second driven) }
{
    let span = rows[asked.list as usize].at(asked.second)?;
    Some(over_span(span, asked.second))
}

// A span, said around one of its seconds.
#[inline(always)]
fn over_span(span: Span, second: u32) -> Driven
    requires inside { HasSecond span second }
    ensures { result ≡ record {
      back = second - span.from;
      ahead = span.seconds - (second - span.from);
      travel = span.travel;
      roads = span.roads;
    } }
{
    let back = second - span.from;
    Driven {
        back,
        ahead: u32::from(span.seconds) - back,
        travel: u64::from(span.travel),
        roads: u32::from(span.roads),
    }
}

/// Drives the road of an entry that was met, and keeps what that took.
pub fn drive_met(
    view: &PackedView<'_>,
    rows: &mut [Row],
    asked: Asked,
    met: Met,
    road: u32,
) -> Driven
    requires asked { IsAsked view.now asked }
    requires size { length rows.old ≡ 2 * length view.now.edges }
    requires knows { Knows view.now rows.old }
    requires met { IsMetAt view.now asked met }
    requires road { met.parts ≡ part.Road road }
    requires sound { IsHierarchy view.now }
    ensures holds { HoldsDriven view.now asked.list asked.second result }
    ensures knows { Knows view.now rows.new }
{
    let back = asked.second - met.from;
    let ahead = met.until - asked.second;
    let driven = drive(view, road, asked.second, back, ahead);
    remember(rows, asked.list, asked.second, driven);
    driven
}

// The entry of a list in force at a second: one of it that was read, or the one that was met last, or by the bytes.
#[inline(always)]
fn met_from(
    view: &PackedView<'_>,
    graph: &Chordal,
    rows: &mut [Row],
    asked: Asked,
    kept: Kept,
) -> Met
    requires graph { graph.now ≡ graph_of view.now }
    requires asked { IsAsked view.now asked }
    requires size { length rows.old ≡ 2 * length view.now.edges }
    requires knows { Knows view.now rows.old }
    requires kept { HoldsMet view.now asked.list (met_of kept) }
    ensures met { IsMetAt view.now asked result }
    ensures knows { Knows view.now rows.new }
{
    if let Some(met) = kept.at(asked.second) {
        return met;
    }
    met_at(view, graph, rows, asked)
}

/// The entry of a list in force at a second: the one that was met last, or by the bytes, and then it is the one met last.
pub fn met_at(view: &PackedView<'_>, graph: &Chordal, rows: &mut [Row], asked: Asked) -> Met
    requires graph { graph.now ≡ graph_of view.now }
    requires asked { IsAsked view.now asked }
    requires size { length rows.old ≡ 2 * length view.now.edges }
    requires knows { Knows view.now rows.old }
    ensures met { IsMetAt view.now asked result }
    ensures knows { Knows view.now rows.new }
{
    if let Some(met) = met_last(rows, asked) {
        return met;
    }
    let met = look_up(view, graph, asked);
    meet(rows, asked.list, met);
    met
}

/// The entry of a list that was met last, where it is in force at the second.
#[inline(always)]
pub fn met_last(rows: &[Row], asked: Asked) -> Option<Met>
    requires list { asked.list < length rows.now }
    requires day { asked.second < DAY }
    ensures met { (h : HierarchyValue) → Knows h rows.now
        → IfSome result (λ met. IsMetAt h asked met) }
{
    rows[asked.list as usize].met.at(asked.second)
}

// The entry by the bytes.
#[inline(never)]
fn look_up(view: &PackedView<'_>, graph: &Chordal, asked: Asked) -> Met
    requires graph { graph.now ≡ graph_of view.now }
    requires asked { IsAsked view.now asked }
    ensures met { IsMetAt view.now asked result }
{
    let edge = asked.list / 2;
    let dir = direction(asked.list);
    let Some(found) = view.ways(edge, dir).in_force(asked.second) else {
        unreachable!()
    };
    let parts = match found.way {
        Way::Road(road) => Parts::Road(road),
        Way::Via(middle) => halves(graph, edge, dir, middle),
    };
    Met {
        from: found.from,
        until: found.until,
        parts,
    }
}

// The direction in which a list leads.
fn direction(list: u32) -> Dir
    ensures { result ≡ dir_of list }
{
    if list % 2 == 0 { Dir::Up } else { Dir::Down }
}

// The halves of a list at a middle.
fn halves(graph: &Chordal, edge: u32, dir: Dir, middle: u32) -> Parts
    requires middle { (h : HierarchyValue) × (h.edges ≡ graph.now.edges)
        × IsMiddle h edge dir middle }
    ensures halves { (h : HierarchyValue) → h.edges ≡ graph.now.edges
        → HoldsPartsOf h edge dir middle result }
{
    let Some((first, second)) = find_halves(graph, graph.ends(edge), dir, middle) else {
        unreachable!()
    };
    Parts::Halves {
        first: 2 * first + 1,
        second: 2 * second,
    }
}
