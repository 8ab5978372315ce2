//! The unpacking itself: a list is parted at its middles until a part of it is known or a road, and what its parts took is
//! joined, and kept for each list on the way.

ghost use Rattle.std.specs.Prelude.{◌≡◌, ◌≤◌, ◌<◌, ◌+◌, ◌*◌, ◌%◌, ◌^◌, length, min};
ghost use Rattle.cu_model.specs.declared.limits.TheConstants.{MAX_NODES};
ghost use Rattle.cu_model.specs.Days.{day};
ghost use Rattle.cu_interval.specs.Hierarchies.{IsHierarchy, graph_of};
ghost use Rattle.cu_recall.specs.declared.pending.Half.TheVariants as half;
ghost use Rattle.cu_recall.specs.Spans.{Knows, low_of_list};
ghost use Rattle.cu_recall.specs.Windows.{HoldsDriven};
ghost use Rattle.cu_recall.specs.Steps.InWork.{Follows, IsDone, IsSomewhere, Unpacks};
ghost use Rattle.cu_recall.specs.Steps.Looks.{HoldsParted, IsAsked};

use crate::looking::{look, see};
use crate::pending::{After, Asked, Found, Half, Parted, Pending, Seen, Spot};
use crate::remembering::remember;
use crate::spans::{Driven, Row};
use cu_chordal::Chordal;
use cu_model::{DAY, Roads};
use cu_pack::PackedView;

/// What driving a list takes; None where its walk has as many roads as there are nodes.
#[inline(never)]
pub fn unpack(
    view: &PackedView<'_>,
    graph: &Chordal,
    rows: &mut [Row],
    pending: &mut [Pending],
    whole: Asked,
) -> Option<Driven>
    requires graph { graph.now ≡ graph_of view.now }
    requires asked { IsAsked view.now whole }
    requires size { length rows.old ≡ 2 * length view.now.edges }
    requires room { length pending.old ≡ view.now.network.nodes }
    requires knows { Knows view.now rows.old }
    requires sound { IsHierarchy view.now }
    ensures unpacks { Unpacks view.now whole result }
    ensures knows { Knows view.now rows.new }
{
    let nodes = view.nodes();
    let mut spot = start(whole, see(rows, whole.list, whole.second));
    'parts: loop {
        let (next, driven) = go_down(view, graph, rows, pending, spot);
        if driven.roads >= nodes - next.roads {
            return None;
        }
        match resume(view, rows, pending, next, driven) {
            After::Whole(driven) => return Some(driven),
            After::Next(next) => spot = next,
        }
    }
}

// Where an unpacking begins.
fn start(whole: Asked, seen: Seen) -> Spot
    ensures { result ≡ record { whole = whole; next = whole; seen = seen; depth = 0; roads = 0 } }
{
    Spot {
        whole,
        next: whole,
        seen,
        depth: 0,
        roads: 0,
    }
}

// Parts the list that is next at its middle, and its first half, and so on, until what driving one takes is found.
fn go_down(
    view: &PackedView<'_>,
    graph: &Chordal,
    rows: &mut [Row],
    pending: &mut [Pending],
    spot: Spot,
) -> (Spot, Driven)
    requires graph { graph.now ≡ graph_of view.now }
    requires somewhere { IsSomewhere view.now pending.old spot }
    requires size { length rows.old ≡ 2 * length view.now.edges }
    requires room { length pending.old ≡ view.now.network.nodes }
    requires knows { Knows view.now rows.old }
    requires sound { IsHierarchy view.now }
    ensures somewhere { IsSomewhere view.now pending.new result.0 }
    ensures driven { HoldsDriven view.now result.0.next.list result.0.next.second result.1 }
    ensures whole { result.0.whole ≡ spot.whole }
    ensures roads { result.0.roads ≡ spot.roads }
    ensures knows { Knows view.now rows.new }
{
    let mut spot = spot;
    'parts: loop {
        match look(view, graph, rows, spot.next, spot.seen) {
            Found::Driven(driven) => return (spot, driven),
            Found::Parted(parted) => spot = part(view, rows, pending, spot, parted),
        }
    }
}

// Puts a parted list in work: its second half waits, and its first half is next. The rows of both are read.
fn part(
    view: &PackedView<'_>,
    rows: &[Row],
    pending: &mut [Pending],
    spot: Spot,
    parted: Parted,
) -> Spot
    requires somewhere { IsSomewhere view.now pending.old spot }
    requires room { length pending.old ≡ view.now.network.nodes }
    requires parted { HoldsParted view.now spot.next parted }
    requires size { length rows.now ≡ 2 * length view.now.edges }
    requires knows { Knows view.now rows.now }
    requires sound { IsHierarchy view.now }
    ensures somewhere { IsSomewhere view.now pending.new result }
    ensures whole { result.whole ≡ spot.whole }
    ensures roads { result.roads ≡ spot.roads }
    ensures lower { low_of_list view.now result.next.list < low_of_list view.now spot.next.list }
{
    let second = spot.next.second;
    let seen = see(rows, parted.first, second);
    let rest = see(rows, parted.rest, second);
    pending[spot.depth] = Pending {
        asked: spot.next,
        back: parted.back,
        ahead: parted.ahead,
        half: Half::First {
            rest: parted.rest,
            seen: rest,
        },
    };
    Spot {
        whole: spot.whole,
        next: Asked {
            list: parted.first,
            second,
        },
        seen,
        depth: spot.depth + 1,
        roads: spot.roads,
    }
}

// Goes on when the list that was next was driven: joins the halves of each list in work whose second half that was, until one
// was the first; or the whole was driven.
fn resume(
    view: &PackedView<'_>,
    rows: &mut [Row],
    pending: &mut [Pending],
    spot: Spot,
    driven: Driven,
) -> After
    requires somewhere { IsSomewhere view.now pending.old spot }
    requires driven { HoldsDriven view.now spot.next.list spot.next.second driven }
    requires few { spot.roads + driven.roads < view.now.network.nodes }
    requires room { length pending.old ≡ view.now.network.nodes }
    requires size { length rows.old ≡ 2 * length view.now.edges }
    requires knows { Knows view.now rows.old }
    requires sound { IsHierarchy view.now }
    ensures follows { Follows view.now spot.whole pending.new (spot.roads + driven.roads) result }
    ensures knows { Knows view.now rows.new }
{
    let total = spot.roads + driven.roads;
    let mut driven = driven;
    let mut depth = spot.depth;
    'joins: while depth > 0 {
        let top = pending[depth - 1];
        match top.half {
            Half::First { rest, seen } => {
                pending[depth - 1] = second_next(top, driven);
                return After::Next(Spot {
                    whole: spot.whole,
                    next: Asked {
                        list: rest,
                        second: later(top.asked.second, driven.travel),
                    },
                    seen,
                    depth,
                    roads: total,
                });
            }
            Half::Second { travel, roads } => {
                driven = joined(top, travel, roads, driven);
                remember(rows, top.asked.list, top.asked.second, driven);
                depth -= 1;
            }
        }
    }
    After::Whole(driven)
}

// A list in work whose first half took this.
fn second_next(top: Pending, driven: Driven) -> Pending
    ensures { result ≡ record {
      asked = top.asked;
      back = min top.back driven.back;
      ahead = min top.ahead driven.ahead;
      half = half.Second driven.travel driven.roads;
    } }
{
    Pending {
        asked: top.asked,
        back: top.back.min(driven.back),
        ahead: top.ahead.min(driven.ahead),
        half: Half::Second {
            travel: driven.travel,
            roads: driven.roads,
        },
    }
}

// What a list in work takes whose first half took so much and whose second takes this.
fn joined(top: Pending, travel: u64, roads: u32, driven: Driven) -> Driven
    requires travel { travel + driven.travel < 2 ^ 64 }
    requires roads { roads + driven.roads ≤ MAX_NODES }
    ensures { result ≡ record {
      back = min top.back driven.back;
      ahead = min top.ahead driven.ahead;
      travel = travel + driven.travel;
      roads = roads + driven.roads;
    } }
{
    Driven {
        back: top.back.min(driven.back),
        ahead: top.ahead.min(driven.ahead),
        travel: travel + driven.travel,
        roads: roads + driven.roads,
    }
}

/// The second of the day after so much travel.
pub fn later(second: u32, travel: u64) -> u32
    requires { second + travel < 2 ^ 64 }
    ensures { result ≡ (second + travel) % day }
{
    ((u64::from(second) + travel) % u64::from(DAY)) as u32
}
