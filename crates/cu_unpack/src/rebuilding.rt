//! Functions of shortcuts over the day, rebuilt from their ways. A hierarchy keeps the ways alone.

ghost use Rattle.std.specs.Prelude.{◌≡◌, ◌≤◌, ◌<◌, ◌+◌, ◌*◌, ◌↔◌, All, IfOk, IsTrue, None, OnErr, OnOk, Some, length, slice_get, take};
ghost use Rattle.cu_arrival.specs.Runs.{IsArrivalFunction};
ghost use Rattle.cu_chordal.specs.declared.graph.TheConstants.{MAX_EDGES};
ghost use Rattle.cu_interval.specs.declared.ways.Entry.{Entry};
ghost use Rattle.cu_interval.specs.Hierarchies.{HierarchyValue, IsHierarchy};
ghost use Rattle.cu_interval.specs.Shortcuts.{number_of, ways_of};
ghost use Rattle.cu_unpack.specs.Rebuilds.{IsKept, IsRebuiltFunction, Keeps};
ghost use Rattle.cu_unpack.specs.Steps.Rebuilding.{AreKept, FindsMissing, HasHalves, HasWays, IsEarlier, IsLeastOf, IsWayFunction, IsWayOf, KeepsOne};

use crate::missing::{Known, missing_half};
use crate::shortcuts::{is_among, take_next};
use cu_arrival::{Arrival, compose, least};
use cu_chordal::MAX_EDGES;
use cu_interval::{Dir, Shortcut, Way, Ways, halves};
use cu_model::NoMemory;
use std::alloc::Global;
use std::marker::Model;

/// Functions of shortcuts, rebuilt from their ways and kept. Contracts see, for each list by number, the runs of its function
/// where it is kept.
#[derive(Drop)]
pub struct Rebuilt {
    kept: Vec<Option<Arrival>>,
}

impl Model for Rebuilt {
    ghost use Rattle.cu_unpack.specs.Rebuilds.{RebuiltValue};

    ghost Value = { RebuiltValue };

    ghost view = { λ rebuilt. record { kept = rebuilt.kept.items } };
}

impl Rebuilt {
    /// Room for the functions of so many edges, at most [`MAX_EDGES`], in both directions. None is kept, so it fits every
    /// hierarchy with so many edges.
    pub fn new(alloc: Global, edges: u32) -> Result<Rebuilt, NoMemory>
        requires edges { edges ≤ MAX_EDGES }
        ensures size { IfOk result (λ rebuilt. length rebuilt.kept ≡ 2 * edges) }
        ensures none { IfOk result (λ rebuilt. (h : HierarchyValue) → Keeps h rebuilt) }
    {
        let mut kept = Vec::with_capacity(alloc, 2 * edges as usize)?;
        'lists: for _number in 0..2 * edges {
            kept.push(None)?;
        }
        Ok(Rebuilt { kept })
    }

    /// The function of an edge in a direction over these ways: the least of its list's ways at each second of the day, where
    /// a way by a middle goes on along the second half from where the first one arrives. None exactly where the list is
    /// empty. The edge's number is below the number of edges, and what is kept is of this hierarchy, and so it stays, after a
    /// refusal too. Refused only for want of memory.
    pub fn function<W: Ways>(
        &mut self,
        alloc: Global,
        ways: &W,
        edge: u32,
        dir: Dir,
    ) -> Result<Option<Arrival>, NoMemory>
        requires edge { edge < length (W.hierarchy ways.now).edges }
        requires size { length self.old.kept ≡ 2 * length (W.hierarchy ways.now).edges }
        requires keeps { Keeps (W.hierarchy ways.now) self.old }
        ensures function { IfOk result
            (λ function. IsRebuiltFunction (W.hierarchy ways.now) edge dir function) }
        ensures size { length self.new.kept ≡ length self.old.kept }
        ensures keeps { Keeps (W.hierarchy ways.now) self.new }
    {
        if ways.entries(edge, dir) == 0 {
            return Ok(None);
        }
        let shortcut = Shortcut { edge, dir };
        rebuild(alloc, ways, self, shortcut)?;
        Ok(Some(self.kept_function(shortcut).copy(alloc)?))
    }

    // The function of a shortcut, which is kept.
    fn kept_function(&self, shortcut: Shortcut) -> &Arrival
        requires { IsKept self.now.kept shortcut }
        ensures { slice_get self.now.kept (number_of shortcut) ≡ Some (Some result.now) }
    {
        let Some(function) = &self.kept[shortcut.list()] else {
            unreachable!()
        };
        function
    }
}

impl Known for Rebuilt {
    ghost lists = { λ rebuilt. length rebuilt.kept };

    ghost knows = { λ rebuilt. IsKept rebuilt.kept };

    fn is_known(&self, shortcut: Shortcut) -> bool {
        self.kept[shortcut.list()].is_some()
    }
}

// Rebuilds and keeps the function of a shortcut with a way, and those that it needs. The shortcuts that wait for a half stand
// in a list, each of a higher edge than the next, so that no call goes deeper however many levels of middles there are.
fn rebuild<W: Ways>(
    alloc: Global,
    ways: &W,
    rebuilt: &mut Rebuilt,
    shortcut: Shortcut,
) -> Result<(), NoMemory>
    requires ways { HasWays (W.hierarchy ways.now) shortcut }
    requires kept { AreKept (W.hierarchy ways.now) rebuilt.old.kept }
    ensures found { OnOk result (IsKept rebuilt.new.kept shortcut) }
    ensures kept { AreKept (W.hierarchy ways.now) rebuilt.new.kept }
{
    let mut waiting = Vec::new(alloc);
    'shortcuts: while !rebuilt.is_known(shortcut) {
        let next = take_next(&mut waiting, shortcut);
        match missing_half(ways, rebuilt, next) {
            Some(half) => {
                waiting.push(next)?;
                waiting.push(half)?;
            }
            None => keep_function(alloc, ways, rebuilt, next)?,
        }
    }
    Ok(())
}

// Rebuilds and keeps the function of a shortcut with a way. Those of its halves are kept.
fn keep_function<W: Ways>(
    alloc: Global,
    ways: &W,
    rebuilt: &mut Rebuilt,
    shortcut: Shortcut,
) -> Result<(), NoMemory>
    requires ways { HasWays (W.hierarchy ways.now) shortcut }
    requires kept { AreKept (W.hierarchy ways.now) rebuilt.old.kept }
    requires halves { FindsMissing (W.hierarchy ways.now) (IsKept rebuilt.old.kept) shortcut
        (ways_of (W.hierarchy ways.now) shortcut) None }
    ensures found { OnOk result
        (KeepsOne (W.hierarchy ways.now) shortcut rebuilt.old.kept rebuilt.new.kept) }
    ensures same { OnErr result (rebuilt.new ≡ rebuilt.old) }
{
    let function = least_function(alloc, ways, rebuilt, shortcut)?;
    rebuilt.kept[shortcut.list()] = function;
    Ok(())
}

// The least function of a shortcut's ways. Those of its halves are kept.
fn least_function<W: Ways>(
    alloc: Global,
    ways: &W,
    rebuilt: &Rebuilt,
    shortcut: Shortcut,
) -> Result<Option<Arrival>, NoMemory>
    requires edge { shortcut.edge < length (W.hierarchy ways.now).edges }
    requires kept { AreKept (W.hierarchy ways.now) rebuilt.now.kept }
    requires halves { FindsMissing (W.hierarchy ways.now) (IsKept rebuilt.now.kept) shortcut
        (ways_of (W.hierarchy ways.now) shortcut) None }
    ensures least { IfOk result (IsLeastOf (W.hierarchy ways.now) shortcut
        (ways_of (W.hierarchy ways.now) shortcut)) }
    ensures sound { IsHierarchy (W.hierarchy ways.now) }
{
    let mut least = None;
    for index in 0..ways.entries(shortcut.edge, shortcut.dir) {
        least = least_with(alloc, ways, rebuilt, shortcut, least, index)?;
    }
    Ok(least)
}

// The least function of a shortcut's first ways and the one behind them, unless that is one of those, as in a list that turns
// back to a way.
fn least_with<W: Ways>(
    alloc: Global,
    ways: &W,
    rebuilt: &Rebuilt,
    shortcut: Shortcut,
    least: Option<Arrival>,
    index: u32,
) -> Result<Option<Arrival>, NoMemory>
    requires edge { shortcut.edge < length (W.hierarchy ways.now).edges }
    requires kept { AreKept (W.hierarchy ways.now) rebuilt.now.kept }
    requires halves { FindsMissing (W.hierarchy ways.now) (IsKept rebuilt.now.kept) shortcut
        (ways_of (W.hierarchy ways.now) shortcut) None }
    requires index { index < length (ways_of (W.hierarchy ways.now) shortcut) }
    requires least { IsLeastOf (W.hierarchy ways.now) shortcut
        (take index (ways_of (W.hierarchy ways.now) shortcut)) least }
    ensures { IfOk result (IsLeastOf (W.hierarchy ways.now) shortcut
        (take (index + 1) (ways_of (W.hierarchy ways.now) shortcut))) }
{
    let entry = ways.entry(shortcut.edge, shortcut.dir, index);
    if is_among(ways, shortcut, index, entry.way) {
        return Ok(least);
    }
    let function = way_function(alloc, ways, rebuilt, shortcut, entry.way)?;
    Ok(Some(earlier(alloc, least, function)?))
}

// The earlier of two functions at each second, or the second alone.
fn earlier(alloc: Global, first: Option<Arrival>, second: Arrival) -> Result<Arrival, NoMemory>
    requires { IsArrivalFunction second }
    ensures { IfOk result (IsEarlier first second) }
{
    let Some(first) = first else {
        return Ok(second);
    };
    let function = least(alloc, &first, &second)?;
    Ok(function)
}

// The function of a way of a shortcut. Those of its halves are kept.
fn way_function<W: Ways>(
    alloc: Global,
    ways: &W,
    rebuilt: &Rebuilt,
    shortcut: Shortcut,
    way: Way,
) -> Result<Arrival, NoMemory>
    requires sound { IsHierarchy (W.hierarchy ways.now) }
    requires way { IsWayOf (W.hierarchy ways.now) shortcut way }
    requires kept { AreKept (W.hierarchy ways.now) rebuilt.now.kept }
    requires halves { HasHalves (W.hierarchy ways.now) (IsKept rebuilt.now.kept) shortcut way }
    ensures function { IfOk result (IsWayFunction (W.hierarchy ways.now) shortcut way) }
    ensures sound { IfOk result IsArrivalFunction }
{
    match way {
        Way::Road(road) => Arrival::of_arc(alloc, ways, road),
        Way::Via(middle) => {
            let (first, second) = halves(ways, shortcut, middle);
            compose(
                alloc,
                rebuilt.kept_function(first),
                rebuilt.kept_function(second),
            )
        }
    }
}
