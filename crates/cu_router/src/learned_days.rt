//! Functions of shortcuts, known or learned as they are asked for.

ghost use Rattle.std.specs.Prelude.{◌≡◌, ◌<◌, ◌++◌, ◌∷◌, [], IfOk, IfSome, OnErr, length};
ghost use Rattle.cu_edits.specs.Learned.{ArePackedOf};
ghost use Rattle.cu_interval.specs.Hierarchies.{IsHierarchy};
ghost use Rattle.cu_unpack.specs.Rebuilds.{IsRebuiltFunction};
ghost use Rattle.cu_router.specs.Steps.Rebuilt.{AreRebuiltOf};

use cu_arrival::Arrival;
use cu_day::DayFunctions;
use cu_edits::Learned;
use cu_interval::{Dir, Shortcut, Ways};
use cu_model::NoMemory;
use cu_unpack::Rebuilt;
use std::alloc::Global;
use std::marker::Model;

/// Has the functions of the shortcuts of borrowed ways: copies of those that are known, and it learns those that aren't. What takes
/// longer than packed runs can say is rebuilt each day anew. It lists its calls. Contracts see the hierarchy and the calls.
#[derive(Drop)]
pub(crate) struct DayLearned<'a, W: Ways> {
    ways: &'a W,
    learned: Learned,
    // Made once a list can't be learned.
    rebuilt: Option<Rebuilt>,
    calls: Vec<Shortcut>,
}

impl<'a, W: Ways> Model for DayLearned<'a, W> {
    ghost use Rattle.std.specs.Prelude.{IfSome};
    ghost use Rattle.cu_day.specs.DayCalls.{DayRebuiltValue};
    ghost use Rattle.cu_edits.specs.Learned.{ArePackedOf};
    ghost use Rattle.cu_interval.specs.Hierarchies.{IsHierarchy};
    ghost use Rattle.cu_router.specs.Steps.Rebuilt.{AreRebuiltOf};

    ghost Value = { DayRebuiltValue };

    ghost view = { λ day. record { hierarchy = W.hierarchy day.ways.now; calls = day.calls.items } };

    ghost invariant = { λ day. IsHierarchy (W.hierarchy day.ways.now)
        × ArePackedOf (W.hierarchy day.ways.now) day.learned
        × IfSome day.rebuilt (AreRebuiltOf (W.hierarchy day.ways.now)) };
}

impl<'a, W: Ways> DayLearned<'a, W> {
    /// The functions of the shortcuts of these ways, of which some are known, with no call so far. Takes no memory.
    pub(crate) fn new(alloc: Global, ways: &'a W, learned: Learned) -> DayLearned<'a, W>
        requires learned { ArePackedOf (W.hierarchy ways.now) learned }
        ensures { result ≡ record { hierarchy = W.hierarchy ways.now; calls = [] } }
    {
        let _edges = ways.edges();
        DayLearned {
            ways,
            learned,
            rebuilt: None,
            calls: Vec::new(alloc),
        }
    }

    /// The functions that are known by now. Takes no memory.
    pub(crate) fn into_learned(self) -> Learned
        ensures { ArePackedOf self.entry.hierarchy result }
    {
        self.learned
    }
}

impl<'a, W: Ways> DayFunctions for DayLearned<'a, W> {
    ghost hierarchy = { λ day. day.hierarchy };

    ghost calls = { λ day. day.calls };

    fn function(
        &mut self,
        alloc: Global,
        edge: u32,
        dir: Dir,
    ) -> Result<Option<Arrival>, NoMemory> {
        let ways = self.ways;
        let (learned, rebuilt) = (&mut self.learned, &mut self.rebuilt);
        let function = learned_function(alloc, ways, learned, rebuilt, edge, dir)?;
        self.calls.push(Shortcut { edge, dir })?;
        Ok(function)
    }
}

// The function of the list of an edge in a direction, learned if it isn't known; or rebuilt, where packed runs can't say it.
fn learned_function<W: Ways>(
    alloc: Global,
    ways: &W,
    learned: &mut Learned,
    rebuilt: &mut Option<Rebuilt>,
    edge: u32,
    dir: Dir,
) -> Result<Option<Arrival>, NoMemory>
    requires edge { edge < length (W.hierarchy ways.now).edges }
    requires learned { ArePackedOf (W.hierarchy ways.now) learned.old }
    requires rebuilt { IfSome rebuilt.old (AreRebuiltOf (W.hierarchy ways.now)) }
    ensures function { IfOk result
        (λ function. IsRebuiltFunction (W.hierarchy ways.now) edge dir function) }
    ensures learned { ArePackedOf (W.hierarchy ways.now) learned.new }
    ensures rebuilt { IfSome rebuilt.new (AreRebuiltOf (W.hierarchy ways.now)) }
{
    if !learned.learn(alloc, ways, edge, dir)? {
        return rebuilt_function(alloc, ways, rebuilt, edge, dir);
    }
    learned.function(alloc, edge, dir)
}

// The function of the list of an edge in a direction, by those that were rebuilt.
fn rebuilt_function<W: Ways>(
    alloc: Global,
    ways: &W,
    kept: &mut Option<Rebuilt>,
    edge: u32,
    dir: Dir,
) -> Result<Option<Arrival>, NoMemory>
    requires edge { edge < length (W.hierarchy ways.now).edges }
    requires kept { IfSome kept.old (AreRebuiltOf (W.hierarchy ways.now)) }
    ensures function { IfOk result
        (λ function. IsRebuiltFunction (W.hierarchy ways.now) edge dir function) }
    ensures kept { IfSome kept.new (AreRebuiltOf (W.hierarchy ways.now)) }
{
    let mut rebuilt = take_rebuilt(alloc, ways, kept.take())?;
    let function = rebuilt.function(alloc, ways, edge, dir);
    *kept = Some(rebuilt);
    function
}

// Functions that were rebuilt of these ways, if there are any, or none yet.
fn take_rebuilt<W: Ways>(
    alloc: Global,
    ways: &W,
    kept: Option<Rebuilt>,
) -> Result<Rebuilt, NoMemory>
    requires kept { IfSome kept (AreRebuiltOf (W.hierarchy ways.now)) }
    ensures rebuilt { IfOk result (AreRebuiltOf (W.hierarchy ways.now)) }
{
    if let Some(rebuilt) = kept {
        return Ok(rebuilt);
    }
    let rebuilt = Rebuilt::new(alloc, ways.edges())?;
    Ok(rebuilt)
}
