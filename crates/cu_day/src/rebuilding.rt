//! Functions of shortcuts, rebuilt from borrowed ways.

ghost use Rattle.std.specs.Prelude.{◌≡◌, ◌<◌, ◌++◌, ◌∷◌, [], IfOk, OnErr, length};
ghost use Rattle.cu_interval.specs.Hierarchies.{IsHierarchy};
ghost use Rattle.cu_unpack.specs.Rebuilds.{IsRebuiltFunction};

use crate::functions::DayFunctions;
use cu_arrival::Arrival;
use cu_interval::{Dir, Shortcut, Ways};
use cu_model::NoMemory;
use cu_unpack::Rebuilt;
use std::alloc::Global;
use std::marker::Model;

/// Rebuilds the functions of the shortcuts of borrowed ways, keeps them, and lists its calls. Contracts see the hierarchy and
/// the calls.
#[derive(Drop)]
pub struct DayRebuilt<'a, W: Ways> {
    ways: &'a W,
    rebuilt: Rebuilt,
    calls: Vec<Shortcut>,
}

impl<'a, W: Ways> Model for DayRebuilt<'a, W> {
    ghost use Rattle.std.specs.Prelude.{◌≡◌, ◌*◌, length};
    ghost use Rattle.cu_day.specs.DayCalls.{DayRebuiltValue};
    ghost use Rattle.cu_interval.specs.Hierarchies.{IsHierarchy};
    ghost use Rattle.cu_unpack.specs.Rebuilds.{Keeps};

    ghost Value = { DayRebuiltValue };

    ghost view = { λ day. record { hierarchy = W.hierarchy day.ways.now; calls = day.calls.items } };

    ghost invariant = { λ day. IsHierarchy (W.hierarchy day.ways.now)
        × (length day.rebuilt.kept ≡ 2 * length (W.hierarchy day.ways.now).edges)
        × Keeps (W.hierarchy day.ways.now) day.rebuilt };
}

impl<'a, W: Ways> DayRebuilt<'a, W> {
    /// The functions of the shortcuts of these ways, with no call so far and no function rebuilt.
    pub fn new(alloc: Global, ways: &'a W) -> Result<DayRebuilt<'a, W>, NoMemory>
        ensures { IfOk result
            (λ day. day ≡ record { hierarchy = W.hierarchy ways.now; calls = [] }) }
    {
        let rebuilt = Rebuilt::new(alloc, ways.edges())?;
        let calls = Vec::new(alloc);
        Ok(DayRebuilt {
            ways,
            rebuilt,
            calls,
        })
    }
}

impl<'a, W: Ways> DayFunctions for DayRebuilt<'a, W> {
    ghost hierarchy = { λ day. day.hierarchy };

    ghost calls = { λ day. day.calls };

    fn function(
        &mut self,
        alloc: Global,
        edge: u32,
        dir: Dir,
    ) -> Result<Option<Arrival>, NoMemory> {
        let ways = self.ways;
        let function = self.rebuilt.function(alloc, ways, edge, dir)?;
        self.calls.push(Shortcut { edge, dir })?;
        Ok(function)
    }
}
