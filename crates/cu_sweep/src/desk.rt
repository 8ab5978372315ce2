//! Desks for queries.

ghost use Rattle.std.specs.Prelude.{◌≡◌, ◌≤◌, false, IfOk};
ghost use Rattle.cu_model.specs.declared.limits.TheConstants.{MAX_NODES};

use crate::labels::Labels;
use cu_links::Chain;
use cu_model::NoMemory;
use std::alloc::Global;
use std::marker::Model;

/// Room for the labels and links of both sweeps of a query, made once. Contracts see for how many nodes it was made, the
/// calls of the walk that was found, and whether it was turned since.
#[derive(Drop)]
pub struct SweepDesk {
    pub(crate) labels: Labels<Chain>,
    // The ancestors of a query's end.
    pub(crate) path: Vec<u32>,
    // The place of the last query's end, and one behind them all before there was one.
    pub(crate) end: u32,
}

impl Model for SweepDesk {
    ghost use Rattle.std.specs.Prelude.{◌≡◌, ◌≤◌, ◌*◌, length};
    ghost use Rattle.cu_sweep.specs.Desks.{DeskValue};
    ghost use Rattle.cu_sweep.specs.Swept.{desk_of};

    ghost Value = { DeskValue };

    ghost view = { λ desk. desk_of desk.labels desk.end };

    ghost invariant = { λ desk. (length desk.path.items ≡ desk.labels.nodes)
        × (desk.end ≤ 2 * desk.labels.nodes) };
}

impl SweepDesk {
    /// A desk for queries over so many nodes, which are at most `MAX_NODES` of `cu_model`.
    pub fn new(alloc: Global, nodes: u32) -> Result<SweepDesk, NoMemory>
        requires { nodes ≤ MAX_NODES }
        ensures nodes { IfOk result (λ desk. desk.nodes ≡ nodes) }
        ensures unturned { IfOk result (λ desk. desk.turned ≡ false) }
    {
        Ok(SweepDesk {
            labels: Labels::new(alloc, nodes)?,
            path: vec![in alloc; 0u32; nodes as usize]?,
            end: 2 * nodes,
        })
    }
}
