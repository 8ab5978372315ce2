//! Room for an unpacking.

ghost use Rattle.std.specs.Prelude.{◌≡◌, IfOk};

use cu_model::NoMemory;
use std::alloc::Global;
use std::marker::Model;

/// Room for the shortcuts that wait while one is unpacked, made once. Contracts see for how many nodes it was made.
#[derive(Drop)]
pub struct Work {
    pub(crate) pending: Vec<u32>,
}

impl Model for Work {
    ghost use Rattle.std.specs.Prelude.{ℕ, vec_len};

    ghost Value = { ℕ };

    ghost view = { λ work. vec_len work.pending };
}

impl Work {
    /// Room for an unpacking over so many nodes.
    pub fn new(alloc: Global, nodes: u32) -> Result<Work, NoMemory>
        ensures { IfOk result (λ work. work ≡ nodes) }
    {
        Ok(Work {
            pending: vec![in alloc; 0u32; nodes as usize]?,
        })
    }
}
