//! What a command stores.

ghost use Rattle.std.specs.Prelude.{◌∷◌, []};
ghost use Rattle.cu_cli.specs.Steps.Storing.{StoresInTurn};

use crate::stops::{Role, Stop};
use cu_io::{Content, Shelf, StoreFailed};
use std::alloc::Global;

/// Stores the file under a role's word.
pub fn store_file<H: Shelf>(
    alloc: Global,
    role: Role,
    name: &str,
    bytes: &[u8],
    shelf: &mut H,
) -> Result<(), Stop>
    ensures stores { StoresInTurn (H.state shelf.old) (H.state shelf.new)
        (record { role = role; name = name.now; bytes = bytes.now } ∷ []) result }
{
    store_content(alloc, role, name, &bytes, shelf)
}

/// [`store_file`] of bytes that needn't be in memory all at once.
pub fn store_content<H: Shelf, C: Content>(
    alloc: Global,
    role: Role,
    name: &str,
    content: &C,
    shelf: &mut H,
) -> Result<(), Stop>
    ensures stores { StoresInTurn (H.state shelf.old) (H.state shelf.new)
        (record { role = role; name = name.now; bytes = C.bytes content.now } ∷ []) result }
{
    match shelf.store_content(alloc, name, content) {
        Ok(()) => Ok(()),
        Err(StoreFailed::Fault) => Err(Stop::Fault(role)),
        Err(StoreFailed::NoMemory) => Err(Stop::NoMemory),
    }
}
