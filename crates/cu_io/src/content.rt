//! What a file is stored from, piece by piece.

ghost use Rattle.std.specs.Prelude.{◌≡◌, ℕ, List, IfOk, OnOk};
ghost use Rattle.std.specs.Io.KnownBytes.{Appends};

use cu_model::NoMemory;
use std::alloc::Global;
use std::io;
use std::io::Write;

/// The bytes of a file, which needn't be in memory all at once.
pub trait Content {
    ghost bytes: { Self → List ℕ };

    /// Writes its bytes in their order, in pieces of any length. Where memory runs out on the way, its error says so; any other
    /// is the writer's.
    fn put_in<W: Write>(&self, alloc: Global, writer: &mut W) -> io::Result<()>
        ensures { OnOk result
            (Appends (W.contents writer.old) (W.contents writer.new) (bytes self.now)) };
}

impl<'a> Content for &'a [u8] {
    ghost bytes = { λ bytes. bytes.now };

    fn put_in<W: Write>(&self, _alloc: Global, writer: &mut W) -> io::Result<()> {
        writer.write_all(self)
    }
}

// All bytes of a content, in memory. A vector refuses a piece only where memory runs out.
pub(crate) fn gather<C: Content>(alloc: Global, content: &C) -> Result<Vec<u8>, NoMemory>
    ensures { IfOk result (λ bytes. bytes.items ≡ C.bytes content.now) }
{
    let mut bytes = Vec::new(alloc);
    let Ok(()) = content.put_in(alloc, &mut bytes) else {
        return Err(NoMemory);
    };
    Ok(bytes)
}
