//! A writer of a file's bytes that makes their digest on the way.

ghost use Rattle.std.specs.Prelude.{◌≡◌, ◌++◌, ℕ, List, OnOk, []};
ghost use Rattle.std.proofs.Common.{◌∙◌, refl};
ghost use Rattle.std.specs.Io.KnownBytes.{Appends, append_known};
ghost use Rattle.sha2.specs.Hashers.{Holds256};
ghost use Rattle.sha2.specs.Sha256.{sha256};
ghost use Rattle.cu_pack.specs.Steps.Taken.{HoldsAll, TakesOn, takes_more, takes_nothing};

use crate::targets::Target;
use sha2::{Digest, Sha256};
use std::io;
use std::io::Write;

/// How many bytes are gathered before they are written. A piece that is as long is written as it lies.
pub const BLOCK: usize = 65_536;

/// A writer before a block of bytes that are yet to be written, and the digest of those that are.
#[derive(Drop)]
pub struct SealedWriter<'a, W: Write> {
    pub writer: &'a mut W,
    pub digest: Sha256,
    pub block: Vec<u8>,
}

impl<'a, W: Write> Target for SealedWriter<'a, W> {
    type Failed = io::Error;

    // It stays the same writer, so that who lent it knows what was written.
    ghost grows = { λ a b bytes. TakesOn (W.contents a.writer.now) a.digest a.block.items
        (W.contents b.writer.now) b.digest b.block.items bytes
        × (b.writer.ghost_name ≡ a.writer.ghost_name) };

    fn put(&mut self, piece: &[u8]) -> io::Result<()> {
        if piece.len() < BLOCK {
            return self.gather(piece);
        }
        self.pass_on()?;
        send(&mut self.digest, self.writer, piece)
    }

    ghost stays = { λ a.
        (takes_nothing (W.contents a.writer.now) a.digest a.block.items, refl) };

    ghost more = { λ a b c xs ys one two. (
      takes_more (W.contents a.writer.now) a.digest a.block.items
          (W.contents b.writer.now) b.digest b.block.items
          (W.contents c.writer.now) c.digest c.block.items xs ys one.0 two.0,
      two.1 ∙ one.1,
    ) };
}

impl<'a, W: Write> SealedWriter<'a, W> {
    // Adds a piece to the block, and passes this on once it is full.
    fn gather(&mut self, piece: &[u8]) -> io::Result<()>
        ensures { OnOk result (TakesOn
            (W.contents self.old.writer.now) self.old.digest self.old.block.items
            (W.contents self.new.writer.now) self.new.digest self.new.block.items piece.now
            × (self.new.writer.ghost_name ≡ self.old.writer.ghost_name)) }
    {
        self.block.extend_from_slice(piece)?;
        if self.block.len() < BLOCK {
            return Ok(());
        }
        self.pass_on()
    }

    // Writes the block, and empties it.
    fn pass_on(&mut self) -> io::Result<()>
        ensures same { OnOk result (TakesOn
            (W.contents self.old.writer.now) self.old.digest self.old.block.items
            (W.contents self.new.writer.now) self.new.digest self.new.block.items []) }
        ensures empty { OnOk result (self.new.block.items ≡ []) }
        ensures writer { self.new.writer.ghost_name ≡ self.old.writer.ghost_name }
    {
        send(&mut self.digest, self.writer, self.block.as_slice())?;
        self.block.clear();
        Ok(())
    }
}

/// Writes what is left in a block, and behind it the digest of all that was put.
pub fn finish<W: Write>(writer: &mut W, digest: Sha256, block: Vec<u8>) -> io::Result<()>
    ensures { (message : List ℕ) → HoldsAll digest block.items message
        → OnOk result (Appends (append_known (W.contents writer.old) block.items)
        (W.contents writer.new) (sha256 message)) }
{
    let mut digest = digest;
    send(&mut digest, writer, block.as_slice())?;
    let sum = digest.finalize();
    writer.write_all(&sum)
}

// Writes a piece, and takes it into a digest.
fn send<W: Write>(digest: &mut Sha256, writer: &mut W, piece: &[u8]) -> io::Result<()>
    ensures hashed { (message : List ℕ) → Holds256 digest.old message
        → Holds256 digest.new (message ++ piece.now) }
    ensures sent { OnOk result
        (Appends (W.contents writer.old) (W.contents writer.new) piece.now) }
{
    digest.update(piece);
    writer.write_all(piece)
}
