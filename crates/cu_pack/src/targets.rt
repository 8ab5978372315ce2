//! Where the bytes of a file are put, one piece behind the other.

ghost use Rattle.std.specs.Prelude.{◌≡◌, ◌++◌, ℕ, List, OnOk, []};
ghost use Rattle.std.proofs.Common.{◌∙◌, ap, append_assoc, sym};
ghost use Rattle.std.proofs.lemmas.List.{append-nil};

use cu_model::NoMemory;

/// Whatever takes the bytes of a file in their order.
pub trait Target {
    /// Why a piece can't be put.
    type Failed: Drop;

    /// The second is the first behind which these bytes were put.
    ghost grows: { Self → Self → List ℕ → Type 0 };

    /// Puts a piece behind what was put before.
    fn put(&mut self, piece: &[u8]) -> Result<(), Self::Failed>
        ensures { OnOk result (grows self.old self.new piece.now) };

    /// Nothing is put where nothing changes.
    ghost stays: { (a : Self) → grows a a [] };

    /// What is put in two steps is one piece behind the other.
    ghost more: { (a b c : Self) (xs ys : List ℕ) → grows a b xs → grows b c ys
        → grows a c (xs ++ ys) };
}

impl Target for Vec<u8> {
    type Failed = NoMemory;

    ghost grows = { λ a b bytes. b.items ≡ a.items ++ bytes };

    fn put(&mut self, piece: &[u8]) -> Result<(), NoMemory> {
        self.extend_from_slice(piece)?;
        Ok(())
    }

    ghost stays = { λ a. sym (append-nil a.items) };

    ghost more = { λ a b c xs ys one two.
        two ∙ ap (λ (bs : List ℕ). bs ++ ys) one ∙ append_assoc a.items xs ys };
}
