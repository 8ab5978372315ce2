//! Whether links are kept to the labels of a sweep.

ghost use Rattle.std.specs.Prelude.{◌≡◌, ◌<◌, [], ℕ, Bool, List, Option, None, Some, All, IfOk, false, length, slice_set};
ghost use Rattle.cu_links.specs.Chains.{IsOnChainTo};
ghost use Rattle.cu_sweep.specs.Places.{KeepsLinks};

use cu_links::Chain;
use cu_model::NoMemory;
use std::alloc::Global;

/// Keeps from which place, and over which edge, the label of each place comes, or keeps nothing of it.
pub trait Linking: Drop {
    ghost links: { Self → List (Option (ℕ × ℕ)) };

    ghost turned: { Self → Bool };

    /// No links, and room for those into so many places, where links are kept.
    fn with_places(alloc: Global, places: u32) -> Result<Self, NoMemory>
        ensures places { IfOk result
            (λ linking. KeepsLinks links → length (links linking) ≡ places) }
        ensures none { IfOk result (λ linking. All (λ link. link ≡ None) (links linking)) }
        ensures unturned { IfOk result (λ linking. turned linking ≡ false) };

    /// Links a place from another, in place of the link that it has, where links are kept. Then both are below the number of
    /// places. No chain was turned since the last clear, and the place isn't on the chain that leads to the other. Takes no
    /// memory.
    fn set(&mut self, place: u32, from: u32, edge: u64)
        requires place { KeepsLinks links → place < length (links self.old) }
        requires from { KeepsLinks links → from < length (links self.old) }
        requires unturned { turned self.old ≡ false }
        requires apart { IsOnChainTo (links self.old) place from → ⊥ }
        ensures links { links self.new ≡ slice_set (links self.old) place (Some (from, edge)) }
        ensures unturned { turned self.new ≡ false };

    /// Takes all links away, in the time of those that were set since the last clear. Takes no memory.
    fn clear(&mut self)
        ensures places { length (links self.new) ≡ length (links self.old) }
        ensures none { All (λ link. link ≡ None) (links self.new) }
        ensures unturned { turned self.new ≡ false };
}

impl Linking for Chain {
    ghost links = { λ chain. chain.links };

    ghost turned = { λ chain. chain.turned };

    fn with_places(alloc: Global, places: u32) -> Result<Chain, NoMemory> {
        Chain::new(alloc, places)
    }

    fn set(&mut self, place: u32, from: u32, edge: u64) {
        Chain::set(self, place, from, edge);
    }

    fn clear(&mut self) {
        Chain::clear(self);
    }
}

/// No links are kept: labels say when each place is reached, and not how.
#[derive(Drop)]
pub struct Unlinked;

impl Linking for Unlinked {
    ghost links = { λ unlinked. [] };

    ghost turned = { λ unlinked. false };

    fn with_places(_alloc: Global, _places: u32) -> Result<Unlinked, NoMemory> {
        Ok(Unlinked)
    }

    fn set(&mut self, _place: u32, _from: u32, _edge: u64) {}

    fn clear(&mut self) {}
}
