//! Predecessor links over numbered places.

ghost use Rattle.std.specs.Prelude.{◌≡◌, ◌≤◌, ◌<◌, Some, None, true, false, IfOk, All, length, slice_set};
ghost use Rattle.cu_links.specs.Chains.{IsOnChainTo, IsTurned, link_at};
ghost use Rattle.cu_links.specs.Steps.Kept.{AreNoted, AreWithin, IsGrounded, Relinks};

use cu_model::NoMemory;
use std::alloc::Global;
use std::marker::Model;

/// Links into places, each from another place and with a label; no chain of them leads in a circle. Contracts see the links
/// by place, and whether a chain was turned since they were last cleared.
#[derive(Drop)]
pub struct Chain {
    links: Vec<Option<(u32, u64)>>,
    // The places that have a link, or had one when a chain was turned, are the first ones here.
    noted: Vec<u32>,
    count: usize,
    turned: bool,
}

impl Model for Chain {
    ghost use Rattle.cu_links.specs.Chains.{ChainValue};
    ghost use Rattle.cu_links.specs.Steps.Kept.{IsKept};

    ghost Value = { ChainValue };

    ghost view = { λ chain. record { links = chain.links.items; turned = chain.turned } };

    ghost invariant = { λ chain. IsKept chain.links.items chain.noted.items chain.count
        chain.turned };
}

impl Chain {
    /// So many places, with no links.
    pub fn new(alloc: Global, places: u32) -> Result<Chain, NoMemory>
        ensures places { IfOk result (λ chain. length chain.links ≡ places) }
        ensures none { IfOk result (λ chain. All (λ link. link ≡ None) chain.links) }
        ensures turned { IfOk result (λ chain. chain.turned ≡ false) }
    {
        Ok(Chain {
            links: vec![in alloc; None; places as usize]?,
            noted: vec![in alloc; 0u32; places as usize + 1]?,
            count: 0,
            turned: false,
        })
    }

    /// Links a place from another, in place of the link that it has. Both are below the number of places, no chain was turned
    /// since the last clear, and the place isn't on the chain that leads to the other. Takes no memory.
    pub fn set(&mut self, place: u32, from: u32, label: u64)
        requires place { place < length self.old.links }
        requires from { from < length self.old.links }
        requires unturned { self.old.turned ≡ false }
        requires apart { IsOnChainTo self.old.links place from → ⊥ }
        ensures links { self.new.links ≡ slice_set self.old.links place (Some (from, label)) }
        ensures unturned { self.new.turned ≡ false }
    {
        let before = self.links[place as usize];
        self.links[place as usize] = Some((from, label));
        if before.is_some() {
            return;
        }
        self.noted[self.count] = place;
        self.count += 1;
    }

    /// Turns the chain that leads to a place, and answers its first place. The place is below the number of places, and no
    /// chain was turned since the last clear. Takes no memory.
    pub fn reverse_from(&mut self, place: u32) -> u32
        requires place { place < length self.old.links }
        requires unturned { self.old.turned ≡ false }
        ensures chain { IsTurned self.old.links self.new.links place result }
        ensures places { length self.new.links ≡ length self.old.links }
        ensures first { result < length self.old.links }
        ensures turned { self.new.turned ≡ true }
    {
        let first = turn(&mut self.links, place);
        self.noted[self.count] = first;
        self.count += 1;
        self.turned = true;
        first
    }

    /// What follows a place on the chain that was turned: the next place, and the label of the link that led into it. None
    /// exactly at the chain's last place. A chain was turned since the last clear, and the place is below the number of
    /// places. Takes no memory.
    pub fn follow(&self, place: u32) -> Option<(u32, u64)>
        requires place { place < length self.now.links }
        requires turned { self.now.turned ≡ true }
        ensures { result ≡ link_at self.now.links place }
    {
        self.links[place as usize]
    }

    /// Takes all links away, in the time of the places that were linked since the last clear. Takes no memory.
    pub fn clear(&mut self)
        ensures places { length self.new.links ≡ length self.old.links }
        ensures none { All (λ link. link ≡ None) self.new.links }
        ensures turned { self.new.turned ≡ false }
    {
        unlink(&mut self.links, &self.noted, self.count);
        self.count = 0;
        self.turned = false;
    }
}

// Takes away the links of all places that have one, which are the first of those noted.
fn unlink(links: &mut [Option<(u32, u64)>], noted: &[u32], count: usize)
    requires count { count ≤ length noted.now }
    requires noted { AreNoted links.old noted.now count }
    ensures none { All (λ link. link ≡ None) links.new }
{
    'places: for index in 0..count {
        links[noted[index] as usize] = None;
    }
}

// Turns the chain that leads to a place, and answers its first place.
fn turn(links: &mut [Option<(u32, u64)>], place: u32) -> u32
    requires place { place < length links.old }
    requires grounded { IsGrounded links.old place }
    requires within { AreWithin links.old }
    ensures chain { IsTurned links.old links.new place result }
    ensures first { result < length links.old }
    ensures linked { Relinks links.old links.new result }
{
    let mut place = place;
    let mut next = None;
    'links: while let Some((from, label)) = links[place as usize] {
        links[place as usize] = next;
        next = Some((place, label));
        place = from;
    }
    links[place as usize] = next;
    place
}
