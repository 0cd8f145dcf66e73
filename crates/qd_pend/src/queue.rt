//! The queue.

ghost use Rattle.std.specs.Prelude.{◌≡◌, ◌<◌, ◌≤◌, ◌++◌, ◌∷◌, [], false, max, IsOk, OnOk, OnErr, IfOk};
ghost use Rattle.qd_pend.specs.Slots.{has, without, list_is_empty, first_in, rest_of, next_in, EachOnce, EachBelow};
ghost use Rattle.qd_pend.specs.Linked.{slot_of};

use crate::links::{Link, add_free, join, next_of, prev_of};
use std::alloc::{AllocError, Global};
use std::marker::Model;

/// Different slot numbers in the order in which they came.
#[derive(Drop)]
pub struct PendQueue {
    links: Vec<Link>,
}

impl Model for PendQueue {
    ghost use Rattle.std.specs.Prelude.{◌-◌, length};
    ghost use Rattle.qd_pend.specs.Slots.{SlotList};

    ghost Value = { SlotList };

    ghost use Rattle.qd_pend.specs.Linked.{listed, IsChain};

    ghost view = { λ q. record { list = listed q.links.items; slots = length q.links.items - 1 } };

    ghost invariant = { λ q. IsChain q.links.items (listed q.links.items) };
}

impl PendQueue {
    /// An empty queue for no slots yet.
    pub fn new(alloc: Global) -> Result<PendQueue, AllocError>
        ensures { IfOk result (λ q. q ≡ record { list = []; slots = 0 }) }
    {
        let mut links = Vec::new(alloc);
        links.push(Link { prev: 0, next: 0 })?;
        Ok(PendQueue { links })
    }

    /// Makes room for the slot numbers below `slots`. The list stays, whatever the answer. Memory is wanted only where there is too little.
    pub fn reserve(&mut self, slots: u32) -> Result<(), AllocError>
        ensures list { self.new.list ≡ self.old.list }
        ensures ok { OnOk result (self.new.slots ≡ max self.old.slots slots) }
        ensures err { OnErr result (self.new.slots ≡ self.old.slots) }
        ensures fits { slots ≤ self.old.slots → IsOk result }
    {
        let len = self.links.len();
        let wanted = slots as usize + 1;
        if wanted <= len {
            return Ok(());
        }
        self.links.reserve(wanted - len)?;
        add_free(&mut self.links, wanted);
        Ok(())
    }

    /// How many slot numbers there is room for.
    pub fn slots(&self) -> u32
        ensures value { result ≡ self.now.slots }
        ensures once { EachOnce self.now.list }
        ensures below { EachBelow self.now.slots self.now.list }
    {
        (self.links.len() - 1) as u32
    }

    /// Whether the slot is in the list.
    pub fn contains(&self, slot: u32) -> bool
        ensures { result ≡ has self.now.list slot }
    {
        if slot as usize + 1 >= self.links.len() {
            return false;
        }
        next_of(&self.links, slot + 1) != slot + 1
    }

    /// Whether the list is empty.
    pub fn is_empty(&self) -> bool
        ensures { result ≡ list_is_empty self.now.list }
    {
        next_of(&self.links, 0) == 0
    }

    /// The first slot of the list.
    pub fn front(&self) -> Option<u32>
        ensures { result ≡ first_in self.now.list }
    {
        slot_at(next_of(&self.links, 0))
    }

    /// The slot right after this one in the list; none after the last, and none where this one is not in the list.
    pub fn next_after(&self, slot: u32) -> Option<u32>
        ensures { result ≡ next_in self.now.list slot }
    {
        if !self.contains(slot) {
            return None;
        }
        slot_at(next_of(&self.links, slot + 1))
    }

    /// Puts a slot at the end of the list.
    pub fn push_back(&mut self, slot: u32)
        requires below { slot < self.old.slots }
        requires absent { has self.old.list slot ≡ false }
        ensures { self.new ≡ record { list = self.old.list ++ slot ∷ []; slots = self.old.slots } }
    {
        let last = prev_of(&self.links, 0);
        join(&mut self.links, last, slot + 1);
        join(&mut self.links, slot + 1, 0);
    }

    /// Takes a slot out of the list, wherever it stands, and says whether it was there.
    pub fn remove(&mut self, slot: u32) -> bool
        ensures found { result ≡ has self.old.list slot }
        ensures after { self.new ≡ record { list = without self.old.list slot; slots = self.old.slots } }
    {
        if !self.contains(slot) {
            return false;
        }
        let place = slot + 1;
        let before = prev_of(&self.links, place);
        let after = next_of(&self.links, place);
        join(&mut self.links, before, after);
        join(&mut self.links, place, place);
        true
    }

    /// Takes the first slot out of the list.
    pub fn pop_front(&mut self) -> Option<u32>
        ensures first { result ≡ first_in self.old.list }
        ensures after { self.new ≡ record { list = rest_of self.old.list; slots = self.old.slots } }
    {
        match slot_at(next_of(&self.links, 0)) {
            None => None,
            Some(first) => {
                self.remove(first);
                Some(first)
            }
        }
    }
}

/// The slot at a place; none at the root.
fn slot_at(place: u32) -> Option<u32>
    ensures { result ≡ slot_of place }
{
    if place == 0 { None } else { Some(place - 1) }
}
