//! Which slots each agent keeps.

ghost use Rattle.std.specs.Prelude.{◌≡◌, ◌<◌, ◌≤◌, ◌∷◌, ◌++◌, [], false, length, max, replicate, IsOk, OnOk, IfOk, slice_set, vec_len};
ghost use Rattle.qd_pend.specs.Slots.{has, first_in, EachOnce};
ghost use Rattle.qd_slots.specs.Holds.{no_order, order_at, with_less, with_room};
ghost use Rattle.qd_slots.specs.Kept.{with_more, KeepsRoom};

use crate::holds::{drop_order, empty_orders, reserve_order};
use qd_pend::PendQueue;
use std::alloc::{AllocError, Global};
use std::marker::Model;

/// For each agent the slots that it keeps without a subscription.
#[derive(Drop)]
pub struct Kept {
    slots: Vec<PendQueue>,
}

impl Model for Kept {
    ghost use Rattle.std.specs.Prelude.{◌≡◌, List, length};
    ghost use Rattle.qd_pend.specs.Slots.{SlotList};

    ghost Value = { List SlotList };

    ghost view = { λ k. k.slots.items };

    ghost invariant = { λ k. length k.slots.items ≡ 128 };
}

impl Kept {
    /// Nobody keeps anything.
    pub fn new(alloc: Global) -> Result<Kept, AllocError>
        ensures { IfOk result (λ k. k ≡ replicate 128 no_order) }
    {
        let slots = empty_orders(alloc)?;
        Ok(Kept { slots })
    }

    /// Makes room for the agent to keep the slots below `slots`. What is kept stays, whatever the answer. Memory is wanted only where there is
    /// too little room.
    pub fn reserve(&mut self, agent: u8, slots: u32) -> Result<(), AllocError>
        requires { agent < 128 }
        ensures kept { KeepsRoom self.old self.new }
        ensures room { OnOk result (slots ≤ (order_at self.new agent).slots) }
        ensures fits { slots ≤ (order_at self.old agent).slots → IsOk result }
    {
        reserve_order(&mut self.slots, agent, slots)
    }

    /// The first slot that the agent keeps.
    pub fn first_of(&self, agent: u8) -> Option<u32>
        requires { agent < 128 }
        ensures { result ≡ first_in (order_at self.now agent).list }
    {
        self.slots[agent as usize].front()
    }

    /// The agent keeps a slot from now on.
    pub fn add(&mut self, agent: u8, slot: u32)
        requires agent { agent < 128 }
        requires room { slot < (order_at self.old agent).slots }
        requires absent { has (order_at self.old agent).list slot ≡ false }
        ensures { self.new ≡ slice_set self.old agent (with_more (order_at self.old agent) slot) }
    {
        push_slot(&mut self.slots, agent, slot);
    }

    /// The agent keeps a slot no more.
    pub fn remove(&mut self, agent: u8, slot: u32)
        requires { agent < 128 }
        ensures { self.new ≡ slice_set self.old agent (with_less (order_at self.old agent) slot) }
    {
        drop_order(&mut self.slots, agent, slot);
    }
}

fn push_slot(slots: &mut Vec<PendQueue>, agent: u8, slot: u32)
    requires agent { agent < vec_len slots.old }
    requires room { slot < (order_at slots.old.items agent).slots }
    requires absent { has (order_at slots.old.items agent).list slot ≡ false }
    ensures { slots.new.items ≡ slice_set slots.old.items agent (with_more (order_at slots.old.items agent) slot) }
{
    let queue = &mut slots[agent as usize];
    queue.push_back(slot);
}
