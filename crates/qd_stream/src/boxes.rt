//! The outboxes of all agents. An agent's is made when room is asked for, and is kept then.
ghost use Rattle.std.specs.Prelude.{◌≡◌, ◌<◌, ◌∷◌, ◌++◌, [], drop, length, slice_set, slice_get, replicate, Some, None, vec_len, IfOk, IfSome, OnOk, OnErr};
ghost use Rattle.std.specs.Option.{option_map, option_and_then};
ghost use Rattle.qd_stream.specs.Outboxes.{with_items, with_waiting, without_first_loss, first_loss, owes_slot};
ghost use Rattle.qd_stream.specs.Boxes.{place_at, box_of, box_at, with_box, with_slots, empty_boxes, IsBoxed};

use crate::item::StreamItem;
use crate::outbox::{Outbox, SlotLoss, Waiting};
use std::alloc::{AllocError, Global};
use std::marker::Model;

/// What each of the 128 agents is owed. Only `new` and `reserve` take memory.
#[derive(Drop)]
pub struct Boxes {
    alloc: Global,
    cap: u16,
    boxes: Vec<Option<Outbox>>,
}

impl Model for Boxes {
    ghost use Rattle.std.specs.Prelude.{map};
    ghost use Rattle.qd_stream.specs.Boxes as specs;

    ghost Value = { specs.Boxes };

    ghost view = { λ b. record { cap = b.cap; list = map (specs.box_of b.cap) b.boxes.items } };

    ghost invariant = { λ b. specs.IsBoxed b.cap b.boxes.items };
}

impl Boxes {
    /// Nobody is owed anything, and `cap` items may wait for each agent.
    pub fn new(alloc: Global, cap: u16) -> Result<Boxes, AllocError>
        ensures { IfOk result (λ b. b ≡ empty_boxes cap) }
    {
        Ok(Boxes {
            alloc,
            cap,
            boxes: no_boxes(alloc)?,
        })
    }

    /// Makes room for items of the slots below `slots` to wait for the agent. After an error all is as before.
    pub fn reserve(&mut self, agent: u8, slots: u32) -> Result<(), AllocError>
        requires { agent < 128 }
        ensures ok { OnOk result (self.new ≡ with_box self.old agent (with_slots (box_at self.old agent) slots)) }
        ensures err { OnErr result (self.new ≡ self.old) }
    {
        reserve_in(&mut self.boxes, self.alloc, self.cap, agent, slots)
    }

    /// One item more waits for the agent. Where `cap` items wait already, the oldest is lost.
    pub fn push(&mut self, agent: u8, slot: u32, item: &StreamItem)
        requires agent { agent < 128 }
        requires slot { slot < (box_at self.old agent).slots }
        ensures { self.new ≡ with_box self.old agent (with_waiting (box_at self.old agent) (record { slot = slot; item = item.now })) }
    {
        push_in(&mut self.boxes, agent, slot, item);
    }

    /// Takes out the loss of the agent that came first.
    pub fn pop_loss(&mut self, agent: u8) -> Option<SlotLoss>
        requires { agent < 128 }
        ensures value { result ≡ first_loss (box_at self.old agent) }
        ensures left { self.new ≡ with_box self.old agent (without_first_loss (box_at self.old agent)) }
    {
        pop_loss_in(&mut self.boxes, agent)
    }

    /// Takes out the item that waits longest for the agent.
    pub fn pop_item(&mut self, agent: u8) -> Option<Waiting>
        requires { agent < 128 }
        ensures value { result ≡ slice_get (box_at self.old agent).items 0 }
        ensures left { self.new ≡ with_box self.old agent (with_items (box_at self.old agent) (drop 1 (box_at self.old agent).items)) }
    {
        pop_item_in(&mut self.boxes, agent)
    }

    /// Whether an item of the slot's key waits for the agent, or a loss of it was not reported.
    pub fn owes(&self, agent: u8, slot: u32) -> bool
        requires { agent < 128 }
        ensures { result ≡ owes_slot (box_at self.now agent) slot }
    {
        match &self.boxes[agent as usize] {
            None => false,
            Some(outbox) => outbox.owes(slot),
        }
    }
}

type OutboxList = Vec<Option<Outbox>>;

// No agent has an outbox.
fn no_boxes(alloc: Global) -> Result<OutboxList, AllocError>
    ensures { IfOk result (λ boxes. boxes.items ≡ replicate 128 None) }
{
    let mut boxes = Vec::with_capacity(alloc, 128)?;
    for _agent in 0..128u8 {
        boxes.push(None)?;
    }
    Ok(boxes)
}

// Makes room for more slots in an agent's outbox, which is made if there is none.
fn reserve_in(
    boxes: &mut OutboxList,
    alloc: Global,
    cap: u16,
    agent: u8,
    slots: u32,
) -> Result<(), AllocError>
    requires { agent < vec_len boxes.old }
    ensures ok { OnOk result (boxes.new.items ≡ slice_set boxes.old.items agent (Some (with_slots (box_of cap (place_at boxes.old.items agent)) slots))) }
    ensures err { OnErr result (boxes.new.items ≡ boxes.old.items) }
{
    let place = &mut boxes[agent as usize];
    match place {
        Some(outbox) => outbox.reserve(slots),
        None => {
            let mut outbox = Outbox::new(alloc, cap)?;
            outbox.reserve(slots)?;
            *place = Some(outbox);
            Ok(())
        }
    }
}

// One item more waits for an agent that has an outbox.
fn push_in(boxes: &mut OutboxList, agent: u8, slot: u32, item: &StreamItem)
    requires agent { agent < vec_len boxes.old }
    requires slot { IfSome (place_at boxes.old.items agent) (λ o. slot < o.slots) }
    ensures { boxes.new.items ≡ slice_set boxes.old.items agent (option_map (λ o. with_waiting o (record { slot = slot; item = item.now })) (place_at boxes.old.items agent)) }
{
    match &mut boxes[agent as usize] {
        None => {}
        Some(outbox) => outbox.push(slot, item),
    }
}

// Takes out an agent's first loss.
fn pop_loss_in(boxes: &mut OutboxList, agent: u8) -> Option<SlotLoss>
    requires { agent < vec_len boxes.old }
    ensures value { result ≡ option_and_then first_loss (place_at boxes.old.items agent) }
    ensures left { boxes.new.items ≡ slice_set boxes.old.items agent (option_map without_first_loss (place_at boxes.old.items agent)) }
{
    match &mut boxes[agent as usize] {
        None => None,
        Some(outbox) => outbox.pop_loss(),
    }
}

// Takes out the item that waits longest for an agent.
fn pop_item_in(boxes: &mut OutboxList, agent: u8) -> Option<Waiting>
    requires { agent < vec_len boxes.old }
    ensures value { result ≡ option_and_then (λ o. slice_get o.items 0) (place_at boxes.old.items agent) }
    ensures left { boxes.new.items ≡ slice_set boxes.old.items agent (option_map (λ o. with_items o (drop 1 o.items)) (place_at boxes.old.items agent)) }
{
    match &mut boxes[agent as usize] {
        None => None,
        Some(outbox) => outbox.pop_item(),
    }
}
