//! What one agent is owed, stored: a ring of the items that wait, and the losses by the slots of their keys.
ghost use Rattle.std.specs.Prelude.{◌≡◌, ◌<◌, ◌≤◌, ◌+◌, ◌-◌, ◌^◌, ◌∷◌, ◌++◌, [], drop, slice_index, slice_set, length, slice_get, vec_len, IfOk, OnOk, OnErr, max, ℕ};
ghost use Rattle.qd_pend.specs.Slots.{EachBelow};
ghost use Rattle.qd_stream.specs.Outboxes.{Outstanding, empty_for, with_items, with_waiting, without_first_loss, first_loss, owes_slot, lost_by, with_lost};

use crate::item::StreamItem;
use circular_buffer::HeapCircularBuffer;
use qd_pend::PendQueue;
use std::alloc::{AllocError, Global};
use std::marker::Model;

/// An item that waits, and the slot of its key.
#[derive(Clone, Copy)]
pub struct Waiting {
    pub slot: u32,
    pub item: StreamItem,
}

/// How many records of a slot's key were lost.
#[derive(Clone, Copy)]
pub struct SlotLoss {
    pub slot: u32,
    pub count: u64,
}

/// What one agent is owed. All calls but `new` and `reserve` do constant work and take no memory.
#[derive(Drop)]
pub struct Outbox {
    ring: HeapCircularBuffer<Waiting>,
    // how many items of each slot wait
    waits: Vec<u64>,
    // the count of each slot that is among the lossy ones
    losses: Vec<u64>,
    lossy: PendQueue,
}

impl Model for Outbox {
    ghost use Rattle.qd_stream.specs.Outboxes.{Outstanding, lost_by, IsSound};

    ghost Value = { Outstanding };

    ghost view = { λ o. record { cap = o.ring.capacity; items = o.ring.items; lost = lost_by o.losses.items o.lossy.list; slots = o.lossy.slots } };

    ghost invariant = { λ o. IsSound o.ring.capacity o.ring.items o.waits.items o.losses.items o.lossy.list o.lossy.slots };
}

impl Outbox {
    /// Nothing is owed, and room for `cap` items that wait.
    pub fn new(alloc: Global, cap: u16) -> Result<Outbox, AllocError>
        ensures { IfOk result (λ o. o ≡ empty_for cap) }
    {
        Ok(Outbox {
            ring: HeapCircularBuffer::with_capacity(alloc, usize::from(cap))?,
            waits: Vec::new(alloc),
            losses: Vec::new(alloc),
            lossy: PendQueue::new(alloc)?,
        })
    }

    /// Makes room for items of the slots below `slots`.
    pub fn reserve(&mut self, slots: u32) -> Result<(), AllocError>
        ensures same { (self.new.cap ≡ self.old.cap) × (self.new.items ≡ self.old.items) × (self.new.lost ≡ self.old.lost) }
        ensures ok { OnOk result (self.new.slots ≡ max self.old.slots slots) }
        ensures err { OnErr result (self.new.slots ≡ self.old.slots) }
    {
        grow(&mut self.waits, slots)?;
        grow(&mut self.losses, slots)?;
        self.lossy.reserve(slots)
    }

    /// One item more waits. Where `cap` items wait already, the oldest is lost.
    pub fn push(&mut self, slot: u32, item: &StreamItem)
        requires { slot < self.old.slots }
        ensures { self.new ≡ with_waiting self.old (record { slot = slot; item = item.now }) }
    {
        wait_more(&mut self.waits, slot);
        match self.ring.push_back(Waiting { slot, item: *item }) {
            None => {}
            Some(oldest) => {
                wait_less(&mut self.waits, oldest.slot);
                let more = oldest.item.weight();
                lose(&mut self.losses, &mut self.lossy, oldest.slot, more);
            }
        }
    }

    /// Takes out the loss that came first.
    pub fn pop_loss(&mut self) -> Option<SlotLoss>
        ensures value { result ≡ first_loss self.old }
        ensures left { self.new ≡ without_first_loss self.old }
    {
        match self.lossy.pop_front() {
            None => None,
            Some(slot) => Some(SlotLoss {
                slot,
                count: count_at(&self.losses, slot),
            }),
        }
    }

    /// Takes out the item that waits longest.
    pub fn pop_item(&mut self) -> Option<Waiting>
        ensures value { result ≡ slice_get self.old.items 0 }
        ensures left { self.new ≡ with_items self.old (drop 1 self.old.items) }
    {
        match self.ring.pop_front() {
            None => None,
            Some(oldest) => {
                wait_less(&mut self.waits, oldest.slot);
                Some(oldest)
            }
        }
    }

    /// Whether an item of the slot's key waits, or a loss of it was not reported.
    pub fn owes(&self, slot: u32) -> bool
        ensures { result ≡ owes_slot self.now slot }
    {
        self.lossy.contains(slot) || count_at(&self.waits, slot) > 0
    }
}

// Counts of 0 for more slots.
fn grow(counts: &mut Vec<u64>, slots: u32) -> Result<(), AllocError>
    ensures same { (slot : ℕ) → slice_index counts.new.items slot ≡ slice_index counts.old.items slot }
    ensures ok { OnOk result (slots ≤ vec_len counts.new) }
    ensures longer { vec_len counts.old ≤ vec_len counts.new }
{
    if counts.len() < slots as usize {
        counts.resize(slots as usize, 0)?;
    }
    Ok(())
}

// The count of a slot: 0 where none stands.
fn count_at(counts: &Vec<u64>, slot: u32) -> u64
    ensures { result ≡ slice_index counts.now.items slot }
{
    match counts.get(slot as usize) {
        None => 0,
        Some(count) => *count,
    }
}

// One item more of the slot waits.
fn wait_more(waits: &mut Vec<u64>, slot: u32)
    requires below { slot < vec_len waits.old }
    requires fits { slice_index waits.old.items slot + 1 < 2 ^ 64 }
    ensures counted { waits.new.items ≡ slice_set waits.old.items slot (slice_index waits.old.items slot + 1) }
    ensures len { vec_len waits.new ≡ vec_len waits.old }
{
    waits[slot as usize] += 1;
}

// One item less of the slot waits.
fn wait_less(waits: &mut Vec<u64>, slot: u32)
    requires below { slot < vec_len waits.old }
    requires some { 0 < slice_index waits.old.items slot }
    ensures counted { waits.new.items ≡ slice_set waits.old.items slot (slice_index waits.old.items slot - 1) }
    ensures len { vec_len waits.new ≡ vec_len waits.old }
{
    waits[slot as usize] -= 1;
}

// So many records more of the slot's key are lost.
fn lose(losses: &mut Vec<u64>, lossy: &mut PendQueue, slot: u32, more: u64)
    requires below { slot < vec_len losses.old }
    requires listed { slot < lossy.old.slots }
    ensures lost { lost_by losses.new.items lossy.new.list ≡ with_lost (lost_by losses.old.items lossy.old.list) slot more }
    ensures len { vec_len losses.new ≡ vec_len losses.old }
    ensures slots { lossy.new.slots ≡ lossy.old.slots }
    ensures listed { EachBelow lossy.old.slots lossy.old.list → EachBelow lossy.new.slots lossy.new.list }
{
    if lossy.contains(slot) {
        let before = count_at(losses, slot);
        losses[slot as usize] = before.saturating_add(more);
    } else {
        losses[slot as usize] = more;
        lossy.push_back(slot);
    }
}
