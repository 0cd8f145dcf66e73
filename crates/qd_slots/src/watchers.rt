//! The eight watchers.

ghost use Rattle.std.specs.Prelude.{◌≡◌, ◌≢◌, ℕ, ◌<◌, ◌≤◌, length, replicate, IsOk, OnOk, IfOk, slice_set, vec_len, vec_capacity};
ghost use Rattle.std.specs.List.{list_any};
ghost use Rattle.qd_pend.specs.Slots.{first_in, next_in};
ghost use Rattle.qd_slots.specs.Views.{no_viewing, view_at, viewing_at, with_total, with_told, is_known_by, HasSlot, HasSlots, IsWider, EachWider, EachSaw};

use crate::views::{View, Watcher};
use std::alloc::{AllocError, Global};
use std::marker::Model;

/// What each of the eight watchers knows.
#[derive(Drop)]
pub struct Watchers {
    watchers: Vec<Watcher>,
}

impl Model for Watchers {
    ghost use Rattle.std.specs.Prelude.{◌≡◌, List, length};
    ghost use Rattle.qd_slots.specs.Views.{Viewing};

    ghost Value = { List Viewing };

    ghost view = { λ w. w.watchers.items };

    ghost invariant = { λ w. length w.watchers.items ≡ 8 };
}

impl Watchers {
    /// Watchers that know nothing.
    pub fn new(alloc: Global) -> Result<Watchers, AllocError>
        ensures { IfOk result (λ w. w ≡ replicate 8 no_viewing) }
    {
        let watchers = new_watchers(alloc)?;
        Ok(Watchers { watchers })
    }

    /// Makes room for the slots below `slots`. What is known stays, whatever the answer. Memory is wanted only where there is too little.
    pub fn reserve(&mut self, slots: u32) -> Result<(), AllocError>
        ensures kept { EachWider self.old self.new }
        ensures ok { OnOk result (HasSlots slots self.new) }
        ensures fits { HasSlots slots self.old → IsOk result }
    {
        reserve_all(&mut self.watchers, slots)
    }

    /// What a watcher knows of a slot.
    pub fn view_of(&self, watcher: u8, slot: u32) -> View
        requires watcher { watcher < 8 }
        requires slot { slot < length (viewing_at self.now watcher).views }
        ensures { result ≡ view_at (viewing_at self.now watcher).views slot }
    {
        self.watchers[watcher as usize].view_of(slot)
    }

    /// The first slot that differs for a watcher.
    pub fn first(&self, watcher: u8) -> Option<u32>
        requires { watcher < 8 }
        ensures { result ≡ first_in (viewing_at self.now watcher).queue.list }
    {
        self.watchers[watcher as usize].first()
    }

    /// The slot that differs right after this one in order; none after the last.
    pub fn next_after(&self, watcher: u8, slot: u32) -> Option<u32>
        requires { watcher < 8 }
        ensures { result ≡ next_in (viewing_at self.now watcher).queue.list slot }
    {
        self.watchers[watcher as usize].next_after(slot)
    }

    /// Whether some watcher knows a total of a slot.
    pub fn is_known(&self, slot: u32) -> bool
        requires { HasSlot slot self.now }
        ensures { result ≡ is_known_by self.now slot }
    {
        any_knows(&self.watchers, slot)
    }

    /// Each watcher sees that a slot has this total now.
    pub fn see(&mut self, slot: u32, total: Option<u64>)
        requires { HasSlot slot self.old }
        ensures { EachSaw slot total self.old self.new }
    {
        see_all(&mut self.watchers, slot, total);
    }

    /// A watcher was told this of a slot that has this total.
    pub fn tell(&mut self, watcher: u8, slot: u32, told: Option<u64>, total: Option<u64>)
        requires watcher { watcher < 8 }
        requires slot { HasSlot slot self.old }
        ensures { self.new ≡ slice_set self.old watcher (with_told (viewing_at self.old watcher) slot told total) }
    {
        tell_one(&mut self.watchers, watcher, slot, told, total);
    }
}

fn new_watchers(alloc: Global) -> Result<Vec<Watcher>, AllocError>
    ensures { IfOk result (λ watchers. watchers.items ≡ replicate 8 no_viewing) }
{
    let mut watchers = Vec::with_capacity(alloc, 8)?;
    for _watcher in 0..8u8 {
        watchers.push(Watcher::new(alloc)?)?;
    }
    Ok(watchers)
}

fn reserve_all(watchers: &mut Vec<Watcher>, slots: u32) -> Result<(), AllocError>
    requires { vec_len watchers.old ≡ 8 }
    ensures kept { EachWider watchers.old.items watchers.new.items }
    ensures ok { OnOk result (HasSlots slots watchers.new.items) }
    ensures fits { HasSlots slots watchers.old.items → IsOk result }
{
    for watcher in 0..8u8 {
        reserve_one(watchers, watcher, slots)?;
    }
    Ok(())
}

fn reserve_one(watchers: &mut Vec<Watcher>, watcher: u8, slots: u32) -> Result<(), AllocError>
    requires { watcher < vec_len watchers.old }
    ensures len { vec_len watchers.new ≡ vec_len watchers.old }
    ensures others { (w : ℕ) → w ≢ watcher → viewing_at watchers.new.items w ≡ viewing_at watchers.old.items w }
    ensures wider { IsWider (viewing_at watchers.old.items watcher) (viewing_at watchers.new.items watcher) }
    ensures views { OnOk result (slots ≤ length (viewing_at watchers.new.items watcher).views) }
    ensures queue { OnOk result (slots ≤ (viewing_at watchers.new.items watcher).queue.slots) }
    ensures fits { slots ≤ length (viewing_at watchers.old.items watcher).views → slots ≤ (viewing_at watchers.old.items watcher).queue.slots → IsOk result }
{
    let one = &mut watchers[watcher as usize];
    one.reserve(slots)
}

fn any_knows(watchers: &[Watcher], slot: u32) -> bool
    requires count { length watchers.now ≡ 8 }
    requires slot { HasSlot slot watchers.now }
    ensures { result ≡ is_known_by watchers.now slot }
{
    for w in 0..watchers.len() {
        if watchers[w].view_of(slot).known.is_some() {
            return true;
        }
    }
    false
}

fn see_all(watchers: &mut Vec<Watcher>, slot: u32, total: Option<u64>)
    requires count { vec_len watchers.old ≡ 8 }
    requires slot { HasSlot slot watchers.old.items }
    ensures { EachSaw slot total watchers.old.items watchers.new.items }
{
    for watcher in 0..8u8 {
        see_one(watchers, watcher, slot, total);
    }
}

fn see_one(watchers: &mut Vec<Watcher>, watcher: u8, slot: u32, total: Option<u64>)
    requires watcher { watcher < vec_len watchers.old }
    requires view { slot < length (viewing_at watchers.old.items watcher).views }
    requires room { slot < (viewing_at watchers.old.items watcher).queue.slots }
    ensures { watchers.new.items ≡ slice_set watchers.old.items watcher (with_total (viewing_at watchers.old.items watcher) slot total) }
{
    let one = &mut watchers[watcher as usize];
    one.see(slot, total);
}

fn tell_one(
    watchers: &mut Vec<Watcher>,
    watcher: u8,
    slot: u32,
    told: Option<u64>,
    total: Option<u64>,
)
    requires watcher { watcher < vec_len watchers.old }
    requires view { slot < length (viewing_at watchers.old.items watcher).views }
    requires room { slot < (viewing_at watchers.old.items watcher).queue.slots }
    ensures { watchers.new.items ≡ slice_set watchers.old.items watcher (with_told (viewing_at watchers.old.items watcher) slot told total) }
{
    let one = &mut watchers[watcher as usize];
    one.tell(slot, told, total);
}
