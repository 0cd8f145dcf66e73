//! The slot numbers of keys.

ghost use Rattle.std.specs.Prelude.{◌≡◌, ◌+◌, ◌∷◌, ◌<◌, ◌≤◌, ◌^◌, ◌-◌, ◌++◌, [], length, slice_set, if◌then◌else◌, Option, Some, None, IsOk, OnOk, OnErr, IfOk, IfSome, max, vec_len, vec_capacity};
ghost use Rattle.indexmap.specs.IndexMap.{get, spare};
ghost use Rattle.qd_scheme.specs.declared.key.Key.{Key};
ghost use Rattle.qd_scheme.specs.Keys.{key_eq};
ghost use Rattle.qd_pend.specs.Slots.{EachOnce};
ghost use Rattle.qd_slots.specs.Names.{slot_in, name_at, named_in, nones, slots_with, IsFound, IsVacant, IsGrown, IsReady};

use indexmap::IndexMap;
use qd_pend::PendQueue;
use qd_scheme::{Key, SeededState};
use std::alloc::{AllocError, Global};
use std::marker::Model;

/// Keys, each with a slot number of its own for as long as it is named.
///
/// Slot numbers are small: one that was freed is given again, and slots are added only where too few are free.
/// Only `new` and `reserve` take memory.
#[derive(Drop)]
pub struct Names {
    slots: IndexMap<Key, u32, SeededState>,
    names: Vec<Option<Key>>,
    free: PendQueue,
    // How many slots are free, and how many keys can be named without memory.
    free_count: u32,
    room: u32,
}

impl Model for Names {
    ghost use Rattle.qd_slots.specs.Names.{NameList};

    ghost Value = { NameList };

    ghost use Rattle.qd_slots.specs.Indexed.{IsIndexed};

    ghost view = { λ n. record { names = n.names.items; room = n.room } };

    ghost invariant = { λ n. IsIndexed n.slots n.names.items n.free n.free_count n.room };
}

impl Names {
    /// No keys, hashed with the seed 0.
    pub fn new(alloc: Global) -> Result<Names, AllocError>
        ensures { IfOk result (λ n. n ≡ record { names = []; room = 0 }) }
    {
        Names::with_seed(alloc, 0)
    }

    /// No keys, hashed with a seed. No answer depends on it.
    pub fn with_seed(alloc: Global, seed: u64) -> Result<Names, AllocError>
        ensures { IfOk result (λ n. n ≡ record { names = []; room = 0 }) }
    {
        let free = PendQueue::new(alloc)?;
        Ok(Names {
            slots: IndexMap::with_hasher(alloc, SeededState::new(seed)),
            names: Vec::new(alloc),
            free,
            free_count: 0,
            room: 0,
        })
    }

    /// The slot of a key, if it has one.
    pub fn slot_of(&self, key: &Key) -> Option<u32>
        ensures slot { result ≡ slot_in self.now.names key.now }
        ensures named { IfSome result (λ slot. name_at self.now.names slot ≡ Some key.now) }
    {
        self.slots.get(key).copied()
    }

    /// The key of a slot; none where the slot is free.
    pub fn name_at(&self, slot: u32) -> Option<Key>
        ensures { result ≡ name_at self.now.names slot }
    {
        name_in(self.names.as_slice(), slot)
    }

    /// A number above all slots. It never falls.
    pub fn slots(&self) -> u32
        ensures slots { result ≡ length self.now.names }
        ensures found { IsFound self.now.names }
    {
        self.names.len() as u32
    }

    /// How many keys can be named without memory.
    pub fn room(&self) -> u32
        ensures { result ≡ self.now.room }
    {
        self.room
    }

    /// A number above all slots once there is room to name this many keys; none above 2^32.
    pub fn slots_with(&self, more: u32) -> Option<u32>
        ensures slots { IfSome result (λ slots. slots ≡ slots_with self.now more) }
        ensures fits { more ≤ self.now.room → result ≡ Some (length self.now.names) }
    {
        let slots = self.slots();
        if more <= self.room {
            return Some(slots);
        }
        if more > u32::MAX - slots {
            return None;
        }
        Some(slots + more)
    }

    /// Makes room to name this many keys. After an error all is as before. Memory is wanted only where there is too little room.
    pub fn reserve(&mut self, more: u32) -> Result<(), AllocError>
        ensures names { OnOk result (IsGrown self.old.names self.new.names) }
        ensures ok { OnOk result (more ≤ self.new.room) }
        ensures few { length self.new.names ≤ length self.old.names + more }
        ensures slots { length self.new.names ≤ slots_with self.old more }
        ensures fits { more ≤ self.old.room → IsOk result × (self.new ≡ self.old) }
        // There are never more slots than were needed at once.
        ensures small { length self.new.names ≤ max (length self.old.names) (length (named_in self.old.names) + more) }
        ensures kept { self.old.room ≤ self.new.room }
        ensures err { OnErr result (self.new ≡ self.old) }
    {
        if more <= self.room {
            return Ok(());
        }
        self.slots.reserve(more as usize)?;
        grow(&mut self.names, &mut self.free, self.free_count, more)?;
        self.free_count = self.free_count.max(more);
        self.room = more;
        Ok(())
    }

    /// Gives a key a slot.
    pub fn name(&mut self, key: &Key) -> u32
        requires absent { slot_in self.old.names key.now ≡ None }
        requires room { 0 < self.old.room }
        ensures within { result < length self.old.names }
        ensures vacant { name_at self.old.names result ≡ None }
        ensures names { self.new ≡ record { names = slice_set self.old.names result (Some key.now); room = self.old.room - 1 } }
    {
        match self.free.pop_front() {
            None => unreachable!(),
            Some(slot) => {
                set_name(&mut self.names, slot, Some(*key));
                set_slot(&mut self.slots, key, slot);
                self.free_count -= 1;
                self.room -= 1;
                slot
            }
        }
    }

    /// Frees the slot of a key.
    pub fn free(&mut self, slot: u32, key: &Key)
        requires { name_at self.old.names slot ≡ Some key.now }
        ensures { self.new ≡ record { names = slice_set self.old.names slot None; room = self.old.room } }
    {
        set_name(&mut self.names, slot, None);
        drop_slot(&mut self.slots, key);
        self.free.push_back(slot);
        self.free_count += 1;
    }
}

/// The key of a slot.
fn name_in(names: &[Option<Key>], slot: u32) -> Option<Key>
    ensures { result ≡ name_at names.now slot }
{
    if slot as usize >= names.len() {
        return None;
    }
    names[slot as usize]
}

fn set_name(names: &mut Vec<Option<Key>>, slot: u32, name: Option<Key>)
    requires { slot < vec_len names.old }
    ensures items { names.new.items ≡ slice_set names.old.items slot name }
    ensures len { vec_len names.new ≡ vec_len names.old }
{
    names[slot as usize] = name;
}

/// Sees to it that so many slots are free, where some are already.
fn grow(
    names: &mut Vec<Option<Key>>,
    free: &mut PendQueue,
    free_count: u32,
    more: u32,
) -> Result<(), AllocError>
    requires counted { free_count ≡ length free.old.list }
    requires vacant { IsVacant names.old.items free.old.list }
    requires once { EachOnce free.old.list }
    requires numbers { vec_len names.old ≤ free.old.slots }
    requires few { vec_len names.old < 2 ^ 32 }
    ensures ok { OnOk result (IsReady names.old.items names.new.items free.new free_count more) }
    ensures err { OnErr result ((names.new.items ≡ names.old.items) × (free.new.list ≡ free.old.list)) }
    ensures kept { length free.old.list ≤ length free.new.list }
    ensures numbers { free.old.slots ≤ free.new.slots }
    ensures few { vec_len names.new ≤ vec_len names.old + (more - free_count) }
{
    if more <= free_count {
        return Ok(());
    }
    let wanted = names.len() + (more - free_count) as usize;
    if wanted > u32::MAX as usize {
        return Err(AllocError);
    }
    names.reserve((more - free_count) as usize)?;
    free.reserve(wanted as u32)?;
    add_vacant(names, free, wanted as u32);
    Ok(())
}

/// Adds free slots up to a number. There is room for them.
fn add_vacant(names: &mut Vec<Option<Key>>, free: &mut PendQueue, slots: u32)
    requires few { vec_len names.old ≤ slots }
    requires room { slots ≤ vec_capacity names.old }
    requires numbers { slots ≤ free.old.slots }
    requires vacant { IsVacant names.old.items free.old.list }
    requires once { EachOnce free.old.list }
    ensures names { names.new.items ≡ names.old.items ++ nones (slots - vec_len names.old) }
    ensures len { vec_len names.new ≡ slots }
    ensures vacant { IsVacant names.new.items free.new.list }
    ensures once { EachOnce free.new.list }
    ensures count { length free.new.list ≡ length free.old.list + (slots - vec_len names.old) }
    ensures numbers { free.new.slots ≡ free.old.slots }
{
    for slot in names.len()..slots as usize {
        push_vacant(names);
        free.push_back(slot as u32);
    }
}

fn push_vacant(names: &mut Vec<Option<Key>>)
    requires { vec_len names.old < vec_capacity names.old }
    ensures items { names.new.items ≡ names.old.items ++ None ∷ [] }
    ensures len { vec_len names.new ≡ vec_len names.old + 1 }
    ensures capacity { vec_capacity names.old ≤ vec_capacity names.new }
{
    let _ = names.push(None);
}

type Slots = IndexMap<Key, u32, SeededState>;

fn set_slot(slots: &mut Slots, key: &Key, slot: u32)
    requires { 0 < spare slots.old }
    ensures looked { (q : Key) → get key_eq slots.new q ≡ (if key_eq key.now q then Some slot else get key_eq slots.old q) }
    ensures spare { spare slots.old ≤ spare slots.new + 1 }
{
    let _ = slots.insert(*key, slot);
}

fn drop_slot(slots: &mut Slots, key: &Key)
    ensures looked { (q : Key) → get key_eq slots.new q ≡ (if key_eq key.now q then None else get key_eq slots.old q) }
    ensures spare { spare slots.old ≤ spare slots.new }
{
    let _ = slots.swap_remove(key);
}
