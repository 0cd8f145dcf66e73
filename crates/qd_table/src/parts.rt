//! What the calls of a table do to its parts.

ghost use Rattle.std.specs.Prelude.{◌≡◌, ◌⊎◌, ◌<◌, ◌≤◌, ◌+◌, ◌^◌, false, Some, None, length, OnOk, OnErr, if◌then◌else◌, slice_set};
ghost use Rattle.qd_pend.specs.Slots.{has};
ghost use Rattle.qd_slots.specs.Names.{slot_in, name_at, IsGrown, named_in};
ghost use Rattle.qd_slots.specs.Holds.{order_at, cell_at, is_held_cell, IsRoomier};
ghost use Rattle.qd_slots.specs.Kept.{with_more, KeepsRoom};
ghost use Rattle.qd_slots.specs.Views.{is_known_by, HasSlot, HasSlots, EachWider};
ghost use Rattle.qd_table.specs.Stored.{without_unused, kept_if};

use qd_scheme::Key;
use qd_slots::{Holds, Kept, Names, Watchers};
use std::alloc::AllocError;

/// The slot of a key, which gets a vacant one where it has none.
pub fn slot_or_new(names: &mut Names, named: &mut u32, key: &Key) -> u32
    requires room { 0 < names.old.room }
    requires few { named.old < 2 ^ 31 }
    requires counted { named.old ≡ length (named_in names.old.names) }
    ensures found { (slot_in names.old.names key.now ≡ Some result) ⊎ ((slot_in names.old.names key.now ≡ None) × (name_at names.old.names result ≡ None)) }
    ensures within { result < length names.old.names }
    ensures names { names.new.names ≡ slice_set names.old.names result (Some key.now) }
    ensures room { names.old.room ≤ names.new.room + 1 }
    ensures more { named.new ≤ named.old + 1 }
    ensures counted { named.new ≡ length (named_in names.new.names) }
{
    match names.slot_of(key) {
        Some(slot) => slot,
        None => {
            *named += 1;
            names.name(key)
        }
    }
}

/// Frees the slot unless an agent has something of it or a watcher knows a total of it.
pub fn free_unused(
    names: &mut Names,
    named: &mut u32,
    holds: &Holds,
    watchers: &Watchers,
    slot: u32,
)
    requires cell { slot < length holds.now.cells }
    requires views { HasSlot slot watchers.now }
    requires counted { named.old ≡ length (named_in names.old.names) }
    ensures names { names.new.names ≡ without_unused names.old.names holds.now.cells watchers.now slot }
    ensures room { names.new.room ≡ names.old.room }
    ensures less { named.new ≤ named.old }
    ensures counted { named.new ≡ length (named_in names.new.names) }
{
    if holds.is_held(slot) || watchers.is_known(slot) {
        return;
    }
    match names.name_at(slot) {
        None => {}
        Some(key) => {
            names.free(slot, &key);
            *named = named.saturating_sub(1);
        }
    }
}

/// The agent keeps the slot from now on, if it is to.
pub fn keep_if(kept: &mut Kept, agent: u8, slot: u32, keep: bool)
    requires agent { agent < 128 }
    requires room { slot < (order_at kept.old agent).slots }
    requires absent { has (order_at kept.old agent).list slot ≡ false }
    ensures { kept.new ≡ kept_if kept.old agent slot keep }
{
    if keep {
        kept.add(agent, slot);
    }
}

/// Makes room for an agent to be subscribed so often to keys that have no slot yet. Whatever the answer, all stays but the room.
pub fn reserve(
    names: &mut Names,
    holds: &mut Holds,
    kept: &mut Kept,
    watchers: &mut Watchers,
    agent: u8,
    more: u32,
) -> Result<(), AllocError>
    requires agent { agent < 128 }
    ensures names { IsGrown names.old.names names.new.names }
    ensures room { names.old.room ≤ names.new.room }
    ensures holds { IsRoomier holds.old holds.new }
    ensures kept { KeepsRoom kept.old kept.new }
    ensures watchers { EachWider watchers.old watchers.new }
    ensures unnamed { OnErr result (names.new ≡ names.old) }
    ensures ready { OnOk result (more ≤ names.new.room) }
    ensures cells { OnOk result (length names.new.names ≤ length holds.new.cells) }
    ensures order { OnOk result (length names.new.names ≤ (order_at holds.new.orders agent).slots) }
    ensures keeps { OnOk result (length names.new.names ≤ (order_at kept.new agent).slots) }
    ensures views { OnOk result (HasSlots (length names.new.names) watchers.new) }
{
    match names.slots().checked_add(more) {
        None => Err(AllocError),
        Some(slots) => {
            holds.reserve(agent, slots)?;
            kept.reserve(agent, slots)?;
            watchers.reserve(slots)?;
            names.reserve(more)
        }
    }
}
