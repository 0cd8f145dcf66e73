//! Room for the events of a Put, made before anything changes.

ghost use Rattle.std.specs.Prelude.{◌≡◌, ◌≤◌, ◌<◌, ◌+◌, ◌∷◌, [], ℕ, List, Some, true, nat_eq, length, vec_len, slice_set, OnOk, if◌then◌else◌};
ghost use Rattle.qd_scheme.specs.declared.key.Event.{Event};
ghost use Rattle.qd_slots.specs.Holds.{is_subscribed};
ghost use Rattle.qd_table.specs.Tables.{hold_for, is_wanted_key};
ghost use Rattle.qd_history.specs.Tracks.{track_at, wanted_slot, IsSameTrack};
ghost use Rattle.qd_history.specs.Sides.{sided_at, spared_at, IsSameSide};
ghost use Rattle.qd_history.specs.Rooms.{wanted_count, count_at, tally_at, HasPlace, HasPlaces, IsTally, HasAll, IsTallied, KeepsTracks, KeepsSides, KeepsOthers, KeepsOtherFeeds};

use crate::sides::{Side, reserve_all};
use crate::tracks::{Tracks, wanted_slot};
use qd_scheme::Event;
use qd_table::SubTable;
use std::alloc::AllocError;

/// Makes places up to a number of them in a tally.
pub(crate) fn reserve_tally(tally: &mut Vec<u32>, slots: usize) -> Result<(), AllocError>
    ensures kept { vec_len tally.old ≤ vec_len tally.new }
    ensures ok { OnOk result (slots ≤ vec_len tally.new) }
{
    for _slot in tally.len()..slots {
        tally.push(0)?;
    }
    Ok(())
}

/// How many of the events are of wanted keys.
pub(crate) fn wanted_count(table: &SubTable, items: &[Event]) -> u64
    requires { length items.now ≤ 4096 }
    ensures count { result ≡ wanted_count table.now items.now }
    ensures few { result ≤ 4096 }
{
    let mut count = 0;
    for e in items {
        count += one_if_wanted(table, e);
    }
    count
}

fn one_if_wanted(table: &SubTable, e: &Event) -> u64
    ensures { result ≡ (if is_wanted_key table.now e.now.key then 1 else 0) }
{
    match wanted_slot(table, &e.key) {
        Some(_) => 1,
        None => 0,
    }
}

/// Sets the tally of the events' slots to zero.
fn settle(table: &SubTable, tally: &mut Vec<u32>, items: &[Event])
    requires places { IsTally table.now (vec_len tally.old) }
    ensures zero { (slot : ℕ) → 0 < count_at table.now slot items.now → tally_at tally.new.items slot ≡ 0 }
    ensures len { vec_len tally.new ≡ vec_len tally.old }
{
    for e in items {
        if let Some(slot) = wanted_slot(table, &e.key) {
            tally[slot as usize] = 0;
        }
    }
}

/// Makes room for so many events of a slot, and for what comes to be owed of them.
fn reserve_at(
    table: &SubTable,
    tracks: &mut Tracks,
    sides: &mut Vec<Side>,
    hcap: u16,
    slot: u32,
    events: u32,
) -> Result<(), AllocError>
    requires few { hcap ≤ 4096 }
    requires track { slot < length tracks.old.list }
    requires agents { vec_len sides.old ≡ 128 }
    requires feeds { (a : ℕ) → is_subscribed (hold_for table.now a slot) ≡ true → slot < length (sided_at sides.old.items a).feeds }
    ensures tracks { KeepsOthers slot tracks.old tracks.new }
    ensures sides { KeepsOtherFeeds slot sides.old.items sides.new.items }
    ensures ok { OnOk result (HasPlace hcap table.now tracks.new.list sides.new.items slot events) }
{
    tracks.reserve(slot, events)?;
    let held = tracks.at(slot).state().held();
    let most = held.saturating_add(events).min(u32::from(hcap));
    reserve_all(sides, table, slot, most)
}

/// One more event of a slot was counted. Tells how many.
fn bump(tally: &mut Vec<u32>, slot: u32) -> u32
    requires within { slot < vec_len tally.old }
    requires few { tally_at tally.old.items slot < 4096 }
    ensures count { result ≡ tally_at tally.old.items slot + 1 }
    ensures items { tally.new.items ≡ slice_set tally.old.items slot (tally_at tally.old.items slot + 1) }
    ensures len { vec_len tally.new ≡ vec_len tally.old }
{
    let count = tally[slot as usize] + 1;
    tally[slot as usize] = count;
    count
}

/// Counts an event of a wanted key, and makes room for as many as were counted.
fn make_room_for(
    table: &SubTable,
    tally: &mut Vec<u32>,
    tracks: &mut Tracks,
    sides: &mut Vec<Side>,
    hcap: u16,
    e: &Event,
) -> Result<(), AllocError>
    requires few { hcap ≤ 4096 }
    requires places { HasAll table.now (vec_len tally.old) (length tracks.old.list) sides.old.items }
    requires counted { (slot : ℕ) → wanted_slot table.now e.now.key ≡ Some slot → tally_at tally.old.items slot < 4096 }
    ensures tally { vec_len tally.new ≡ vec_len tally.old }
    ensures tracks { KeepsTracks tracks.old tracks.new }
    ensures sides { KeepsSides sides.old.items sides.new.items }
    ensures ok { OnOk result ((items rest : List Event) → IsTallied hcap table.now items (e.now ∷ rest) tally.old.items tracks.old.list sides.old.items
        → IsTallied hcap table.now items rest tally.new.items tracks.new.list sides.new.items) }
{
    match wanted_slot(table, &e.key) {
        None => Ok(()),
        Some(slot) => {
            let events = bump(tally, slot);
            reserve_at(table, tracks, sides, hcap, slot, events)
        }
    }
}

/// Makes room for all of these events, and for what comes to be owed of them. After want of memory there may be more room than before.
pub(crate) fn make_room(
    table: &SubTable,
    tally: &mut Vec<u32>,
    tracks: &mut Tracks,
    sides: &mut Vec<Side>,
    hcap: u16,
    items: &[Event],
) -> Result<(), AllocError>
    requires few { (hcap ≤ 4096) × (length items.now ≤ 4096) }
    requires places { HasAll table.now (vec_len tally.old) (length tracks.old.list) sides.old.items }
    ensures tally { vec_len tally.new ≡ vec_len tally.old }
    ensures tracks { KeepsTracks tracks.old tracks.new }
    ensures sides { KeepsSides sides.old.items sides.new.items }
    ensures ok { OnOk result (HasPlaces hcap table.now tracks.new.list sides.new.items items.now) }
{
    settle(table, tally, items);
    for e in items {
        make_room_for(table, tally, tracks, sides, hcap, e)?;
    }
    Ok(())
}
