//! Whether an agent may subscribe to more keys.

ghost use Rattle.std.specs.Prelude.{◌≡◌, ◌<◌, ◌≤◌, ◌+◌, ◌^◌, ◌∷◌, ℕ, List, Some, None, Ok, Err, length, map, false, ◌||◌, if◌then◌else◌};
ghost use Rattle.indexmap.specs.IndexSet.{spare};
ghost use Rattle.qd_scheme.specs.declared.key.Key.{Key};
ghost use Rattle.qd_scheme.specs.Keys.{key_eq};
ghost use Rattle.qd_sub.specs.Holding.{has_key};
ghost use Rattle.qd_table.specs.Judging.{has_slot, holds_key, fresh_count, seen_or, verdict_for, verdict_of, IsReady};

use crate::table::SubFault;
use indexmap::IndexSet;
use qd_scheme::{Key, SeededState};
use qd_slots::{Holds, Names};
use qd_sub::Sub;

/// So many keys may have a slot.
const MOST_KEYS: u32 = 16_384;

/// So many pairs of an agent and a key may be held.
const MOST_PAIRS: u32 = 262_144;

/// How many keys, and how many pairs of an agent and a key, would be held anew.
#[derive(Clone, Copy)]
struct Fresh {
    keys: u32,
    pairs: u32,
}

/// Judges whether an agent may subscribe to these, where so many keys have a slot.
pub fn judge(
    names: &Names,
    named: u32,
    holds: &Holds,
    seen: &mut IndexSet<Key, SeededState>,
    agent: u8,
    subs: &[Sub],
) -> Result<(), SubFault>
    requires agent { agent < 128 }
    requires few { length subs.now ≤ 4096 }
    requires named { named < 2 ^ 31 }
    requires pairs { holds.now.pairs < 2 ^ 31 }
    requires ready { IsReady seen.old }
    requires cells { length names.now.names ≤ length holds.now.cells }
    ensures ready { IsReady seen.new }
    ensures verdict { result ≡ verdict_of names.now.names named holds.now agent (map (λ s. s.key) subs.now) }
{
    let more = subs.len() as u32;
    if named + more <= MOST_KEYS && holds.pairs() + more <= MOST_PAIRS {
        return Ok(());
    }
    let fresh = count_fresh(names, holds, seen, agent, subs);
    seen.clear();
    verdict(named + fresh.keys, holds.pairs() + fresh.pairs)
}

/// The first limit that these numbers pass.
fn verdict(keys: u32, pairs: u32) -> Result<(), SubFault>
    ensures { result ≡ verdict_for keys pairs }
{
    if keys > MOST_KEYS {
        return Err(SubFault::TooManyKeys);
    }
    if pairs > MOST_PAIRS {
        return Err(SubFault::TooManySubs);
    }
    Ok(())
}

/// Counts each key once that has no slot, and once that the agent does not hold.
fn count_fresh(
    names: &Names,
    holds: &Holds,
    seen: &mut IndexSet<Key, SeededState>,
    agent: u8,
    subs: &[Sub],
) -> Fresh
    requires agent { agent < 128 }
    requires few { length subs.now ≤ 4096 }
    requires ready { IsReady seen.old }
    requires cells { length names.now.names ≤ length holds.now.cells }
    ensures keys { result.keys ≡ fresh_count (has_slot names.now.names) (map (λ s. s.key) subs.now) }
    ensures pairs { result.pairs ≡ fresh_count (holds_key names.now.names holds.now.cells agent) (map (λ s. s.key) subs.now) }
    ensures small { (result.keys ≤ 4096) × (result.pairs ≤ 4096) }
    ensures room { 4096 ≤ length seen.new.keys + spare seen.new }
{
    let mut fresh = Fresh { keys: 0, pairs: 0 };
    for sub in subs {
        count_key(names, holds, seen, &mut fresh, agent, &sub.key);
    }
    fresh
}

/// Counts a key that was not seen before.
fn count_key(
    names: &Names,
    holds: &Holds,
    seen: &mut IndexSet<Key, SeededState>,
    fresh: &mut Fresh,
    agent: u8,
    key: &Key,
)
    requires agent { agent < 128 }
    requires cells { length names.now.names ≤ length holds.now.cells }
    requires room { 0 < spare seen.old }
    requires small { (fresh.old.keys < 2 ^ 31) × (fresh.old.pairs < 2 ^ 31) }
    ensures keys { (ks : List Key) → fresh.new.keys + fresh_count (seen_or seen.new.keys (has_slot names.now.names)) ks
        ≡ fresh.old.keys + fresh_count (seen_or seen.old.keys (has_slot names.now.names)) (key.now ∷ ks) }
    ensures pairs { (ks : List Key) → fresh.new.pairs + fresh_count (seen_or seen.new.keys (holds_key names.now.names holds.now.cells agent)) ks
        ≡ fresh.old.pairs + fresh_count (seen_or seen.old.keys (holds_key names.now.names holds.now.cells agent)) (key.now ∷ ks) }
    ensures more { (fresh.new.keys ≤ fresh.old.keys + 1) × (fresh.new.pairs ≤ fresh.old.pairs + 1) }
    ensures spare { spare seen.old ≤ spare seen.new + 1 }
    ensures room { length seen.old.keys + spare seen.old ≤ length seen.new.keys + spare seen.new }
{
    if seen.contains(key) {
        return;
    }
    note(seen, key);
    let known = is_named(names, key);
    let held = is_held(names, holds, agent, key);
    fresh.keys += one_unless(known);
    fresh.pairs += one_unless(held);
}

fn one_unless(counted: bool) -> u32
    ensures { result ≡ (if counted then 0 else 1) }
{
    if counted { 0 } else { 1 }
}

/// Puts a key into the set that is not there.
fn note(seen: &mut IndexSet<Key, SeededState>, key: &Key)
    requires room { 0 < spare seen.old }
    requires absent { has_key seen.old.keys key.now ≡ false }
    ensures seen { (q : Key) → has_key seen.new.keys q ≡ (key_eq q key.now || has_key seen.old.keys q) }
    ensures spare { spare seen.old ≤ spare seen.new + 1 }
    ensures more { length seen.new.keys ≡ length seen.old.keys + 1 }
{
    let _ = seen.insert(*key);
}

fn is_named(names: &Names, key: &Key) -> bool
    ensures { result ≡ has_slot names.now.names key.now }
{
    names.slot_of(key).is_some()
}

fn is_held(names: &Names, holds: &Holds, agent: u8, key: &Key) -> bool
    requires agent { agent < 128 }
    requires cells { length names.now.names ≤ length holds.now.cells }
    ensures { result ≡ holds_key names.now.names holds.now.cells agent key.now }
{
    match names.slot_of(key) {
        None => false,
        Some(slot) => holds.hold_of(agent, slot).is_held(),
    }
}
