//! The last records by slot.

ghost use Rattle.std.specs.Prelude.{◌≡◌, ◌≤◌, ◌<◌, ◌+◌, ◌++◌, ◌∷◌, [], ℕ, Some, None, is_some, length, slice_set, vec_len, vec_capacity, nat_eq, if◌then◌else◌, OnOk};
ghost use Rattle.qd_ticker.specs.Stripes.{last_at};

use qd_scheme::Record;
use std::alloc::AllocError;

/// The last record of a slot.
pub(crate) fn last_of(lasts: &[Option<Record>], slot: u32) -> Option<Record>
    ensures { result ≡ last_at lasts.now slot }
{
    if slot as usize >= lasts.len() {
        return None;
    }
    lasts[slot as usize]
}

/// Whether a slot has a last record.
pub(crate) fn has_last(lasts: &[Option<Record>], slot: u32) -> bool
    ensures { result ≡ is_some (last_at lasts.now slot) }
{
    if slot as usize >= lasts.len() {
        return false;
    }
    lasts[slot as usize].is_some()
}

pub(crate) fn set_last(lasts: &mut Vec<Option<Record>>, slot: u32, latest: &Record)
    requires { slot < vec_len lasts.old }
    ensures items { lasts.new.items ≡ slice_set lasts.old.items slot (Some latest.now) }
    ensures len { vec_len lasts.new ≡ vec_len lasts.old }
{
    lasts[slot as usize] = Some(*latest);
}

/// Forgets the last record of a slot.
pub(crate) fn drop_last(lasts: &mut Vec<Option<Record>>, slot: u32)
    ensures lasts { (i : ℕ) → last_at lasts.new.items i ≡ (if nat_eq slot i then None else last_at lasts.old.items i) }
    ensures len { vec_len lasts.new ≡ vec_len lasts.old }
{
    if (slot as usize) < lasts.len() {
        lasts[slot as usize] = None;
    }
}

/// Makes places for the slots below a number, without records.
pub(crate) fn reserve_lasts(lasts: &mut Vec<Option<Record>>, slots: u32) -> Result<(), AllocError>
    ensures same { (i : ℕ) → last_at lasts.new.items i ≡ last_at lasts.old.items i }
    ensures kept { length lasts.old.items ≤ length lasts.new.items }
    ensures ok { OnOk result (slots ≤ length lasts.new.items) }
{
    let len = lasts.len();
    if slots as usize <= len {
        return Ok(());
    }
    lasts.reserve(slots as usize - len)?;
    add_places(lasts, slots as usize);
    Ok(())
}

/// Adds places up to a number, for which there is room.
fn add_places(lasts: &mut Vec<Option<Record>>, slots: usize)
    requires few { vec_len lasts.old ≤ slots }
    requires room { slots ≤ vec_capacity lasts.old }
    ensures same { (i : ℕ) → last_at lasts.new.items i ≡ last_at lasts.old.items i }
    ensures len { length lasts.new.items ≡ slots }
{
    for _slot in lasts.len()..slots {
        push_place(lasts);
    }
}

fn push_place(lasts: &mut Vec<Option<Record>>)
    requires { vec_len lasts.old < vec_capacity lasts.old }
    ensures same { (i : ℕ) → last_at lasts.new.items i ≡ last_at lasts.old.items i }
    ensures len { vec_len lasts.new ≡ vec_len lasts.old + 1 }
    ensures capacity { vec_capacity lasts.old ≤ vec_capacity lasts.new }
{
    let _ = lasts.push(None);
}
