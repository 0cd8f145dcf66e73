//! Items cut by the stripes of their keys.
ghost use Rattle.std.specs.Prelude.{◌≡◌, ◌≤◌, ◌<◌, ℕ, [], length, map, slice_index, OnOk, OnErr};
ghost use Rattle.qd_scheme.specs.Stripes.{IsStripeCount};
ghost use Rattle.qd_buffer.specs.Splitting.{of_stripe, AreStripes, IsFilling};

use crate::buffer::Buffer;
use qd_scheme::{Keyed, NoMemory, stripe_of};
use std::alloc::Global;

/// Cuts a list of items into `n` lists: each has the items of its stripe, in order. After `NoMemory` there are no parts.
pub fn split_by_stripe<T: Keyed>(
    alloc: Global,
    items: &[T],
    n: u8,
    parts: &mut Vec<Buffer<T>>,
) -> Result<(), NoMemory>
    requires stripes { IsStripeCount n }
    requires few { length items.now ≤ 4096 }
    requires empty { parts.old.items ≡ [] }
    ensures parts { OnOk result (AreStripes T.key_of n items.now parts.new.items) }
    ensures none { OnErr result (parts.new.items ≡ []) }
{
    if n == 1 {
        return make_one_part(alloc, items, parts);
    }
    let counts = counts_of(items, n);
    match make_parts(alloc, &counts[..usize::from(n)], parts) {
        Ok(()) => {
            fill(items, n, parts.as_mut_slice());
            Ok(())
        }
        Err(error) => {
            parts.clear();
            Err(error)
        }
    }
}

/// All items in one part, which is what one stripe has.
fn make_one_part<T: Keyed>(
    alloc: Global,
    items: &[T],
    parts: &mut Vec<Buffer<T>>,
) -> Result<(), NoMemory>
    requires few { length items.now ≤ 4096 }
    requires empty { parts.old.items ≡ [] }
    ensures parts { OnOk result (AreStripes T.key_of 1 items.now parts.new.items) }
    ensures none { OnErr result (parts.new.items ≡ []) }
{
    parts.push(Buffer::of_slice(alloc, items)?)?;
    Ok(())
}

/// How many items each stripe has.
fn counts_of<T: Keyed>(items: &[T], n: u8) -> [u16; 16]
    requires stripes { IsStripeCount n }
    requires few { length items.now ≤ 4096 }
    ensures { (i : ℕ) → i < n → slice_index result i ≡ length (of_stripe T.key_of n i items.now) }
{
    let mut counts = [0; 16];
    for item in items {
        counts[usize::from(stripe_of(&item.key(), n))] += 1;
    }
    counts
}

/// An empty part for each stripe, with room for its items.
fn make_parts<T: Keyed>(
    alloc: Global,
    counts: &[u16],
    parts: &mut Vec<Buffer<T>>,
) -> Result<(), NoMemory>
    requires { parts.old.items ≡ [] }
    ensures { OnOk result (parts.new.items ≡ map (λ room. record { items = []; room = room }) counts.now) }
{
    parts.reserve(counts.len())?;
    for count in counts {
        parts.push(Buffer::with_room(alloc, *count)?)?;
    }
    Ok(())
}

/// Puts each item into the part of its stripe.
fn fill<T: Keyed>(items: &[T], n: u8, parts: &mut [Buffer<T>])
    requires stripes { IsStripeCount n }
    requires before { IsFilling T.key_of n items.now 0 parts.old }
    ensures { AreStripes T.key_of n items.now parts.new }
{
    for item in items {
        let part = &mut parts[usize::from(stripe_of(&item.key(), n))];
        part.push(*item);
    }
}
