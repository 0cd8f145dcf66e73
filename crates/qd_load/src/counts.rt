//! Counts of what was given, one for each stripe.

ghost use Rattle.std.specs.Prelude.{◌≡◌, ◌≢◌, ◌<◌, ◌+◌, ℕ, IfOk, length, sum};
ghost use Rattle.qd_load.specs.Counting.{IsCounted, stopped};
ghost use Rattle.qd_load.specs.Given.{records_in, lost_in};

use qd_stream::StreamItem;
use std::alloc::{AllocError, Global};

/// Of each stripe nothing.
pub fn no_counts(alloc: Global, stripes: u8) -> Result<Vec<u64>, AllocError>
    ensures len { IfOk result (λ counts. length counts.items ≡ stripes) }
    ensures none { IfOk result (λ counts. (i : ℕ) → i < stripes → IsCounted counts.items i 0) }
{
    let mut counts = Vec::with_capacity(alloc, usize::from(stripes))?;
    for _ in 0..stripes {
        counts.push(0)?;
    }
    Ok(counts)
}

/// So many more of a stripe.
pub fn add_at(counts: &mut Vec<u64>, stripe: u8, more: u64)
    requires { stripe < length counts.old.items }
    ensures len { length counts.new.items ≡ length counts.old.items }
    ensures here { (n m : ℕ) → IsCounted counts.old.items stripe n → more ≡ stopped m → IsCounted counts.new.items stripe (n + m) }
    ensures others { (i n : ℕ) → i ≢ stripe → IsCounted counts.old.items i n → IsCounted counts.new.items i n }
{
    let i = usize::from(stripe);
    let sum = counts[i].saturating_add(more);
    counts[i] = sum;
}

/// The number of records among items.
pub fn records_in(items: &[StreamItem]) -> u64
    ensures { result ≡ stopped (records_in items.now) }
{
    let mut count: u64 = 0;
    for item in items {
        if let StreamItem::Rec(_) = item {
            count = count.saturating_add(1);
        }
    }
    count
}

/// The number of records that items tell as lost.
pub fn lost_in(items: &[StreamItem]) -> u64
    ensures { result ≡ stopped (lost_in items.now) }
{
    let mut count: u64 = 0;
    for item in items {
        if let StreamItem::Lost(_, lost) = item {
            count = count.saturating_add(*lost);
        }
    }
    count
}

/// The counts of all stripes together.
pub fn total(counts: &[u64]) -> u64
    ensures { result ≡ stopped (sum counts.now) }
{
    let mut all: u64 = 0;
    for count in counts {
        all = all.saturating_add(*count);
    }
    all
}
