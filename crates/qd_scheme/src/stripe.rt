//! The stripe of a key.
ghost use Rattle.std.specs.Prelude.{◌≡◌, ◌≤◌, ◌*◌, ◌<◌, length, sum};
ghost use Rattle.qd_scheme.specs.Stripes.{IsStripeCount, stripe_of};

use crate::key::Key;

/// The stripe of a key among `n` stripes, from 0.
pub fn stripe_of(key: &Key, n: u8) -> u8
    requires { IsStripeCount n }
    ensures stripe { result ≡ stripe_of key.now n }
    ensures within { result < n }
{
    let total = u64::from(key.rec) + u64::from(sum_of(key.sym.bytes()));
    // Each remainder is by a constant, which costs no division.
    let stripe = match n {
        1 => 0,
        2 => total % 2,
        4 => total % 4,
        8 => total % 8,
        _ => total % 16,
    };
    stripe as u8
}

fn sum_of(bytes: &[u8]) -> u32
    requires { length bytes.now ≤ 64 }
    ensures sum { result ≡ sum bytes.now }
    ensures few { result ≤ 255 * 64 }
{
    let mut total = 0;
    for byte in bytes {
        total += u32::from(*byte);
    }
    total
}
