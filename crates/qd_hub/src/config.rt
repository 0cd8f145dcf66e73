//! The sizes of a hub.

ghost use Rattle.std.specs.Prelude.{◌≡◌, true, Some, None, if◌then◌else◌};
ghost use Rattle.qd_scheme.specs.Stripes.{IsStripeCount};
ghost use Rattle.qd_hub.specs.Configs.{is_allowed, is_count, is_size};

use std::marker::Model;

/// How many stripes each collector has, how many items wait at most for an agent of the stream (`cap`), and how many events at most are
/// owed to an agent of the history (`hcap`), in each stripe.
#[derive(Clone, Copy)]
pub struct Config {
    stripes: u8,
    cap: u16,
    hcap: u16,
}

impl Model for Config {
    ghost use Rattle.std.specs.Prelude.{◌≡◌, true};
    ghost use Rattle.qd_hub.specs.Configs.{Sizes, is_allowed};

    ghost Value = { Sizes };

    ghost view = { λ c. record { stripes = c.stripes; cap = c.cap; hcap = c.hcap } };

    ghost invariant = { λ c. is_allowed c.stripes c.cap c.hcap ≡ true };

    ghost inverse = { λ s. record { stripes = s.stripes; cap = s.cap; hcap = s.hcap } };
}

impl Config {
    /// 1, 2, 4, 8 or 16 stripes, with a `cap` and an `hcap` from 1 to 4096; none for other numbers.
    pub fn of(stripes: u8, cap: u16, hcap: u16) -> Option<Config>
        ensures { result ≡ (if is_allowed stripes cap hcap then Some (record { stripes = stripes; cap = cap; hcap = hcap }) else None) }
    {
        if is_count(stripes) && is_size(cap) && is_size(hcap) {
            Some(Config { stripes, cap, hcap })
        } else {
            None
        }
    }

    /// How many stripes each collector has.
    pub fn stripes(&self) -> u8
        ensures stripes { result ≡ self.now.stripes }
        ensures count { IsStripeCount result }
        ensures allowed { is_allowed self.now.stripes self.now.cap self.now.hcap ≡ true }
    {
        self.stripes
    }

    /// How many items of the stream may wait for an agent, in each stripe.
    pub fn cap(&self) -> u16
        ensures { result ≡ self.now.cap }
    {
        self.cap
    }

    /// How many events of the history may be owed to an agent, in each stripe.
    pub fn hcap(&self) -> u16
        ensures { result ≡ self.now.hcap }
    {
        self.hcap
    }
}

fn is_count(n: u8) -> bool
    ensures { result ≡ is_count n }
{
    n == 1 || n == 2 || n == 4 || n == 8 || n == 16
}

fn is_size(n: u16) -> bool
    ensures { result ≡ is_size n }
{
    n >= 1 && n <= 4096
}
