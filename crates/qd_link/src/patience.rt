//! How long to wait for a stripe at which others have turns.

ghost use Rattle.std.specs.Prelude.{◌≡◌};
ghost use Rattle.qd_link.specs.Waits.{one_more_try};

use std::hint::spin_loop;
use std::marker::Model;
use std::sync::Wait;
use std::sync::atomic::AtomicU64;
use std::thread::yield_now;
use std::time::Duration;

/// After so many tries in a row the processor is left to others.
const SPINS: u8 = 64;

/// After so many the thread sleeps.
const YIELDS: u8 = 68;

/// How long it sleeps at a time, in nanoseconds. Sleeps that grow would starve single writers.
const SLEEP: u64 = 50_000;

/// How many tries in a row found others at their turns; it counts no further than to the first sleep.
#[derive(Drop)]
pub struct Patience {
    tries: u8,
}

impl Model for Patience {
    ghost use Rattle.std.specs.Prelude.{ℕ, ◌≤◌};

    ghost Value = { ℕ };

    ghost view = { λ p. p.tries };

    ghost invariant = { λ p. p.tries ≤ 68 };
}

impl Patience {
    /// Before the first try.
    pub fn new() -> Patience
        ensures { result ≡ 0 }
    {
        Patience { tries: 0 }
    }

    /// A stripe answered.
    pub fn begin_anew(&mut self)
        ensures { self.new ≡ 0 }
    {
        self.tries = 0;
    }

    /// Waits before the next try: it spins, later it yields, and then it sleeps.
    pub fn pause<R: Wait>(&mut self, rt: &R)
        ensures { self.new ≡ one_more_try self.old }
    {
        if self.tries < SPINS {
            self.tries += 1;
            spin_loop();
        } else if self.tries < YIELDS {
            self.tries += 1;
            yield_now();
        } else {
            AtomicU64::new(0).park_timeout(rt, 0, Duration::from_nanos(SLEEP));
        }
    }
}
