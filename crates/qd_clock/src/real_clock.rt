ghost use Rattle.std.specs.Prelude.{◌≡◌, None};

use crate::clock::Clock;
use std::time;
use std::time::Instant;

/// The machine's clock that never goes back, in milliseconds since this value was made. Where it cannot be read, the last
/// moment is given again.
#[derive(Drop)]
pub struct RealClock<'a, R: time::Clock> {
    rt: &'a R,
    start: Option<Instant>,
    last: u64,
}

impl<'a, R: time::Clock> RealClock<'a, R> {
    /// A clock that begins now.
    pub fn new(rt: &'a R) -> RealClock<'a, R>
        ensures { ⟦<RealClock<'a, R> as Clock>⟧.told result ≡ None }
    {
        RealClock {
            rt,
            start: Instant::now(rt).ok(),
            last: 0,
        }
    }
}

impl<'a, R: time::Clock> Clock for RealClock<'a, R> {
    ghost use Rattle.std.specs.Prelude.{None};

    ghost told = { λ _. None };

    fn now_ms(&mut self) -> u64 {
        let Some(start) = self.start else {
            return self.last;
        };
        if let Ok(since) = start.elapsed(self.rt) {
            self.last = u64::try_from(since.as_millis()).unwrap_or(self.last);
        }
        self.last
    }
}
