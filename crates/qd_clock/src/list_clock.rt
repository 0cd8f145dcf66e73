ghost use Rattle.std.specs.Prelude.{◌≡◌, ◌+◌, ◌-◌, ◌^◌, Some, [], min};
ghost use Rattle.qd_clock.specs.Moments.{Notes, given, next_moment};

use crate::clock::Clock;
use std::snapshot::Snapshot;

/// The moments that were given, of which contracts alone know. It takes no memory, whatever their number.
#[derive(Drop)]
enum Past {
    Start,
    Gave { before: Snapshot<Past>, moment: u64 },
}

/// A clock in memory. It gives the moments of its list, and past the end the last one again; 0 where the list is empty.
#[derive(Drop)]
pub struct ListClock {
    moments: Vec<u64>,
    asked: usize,
    last: u64,
    past: Past,
}

impl ListClock {
    /// A clock that has given nothing yet.
    pub fn new(moments: Vec<u64>) -> ListClock
        ensures told { ⟦<ListClock as Clock>⟧.told result ≡ Some [] }
        ensures moments { (result.moments ≡ moments) × (result.asked ≡ 0) × (result.last ≡ 0) }
    {
        ListClock {
            moments,
            asked: 0,
            last: 0,
            past: Past::Start,
        }
    }

    fn next(&self) -> u64
        ensures { result ≡ next_moment self.now }
    {
        match self.moments.get(self.asked) {
            Some(moment) => *moment,
            None => self.last,
        }
    }
}

impl Clock for ListClock {
    ghost use Rattle.std.specs.Prelude.{Some};
    ghost use Rattle.qd_clock.specs.Moments.{given};

    ghost told = { λ c. Some (given c.past) };

    // It gives exactly what the list says.
    fn now_ms(&mut self) -> u64
        ensures told { Notes result (Some (given self.old.past)) (Some (given self.new.past)) }
        ensures listed { (result ≡ next_moment self.old) × (self.new.last ≡ result) }
        ensures counted { self.new.asked ≡ min (self.old.asked + 1) (2 ^ 64 - 1) }
        ensures moments { self.new.moments ≡ self.old.moments }
    {
        let moment = self.next();
        self.asked = self.asked.saturating_add(1);
        self.last = moment;
        self.past = Past::Gave {
            before: Snapshot::of(&self.past),
            moment,
        };
        moment
    }
}
