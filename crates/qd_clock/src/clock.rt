/// What tells the time.
pub trait Clock {
    ghost use Rattle.std.specs.Prelude.{ℕ, List, Option};
    ghost use Rattle.qd_clock.specs.Moments.{Notes};

    /// The moments that it gave, where they are told.
    ghost told: { Self → Option (List ℕ) };

    /// The milliseconds since a moment of the clock's own.
    fn now_ms(&mut self) -> u64
        ensures { Notes result (told self.old) (told self.new) };
}
