/// What counts the starts of jobs, and says which of them are to fail. `start_job` and `start_with` start them.
pub trait Spawner {
    ghost use Rattle.std.specs.Prelude.{◌≡◌};
    ghost use Rattle.qd_job.specs.Starting.{SpawnerState, Notes};

    /// How many jobs were started, and how many starts failed. The counts stay at 2^64 - 1.
    ghost told: { Self → SpawnerState };

    /// Whether the next start may go on.
    fn admits(&mut self) -> bool
        ensures { told self.new ≡ told self.old };

    /// Counts a start, or one that failed.
    fn note(&mut self, is_running: bool)
        ensures { Notes is_running (told self.old) (told self.new) };
}
