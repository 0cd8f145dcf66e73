ghost use Rattle.std.specs.Prelude.{◌≡◌};
ghost use Rattle.qd_job.specs.Starting.{nothing_started};

use crate::spawner::Spawner;

/// Starts each job. A start fails where no thread can be made.
#[derive(Drop)]
pub struct RealSpawner {
    started: u64,
    faults: u64,
}

impl RealSpawner {
    /// A spawner that has started nothing yet.
    pub fn new() -> RealSpawner
        ensures { ⟦<RealSpawner as Spawner>⟧.told result ≡ nothing_started }
    {
        RealSpawner {
            started: 0,
            faults: 0,
        }
    }
}

impl Spawner for RealSpawner {
    ghost told = { λ s. record { started = s.started; faults = s.faults } };

    fn admits(&mut self) -> bool {
        true
    }

    fn note(&mut self, is_running: bool) {
        if is_running {
            self.started = self.started.saturating_add(1);
        } else {
            self.faults = self.faults.saturating_add(1);
        }
    }
}
