ghost use Rattle.std.specs.Prelude.{◌≡◌, ◌+◌, ◌-◌, ◌^◌, min};
ghost use Rattle.qd_job.specs.Starting.{admits_next, nothing_started};

use crate::spawner::Spawner;

/// Starts each job but those for which the list has `true` at their number, from 0; those past its end are started.
#[derive(Drop)]
pub struct ListSpawner {
    fails: Vec<bool>,
    asked: usize,
    started: u64,
    faults: u64,
}

impl ListSpawner {
    /// A spawner that has started nothing yet.
    pub fn new(fails: Vec<bool>) -> ListSpawner
        ensures told { ⟦<ListSpawner as Spawner>⟧.told result ≡ nothing_started }
        ensures fails { (result.fails ≡ fails) × (result.asked ≡ 0) }
    {
        ListSpawner {
            fails,
            asked: 0,
            started: 0,
            faults: 0,
        }
    }
}

impl Spawner for ListSpawner {
    ghost told = { λ s. record { started = s.started; faults = s.faults } };

    // It answers exactly what the list says.
    fn admits(&mut self) -> bool
        ensures told { (self.new.started ≡ self.old.started) × (self.new.faults ≡ self.old.faults) }
        ensures listed { result ≡ admits_next self.old }
        ensures counted { self.new.asked ≡ min (self.old.asked + 1) (2 ^ 64 - 1) }
        ensures fails { self.new.fails ≡ self.old.fails }
    {
        let start = self.asked;
        self.asked = start.saturating_add(1);
        match self.fails.get(start) {
            Some(fails) => !*fails,
            None => true,
        }
    }

    fn note(&mut self, is_running: bool) {
        if is_running {
            self.started = self.started.saturating_add(1);
        } else {
            self.faults = self.faults.saturating_add(1);
        }
    }
}
