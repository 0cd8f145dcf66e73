//! The numbers of agents and watchers.
ghost use Rattle.std.specs.Prelude.{◌≡◌, ◌≤◌, ◌↔◌, IsSome, IfSome};

use std::marker::Model;

/// The number of an agent, from 0 to 127.
#[derive(Clone, Copy, Debug)]
pub struct AgentNo {
    number: u8,
}

impl Model for AgentNo {
    ghost use Rattle.std.specs.Prelude.{ℕ, ◌≤◌};

    ghost Value = { ℕ };

    ghost view = { λ a. a.number };

    ghost invariant = { λ a. a.number ≤ 127 };

    ghost inverse = { λ n. record { number = n } };
}

impl AgentNo {
    /// The agent of a number, if there is one.
    pub fn of(n: u8) -> Option<AgentNo>
        ensures within { IsSome result ↔ (n ≤ 127) }
        ensures value { IfSome result (λ agent. agent ≡ n) }
    {
        if n <= 127 {
            Some(AgentNo { number: n })
        } else {
            None
        }
    }

    /// The number, at most 127.
    pub fn get(&self) -> u8
        ensures value { result ≡ self.now }
        ensures within { self.now ≤ 127 }
    {
        self.number
    }
}

/// The number of a watcher, from 0 to 7.
#[derive(Clone, Copy, Debug)]
pub struct WatcherNo {
    number: u8,
}

impl Model for WatcherNo {
    ghost use Rattle.std.specs.Prelude.{ℕ, ◌≤◌};

    ghost Value = { ℕ };

    ghost view = { λ a. a.number };

    ghost invariant = { λ a. a.number ≤ 7 };

    ghost inverse = { λ n. record { number = n } };
}

impl WatcherNo {
    /// The watcher of a number, if there is one.
    pub fn of(n: u8) -> Option<WatcherNo>
        ensures within { IsSome result ↔ (n ≤ 7) }
        ensures value { IfSome result (λ watcher. watcher ≡ n) }
    {
        if n <= 7 {
            Some(WatcherNo { number: n })
        } else {
            None
        }
    }

    /// The number, at most 7.
    pub fn get(&self) -> u8
        ensures value { result ≡ self.now }
        ensures within { self.now ≤ 7 }
    {
        self.number
    }
}
