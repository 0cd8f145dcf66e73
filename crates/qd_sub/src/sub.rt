ghost use Rattle.std.specs.Prelude.{◌≡◌};

use qd_scheme::{Key, Keyed};

/// A key to subscribe to, and the least index that the history is to give of it.
#[derive(Clone, Copy, Debug, PartialEq, Eq)]
pub struct Sub {
    pub key: Key,
    /// Below 2^63. The ticker and the stream take no notice of it.
    pub limit: u64,
}

impl Keyed for Sub {
    ghost key_of = { λ s. s.key };

    fn key(&self) -> Key {
        self.key
    }
}

/// A key, and the least limit of its agents: none where no agent is subscribed to it.
#[derive(Clone, Copy, Debug, PartialEq, Eq)]
pub struct Want {
    pub key: Key,
    pub total: Option<u64>,
}
