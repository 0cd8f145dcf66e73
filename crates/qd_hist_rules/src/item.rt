ghost use Rattle.std.specs.Prelude.{◌≡◌};

use qd_scheme::{Event, Key, Keyed};

/// An event that an agent of the history is given.
#[derive(Clone, Copy, Debug, PartialEq, Eq)]
pub struct HistItem {
    pub event: Event,
    /// The number of the commit that is shown, exactly where the events given so far show a whole state.
    pub at: Option<u64>,
}

impl Keyed for HistItem {
    ghost key_of = { λ i. i.event.key };

    fn key(&self) -> Key {
        self.event.key
    }
}
