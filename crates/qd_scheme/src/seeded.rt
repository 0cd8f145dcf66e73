//! The hash of keys, with a seed that whoever chooses the keys does not know.
ghost use Rattle.std.specs.Prelude.{◌≡◌};
ghost use Rattle.qd_scheme.specs.Hashing.{seeded};

use std::hash::{BuildHasher, DefaultHasher, Hasher};

/// Makes the hashers of maps by [`Key`](crate::Key): SipHash-1-3, to which a seed is written first.
///
/// Whoever does not know the seed cannot choose keys that collide. No answer depends on it.
// A multiply-and-fold hasher is quicker, but with its multiplier known there are keys that collide whatever the seed.
#[derive(Clone, Copy)]
pub struct SeededState {
    initial: DefaultHasher,
}

impl SeededState {
    /// The hashers with this seed.
    pub fn new(seed: u64) -> SeededState
        ensures { result.initial ≡ seeded seed }
    {
        let mut initial = DefaultHasher::new();
        initial.write_u64(seed);
        SeededState { initial }
    }
}

impl BuildHasher for SeededState {
    type Hasher = DefaultHasher;

    ghost build_hasher = { λ s. s.initial };

    fn build_hasher(&self) -> DefaultHasher {
        self.initial
    }
}
