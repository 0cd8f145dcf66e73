//! Keys, and the items that belong to a key.
ghost use Rattle.std.specs.Prelude.{◌≡◌};
ghost use Rattle.qd_scheme.specs.Keys.{key_eq};

use crate::cells::Cells;
use crate::sym::Sym;
use std::hash::{Hash, Hasher};

/// A record number and a symbol.
#[derive(Clone, Copy, Debug)]
pub struct Key {
    pub rec: u32,
    pub sym: Sym,
}

/// The cells of a key, as the ticker and the stream carry them.
#[derive(Clone, Copy, Debug, PartialEq, Eq)]
pub struct Record {
    pub key: Key,
    pub cells: Cells,
}

/// An indexed event of a key, as the history carries it. `flags` has the bits of dxFeed's `IndexedEvent`. The index of an event
/// that is put is below 2^63.
#[derive(Clone, Copy, Debug, PartialEq, Eq)]
pub struct Event {
    pub key: Key,
    pub index: u64,
    pub flags: u8,
    pub cells: Cells,
}

impl Key {
    /// Whether two keys are one.
    pub fn is_same(&self, other: &Key) -> bool
        ensures test { result ≡ key_eq self.now other.now }
    {
        *self == *other
    }
}

impl PartialEq for Key {
    ghost use Rattle.qd_scheme.specs.Keys.{key_eq};
    ghost use Rattle.qd_scheme.specs.Comparing.{key_eq-equiv};
    ghost use Rattle.std.specs.Cmp.{partial_equiv_from_equiv};

    ghost eq = { key_eq };

    ghost laws = { partial_equiv_from_equiv key_eq-equiv };

    #[tactic(auto, unfolding(crate::specs::Keys::key_eq))]
    fn eq(&self, other: &Key) -> bool {
        self.rec == other.rec && self.sym == other.sym
    }
}

impl Eq for Key {
    ghost use Rattle.qd_scheme.specs.Comparing.{key_eq-equiv};

    ghost laws = { key_eq-equiv };
}

// The record number, as a word, since a hasher takes whole words at once; and the symbol's own bytes, without what pads them.
impl Hash for Key {
    ghost use Rattle.qd_scheme.specs.Hashing.{key_input, key_input-Alike};

    ghost hash_input = { key_input };

    ghost respects_eq = { key_input-Alike };

    fn hash<H: Hasher>(&self, state: &mut H) {
        state.write_u64(u64::from(self.rec));
        state.write(self.sym.bytes());
    }
}

/// An item that belongs to a key.
pub trait Keyed: Copy {
    ghost use Rattle.qd_scheme.specs.declared.key.Key.{Key};

    ghost key_of: { Self → Key };

    fn key(&self) -> Key
        ensures { result ≡ key_of self.now };
}

impl Keyed for Key {
    ghost key_of = { λ k. k };

    fn key(&self) -> Key {
        *self
    }
}

impl Keyed for Record {
    ghost key_of = { λ r. r.key };

    fn key(&self) -> Key {
        self.key
    }
}

impl Keyed for Event {
    ghost key_of = { λ e. e.key };

    fn key(&self) -> Key {
        self.key
    }
}
