//! The flags of an indexed event.
ghost use Rattle.std.specs.Prelude.{◌≡◌, ◌↔◌, false, IsSome, IfSome};
ghost use Rattle.qd_flags.specs.Bits.{has_bits};

use std::marker::Model;

/// The flags of an event, as in dxFeed's `IndexedEvent` documentation.
///
/// | Bit | Name | Meaning |
/// |---|---|---|
/// | 0x01 | TX_PENDING | a transaction goes on with later events |
/// | 0x02 | REMOVE_EVENT | what stands at the index is to be taken out |
/// | 0x04 | SNAPSHOT_BEGIN | the first event of a snapshot |
/// | 0x08 | SNAPSHOT_END | the last event of a snapshot, with all data sent |
/// | 0x10 | SNAPSHOT_SNIP | the last event of a snapshot, after which no more data comes |
/// | 0x40 | SNAPSHOT_MODE | has no effect here |
#[derive(Clone, Copy, Debug, PartialEq, Eq)]
pub struct Flags {
    bits: u8,
}

impl Model for Flags {
    ghost use Rattle.std.specs.Prelude.{◌≡◌, ℕ, false};
    ghost use Rattle.qd_flags.specs.Bits.{has_bits};

    ghost Value = { ℕ };

    ghost view = { λ f. f.bits };

    ghost invariant = { λ f. has_bits f.bits 160 ≡ false };

    ghost inverse = { λ n. record { bits = n } };
}

impl Flags {
    /// A transaction goes on with later events.
    pub const TX_PENDING: u8 = 0x01;

    /// What stands at the index is to be taken out.
    pub const REMOVE_EVENT: u8 = 0x02;

    /// The first event of a snapshot.
    pub const SNAPSHOT_BEGIN: u8 = 0x04;

    /// The last event of a snapshot, with all data sent.
    pub const SNAPSHOT_END: u8 = 0x08;

    /// The last event of a snapshot, after which no more data comes.
    pub const SNAPSHOT_SNIP: u8 = 0x10;

    /// Has no effect here.
    pub const SNAPSHOT_MODE: u8 = 0x40;

    // 0x20 and 0x80.
    const REFUSED: u8 = 0xA0;

    /// These flags, unless a bit is set that has no name.
    pub fn of(bits: u8) -> Option<Flags>
        ensures named { IsSome result ↔ (has_bits bits 160 ≡ false) }
        ensures bits { IfSome result (λ flags. flags ≡ bits) }
    {
        if bits & Flags::REFUSED != 0 {
            return None;
        }
        Some(Flags { bits })
    }

    /// The flags as bits, as `of` takes them.
    pub fn bits(&self) -> u8
        ensures { result ≡ self.now }
    {
        self.bits
    }

    /// Whether the transaction goes on with later events.
    pub fn tx_pending(&self) -> bool
        ensures { result ≡ has_bits self.now 1 }
    {
        self.bits & Flags::TX_PENDING != 0
    }

    /// Whether what stands at the index is to be taken out.
    pub fn remove_event(&self) -> bool
        ensures { result ≡ has_bits self.now 2 }
    {
        self.bits & Flags::REMOVE_EVENT != 0
    }

    /// Whether this is the first event of a snapshot.
    pub fn snapshot_begin(&self) -> bool
        ensures { result ≡ has_bits self.now 4 }
    {
        self.bits & Flags::SNAPSHOT_BEGIN != 0
    }

    /// Whether this is the last event of a snapshot, with all data sent.
    pub fn snapshot_end(&self) -> bool
        ensures { result ≡ has_bits self.now 8 }
    {
        self.bits & Flags::SNAPSHOT_END != 0
    }

    /// Whether this is the last event of a snapshot, after which no more data comes.
    pub fn snapshot_snip(&self) -> bool
        ensures { result ≡ has_bits self.now 16 }
    {
        self.bits & Flags::SNAPSHOT_SNIP != 0
    }

    /// Whether the bit is set, which has no effect here.
    pub fn snapshot_mode(&self) -> bool
        ensures { result ≡ has_bits self.now 64 }
    {
        self.bits & Flags::SNAPSHOT_MODE != 0
    }
}
