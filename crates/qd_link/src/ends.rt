//! How the writing half of a link ends.

/// Why the writing half of a link came to its end.
#[derive(Clone, Copy, Debug)]
pub enum OutEnd {
    /// The bell was shut, and `==END` is written and flushed.
    Shut,
    /// So many steps were made as were asked for.
    Turns,
    /// A write or a flush failed.
    WriteFault,
    /// A count that never falls stands at its end.
    Spent,
    /// Nothing was written.
    NoMemory,
}
