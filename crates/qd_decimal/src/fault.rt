use thiserror::Error;

/// Why a text is no number. Places count from 1. Where several hold, the first in this order is told.
#[derive(Clone, Copy, Debug, PartialEq, Eq, Drop, Error)]
pub enum DecFault {
    /// The text has no byte.
    #[error("no digits")]
    Empty,
    /// No number begins with the bytes up to this place; the place behind the text where it ends too early.
    #[error("wrong byte at place {0}")]
    BadByte(u32),
    /// A digit other than 0 stands here, past the scale.
    #[error("too fine at place {0}")]
    TooFine(u32),
    /// The value is outside 64 bits, or above the limit.
    #[error("too large")]
    TooLarge,
}
