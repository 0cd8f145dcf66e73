//! Why a line is refused, and where.

use qd_decimal::DecFault;
use thiserror::Error;

/// Why a line is refused.
#[derive(Clone, Copy, Debug, PartialEq, Eq, Drop, Error)]
pub enum Why {
    #[error("the line has not the form of its kind")]
    Form,
    #[error("no record of the scheme has this name")]
    UnknownRecord,
    #[error("the description differs from the scheme")]
    SchemeMismatch,
    #[error("{0}")]
    Number(DecFault),
    #[error("this is no symbol")]
    BadSymbol,
    #[error("flags with 0x20 or 0x80")]
    BadFlags,
    #[error("the line may not stand here")]
    Order,
}

/// The first wrong thing of a line, from the left. Places count from 1.
#[derive(Clone, Copy, Debug, PartialEq, Eq, Drop)]
pub struct Fault {
    pub place: u32,
    pub why: Why,
}
