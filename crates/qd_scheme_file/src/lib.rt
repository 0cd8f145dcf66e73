//! Scheme files: the records of a scheme, read from a source of bytes.
//!
//! [`read_scheme`] reads a file to its end, line by line. What follows the last line feed is a line too. What a file
//! says stands in `specs/Told.antt`, how a reading ends and why in `specs/Ends.antt`.
#![tactic(auto)]

mod no_scheme;
mod reading;

pub use no_scheme::NoScheme;
pub use reading::read_scheme;
