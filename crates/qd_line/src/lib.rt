//! Cuts bytes into lines.
//!
//! Lines end by LF, and one CR directly before the LF is dropped. Bytes are fed in pieces of any
//! size, and a [`LineCutter`] gives the same lines for every cutting of the same bytes: those of
//! the whole, in order, up to 4097 bytes that stand without LF. A line without LF at the end is no
//! line.
//!
//! A byte is searched once. It is copied once when it is fed, and once more where the room behind
//! it runs out before its line ends. The memory is bounded by the longest line and the longest
//! piece, where each piece is followed by asking for lines until there is none.
#![tactic(auto)]

mod cutter;
mod finding;
mod laws;

pub use cutter::{LineCutter, Next, NoMemory};
pub use laws::{
    any_cutting, lines_given, lines_in_a_row, no_line_left, one_answer, too_long_stays,
};
