//! The items of a text that is read from a source.
//!
//! Every command reads a text to its end: bytes come in pieces, are cut into lines, and each line is skipped, spells one
//! item or is refused. [`Items`] does all of that behind one call: [`Items::next`] gives the next item, or tells how the
//! text ended and why. [`Items::step`] does one small step of it, and [`Items::is_hungry`] tells whether that step reads.
//!
//! What it promises stands in `specs`: what lines say one after another (`Judging`), what a value stands for
//! (`Standing`), each end with its cause (`Ends`), and that the text alone decides its end where nothing fails
//! (`Deciding`).
#![tactic(auto)]

mod ends;
mod items;
mod laws;
mod places;

pub use ends::{Limit, RunEnd, TextEnd};
pub use items::{Items, NextItem, Turn};
pub use laws::{decided_end, decided_lines, hungry_reads, one_end, some_end};
