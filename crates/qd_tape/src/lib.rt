//! Tapes and the generated script.
//!
//! A tape is a text that keeps items with the times at which they came: a [`TapeWriter`] writes each item's line, and before it
//! the line of its time where that is a later one (`specs/Tapes.antt`).
//!
//! [`generate`] writes a script that feeds quotes, trades and candles by numbers that are drawn from a start on
//! (`specs/Scripts.antt`). [`ScriptSource`] is the same text as a source, which no one has to keep.
#![tactic(auto)]

mod feed;
mod generating;
mod laws;
mod script;
mod script_source;
mod tape;

pub use generating::{GenEnd, generate};
pub use laws::{script_again, tape_again};
pub use script_source::ScriptSource;
pub use tape::{TapeWriter, Wrote};
