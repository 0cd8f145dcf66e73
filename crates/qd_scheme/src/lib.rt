//! Symbols, keys and what is kept of them: the ground floor of the distribution system.
//!
//! A [`Sym`] is the symbol of an instrument, a [`Key`] a record number and a symbol. A [`Record`] carries the cells of a key, an
//! [`Event`] also an index and flags. [`AgentNo`] and [`WatcherNo`] number those who subscribe and those who watch.
#![tactic(auto)]

use std::alloc::AllocError;

mod builtin;
mod cells;
mod defs;
mod faults;
mod judge;
mod key;
mod names;
mod numbers;
mod scheme;
mod seeded;
mod stripe;
mod sym;

pub use cells::Cells;
pub use defs::{FieldDef, FieldKind, Fields, RecordDef};
pub use faults::{SchemeFault, SchemeWhy};
pub use key::{Event, Key, Keyed, Record};
pub use names::Name;
pub use numbers::{AgentNo, WatcherNo};
pub use scheme::Scheme;
pub use seeded::SeededState;
pub use stripe::stripe_of;
pub use sym::Sym;

/// The allocator had no memory.
pub type NoMemory = AllocError;
