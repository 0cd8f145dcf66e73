//! Small slot numbers in place of keys, and what agents and watchers have of each slot.
//!
//! [`Names`] gives each key a slot number for as long as it is named, [`Holds`] knows what each agent has of each slot,
//! and a [`Watcher`] what it was told of each slot and which slots differ from that.
#![tactic(auto)]

mod holds;
mod kept;
mod names;
mod views;
mod watchers;

pub use holds::{Cell, Hold, Holds};
pub use kept::Kept;
pub use names::Names;
pub use views::{View, Watcher};
pub use watchers::Watchers;
