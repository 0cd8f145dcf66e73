//! What the history keeps of one key: the map and the floor of its last commit, and the events that are held back after it.
//!
//! A [`KeyState`] takes one event at a time. Room is reserved ahead, so that taking an event never asks for memory.
#![tactic(auto)]

mod key_state;

pub use key_state::KeyState;
pub use qd_flags::{Ingest, NoMemory};
