//! Scripts run on a hub: lines in, calls on its stripes, replies out.
//!
//! [`replay`] reads a script item by item ([`qd_items`]). The body lines of one message form a group; each group is cut by
//! stripe, and its calls are made for the current link ([`qd_calls`]). A TAKE asks the stripes of a collector one after the
//! other, each for what is still to be given, and prints what they gave. Its contract is the theorem of a run: which calls a
//! script makes and what is printed (`specs/Scripts.antt`, `specs/Replies.antt`), that the calls with their replies are one
//! legal log of each stripe (`specs/Running.antt`), how a run ends and from which cause (`specs/Ends.antt`), and that a sound
//! script is done where nothing outside fails (`specs/Deciding.antt`).
#![tactic(auto)]

mod due;
mod engine;
mod given;
mod printing;
mod running;

pub use running::{replay, replay_alone};
