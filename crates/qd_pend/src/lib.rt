//! A queue of different slot numbers.
//!
//! A collector numbers what it holds: each key has a slot, and a slot's number is small. [`PendQueue`] keeps
//! some of these numbers in the order in which they came, each at most once. A number can leave from the front
//! or from the middle, and comes back at the end.
//!
//! The queue is a doubly linked list over slot numbers in one vector, so that each call but `new` and `reserve`
//! does constant work and takes no memory. What it costs is eight bytes a slot.
#![tactic(auto)]

mod links;
mod queue;

pub use queue::PendQueue;
