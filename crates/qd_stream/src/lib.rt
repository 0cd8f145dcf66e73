//! The stream: every item in the order in which it was put, and a count of those that an agent lost.
//!
//! What an agent of the stream is owed is a matter of what happened so far: the items that match its subscriptions, of
//! which at most `cap` wait, and the losses that it was not told of (`specs/Waiting.antt`, `specs/Losses.antt`). A log of
//! calls is legal where each reply is the one that the calls before it lead to (`specs/Legal.antt`). The contract of
//! [`StreamStripe::step`] says that each step of one part of the stream extends a legal log to a legal log.
//!
//! A stripe keeps a table of subscriptions, by slots, and an outbox for each agent: a ring of the items that wait, and a
//! count of what was lost of each slot. How these stand for a log is `specs/Stripes.antt`.
#![tactic(auto)]

mod boxes;
mod item;
mod laws;
mod outbox;
mod stripe;

pub use item::StreamItem;
pub use laws::few_wait;
pub use stripe::StreamStripe;
