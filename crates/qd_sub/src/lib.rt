//! Subscriptions: what a collector is asked and what it replies, and the meaning of subscribed, wanted, total, kept, held and told.
//!
//! A moment is the list of all that happened in one stripe so far, the newest act first (`specs/Acts.antt`).
//! What an agent is subscribed to, what is kept of a key and what a watcher is to be told are functions of the moment,
//! and a log of calls leads to one moment (`specs/Logs.antt`). The collectors' contracts speak of these alone.
#![tactic(auto)]

mod op;
mod sub;

pub use op::{Op, Reply};
pub use sub::{Sub, Want};
