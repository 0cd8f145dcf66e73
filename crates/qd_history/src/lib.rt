//! The history: snapshots of indexed events with their transactions, of each key as far back as an agent asks.
//!
//! A [`HistoryStripe`] is one part of the history. What its replies may be is a matter of the log of its calls alone: the commits of
//! each key, what an agent is shown of them, and which logs are legal are defined by qd_hist_rules. The contract of
//! [`HistoryStripe::step`] says that each step extends a legal log to a legal log.
//!
//! A key that is held has a slot of a `SubTable`, and all else is kept by slots: the state of the key's events in `tracks`, what each agent
//! has of it in `sides`. `rooms` makes room for the events of a Put before anything changes.
#![tactic(auto)]

mod crossing;
mod rooms;
mod sides;
mod stripe;
mod tracks;

pub use qd_hist_rules::{HistItem, HistoryReply};
pub use stripe::HistoryStripe;
