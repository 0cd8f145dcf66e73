//! The ticker: of each key the last record, for each agent the keys whose last record it has not been given yet.
//!
//! A [`TickerStripe`] is one part of the ticker. What its replies are is a matter of the log of its calls alone:
//! which keys are pending for an agent, and what a Take gives of them, are functions of what happened so far
//! (`specs/Pending.antt`), and a log is legal where each reply is the one that the calls before it lead to
//! (`specs/Legal.antt`). The contract of [`TickerStripe::step`] says that each step extends a legal log to a legal log.
//!
//! A key that is held has a slot of a `SubTable`; the last records and the queues of what is pending are kept by slots
//! (`specs/Kept.antt`), so that a Put looks its key up once and a Take looks nothing up.
#![tactic(auto)]

mod lasts;
mod queues;
mod stripe;

pub use stripe::TickerStripe;
