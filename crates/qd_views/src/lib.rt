//! What agents see: the laws of what they are given, in one log, in one log of a stripe.
//!
//! Nothing here runs. Each law is the contract of a function that does nothing; its statement stands in `specs/Views.antt`.
#![tactic(auto)]

mod laws;

pub use laws::{history_law, stream_law, ticker_law};
