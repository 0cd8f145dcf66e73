//! The hub: the three collectors, each in 1 to 16 stripes, and those who call them.
//!
//! [`Hub`] says what a caller may ask and what it then knows: each call is one entry of the one legal log of the stripe that it names, and
//! all other stripes are left. An [`OwnHub`] is in the hands of one thread. [`Shared`] has a gate for each stripe, and each [`HubClient`]
//! the passes of one caller: clients are split for further threads, and taken in again.
#![tactic(auto)]

mod client;
mod config;
mod crossing;
mod hub;
pub mod laws;
mod make;
mod own;

pub use client::{HubClient, Shared};
pub use config::Config;
pub use hub::{HistoryOp, Hub, StreamOp, StreamReply, TickerOp, TickerReply};
pub use own::OwnHub;
pub use qd_hist_rules::HistoryReply;
