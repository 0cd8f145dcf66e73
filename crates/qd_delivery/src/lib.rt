//! A link whose bytes come delivers every key.
//!
//! Nothing here runs: the law is the contract of a function that does nothing, and its statement stands in `specs/Delivery.antt`.
#![tactic(auto)]

mod laws;

pub use laws::bytes_deliver;
