//! What the calls of a text put, beside what its lines say.
//!
//! Nothing here runs: each law is the contract of a function that does nothing. Its statement stands in `specs/`: of a text by itself in
//! `Passing`, and of a text that was written of replies in `Replies`.
#![tactic(auto)]

mod laws;

pub use laws::{each_is_put, link_passes_on};
