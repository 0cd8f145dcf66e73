//! The subscriptions, held pairs and watchers of a stripe.
//!
//! [`SubTable`] knows who is subscribed to what, which pairs and keys are held, and what the watchers are to be told.
//! Its contracts speak of a table (`specs/Tables.antt`), slot by slot; `specs/Standing.antt` says for which moments a table
//! stands, and `proofs/` what each call leaves of that.
#![tactic(auto)]

mod by_key;
mod judge;
mod parts;
mod table;
mod watching;

pub use table::{SubFault, SubTable};
