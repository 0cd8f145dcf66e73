//! Rows of stripes: one state for each stripe of a collector, behind gates that threads share or in the hands of one thread.
//!
//! A [`Row`] has a gate for each stripe, and a [`RowPass`] is one client's right to call each of them. A call names a stripe; it is a turn
//! of that stripe's gate and leaves all other stripes. An [`OwnRow`] has the states themselves. A number of a stripe is its place in the row.
#![tactic(auto)]

mod crossing;
mod own;
mod row;

pub use own::OwnRow;
pub use row::{Row, RowPass};
