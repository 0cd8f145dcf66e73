//! The bell: the writing sides of links wait on it, and whoever has put something rings it.
//!
//! [`Bell`] says what the answers mean. [`RealBell`] is one side's bell of a link, and all of them hang in one [`Tower`];
//! [`ListBell`] answers by a list. No contract says that a bell wakes anybody: a ring is a hint, and a side that waits for
//! ever breaks none. That nobody who waits misses the last ring is the design of the tower, and is tested.
#![tactic(auto)]

mod bell;
mod list_bell;
mod real_bell;
mod tower;

pub use bell::{Bell, Rung};
pub use list_bell::ListBell;
pub use real_bell::RealBell;
pub use tower::Tower;
