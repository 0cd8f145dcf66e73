//! Clocks of milliseconds: in memory, and the machine's. A clock has no faults.
#![tactic(auto)]

mod clock;
mod list_clock;
mod real_clock;

pub use clock::Clock;
pub use list_clock::ListClock;
pub use real_clock::RealClock;
