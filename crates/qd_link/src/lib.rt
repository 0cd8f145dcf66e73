//! The two halves of a link, over one hub.
//!
//! [`link_in`] makes the calls that the bytes of a link ask for, until its text ends; then it closes the link's agent on each stripe,
//! and shuts the link's bell. [`link_out`] asks the stripes round and round for what is due to the other end, writes it, and waits on
//! the bell where nothing is due, until the bell is shut. Each half has a client of the hub of its own, and they run beside each other.
//!
//! What the calls of a link are is defined in `specs/LinkIns`, what is written in `specs/LinkOuts`, and what closing an agent does to
//! the lists for which a hub stands in `specs/Closing`.
#![tactic(auto)]

mod closing;
mod ends;
mod lines;
mod patience;
mod reading;
mod writing;

pub use ends::OutEnd;
pub use reading::link_in;
pub use writing::link_out;
