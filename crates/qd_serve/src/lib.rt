//! The steps of serving: links beside each other, on clients of one shared hub.
//!
//! [`start_next`] accepts a connection and starts a link on it, in a thread of its own and on clients that are split from the hub.
//! Where its handle was joined, [`take_in`] joins the clients into the hub and hangs the connection up. [`print_told`] prints a line for
//! each link that ran.
//!
//! What a client did, once the hub has taken it in, is defined in `specs/Homes`, and the laws of it stand in `proofs/Listing`; what all
//! of serving does is defined in `specs/Serving`, by the steps of `specs/Steps`; and what is printed in `specs/Printing`.
#![tactic(auto)]

mod ends;
mod laws;
mod names;
mod printing;
mod starting;
mod taking;

pub use ends::{ServeEnd, Told};
pub use laws::one_more_link_is_served;
pub use printing::print_told;
pub use starting::{Next, start_next};
pub use taking::take_in;
