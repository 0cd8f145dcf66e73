//! A link of a server: two halves that run beside each other on clients of one shared hub.
//!
//! A [`LinkJob`] has what a link needs: the scheme, a client of the hub for each half, both halves of a connection, and a bell for each.
//! [`run_link`] runs both halves beside each other and gives all of it back with their ends; [`start_link`] does so in a thread of its
//! own, and where its handle is joined, the clients have just the calls of the link.
//!
//! What a half does to its client is defined in `specs/Running`.
#![tactic(auto)]

mod halves;
mod job;

pub use job::{IsRan, LinkBack, LinkJob, run_link, start_link};
