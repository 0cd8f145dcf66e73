//! One call of a hub, and the calls of a group.
//!
//! The lines of a text form groups. A [`Reading`] is where the text stands between two lines: its current message, and the group
//! that is open. A group that has ended is cut by stripe, and its calls are due, one for each stripe that has items of it; [`make`]
//! makes one of them, and tells what became of it.
//!
//! What one call of a hub does to the lists for which the hub stands is defined in `specs/Turns`, which calls may be due and what
//! becomes of them in `specs/Dues`, and what a line makes due in `specs/Hearing`.
#![tactic(auto)]

mod asking;
mod cutting;
mod due;
mod group;
mod kind;
mod reading;

pub use asking::{ask_history, ask_stream, ask_ticker};
pub use cutting::cut_group;
pub use due::{Reaction, make};
pub use group::{Joined, OpenGroup};
pub use kind::kind_of;
pub use reading::Reading;
