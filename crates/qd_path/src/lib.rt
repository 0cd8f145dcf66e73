//! Which calls the bytes of a link ask for, and which bytes the replies to a link are.
//!
//! The definitions stand in `specs/`: what a line is to a group (`Groups`), which calls bytes ask for (`Calls`), which
//! bytes are written of replies (`Texts`), which calls were made with which replies (`Made`), by which calls the lists
//! grew for which a hub stands (`Lists`), and what holds of the calls of every text (`Laws`).
#![tactic(auto)]

mod call;
mod kind;
mod laws;
mod side;

pub use call::{Asked, Call};
pub use kind::Kind;
pub use laws::{
    all_puts, asks_first, asks_for_one, asks_for_some, comes_together, cuts_by_stripe, grows_on,
    none_foreign,
};
pub use side::Side;
