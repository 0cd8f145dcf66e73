//! The net outside: connections, and what gives them.
//!
//! A [`Net`] listens, accepts and dials, and takes both halves of a connection back when it is hung up. A [`Conn`] gives
//! its two halves, a source and a sink that tell the counts of their faults. A call fails only where the count rose that
//! the net keeps for it; hanging up a connection counts a fault exactly where one of its halves had one.
//!
//! Beside the trait stand the net in memory whose calls fail by a plan ([`ListNet`]), the one that never fails
//! ([`SoundNet`]), and the adapter over TCP ([`RealNet`]). The nets in memory tell the bytes of their peers, what was
//! written to each connection, and what was asked.
//!
//! [`RealNet`] tells no bytes: what its peers send and get is the edge that is trusted. What it does so that nothing is
//! lost on the way out, no clause says, and tests over real sockets show it:
//!
//! - Its input half watches what is read for the peer's line `==END`. A connection that is hung up has its writing side
//!   shut; where the line came it is closed at once, else what comes is read and dropped until that line, the end of the
//!   input, a fault, 20 seconds without a byte, or 60 seconds since the net hung up its first connection.
//! - Its output half watches what is written, and shuts the writing side at the flush behind a line `==END`, so that a
//!   peer which waits for the end of its input has it then.
//! - A write to an accepted connection fails where its peer takes no byte for 60 seconds. A dialled one waits.
//! - A call that a signal broke off is made again, and so is an accept whose peer went away before.
#![tactic(auto)]

mod counted;
mod end_watch;
mod list_net;
mod net;
mod real_conn;
mod real_net;
mod sound_net;

pub use counted::{Counted, CountedSink, CountedSource};
pub use list_net::{Ended, ListConn, ListIn, ListNet, ListOut, NetCall, Peer};
pub use net::{Conn, Net, NoMemory};
pub use real_conn::{RealConn, RealIn, RealOut};
pub use real_net::RealNet;
pub use sound_net::{SoundConn, SoundNet};
