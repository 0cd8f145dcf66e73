//! The program where it speaks with a server, over a net that is handed in: `post` sends it the items of a text, `dump`
//! subscribes and prints what comes.
//!
//! [`net_main`] is the whole of it, and its contract the theorem: which words ask for what, what is opened and dialled and
//! in which order, what is sent and written, how a run ends and from which cause (`specs/Ends.antt`, `specs/Posting.antt`,
//! `specs/Dumping.antt`), and that scheme and text alone decide the end where nothing fails.
//!
//! The order of what may be refused: the scheme; what is wanted, before anything is dialled; the file, before the dial; the
//! dial. A connection that was dialled is hung up at every end.
#![tactic(auto)]

mod dumping;
mod posting;
mod program;
mod wanting;

pub use program::net_main;
