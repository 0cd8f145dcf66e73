//! The two commands of a client of a server: `post` sends the items of a text, and `dump` subscribes and prints what comes.
//!
//! Both read a text to an end, item by item ([`post_over`] a script or a tape, [`dump_over`] the text of a connection), and
//! say of each item what it prints and whether the run is over with it: that is a rule, and `specs/Rules` has the two. What
//! was printed is written before each read, so that whoever feeds the source slowly sees each item at once.
//!
//! Each end of a run has its cause (`specs/Posts`, `specs/Dumps`), and what stands written then is told. Where nothing
//! outside fails and there is memory, the text alone decides how a run ends.
#![tactic(auto)]

mod asking;
mod dump;
mod ends;
mod hearer;
mod post;
mod printing;
mod through;

pub use dump::dump_over;
pub use ends::DumpEnd;
pub use post::post_over;
