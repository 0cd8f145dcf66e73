//! What agents see over a link and along a path of any length.
//!
//! Nothing here runs. Each law is the contract of a function that does nothing; its statement stands in `specs/`: of a link in `Links`, of a
//! path in `Paths`. The premises are that the links deliver, and that the key is put below a link by that link alone.
#![tactic(auto)]

mod laws;

pub use laws::{link_law, path_law};
