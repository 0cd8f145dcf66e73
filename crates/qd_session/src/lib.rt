//! The reading half of a session: bytes that a peer writes become calls of a hub.
//!
//! An [`InEngine`] makes the calls that the bytes of one link ask for, one a step. A step makes one call that is due, or judges one
//! line, or reads once; after [`InTurn::Busy`] the same call comes next. How lines form groups and groups become calls stands in
//! `qd_calls`.
//!
//! Which calls bytes ask for is defined in `qd_path`; what an engine keeps and what a step of it does stands in `specs/Ins`,
//! and what holds of every engine in `specs/Laws`.
#![tactic(auto)]

mod ends;
mod in_engine;
mod laws;

pub use ends::{InEnd, InTurn};
pub use in_engine::InEngine;
pub use laws::ends_at_once;
