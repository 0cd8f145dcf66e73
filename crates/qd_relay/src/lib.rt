//! A node of a tree: a hub, and the engines of its links to a parent and to children.
//!
//! A [`Node`] lets hubs stand above one another. To its parent it writes what is wanted of it, and reads from it what is put; to
//! each child it writes what the child's agent takes, and reads from it what the child subscribes to. Each call takes one step of one
//! engine.
//!
//! What a node keeps is defined in `specs/Nodes`; what a step of an engine does, in `qd_session` and `qd_replies`.
#![tactic(auto)]

mod link;
mod node;

pub use node::Node;
