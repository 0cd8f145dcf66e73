//! What one agent of the history is fed of one key: a snapshot that is swept in pieces, and then the events of later commits.
//!
//! A [`Feed`] keeps no copy of the key's map. While its snapshot goes on it keeps the place down to which the map was swept: an event of a
//! commit above that place is owed, one at or below it is met by the sweep. Its calls are equations on what it keeps
//! (`specs/Feeding.antt`); that the items it gives are lawful, and that it stands for what happened, are the laws of `proofs/`.
#![tactic(auto)]

mod feed;
mod item;
pub mod laws;

pub use feed::{Feed, Stage};
