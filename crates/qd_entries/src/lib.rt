//! The entries of one key: cells by index, in falling order of index, in room that is reserved ahead.
//!
//! [`Entries`] is an ordered map whose changes take no memory: `reserve` makes the room, as whole nodes, and each change costs at most the
//! logarithm of how many entries there are. It is a tree that is balanced by how many entries each side has, so that the entry at a place
//! in the order is found as fast as the one at an index.
#![tactic(auto)]

mod entries;
mod stock;
mod tree;

pub use entries::Entries;
use qd_scheme::Cells;

/// The cells at one index.
#[derive(Clone, Copy, Debug, PartialEq, Eq)]
pub struct Entry {
    pub index: u64,
    pub cells: Cells,
}
