//! What the lines of the text form say: the grammar of its first version, and the laws of lines.
//!
//! A line is read in the [`State`] that the lines before it leave, in a [`Mode`], under a scheme. It is skipped, it spells one
//! [`Item`], or it has one [`Fault`]. Each item has one canonical line, which spells the item wherever any line does.
#![tactic(auto)]

mod fault;
mod item;
mod laws;
mod state;
mod word;

pub use fault::{Fault, Why};
pub use item::{Collector, Item, Message, Mode, Way};
pub use laws::{canonical_line, each_item, one_item, one_of_three};
pub use state::State;
pub use word::Word;
