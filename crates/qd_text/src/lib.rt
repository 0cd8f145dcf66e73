//! The text form of version 1, both ways.
//!
//! A [`Reader`] tells what each line says: it is skipped, it spells one [`Item`], or it has one fault with its place and
//! reason. [`write_item`] appends the one canonical line of an item. What is written is read back as the same item
//! ([`canonical_line`]). A [`SchemeReader`] reads the records of a scheme file.
#![tactic(auto)]

mod body;
mod control;
mod cursor;
mod describe;
mod fields;
mod put;
mod put_description;
mod reader;
mod scheme_line;
mod scheme_reader;
mod words;
mod write;

pub use qd_grammar::{
    Collector, Item, Message, Mode, State, Way, Why, canonical_line, one_item, one_of_three,
};
pub use reader::{BadLine, Reader};
pub use scheme_reader::{SchemeEnd, SchemeReader};
pub use write::write_item;
