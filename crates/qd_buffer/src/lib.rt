//! Lists with a room that is set when they are made.
//!
//! A [`Buffer`] takes memory once, when it is made. After that items are pushed, read and cleared with none.
#![tactic(auto)]

mod buffer;
mod split;

pub use buffer::Buffer;
pub use split::split_by_stripe;
