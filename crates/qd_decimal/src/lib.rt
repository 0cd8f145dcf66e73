//! Numbers in text.
//!
//! A decimal number is an optional `-`, one or more digits, and optionally a point and any number of
//! digits; a whole number has no point, and a count no `-` either. Leading zeros are accepted.
//! [`read_dec`], [`read_int`] and [`read_count`] read a text exactly where the grammar has it, else
//! they answer the one fault with its place. [`write_dec`] and [`write_count`] append the canonical
//! text of a value to a [`Line`], and reading that text gives the value back.
//!
//! No call takes memory.
#![tactic(auto)]

mod digits;
mod fault;
mod fronts;
mod laws;
mod line;
mod reading;
mod writing;

pub use fault::DecFault;
pub use fronts::{Front, front_dec, front_int};
pub use laws::{canonical, count_again, dec_again, different_texts, int_again, one_canonical};
pub use line::Line;
pub use reading::{read_count, read_dec, read_int};
pub use writing::{write_count, write_count_part, write_dec, write_dec_part};
