//! Two commands over a text: `check` counts its items, and `fmt` prints each of them as its canonical line.
//!
//! What each command prints is a function of the lines read (`specs/Printing.antt`), and each end of a run has its cause
//! (`specs/Runs.antt`). Where nothing outside fails and there is memory, the text alone decides how a run ends and what is
//! printed.
#![tactic(auto)]

mod count;
mod finish;
mod print;

pub use count::check;
pub use print::fmt;
