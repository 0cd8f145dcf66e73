//! `load`: the generated script is run, and what was given is counted.
//!
//! [`Counting`] is a hub that counts what its stripes give: records and lost ones by number, and events by a listener of each key
//! of the script (`specs/Counting.antt`). [`load_alone`] runs the generated script on such a hub and prints one line of what was
//! counted. Its contract says that the calls made are those of the script, in a legal log of each stripe, and that the numbers are
//! those of what the logs' replies gave (`specs/Loads.antt`). No text is kept.
#![tactic(auto)]

mod counting;
mod counts;
mod load;
mod totals;
mod views;

pub use counting::Counting;
pub use load::load_alone;
pub use totals::Totals;
