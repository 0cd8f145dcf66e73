//! The tests of the calls of the crates up to the hub, in one crate: a crate that has tests is proved twice, once with them.
//!
//! Here stand calls that take memory, where there is some; threads; and what crosses threads. What a call does with every input is
//! its contract, and what the program does `checks/` tries.
#![tactic(auto)]

#[cfg(test)]
mod collectors;
#[cfg(test)]
mod gate;
#[cfg(test)]
mod hub;
#[cfg(test)]
mod memory;
