//! The tests of the calls that read and write, in one crate beside `qd_tests`.
//!
//! Here stand the adapters over real files and streams, calls that take memory, where there is some, and the texts of faults.
#![tactic(auto)]

#[cfg(test)]
mod files;
#[cfg(test)]
mod outside;
#[cfg(test)]
mod runs;
#[cfg(test)]
mod tapes;
#[cfg(test)]
mod texts;
