//! The tests of the program where it speaks with a server: whole runs over a net in memory.
#![tactic(auto)]

#[cfg(test)]
mod dumps;
#[cfg(test)]
mod posts;
#[cfg(test)]
mod running;
