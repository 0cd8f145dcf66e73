//! The tests of links and of their bells, with threads: what no contract says, since none says that a thread goes on or that a bell
//! wakes anybody.
#![tactic(auto)]

#[cfg(test)]
mod bells;
#[cfg(test)]
mod links;
#[cfg(test)]
mod pipe;
