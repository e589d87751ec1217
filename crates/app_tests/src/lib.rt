//! Runs of the whole program over memory.
//!
//! Nothing stands above this. It is a crate of its own since a crate with tests is proved twice.
#![tactic(auto)]

#[cfg(test)]
mod tests;
