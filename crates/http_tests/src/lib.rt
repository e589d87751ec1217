//! Connections as tables: what is fed, and what it is answered, however it is cut.
//!
//! Nothing stands above this. It is a crate of its own since a crate with tests is proved twice.
#![tactic(auto)]

#[cfg(test)]
mod tests;
