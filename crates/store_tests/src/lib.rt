//! The calls of a store over disks that fail, and two files as they are opened.
//!
//! Nothing stands above this. It is a crate of its own since a crate with tests is proved twice.
#![tactic(auto)]

#[cfg(test)]
mod tests;
