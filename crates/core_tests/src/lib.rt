//! The tests that cross the layers of dkv_core, and the plain slow list program with which the core is compared.
//!
//! Nothing stands above this. It is a crate of its own since a crate with tests is proved twice.
#![tactic(auto)]

#[cfg(test)]
mod tests;
