//! A set of items in the order of their ranks, with room that is made ahead.
//!
//! The layer above may rely on this: contracts see an index as the list of its items in strictly rising order and a number
//! of spare places, a search may look for the parts of an item without owning one, and a call that takes no memory can't
//! fail.
#![tactic(auto)]

mod changes;
mod copies;
mod index;
mod pool;
mod ranked;
mod searches;
mod tree;

pub use index::Index;
pub use ranked::{Probe, Ranked};

#[cfg(test)]
mod tests;
