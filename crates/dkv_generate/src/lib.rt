//! A workload made from a number: steps of several callers, and the frames in which `pipe` takes them.
//!
//! The layer above may rely on this: the bytes that reach the sink are those of the stated steps, one frame behind the other,
//! or a front of them where a write failed or memory was wanted. Steps are made and written a group at a time, in one buffer,
//! so that what it takes in memory doesn't grow with what it writes.
#![tactic(auto)]

mod asks;
mod frames;
mod groups;
mod keys;
mod numbers;
pub mod sizes;
mod writing;

pub use writing::{GenerateEnd, generate};

#[cfg(test)]
mod tests;
