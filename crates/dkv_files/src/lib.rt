//! The two files of a database: their bytes, what two files stand for, and what a crash may leave of them.
//!
//! The layer above may rely on this: a database that is created is there whole or not at all, whatever moment a crash comes at; and
//! while the file of a pair that isn't used is written anew, the pair stands for the state that it stood for.
#![tactic(auto)]

mod creating;
mod files;
mod filling;
mod gate;
mod head;
mod header;
mod laws;
mod pair;
mod renewing;
mod rest;
mod whole;

pub use creating::{CreateRefusal, create};
pub use files::clear;
pub use filling::{CheckpointRefusal, fill};
pub use gate::{is_open, open_gate};
pub use head::{FileHead, spell_head};
pub use header::{HeadState, is_new, read_head};
pub use laws::{files_are_read, newer_is_used, whole_files_rest};
pub use pair::Pair;
pub use renewing::renew;
pub use rest::{both_to_rest, bring_to_rest, is_one_open};
pub use whole::write_whole;

#[cfg(test)]
mod tests;
