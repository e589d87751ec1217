//! A table: a finite map from keys to entries, with room that is made ahead.
//!
//! The layer above may rely on this: what a table holds is a list of entries in strictly rising key order, each call is
//! the finite map's, whichever table it is, and a call that takes no memory can't fail.
#![tactic(auto)]

mod block;
mod blocks;
mod calls;
mod changes;
mod cursor;
mod place;
mod plain;
mod rest;
mod runs;
mod seats;
mod sorted;
mod table;

pub use block::MOST_ENTRIES;
pub use blocks::Blocks;
pub use calls::{TableAnswer, TableCall};
pub use cursor::{Cursor, copies};
pub use plain::Plain;
pub use runs::run_calls;
pub use table::Table;

#[cfg(test)]
mod tests;
