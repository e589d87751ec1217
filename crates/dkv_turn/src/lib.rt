//! A ticket lock round one value, whose passes know a beginning of the one history that the value keeps.
//!
//! The layer above may rely on this: who has the turn has the value alone; each item is added under the turn, by
//! one pass, and carries its number; what a pass has seen is a beginning of the history, and has all items of its
//! number. Only `enter` waits, and only `new` takes memory. Its tests are those of `bench_turn`, which has a value.
#![tactic(auto)]

mod bell;
mod chronicle;
mod counts;
mod pass;
mod rest;
mod steps;
mod turn;
mod view;
mod wait;

pub use chronicle::Chronicle;
pub use pass::Pass;
pub use rest::Rest;
pub use turn::{Held, Turn};
