//! The one-thread database as a state machine, without a handle.
//!
//! The layer above may rely on this: a read, a take, a frame of a watch and a decision are exactly those of the definitions on the
//! core's state, a decision changes nothing, and what was prepared is made without memory and can't be refused. Steps in order
//! are answered as the definitions answer them, whoever asks.
#![tactic(auto)]

mod deciding;
mod enqueued;
mod entries;
mod machine;
mod making;
mod prepared;
mod put;
mod reading;
mod run;
mod seats;
mod takes;
mod watches;

pub use machine::Core;
pub use prepared::{Decided, Prepared};
pub use seats::{Seat, place_of, sit};
pub use takes::{NextDue, Taken};
