//! The messages that wait for delivery, by id and by the moment at which they are due, with room that is made ahead.
//!
//! The layer above may rely on this: contracts see a queue as a list of rows in rising order of ids and a number of spare
//! places, the message that is due first is that of the definitions, and a call that takes no memory can't fail.
#![tactic(auto)]

mod answers;
mod failing;
mod moment;
mod queue;
mod row;

pub use answers::{Due, Retry};
pub use queue::Queue;
pub use row::Row;

#[cfg(test)]
mod tests;
