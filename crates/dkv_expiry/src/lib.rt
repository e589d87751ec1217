//! What ends when: the moments at which entries end, in order, with room that is made ahead.
//!
//! The layer above may rely on this: contracts see an expiry as the list of its endings in rising order and a number of
//! spare places, the first ending up to a moment is the least, and a call that takes no memory can't fail.
#![tactic(auto)]

mod ending;
mod expiry;
mod laws;

pub use ending::Ending;
pub use expiry::Expiry;
pub use laws::the_first_is_the_least;

#[cfg(test)]
mod tests;
