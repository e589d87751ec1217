//! The exchange: how a client learns the database's id, its endpoint and a token.
//!
//! The layer above may rely on this. `exchange` answers a body that offers a version of KV Connect which the server speaks
//! with one text, which has a token that is good for an hour; every other body is refused.
#![tactic(auto)]

mod asked;
mod date_time;
mod exchanging;
mod laws;
mod reply;
#[cfg(test)]
mod tests;

pub use asked::{OLDER_VERSION, PREFERRED_VERSION};
pub use exchanging::{ExchangeError, exchange};
pub use laws::one_reply;
