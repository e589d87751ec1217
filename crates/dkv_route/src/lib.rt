//! What is planned for a request of HTTP, and the bytes of each answer.
//!
//! The layer above may rely on this. `plan` refuses a request for the first cause that applies, with the whole response, or
//! answers an exchange, or says what the database is asked. `answer`, `message_response`, `unserved` and `write_text` give the
//! bytes of every other response, exactly. No database, thread, socket or clock is known here.
#![tactic(auto)]

mod access;
mod answers;
mod bodies;
mod frames;
mod kinds;
mod planning;
mod refusals;
mod targets;
#[cfg(test)]
mod tests;
mod texts;

pub use answers::{answer, message_response, unserved};
pub use kinds::{End, Plan, Unserved};
pub use planning::plan;
pub use texts::write_text;
