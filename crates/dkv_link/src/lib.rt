//! Connections and waiting, as traits, and their versions in memory.
//!
//! The layer above may rely on the traits alone: a call that fails raises its link's count of faults (or finds it at its last
//! value), a count never falls, what isn't told never begins to be told, a read leaves what was sent and a write what was read, and
//! each pause is counted. The links in memory tell what they gave and what was written on them. They fail at the calls that the
//! plan names and only there, but where they are refused memory, and a failure raises the count by one and leaves the content.
//!
//! It stands beside `dkv_io`, and not in it: the traits need nothing that is private there, all that has files stands on `dkv_io`,
//! and none of that needs a link.
#![tactic(auto)]

mod held_link;
mod input;
mod link;
mod memory_link;
mod no_wait;
mod pace;
mod planned;
mod waiter;

pub use held_link::{HeldLink, MOST_SLEEPS, Role};
pub use link::{Link, LinkGot};
pub use memory_link::MemoryLink;
pub use no_wait::NoWait;
pub use pace::Pace;
pub use waiter::Waiter;

#[cfg(test)]
mod tests;
