//! The bodies of records: each commit has one, and each body is at most one commit's.
//!
//! The layer above may rely on this: what `write_commit` gives is read as the commit again, and `read_commit` refuses just the
//! bytes that no commit is written as.
#![tactic(auto)]

mod kinds;
mod laws;
mod read;
mod write;

pub use kinds::{ACKED, FAILED, WROTE};
pub use laws::{one_body, requests_fit};
pub use read::{RecordError, read_commit};
pub use write::{settlement_body, write_commit};

#[cfg(test)]
mod tests;
