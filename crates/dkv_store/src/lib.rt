//! The database over two files: a core whose every commit is on the disk before it is answered.
//!
//! The layer above may rely on this: a store is opened as what its two files recover to; each call answers as a step of the one-thread
//! database, and says what a stop at any moment of it leaves of the files; what a store keeps throughout, `is_kept` says.
#![tactic(auto)]

mod again;
mod answers;
mod calls;
mod commits;
mod held;
mod keep;
mod laid;
mod looks;
mod opening;
mod reads;
mod recall;
mod replay;
mod stops;
mod store;
mod takes;
mod tells;
mod terms;
mod trail;
mod watches;

pub use answers::{Done, OpenRefusal, Refusal};
pub use opening::open_store;
pub use stops::Peek;
pub use store::Store;
pub use tells::{Counts, Identity};
pub use terms::{TermRefusal, WORN};
pub use trail::MAX_TRAIL_BYTES;
