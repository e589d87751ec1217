//! The watches of a database: which keys each one watches, and what it showed of them last.
//!
//! The layer above may rely on this: contracts see a hub as the list of its rows, a watcher ends by
//! `leave` alone, what it showed last stays until it shows again, and its frame is that of the
//! definitions, of one table at one moment.
#![tactic(auto)]

mod frames;
mod hub;
mod last;
mod laws;
mod row;
mod shown;
mod watcher;

pub use hub::Hub;
pub use laws::shown_is_told;
pub use shown::Shown;
pub use watcher::Watcher;

#[cfg(test)]
mod tests;
