//! The records of a file, behind gates: a write-ahead log.
//!
//! A record counts where its gate is open. A gate is opened by a write of its own, after what it guards was synced. The layer
//! above may rely on this: a crash at any moment of an append leaves the records before it, or these and the new one whole;
//! what was appended is scanned again; and a refusal comes only where a call of the disk failed.
#![tactic(auto)]

mod gates;
mod journal;
mod laid;
mod laws;
mod scan;

pub use gates::{CLOSED_GATE, OPEN_GATE, set_gate, write_behind};
pub use journal::Journal;
pub use laid::Laid;
pub use laws::{appends_keep_records, records_are_scanned};
pub use scan::ScanRefusal;

#[cfg(test)]
mod tests;
