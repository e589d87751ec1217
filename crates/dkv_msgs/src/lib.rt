//! The messages of KV Connect, read from Protobuf and written as Protobuf.
//!
//! A body is read as the proto3 encoding guide says: unknown fields are skipped, the last of a
//! singular field counts, and the pieces of a singular message are joined. A body that is no message
//! is refused at the first place where no field begins. A message is written in its one canonical
//! spelling, which reads as the message again.
#![tactic(auto)]

mod laws;
mod read;
mod read_counts;
mod read_fields;
mod read_messages;
mod read_parts;
mod read_places;
mod replies;
mod requests;
#[cfg(test)]
mod tests;
mod types;
mod write;
mod write_fields;
mod write_messages;

pub use laws::{one_spelling, reads_back, spelled_short};
pub use read::{
    ReadError, read_atomic_write, read_atomic_write_output, read_snapshot_read,
    read_snapshot_read_output, read_watch, read_watch_output,
};
pub use replies::{WRITTEN_BYTES, fails_reply, read_reply, written_body, written_reply};
pub use requests::{RequestError, request_atomic_write, request_snapshot_read, request_watch};
pub use types::{
    AtomicWriteOutput, KvEntry, SnapshotRead, SnapshotReadOutput, Watch, WatchKeyOutput,
    WatchOutput,
};
pub use write::{
    write_atomic_write, write_atomic_write_output, write_snapshot_read, write_snapshot_read_output,
    write_watch, write_watch_output,
};
