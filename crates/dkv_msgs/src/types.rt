// The messages of KV Connect that no other crate has.
use dkv_base::{Bytes, ReadRange, Run};

/// A request to read ranges of entries.
#[derive(Debug, Drop)]
pub struct SnapshotRead {
    pub ranges: Run<ReadRange>,
}

/// An entry as a reply tells it.
#[derive(Debug, Drop)]
pub struct KvEntry {
    pub key: Bytes,
    pub value: Bytes,
    /// 1 for V8, 2 for LE64, 3 for BYTES.
    pub encoding: i32,
    /// Ten bytes, greatest first.
    pub versionstamp: Bytes,
}

/// The reply to a read: the entries of each range.
#[derive(Debug, Drop)]
pub struct SnapshotReadOutput {
    pub ranges: Run<Run<KvEntry>>,
    pub read_disabled: bool,
    /// Whether the read was strongly consistent.
    pub strong: bool,
    /// 1 for success.
    pub status: i32,
}

/// The reply to an atomic write.
#[derive(Debug, Drop)]
pub struct AtomicWriteOutput {
    /// 1 for success, 2 where checks failed.
    pub status: i32,
    /// Ten bytes, greatest first; empty where nothing was written.
    pub versionstamp: Bytes,
    /// The places of the checks that failed, counted from 0.
    pub failed_checks: Run<u32>,
}

/// A request to watch keys.
#[derive(Debug, Drop)]
pub struct Watch {
    pub keys: Run<Bytes>,
}

/// One watched key of a frame.
#[derive(Debug, Drop)]
pub struct WatchKeyOutput {
    pub changed: bool,
    /// The entry, where the key changed and has one.
    pub entry: Option<KvEntry>,
}

/// A frame of a watch: the watched keys in order.
#[derive(Debug, Drop)]
pub struct WatchOutput {
    /// 1 for success.
    pub status: i32,
    pub keys: Run<WatchKeyOutput>,
}
