// What a session does with a request, why a write is not served, and how a session ends.
use dkv_base::{AtomicWrite, Bytes, ReadRange, Run};

/// What is to be done for a request.
#[derive(Debug, Drop)]
pub enum Plan {
    /// A whole response, which needs no database.
    Reply(Bytes),
    /// At most 10 ranges within the limits of a read.
    Read(Run<ReadRange>),
    /// A write within the limits of the narrow profile.
    Write(AtomicWrite),
    /// 1 to 10 keys, each of 1 to 2,048 bytes.
    Watch(Run<Bytes>),
    /// The server is to stop.
    Stop,
}

/// Why a write is not served.
#[derive(Clone, Copy, Debug, PartialEq, Eq)]
pub enum Unserved {
    /// The server stops.
    Stopping,
    /// The term has no room for more.
    Full,
    /// The disk failed, and what it holds is not known.
    DiskFault,
}

/// How a session ends.
#[derive(Clone, Copy, Debug, PartialEq, Eq)]
pub enum End {
    /// After whole requests: the link said its end, or the last request was the last of its session.
    Closed,
    /// Inside a request.
    Cut,
    /// A request was refused with this status: 400, 413 or 431.
    Bad { status: u16 },
    /// The link failed to read.
    ReadFault,
    /// The link failed to write.
    WriteFault,
    /// Nothing came for too long.
    Idle,
    /// As many requests were answered as a session may have.
    Spent,
    /// The server stops.
    Stopped,
    /// The last write found a term of so many bytes, with no room for it below the limit.
    Turned { trail_bytes: u64, limit: u64 },
    /// A watch went on for as long as it may.
    WatchOver,
    /// The allocator had no room.
    NoMemory,
}
