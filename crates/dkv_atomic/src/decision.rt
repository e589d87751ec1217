// The answers to a write.
use dkv_base::{Bytes, Entry, Run};

/// What is decided of a write that passes no limit.
#[derive(Debug, Drop)]
pub enum Decision {
    /// The places of the checks that don't hold, rising.
    Fails(Run<u32>),
    /// The place of the first mutation that meets a value other than an LE64.
    NotU64 { index: u32 },
    /// What the write does.
    Goes(Effects),
}

/// What a write does to the entries. Each key stands here once.
#[derive(Debug, Drop)]
pub struct Effects {
    /// The entries that are stored, each in the place of the one under its key.
    pub puts: Run<Entry>,
    /// The keys that are taken away. A key may have had no entry.
    pub removed: Run<Bytes>,
}
