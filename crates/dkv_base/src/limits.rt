//! The numbers of the limits, which the definitions cite and the code compares with. Lengths are in bytes.

/// The most checks of a write.
pub const MAX_CHECKS: usize = 100;

/// The most mutations and enqueues of a write together.
pub const MAX_CHANGES: usize = 1000;

/// The longest key. An empty one is no key.
pub const MAX_KEY_BYTES: usize = 2048;

/// The longest key that a commit's suffix may follow.
pub const MAX_STAMPED_KEY_BYTES: usize = 2026;

/// The length of a versionstamp.
pub const STAMP_BYTES: usize = 10;

/// The length of an LE64 value.
pub const LE64_BYTES: usize = 8;

/// The longest value or payload.
pub const MAX_VALUE_BYTES: usize = 65_536;

/// The longest value or payload of a wide database.
pub const MAX_WIDE_VALUE_BYTES: usize = 262_144;

/// The most intervals of a backoff schedule.
pub const MAX_INTERVALS: usize = 10;

/// The longest interval of a backoff schedule, in milliseconds.
pub const MAX_INTERVAL_MS: u32 = 3_600_000;

/// The most keys for an undelivered payload.
pub const MAX_UNDELIVERED: usize = 10;

/// The most bytes of all keys, values and payloads of a write.
pub const MAX_WRITE_BYTES: usize = 819_200;

/// The most bytes of all keys, values and payloads of a write to a wide database.
pub const MAX_WIDE_WRITE_BYTES: usize = 4_194_304;

/// The most bytes of all keys of a write.
pub const MAX_WRITE_KEY_BYTES: usize = 81_920;

/// The most ranges of a read.
pub const MAX_RANGES: usize = 10;

/// The longest start or end of a range: one byte more than the longest key.
pub const MAX_RANGE_KEY_BYTES: usize = 2049;

/// The most entries that the ranges of a read may ask for together.
pub const MAX_ENTRIES: usize = 1000;

/// The most keys of a watch.
pub const MAX_WATCHED_KEYS: usize = 10;

/// The longest body of a request, and of a frame of a pipe.
pub const MAX_REQUEST_BYTES: usize = 2_097_152;

/// The longest body of a request to a wide database.
pub const MAX_WIDE_REQUEST_BYTES: usize = 8_388_608;

/// The longest body of a record.
pub const MAX_RECORD_BYTES: usize = 2_105_344;

/// The longest body of a record of a wide database.
pub const MAX_WIDE_RECORD_BYTES: usize = 8_396_800;
