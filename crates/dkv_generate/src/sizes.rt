//! The numbers of a workload and of its frames, which the definitions cite.

/// The groups of a workload, of six steps each.
pub const GROUPS: u64 = 4000;

/// The callers, from 1 on: each group is the next one's.
pub const CALLERS: u64 = 7;

/// The moment of the first group, in milliseconds since 1970.
pub const FIRST_MOMENT: u64 = 1000;

/// The keys that are set.
pub const ITEMS: u64 = 1000;

/// The keys of which each holds a sum.
pub const SUMS: u64 = 10;

/// What a number is multiplied by for the one that follows (Knuth, The Art of Computer Programming, 3.3.4, table 1).
pub const MULTIPLIER: u64 = 6_364_136_223_846_793_005;

/// What is then added.
pub const INCREMENT: u64 = 1_442_695_040_888_963_407;

/// The numbers of a value, of eight bytes each.
pub const VALUE_NUMBERS: usize = 8;

/// The numbers of a message.
pub const MESSAGE_NUMBERS: usize = 1;

/// The numbers of a group.
pub const GROUP_NUMBERS: usize = VALUE_NUMBERS + MESSAGE_NUMBERS;

/// The commits of a group: two entries, a message and its acknowledgement.
pub const GROUP_COMMITS: u64 = 4;

/// What the length of a frame counts beside the body: the caller in four bytes, the moment in eight, the kind in one.
pub const HEAD_BYTES: usize = 13;

/// The room that the buffer of a group begins with.
pub const GROUP_BYTES: usize = 268;

/// The kind of a frame that reads.
pub const READ: u8 = 1;

/// The kind of a frame that writes.
pub const WRITE: u8 = 2;

/// The kind of a frame that begins a watch.
pub const WATCH: u8 = 3;

/// The kind of a frame that asks for the next frame of a watch.
pub const POLL: u8 = 4;

/// The kind of a frame that takes a message.
pub const TAKE: u8 = 5;

/// The kind of a frame that says that a message was handled.
pub const ACKNOWLEDGE: u8 = 6;

/// The kind of a frame that says that it was not.
pub const FAIL: u8 = 7;
