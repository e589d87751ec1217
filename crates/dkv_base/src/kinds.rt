//! The kinds of mutation, by their numbers in KV Connect (`MutationType`).

/// Stores a value.
pub const SET: i32 = 1;

/// Takes the key away.
pub const DELETE: i32 = 2;

/// Adds to a stored LE64 number, modulo 2^64.
pub const SUM: i32 = 3;

/// Keeps the greater of the stored number and the operand.
pub const MAX: i32 = 4;

/// Keeps the smaller of the stored number and the operand.
pub const MIN: i32 = 5;

/// Stores a value under the key followed by the commit's suffix (`M_SET_SUFFIX_VERSIONSTAMPED_KEY`).
pub const SET_STAMPED: i32 = 9;
