//! The wire types of fields, by their numbers (proto3 encoding guide, "Message Structure").
//! Groups, 3 and 4, are refused.

/// A varint.
pub const VARINT: u64 = 0;

/// Eight bytes, least first.
pub const I64: u64 = 1;

/// A length, and as many bytes.
pub const LEN: u64 = 2;

/// Four bytes, least first.
pub const I32: u64 = 5;
