//! The limits of the format.

/// The greatest number of a field; the least is 1 (proto3 language guide, "Assigning Field Numbers").
pub const MAX_FIELD: u32 = 536_870_911;

/// The most bytes of a varint (proto3 encoding guide, "Base 128 Varints").
pub const MAX_VARINT_BYTES: u8 = 10;

/// The most bytes of a field beside its payload: a tag, and a number or a length.
pub const MAX_HEAD_BYTES: usize = 20;
