//! The lengths of a frame's parts, in bytes, which the definitions cite and the code compares with.

use dkv_base::limits::MAX_REQUEST_BYTES;

/// The length that a frame begins with, which doesn't count itself.
pub const LENGTH_BYTES: usize = 4;

/// The head, which that length counts: the caller in four bytes, the moment in eight, the kind in one.
pub const HEAD_BYTES: usize = 13;

/// The place of the moment, behind the length and the caller.
pub const MOMENT_PLACE: usize = 8;

/// The place of the kind, behind the length, the caller and the moment.
pub const KIND_PLACE: usize = 16;

/// The place of the body, behind the length and the head.
pub const BODY_PLACE: usize = LENGTH_BYTES + HEAD_BYTES;

/// A message's id, which is the body of a settlement: the commit in eight bytes, the index in four.
pub const ID_BYTES: usize = 12;

/// A reply's body begins here, behind the length and the status.
pub const STATUS_END: usize = LENGTH_BYTES + 1;

/// The longest start of a reply's body that takes no memory of its own.
pub const MAX_FRONT_BYTES: usize = 16;

/// The greatest length that a frame may begin with: the head and the longest body.
pub const MAX_LENGTH: usize = HEAD_BYTES + MAX_REQUEST_BYTES;

/// The longest frame.
pub const MAX_FRAME_BYTES: usize = LENGTH_BYTES + MAX_LENGTH;

/// No frame begins at this place of an input or behind it, so that commits never run out of numbers.
pub const MAX_PLACE: u64 = 1 << 63;

/// The most bytes of one read of the input.
pub const PIECE_BYTES: usize = 65536;
