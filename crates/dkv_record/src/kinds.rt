// The first byte of a body: what the commit is.

/// A write.
pub const WROTE: u8 = 1;

/// An acknowledgement.
pub const ACKED: u8 = 2;

/// A failure.
pub const FAILED: u8 = 3;
