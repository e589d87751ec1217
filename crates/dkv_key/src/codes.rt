//! The numbers of the spelling of keys, as FoundationDB's tuple layer sets them (its design/tuple.md, whose sections are
//! named here). Lengths are in bytes.

/// Begins the spelling of bytes ("Byte String").
pub const BYTES: u8 = 0x01;

/// Begins the spelling of a text ("Unicode String").
pub const TEXT: u8 = 0x02;

/// Ends the spelling of bytes and of a text ("Byte String", "Unicode String").
pub const END: u8 = 0x00;

/// Stands behind a 00 of bytes and of a text, which so doesn't end them ("Escape Character").
pub const ESCAPE: u8 = 0xFF;

/// Begins the spelling of a negative integer of more bytes than `MAX_SHORT_BYTES` ("Negative arbitrary-precision Integer").
pub const LONG_NEGATIVE: u8 = 0x0B;

/// Begins the spelling of a negative integer of `MAX_SHORT_BYTES`. Those of fewer bytes follow, up to `ZERO` ("Integer").
pub const SHORT_NEGATIVE: u8 = 0x0C;

/// Spells the integer 0 ("Integer").
pub const ZERO: u8 = 0x14;

/// Begins the spelling of a positive integer of `MAX_SHORT_BYTES`. Those of fewer bytes come before, down to `ZERO`
/// ("Integer").
pub const SHORT_POSITIVE: u8 = 0x1C;

/// Begins the spelling of a positive integer of more bytes than `MAX_SHORT_BYTES` ("Positive arbitrary-precision Integer").
pub const LONG_POSITIVE: u8 = 0x1D;

/// Begins the spelling of a double ("IEEE Binary Floating Point").
pub const DOUBLE: u8 = 0x21;

/// Spells false ("False Value").
pub const FALSE: u8 = 0x26;

/// Spells true ("True Value").
pub const TRUE: u8 = 0x27;

/// The most bytes of an integer that its code alone counts ("Integer").
pub const MAX_SHORT_BYTES: u8 = 8;

/// The most bytes of an integer ("Positive arbitrary-precision Integer").
pub const MAX_INTEGER_BYTES: usize = 255;

/// The bytes of a double ("IEEE Binary Floating Point").
pub const DOUBLE_BYTES: usize = 8;

/// Below each code: behind a key, the start of the keys that have more parts.
pub const RANGE_START: u8 = 0x00;

/// Above each code: behind a key, the end of the keys that have more parts.
pub const RANGE_END: u8 = 0xFF;
