//! The encodings of values, by their numbers in KV Connect (`ValueEncoding`).

/// Bytes of V8's serializer, which are never read.
pub const V8: i32 = 1;

/// A number of 64 bits in eight bytes, least first.
pub const LE64: i32 = 2;

/// Plain bytes.
pub const BYTES: i32 = 3;
