//! Moments, in milliseconds since 1970.

/// The last moment that there is. One above it is taken as this one.
pub const MAX_MOMENT: u64 = 253_370_764_800_000;
