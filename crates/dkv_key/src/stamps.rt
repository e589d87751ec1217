//! The versionstamps of commits, and what they append to a key.
ghost use Rattle.std.specs.Prelude.{◌≡◌};
ghost use Rattle.dkv_base.specs.Stamps.{stamp, hex_digits, suffix};

use crate::codes::{END, TEXT};
use dkv_base::limits::STAMP_BYTES;

/// The number of digits of a versionstamp, two for each byte.
pub const STAMP_DIGITS: usize = 20;

/// The length of what a commit appends to a key: a versionstamp's digits as a text part.
pub const SUFFIX_BYTES: usize = 22;

/// The versionstamp of commit `n`: 8 bytes, greatest first, and two zero bytes. Takes no memory.
pub fn stamp_of(n: u64) -> [u8; STAMP_BYTES]
    ensures { result ≡ stamp n }
{
    let mut bytes = [0; STAMP_BYTES];
    bytes[..8].copy_from_slice(&n.to_be_bytes());
    bytes
}

/// The versionstamp of commit `n` as lower-case hexadecimal digits. Takes no memory.
pub fn stamp_hex(n: u64) -> [u8; STAMP_DIGITS]
    ensures { result ≡ hex_digits (stamp n) }
{
    let mut digits = [0; STAMP_DIGITS];
    hex::encode_to_slice(stamp_of(n), &mut digits).unwrap();
    digits
}

/// What commit `n` appends to the key of a versionstamped SET: the digits as a text part. Takes no memory.
pub fn suffix(n: u64) -> [u8; SUFFIX_BYTES]
    ensures { result ≡ suffix n }
{
    let mut text = [END; SUFFIX_BYTES];
    text[0] = TEXT;
    text[1..=STAMP_DIGITS].copy_from_slice(&stamp_hex(n));
    text
}
