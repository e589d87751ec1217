//! Signatures under a key: HMAC-SHA-256 (RFC 2104, section 2).
ghost use Rattle.std.specs.Prelude.{◌≡◌};
ghost use Rattle.dkv_token.specs.Mac.{hmac, padded_key};

use sha2::{Digest, Sha256};

/// The length of the key of a signature.
pub const SECRET_BYTES: usize = 32;

/// The length of a signature, which is that of a digest of SHA-256.
pub const SIGNATURE_BYTES: usize = 32;

/// The length of a block of SHA-256.
pub const BLOCK_BYTES: usize = 64;

/// What each byte of the key is exclusive-or before the inner hash.
pub const INNER_PAD: u8 = 0x36;

/// What each byte of the key is exclusive-or before the outer hash.
pub const OUTER_PAD: u8 = 0x5C;

/// The signature of a message under a key.
pub fn hmac(key: &[u8; SECRET_BYTES], message: &[u8]) -> [u8; SIGNATURE_BYTES]
    ensures { result ≡ hmac key.now message.now }
{
    let mut inner = Sha256::new();
    inner.update(padded_key(key, INNER_PAD));
    inner.update(message);
    let mut outer = Sha256::new();
    outer.update(padded_key(key, OUTER_PAD));
    outer.update(inner.finalize());
    outer.finalize()
}

// The key filled with zeros to a block, each byte exclusive-or the number.
fn padded_key(key: &[u8; SECRET_BYTES], with: u8) -> [u8; BLOCK_BYTES]
    ensures { result ≡ padded_key with key.now }
{
    let mut block = [0u8; BLOCK_BYTES];
    block[..SECRET_BYTES].copy_from_slice(key);
    for byte in block.iter_mut() {
        *byte ^= with;
    }
    block
}
