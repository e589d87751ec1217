//! Tokens: what they say, and when they are good.
ghost use Rattle.std.specs.Prelude.{◌≡◌, ◌<◌, ◌≤◌, ◌↔◌, ℕ, length, bytes_eq};
ghost use Rattle.dkv_base.specs.Moments.{capped_moment};
ghost use Rattle.dkv_token.specs.Token.{IsToken, answer_at, number_of_digits, sign, signed_message, token_expiry, token_text};

use crate::Site;
use crate::mac::{SIGNATURE_BYTES, hmac};
use crate::site::DATABASE_ID_BYTES;
use dkv_base::MAX_MOMENT;
use hex::FromHex;
use thiserror::Error;

/// How long a token is good after the exchange that hands it out, in milliseconds.
pub const TOKEN_LIFE_MS: u64 = 3_600_000;

/// What each token begins with.
pub const PREFIX: &[u8; 5] = b"dkv1.";

/// Stands before the expiry, as the last byte of the prefix, and before the signature.
pub const DOT: u8 = b'.';

/// The first place of the expiry's digits.
pub const EXPIRY_START: usize = 5;

/// The place behind the expiry's digits, where the second dot stands.
pub const EXPIRY_END: usize = 21;

/// The first place of the signature's digits.
pub const SIGNATURE_START: usize = 22;

/// The length of a token.
pub const TOKEN_BYTES: usize = 86;

/// The length of what is signed: the id and the expiry.
pub const MESSAGE_BYTES: usize = 24;

/// Why a text opens no database.
#[derive(Clone, Copy, Debug, Error, PartialEq, Eq)]
pub enum TokenError {
    /// The text is no token of this site.
    #[error("no token of this database")]
    BadToken,
    /// The text is a token that ended at this moment, in milliseconds since 1970.
    #[error("the token ended at {expiry} ms")]
    Expired { expiry: u64 },
}

/// The token of a site that ends at a moment, in milliseconds since 1970: `dkv1.`, the expiry as 16 lower-case
/// hexadecimal digits, `.`, and 64 lower-case digits of the signature. What is signed (HMAC-SHA-256, RFC 2104) is the id
/// and the expiry in 8 bytes, greatest first.
pub fn sign(site: &Site, expiry: u64) -> [u8; TOKEN_BYTES]
    ensures { result ≡ sign site.now expiry }
{
    token_text(expiry, &hmac(&site.secret, &signed_message(site, expiry)))
}

// What is signed.
fn signed_message(site: &Site, expiry: u64) -> [u8; MESSAGE_BYTES]
    ensures { result ≡ signed_message site.now expiry }
{
    let mut message = [0u8; MESSAGE_BYTES];
    message[..DATABASE_ID_BYTES].copy_from_slice(&site.database_id);
    message[DATABASE_ID_BYTES..].copy_from_slice(&expiry.to_be_bytes());
    message
}

// The text of an expiry and its signature.
fn token_text(expiry: u64, signature: &[u8; SIGNATURE_BYTES]) -> [u8; TOKEN_BYTES]
    ensures { result ≡ token_text expiry signature.now }
{
    let moment = expiry.to_be_bytes();
    let mut text = [DOT; TOKEN_BYTES];
    text[..EXPIRY_START].copy_from_slice(PREFIX);
    hex::encode_to_slice(moment, &mut text[EXPIRY_START..EXPIRY_END]).unwrap();
    hex::encode_to_slice(signature, &mut text[SIGNATURE_START..]).unwrap();
    text
}

/// Whether a text is a token of this site that has not ended at a moment, in milliseconds since 1970. A moment above
/// the last one there is counts as that. Takes no memory.
pub fn check_token(site: &Site, text: &[u8], at: u64) -> Result<(), TokenError>
    ensures answer { result ≡ answer_at at (token_expiry site.now text.now) }

    // The same in plain words: first a text that is the token of no expiry, then one that has ended.
    ensures bad { (result ≡ Err TokenError.BadToken) ↔ ((e : ℕ) → ¬ IsToken site.now text.now e) }
    ensures expired { (e : ℕ) → (result ≡ Err (TokenError.Expired e))
        ↔ (IsToken site.now text.now e × (e ≤ capped_moment at)) }
    ensures good { (result ≡ Ok tt)
        ↔ ((e : ℕ) × IsToken site.now text.now e × (capped_moment at < e)) }
{
    answer_at(token_expiry(site, text), at)
}

// What a check at a moment answers of a text that ends at a moment, or never does.
fn answer_at(expiry: Option<u64>, at: u64) -> Result<(), TokenError>
    ensures { result ≡ answer_at at expiry }
{
    match expiry {
        None => Err(TokenError::BadToken),
        Some(expiry) => {
            if expiry <= at.min(MAX_MOMENT) {
                Err(TokenError::Expired { expiry })
            } else {
                Ok(())
            }
        }
    }
}

// The moment at which a text ends, where it is a token of this site.
fn token_expiry(site: &Site, text: &[u8]) -> Option<u64>
    ensures { result ≡ token_expiry site.now text.now }
{
    if text.len() != TOKEN_BYTES {
        return None;
    }
    let expiry = number_of_digits(&text[EXPIRY_START..EXPIRY_END]);
    if is_same(text, &sign(site, expiry)) {
        Some(expiry)
    } else {
        None
    }
}

// The number whose 8 bytes 16 digits write, greatest first, or 0 where they are no digits.
fn number_of_digits(digits: &[u8]) -> u64
    requires { length digits.now ≡ 16 }
    ensures { result ≡ number_of_digits digits.now }
{
    match <[u8; 8] as FromHex>::from_hex(digits) {
        Ok(bytes) => u64::from_be_bytes(bytes),
        Err(_) => 0,
    }
}

// Reads every byte whatever differs, so that a wrong signature takes the same steps as a right one. That is a habit and
// not a claim: no clause speaks of time.
fn is_same(text: &[u8], own: &[u8; TOKEN_BYTES]) -> bool
    requires { length text.now ≡ TOKEN_BYTES }
    ensures { result ≡ bytes_eq text.now own.now }
{
    let mut difference = 0;
    'bytes: for i in 0..TOKEN_BYTES {
        difference |= text[i] ^ own[i];
    }
    difference == 0
}
