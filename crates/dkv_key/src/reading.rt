// How parts are read.
ghost use Rattle.std.specs.Prelude.{◌≡◌, ◌<◌, [], ◌∷◌, ◌++◌, ℕ, true, false, IsTrue, length, IfOk, IfErr, IfSome, IfNone};
ghost use Rattle.dkv_key.specs.Parts.{HasNoLeadingZero, escaped, count_spelling, double_bytes};
ghost use Rattle.dkv_key.specs.Reading.{IsKey, NoKey, FirstFault, EndsHere, HasText, NoText, HasMagnitude, NoMagnitude, FindsPart};
ghost use Rattle.dkv_key.specs.declared.part.KeyError.TheVariants.{NotAKey};

use crate::codes::{
    BYTES, DOUBLE, DOUBLE_BYTES, ESCAPE, FALSE, LONG_NEGATIVE, LONG_POSITIVE, MAX_SHORT_BYTES,
    SHORT_NEGATIVE, SHORT_POSITIVE, TEXT, TRUE, ZERO,
};
use crate::writing::{put, put_magnitude};
use crate::{KeyError, Part};
use dkv_base::{Bytes, NoMemory, Run};
use std::alloc::Global;
use std::str::from_utf8;

// The byte that is written first, and what comes behind it; none at the end of the bytes, or at a 00 that ends them.
fn byte_of(bytes: &[u8]) -> Option<(u8, &[u8])>
    ensures found { IfSome result (λ x. bytes.now ≡ escaped (x.0 ∷ []) ++ x.1.now) }
    ensures none { IfNone result (EndsHere bytes.now) }
{
    let [byte, behind @ ..] = bytes else {
        return None;
    };
    if *byte != 0 {
        return Some((*byte, behind));
    }
    let [ESCAPE, behind @ ..] = behind else {
        return None;
    };
    Some((0, behind))
}

// The bytes up to the 00 that ends them, and what comes behind it.
fn text_of(alloc: Global, bytes: &[u8]) -> Result<Option<(Bytes, &[u8])>, NoMemory>
    ensures found { IfOk result (λ found. IfSome found (λ x. HasText bytes.now x.0 x.1.now)) }
    ensures none { IfOk result (λ found. IfNone found (NoText bytes.now)) }
{
    let mut text = Vec::new(alloc);
    let mut rest = bytes;
    while let Some((byte, behind)) = byte_of(rest) {
        put(&mut text, byte)?;
        rest = behind;
    }
    match rest {
        [] => Ok(None),
        [_, behind @ ..] => Ok(Some((Bytes::of(text), behind))),
    }
}

// Whether the first byte is 0, where there is one.
fn starts_with_zero(bytes: &[u8]) -> bool
    ensures zero { IsTrue result → HasNoLeadingZero bytes.now → ⊥ }
    ensures none { result ≡ false → HasNoLeadingZero bytes.now }
{
    matches!(bytes, [0, ..])
}

// So many magnitude bytes, and what comes behind them.
fn magnitude_of(
    alloc: Global,
    negative: bool,
    count: u8,
    bytes: &[u8],
) -> Result<Option<(Bytes, &[u8])>, NoMemory>
    ensures found { IfOk result (λ found.
        IfSome found (λ x. HasMagnitude negative count bytes.now x.0 x.1.now)) }
    ensures none { IfOk result (λ found. IfNone found (NoMagnitude negative count bytes.now)) }
{
    let Some((spelled, rest)) = bytes.split_at_checked(count as usize) else {
        return Ok(None);
    };
    let mut magnitude = Vec::new(alloc);
    put_magnitude(&mut magnitude, negative, spelled)?;
    if starts_with_zero(magnitude.as_slice()) {
        return Ok(None);
    }
    Ok(Some((Bytes::of(magnitude), rest)))
}

// The pattern of a double, and what comes behind it.
fn double_of(bytes: &[u8]) -> Option<(u64, &[u8])>
    ensures found { IfSome result (λ x. bytes.now ≡ double_bytes x.0 ++ x.1.now) }
    ensures none { IfNone result (length bytes.now < DOUBLE_BYTES) }
{
    let (front, rest) = bytes.split_first_chunk::<DOUBLE_BYTES>()?;
    let stored = u64::from_be_bytes(*front);
    let pattern = if stored < 1 << 63 {
        u64::MAX - stored
    } else {
        stored - (1 << 63)
    };
    Some((pattern, rest))
}

// What follows the code BYTES.
fn bytes_part(alloc: Global, body: &[u8]) -> Result<Option<(Part, &[u8])>, NoMemory>
    ensures { IfOk result (FindsPart (BYTES ∷ body.now)) }
{
    match text_of(alloc, body)? {
        None => Ok(None),
        Some((bytes, rest)) => Ok(Some((Part::Bytes(bytes), rest))),
    }
}

// What follows the code TEXT.
fn text_part(alloc: Global, body: &[u8]) -> Result<Option<(Part, &[u8])>, NoMemory>
    ensures { IfOk result (FindsPart (TEXT ∷ body.now)) }
{
    match text_of(alloc, body)? {
        None => Ok(None),
        Some((text, rest)) => match from_utf8(text.as_slice()) {
            Err(_) => Ok(None),
            Ok(_) => Ok(Some((Part::Text(text), rest))),
        },
    }
}

// What follows the count of an integer's magnitude bytes.
fn integer_part(
    alloc: Global,
    negative: bool,
    count: u8,
    body: &[u8],
) -> Result<Option<(Part, &[u8])>, NoMemory>
    requires { negative ≡ true → 0 < count }
    ensures { IfOk result (FindsPart (count_spelling negative count ++ body.now)) }
{
    match magnitude_of(alloc, negative, count, body)? {
        None => Ok(None),
        Some((magnitude, rest)) => {
            let part = Part::Int {
                negative,
                magnitude,
            };
            Ok(Some((part, rest)))
        }
    }
}

// What follows the code LONG_POSITIVE.
fn long_positive_part(alloc: Global, body: &[u8]) -> Result<Option<(Part, &[u8])>, NoMemory>
    ensures { IfOk result (FindsPart (LONG_POSITIVE ∷ body.now)) }
{
    match body {
        [count, body @ ..] if *count > MAX_SHORT_BYTES => {
            integer_part(alloc, false, *count, body)
        }
        _ => Ok(None),
    }
}

// What follows the code LONG_NEGATIVE.
fn long_negative_part(alloc: Global, body: &[u8]) -> Result<Option<(Part, &[u8])>, NoMemory>
    ensures { IfOk result (FindsPart (LONG_NEGATIVE ∷ body.now)) }
{
    match body {
        [count, body @ ..] if u8::MAX - *count > MAX_SHORT_BYTES => {
            integer_part(alloc, true, u8::MAX - *count, body)
        }
        _ => Ok(None),
    }
}

// What follows the code DOUBLE.
fn double_part(body: &[u8]) -> Option<(Part, &[u8])>
    ensures { FindsPart (DOUBLE ∷ body.now) result }
{
    match double_of(body) {
        None => None,
        Some((pattern, rest)) => Some((Part::Double(pattern), rest)),
    }
}

// The part that begins the bytes, and what comes behind it.
fn part_of(alloc: Global, bytes: &[u8]) -> Result<Option<(Part, &[u8])>, NoMemory>
    ensures { IfOk result (FindsPart bytes.now) }
{
    let [first, body @ ..] = bytes else {
        return Ok(None);
    };
    match *first {
        BYTES => bytes_part(alloc, body),
        TEXT => text_part(alloc, body),
        LONG_NEGATIVE => long_negative_part(alloc, body),
        SHORT_NEGATIVE..ZERO => integer_part(alloc, true, ZERO - *first, body),
        ZERO..=SHORT_POSITIVE => integer_part(alloc, false, *first - ZERO, body),
        LONG_POSITIVE => long_positive_part(alloc, body),
        DOUBLE => Ok(double_part(body)),
        FALSE => Ok(Some((Part::Bool(false), body))),
        TRUE => Ok(Some((Part::Bool(true), body))),
        _ => Ok(None),
    }
}

/// The parts of a key.
pub fn decode(alloc: Global, key: &[u8]) -> Result<Run<Part>, KeyError>
    ensures parts { IfOk result (λ parts. IsKey parts key.now) }
    // A refusal comes only where the bytes are no key, at the first place where no part begins.
    ensures refused { IfErr result (λ e.
        (at : ℕ) → e ≡ NotAKey at → FirstFault at key.now × NoKey key.now) }
{
    let mut parts = Run::new(alloc);
    let mut rest = key;
    while !rest.is_empty() {
        let Some((part, behind)) = part_of(alloc, rest)? else {
            return Err(KeyError::NotAKey {
                at: (key.len() - rest.len()) as u64,
            });
        };
        parts.add(part)?;
        rest = behind;
    }
    Ok(parts)
}
