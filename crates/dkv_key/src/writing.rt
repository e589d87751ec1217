// How parts are written.
ghost use Rattle.std.specs.Prelude.{◌≡◌, ◌<◌, ◌^◌, ◌++◌, ◌∷◌, [], OnOk, IfOk};
ghost use Rattle.std.specs.List.{All};
ghost use Rattle.hex.specs.Hex.{IsBytes};
ghost use Rattle.dkv_key.specs.Parts.{FitsPart, IsWellFormed, escaped, count_spelling, magnitude_spelling, stored_pattern, spelling, range_start, range_end};
ghost use Rattle.dkv_key.specs.Reading.{IsKey};

use crate::Part;
use crate::codes::{
    BYTES, DOUBLE, END, ESCAPE, FALSE, LONG_NEGATIVE, LONG_POSITIVE, MAX_SHORT_BYTES, RANGE_END,
    RANGE_START, TEXT, TRUE, ZERO,
};
use dkv_base::{Bytes, NoMemory};
use std::alloc::Global;

// One byte behind those that are written.
pub(crate) fn put(out: &mut Vec<u8>, byte: u8) -> Result<(), NoMemory>
    ensures { OnOk result (out.new.items ≡ out.old.items ++ byte ∷ []) }
{
    put_all(out, &[byte])
}

// These bytes behind those that are written.
fn put_all(out: &mut Vec<u8>, bytes: &[u8]) -> Result<(), NoMemory>
    ensures { OnOk result (out.new.items ≡ out.old.items ++ bytes.now) }
{
    out.extend_from_slice(bytes)?;
    Ok(())
}

// Each 00 as 00 FF, and a 00 at the end.
fn put_text(out: &mut Vec<u8>, text: &[u8]) -> Result<(), NoMemory>
    ensures spelled { OnOk result
        (out.new.items ≡ out.old.items ++ (escaped text.now ++ END ∷ [])) }
    ensures fits { IsBytes text.now }
{
    for byte in text {
        put(out, *byte)?;
        if *byte == 0 {
            put(out, ESCAPE)?;
        }
    }
    put(out, END)
}

// The code of an integer with so many magnitude bytes.
fn put_count(out: &mut Vec<u8>, negative: bool, count: u8) -> Result<(), NoMemory>
    ensures { OnOk result (out.new.items ≡ out.old.items ++ count_spelling negative count) }
{
    match (negative, count <= MAX_SHORT_BYTES) {
        (false, true) => put(out, ZERO + count),
        (true, true) => put(out, ZERO - count),
        (false, false) => put_all(out, &[LONG_POSITIVE, count]),
        (true, false) => put_all(out, &[LONG_NEGATIVE, u8::MAX - count]),
    }
}

// Each byte of a negative number complemented.
pub(crate) fn put_magnitude(
    out: &mut Vec<u8>,
    negative: bool,
    magnitude: &[u8],
) -> Result<(), NoMemory>
    ensures spelled { OnOk result
        (out.new.items ≡ out.old.items ++ magnitude_spelling negative magnitude.now) }
    ensures fits { IsBytes magnitude.now }
{
    if !negative {
        return put_all(out, magnitude);
    }
    for byte in magnitude {
        put(out, u8::MAX - *byte)?;
    }
    Ok(())
}

// The pattern with its sign bit set, where it isn't, and else with all bits complemented.
#[tactic(auto, unfolding(crate::specs::Parts::stored_pattern))]
fn stored_pattern(pattern: u64) -> u64
    ensures value { result ≡ stored_pattern pattern }
    ensures fits { pattern < 2 ^ 64 }
{
    if pattern < 1 << 63 {
        pattern + (1 << 63)
    } else {
        u64::MAX - pattern
    }
}

// The spelling of a part.
fn put_part(out: &mut Vec<u8>, part: &Part) -> Result<(), NoMemory>
    requires { IsWellFormed part.now }
    ensures spelled { OnOk result (out.new.items ≡ out.old.items ++ spelling part.now) }
    ensures fits { OnOk result (FitsPart part.now) }
{
    match part {
        Part::Bytes(bytes) => {
            put(out, BYTES)?;
            put_text(out, bytes.as_slice())
        }
        Part::Text(text) => {
            put(out, TEXT)?;
            put_text(out, text.as_slice())
        }
        Part::Int {
            negative,
            magnitude,
        } => {
            let magnitude = magnitude.as_slice();
            put_count(out, *negative, magnitude.len() as u8)?;
            put_magnitude(out, *negative, magnitude)
        }
        Part::Double(pattern) => {
            put(out, DOUBLE)?;
            put_all(out, &stored_pattern(*pattern).to_be_bytes())
        }
        Part::Bool(b) => put(out, if *b { TRUE } else { FALSE }),
    }
}

/// The key of these parts.
pub fn encode(alloc: Global, parts: &[Part]) -> Result<Bytes, NoMemory>
    requires { All IsWellFormed parts.now }
    ensures { IfOk result (λ bytes. IsKey parts.now bytes) }
{
    let mut out = Vec::new(alloc);
    for part in parts {
        put_part(&mut out, part)?;
    }
    Ok(Bytes::of(out))
}

/// The range of the keys that begin with this one and have more parts: from the first on, and below the second.
pub fn prefix_range(alloc: Global, key: &[u8]) -> Result<(Bytes, Bytes), NoMemory>
    ensures start { IfOk result (λ range. range.0 ≡ range_start key.now) }
    ensures end { IfOk result (λ range. range.1 ≡ range_end key.now) }
{
    let start = Bytes::joined(alloc, key, &[RANGE_START])?;
    let end = Bytes::joined(alloc, key, &[RANGE_END])?;
    Ok((start, end))
}
