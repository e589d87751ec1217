// Varints, read one after another.
ghost use Rattle.std.specs.Prelude.{◌≡◌, ◌==◌, ◌<◌, ◌≤◌, ◌+◌, ◌*◌, length, IfSome};
ghost use Rattle.dkv_wire.specs.Reading.{Finds, limit, varint_in, varint_at};
ghost use Rattle.dkv_wire.specs.FieldLists.{are_varints};
ghost use Rattle.dkv_wire.specs.Steps.{VarintSteps};

use crate::limits::MAX_VARINT_BYTES;
use std::marker::Model;

/// The numbers that are still to come, packed in bytes one behind the other.
#[derive(Debug, Drop)]
pub struct Varints<'a> {
    rest: &'a [u8],
}

impl<'a> Model for Varints<'a> {
    ghost use Rattle.std.specs.Prelude.{List, ℕ};

    ghost Value = { List ℕ };

    ghost view = { λ v. v.rest.now };
}

// A number of at most so many bytes.
fn varint_of(more: u8, bytes: &[u8]) -> Option<(u64, &[u8])>
    requires { more ≤ MAX_VARINT_BYTES }
    ensures found { Finds (λ x. (x.0, x.1.now)) result (varint_in more bytes.now) }
    ensures fits { IfSome result (λ x. x.0 < limit more) }
{
    if more == 0 {
        return None;
    }
    match bytes {
        [] => None,
        [b, rest @ ..] => {
            if *b < 128 {
                let low = if more == 1 { *b % 2 } else { *b };
                return Some((low as u64, rest));
            }
            let (high, rest) = varint_of(more - 1, rest)?;
            Some(((*b - 128) as u64 + 128 * high, rest))
        }
    }
}

// The number at the front. Most have one byte.
#[tactic(auto, unfolding(crate::specs::Reading::varint_at))]
pub(crate) fn varint(bytes: &[u8]) -> Option<(u64, &[u8])>
    ensures { Finds (λ x. (x.0, x.1.now)) result (varint_at bytes.now) }
{
    match bytes {
        [b, rest @ ..] if *b < 128 => Some((u64::from(*b), rest)),
        _ => {
            let (number, rest) = varint_of(MAX_VARINT_BYTES, bytes)?;
            Some((number, rest))
        }
    }
}

impl<'a> Varints<'a> {
    /// Begins at the first of the bytes (proto3 encoding guide, "Packed Repeated Fields").
    pub fn new(bytes: &'a [u8]) -> Varints<'a>
        ensures { result ≡ bytes.now }
    {
        Varints { rest: bytes }
    }

    /// The next number, while the bytes begin with one.
    pub fn next(&mut self) -> Option<u64>
        ensures { VarintSteps result self.old self.new }
    {
        let (number, rest) = varint(self.rest)?;
        self.rest = rest;
        Some(number)
    }

    /// Whether no bytes are left.
    pub fn is_empty(&self) -> bool
        ensures { result ≡ (length self.now == 0) }
    {
        self.rest.is_empty()
    }
}

/// Whether the bytes are whole varints, one behind the other.
pub fn are_varints(bytes: &[u8]) -> bool
    ensures { result ≡ are_varints bytes.now }
{
    let mut numbers = Varints::new(bytes);
    while let Some(_number) = numbers.next() {}
    numbers.is_empty()
}
