// Values that are numbers.
ghost use Rattle.std.specs.Prelude.{◌≡◌, slice_index, IfOk};
ghost use Rattle.std.specs.Int.{w64, from_le_bytes};
ghost use Rattle.dkv_base.specs.Writes.{le64_value};
ghost use Rattle.dkv_atomic.specs.Numbers.{number_of};

use dkv_base::encodings::LE64;
use dkv_base::kinds::{MAX, SUM};
use dkv_base::{Bytes, Mutation, NoMemory, Value};
use std::alloc::Global;

// The byte at the place, or 0 where there is none.
fn byte_at(bytes: &[u8], place: usize) -> u8
    ensures { result ≡ slice_index bytes.now place }
{
    if place < bytes.len() { bytes[place] } else { 0 }
}

/// The number in the first eight bytes, least first.
pub(crate) fn number(bytes: &[u8]) -> u64
    ensures { result ≡ from_le_bytes w64 bytes.now }
{
    u64::from_le_bytes([
        byte_at(bytes, 0),
        byte_at(bytes, 1),
        byte_at(bytes, 2),
        byte_at(bytes, 3),
        byte_at(bytes, 4),
        byte_at(bytes, 5),
        byte_at(bytes, 6),
        byte_at(bytes, 7),
    ])
}

/// What a SUM, MAX or MIN makes of what is stored and its operand.
pub(crate) fn number_of(mutation: &Mutation, stored: u64, operand: u64) -> u64
    ensures { result ≡ number_of mutation.now stored operand }
{
    match mutation.kind {
        SUM => stored.wrapping_add(operand),
        MAX => stored.max(operand),
        _ => stored.min(operand),
    }
}

/// The number as a value. Takes memory for its bytes.
pub(crate) fn le64(alloc: Global, number: u64) -> Result<Value, NoMemory>
    ensures { IfOk result (λ value. value ≡ le64_value number) }
{
    Ok(Value {
        bytes: Bytes::copy_of(alloc, &number.to_le_bytes())?,
        encoding: LE64,
    })
}
