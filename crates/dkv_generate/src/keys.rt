// The keys of a workload.
ghost use Rattle.std.specs.Prelude.{◌≡◌, IfOk};
ghost use Rattle.dkv_generate.specs.Keys.{magnitude, numbered_key, item_key, sum_key};

use crate::sizes::{ITEMS, SUMS};
use dkv_base::{Bytes, NoMemory};
use dkv_key::{Part, encode};
use std::alloc::Global;

// The number in as few bytes as hold it, greatest first.
fn magnitude(alloc: Global, n: u16) -> Result<Bytes, NoMemory>
    ensures { IfOk result (λ bytes. bytes ≡ magnitude n) }
{
    if n == 0 {
        Bytes::copy_of(alloc, &[])
    } else if n < 256 {
        Bytes::copy_of(alloc, &[n as u8])
    } else {
        Bytes::copy_of(alloc, &[(n / 256) as u8, (n % 256) as u8])
    }
}

// The key of a text and a number.
fn numbered_key(alloc: Global, text: &str, n: u16) -> Result<Bytes, NoMemory>
    ensures { IfOk result (λ bytes. bytes ≡ numbered_key text.now n) }
{
    let text = Part::Text(Bytes::copy_of(alloc, text.as_bytes())?);
    let number = Part::Int {
        negative: false,
        magnitude: magnitude(alloc, n)?,
    };
    encode(alloc, &[text, number])
}

/// The key that a group sets. Takes memory for it, as `sum_key` does.
pub(crate) fn item_key(alloc: Global, group: u64) -> Result<Bytes, NoMemory>
    ensures { IfOk result (λ bytes. bytes ≡ item_key group) }
{
    numbered_key(alloc, "item", (group % ITEMS) as u16)
}

/// The key to which a group adds.
pub(crate) fn sum_key(alloc: Global, group: u64) -> Result<Bytes, NoMemory>
    ensures { IfOk result (λ bytes. bytes ≡ sum_key group) }
{
    numbered_key(alloc, "sum", (group % SUMS) as u16)
}
