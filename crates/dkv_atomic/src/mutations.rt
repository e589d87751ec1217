// The mutations of a write.
ghost use Rattle.std.specs.Prelude.{◌≡◌, IfOk, IsTrue};
ghost use Rattle.std.specs.List.{list_all};
ghost use Rattle.std.specs.Int.{w64, from_le_bytes};
ghost use Rattle.dkv_base.specs.Limits.{operand};
ghost use Rattle.dkv_base.specs.State.{visible, is_visible};
ghost use Rattle.dkv_base.specs.Writes.{new_value, combined, stored, stored_key};
ghost use Rattle.dkv_atomic.specs.Numbers.{number_of};
ghost use Rattle.dkv_atomic.specs.Overlays.{entry_behind, IsStep};

use crate::kinds::{is_arithmetic, is_delete, is_stamped};
use crate::numbers::{le64, number, number_of};
use crate::overlay::Overlay;
use crate::seen::is_visible;
use dkv_base::encodings::LE64;
use dkv_base::{Bytes, Entry, Mutation, NoMemory, TryCopy, Value, from_zero};
use dkv_key::suffix;
use dkv_table::Table;
use std::alloc::Global;

// A copy of the value; where there is none, no bytes in no encoding.
fn operand_of(alloc: Global, mutation: &Mutation) -> Result<Value, NoMemory>
    ensures { IfOk result (λ value. value ≡ operand mutation.now) }
{
    match &mutation.value {
        Some(value) => value.copy(alloc),
        None => Ok(Value {
            bytes: Bytes::of(Vec::new(alloc)),
            encoding: 0,
        }),
    }
}

// The number of the operand, or 0 where there is none.
fn operand_number(mutation: &Mutation) -> u64
    ensures { result ≡ from_le_bytes w64 (operand mutation.now).bytes }
{
    match &mutation.value {
        Some(value) => number(value.bytes.as_slice()),
        None => 0,
    }
}

// What a SUM, MAX or MIN stores over the entry, or none where that is no LE64.
fn number_over(alloc: Global, mutation: &Mutation, entry: &Entry) -> Result<Option<Value>, NoMemory>
    ensures { IfOk result (λ value.
        value ≡ combined (number_of mutation.now) (Some entry.now) (operand mutation.now)) }
{
    if entry.encoding != LE64 {
        return Ok(None);
    }
    let stored = number(entry.bytes.as_slice());
    let made = number_of(mutation, stored, operand_number(mutation));
    Ok(Some(le64(alloc, made)?))
}

// What the mutation stores behind what those before it left, or none where it meets a value that is no LE64.
fn value_of<T: Table>(
    alloc: Global,
    table: &T,
    overlay: &Overlay,
    mutation: &Mutation,
    at: u64,
) -> Result<Option<Value>, NoMemory>
    ensures { IfOk result (λ value.
        value ≡ new_value mutation.now (entry_behind overlay.now (T.content table.now) at mutation.now.key)) }
{
    if !is_arithmetic(mutation) {
        return Ok(Some(operand_of(alloc, mutation)?));
    }
    match overlay.found(table, mutation.key.as_slice(), at) {
        Some(entry) => number_over(alloc, mutation, entry),
        None => Ok(Some(operand_of(alloc, mutation)?)),
    }
}

// The key under which the mutation stores.
fn key_of(alloc: Global, mutation: &Mutation, n: u64) -> Result<Bytes, NoMemory>
    ensures { IfOk result (λ key. key ≡ stored_key mutation.now n) }
{
    if is_stamped(mutation) {
        Bytes::joined(alloc, mutation.key.as_slice(), &suffix(n))
    } else {
        mutation.key.copy(alloc)
    }
}

// The entry that the mutation stores as commit `n`.
fn entry_of(alloc: Global, mutation: &Mutation, n: u64, value: Value) -> Result<Entry, NoMemory>
    ensures { IfOk result (λ entry. entry ≡ stored mutation.now n value) }
{
    Ok(Entry {
        key: key_of(alloc, mutation, n)?,
        bytes: value.bytes,
        encoding: value.encoding,
        commit: n,
        expire: from_zero(mutation.expire_at_ms),
    })
}

/// Does the mutation behind what those before it left, as commit `n` at the moment `at`. `false` means that it meets a
/// value that is no LE64, and then it does nothing.
pub(crate) fn act<T: Table>(
    alloc: Global,
    table: &T,
    overlay: &mut Overlay,
    mutation: &Mutation,
    at: u64,
    n: u64,
) -> Result<bool, NoMemory>
    requires { IsTrue (list_all (is_visible at) overlay.old.puts) }
    ensures { IfOk result (λ went.
        IsStep mutation.now at n (visible at (T.content table.now)) overlay.old overlay.new went) }
{
    if is_delete(mutation) {
        overlay.remove(alloc, mutation.key.copy(alloc)?)?;
        return Ok(true);
    }
    let Some(value) = value_of(alloc, table, overlay, mutation, at)? else {
        return Ok(false);
    };
    let entry = entry_of(alloc, mutation, n, value)?;
    if is_visible(&entry, at) {
        overlay.put(entry)?;
    } else {
        overlay.remove(alloc, entry.key)?;
    }
    Ok(true)
}
