// What the fields of one number hold.
ghost use Rattle.std.specs.Prelude.{◌≡◌, ◌++◌, [], ◌∷◌, map, IfOk, OnOk, MatchOption};
ghost use Rattle.dkv_wire.specs.FieldLists.{fields, varints};
ghost use Rattle.dkv_wire.specs.Reading.{content};
ghost use Rattle.dkv_msgs.specs.ByField.{last_or, payloads, numbers, numbers_in, number_in, bytes_in, held_by, uint32};

use crate::read_counts::count;
use dkv_base::{Bytes, NoMemory, Run};
use dkv_wire::{Fields, Payload, Varints};
use std::alloc::Global;
use std::marker::Model;

// The payloads of one field that are still to come.
#[derive(Drop)]
pub(crate) struct Payloads<'a> {
    field: u32,
    fields: Fields<'a>,
}

impl<'a> Model for Payloads<'a> {
    ghost use Rattle.std.specs.Prelude.{List, ℕ};
    ghost use Rattle.dkv_wire.specs.Steps.{to_come};
    ghost use Rattle.dkv_msgs.specs.ByField.{payloads};

    ghost Value = { List (List ℕ) };

    ghost view = { λ p. payloads p.field (to_come p.fields) };
}

impl<'a> Payloads<'a> {
    pub(crate) fn new(field: u32, bytes: &'a [u8]) -> Payloads<'a>
        ensures { result ≡ payloads field (fields 0 bytes.now) }
    {
        Payloads {
            field,
            fields: Fields::new(bytes),
        }
    }

    pub(crate) fn next(&mut self) -> Option<&'a [u8]>
        ensures { MatchOption result (self.old ≡ [])
            (λ text. self.old ≡ text.now ∷ self.new) }
    {
        while let Ok(Some(found)) = self.fields.next() {
            if found.number == self.field
                && let Payload::Len(text) = found.payload
            {
                return Some(text);
            }
        }
        None
    }
}

// The last bytes in a field, or those from before.
pub(crate) fn last_bytes<'a>(before: &'a [u8], field: u32, bytes: &'a [u8]) -> &'a [u8]
    ensures { result.now ≡ last_or before.now (payloads field (fields 0 bytes.now)) }
{
    let mut last = before;
    let mut texts = Payloads::new(field, bytes);
    while let Some(text) = texts.next() {
        last = text;
    }
    last
}

// The last number in a field, or the one from before.
pub(crate) fn last_number(before: u64, field: u32, bytes: &[u8]) -> u64
    ensures { result ≡ last_or before (held_by number_in field (fields 0 bytes.now)) }
{
    let mut last = before;
    let mut fields = Fields::new(bytes);
    while let Ok(Some(found)) = fields.next() {
        if found.number == field
            && let Payload::Varint(n) = found.payload
        {
            last = n;
        }
    }
    last
}

// Adds the lowest 32 bits last.
fn add_low(all: &mut Run<u32>, n: u64) -> Result<(), NoMemory>
    ensures { OnOk result (all.new ≡ all.old ++ uint32 n ∷ []) }
{
    all.add((n % (1 << 32)) as u32)
}

// The bytes that a field holds, or those from before.
pub(crate) fn text_or<'a>(before: &'a [u8], payload: Payload<'a>) -> &'a [u8]
    ensures { result.now ≡ last_or before.now (bytes_in (content payload.entry)) }
{
    match payload {
        Payload::Len(text) => text,
        Payload::Varint(_) | Payload::Fixed64(_) | Payload::Fixed32(_) => before,
    }
}

// The number that a field holds, or the one from before.
pub(crate) fn number_or(before: u64, payload: Payload) -> u64
    ensures { result ≡ last_or before (number_in (content payload.entry)) }
{
    match payload {
        Payload::Varint(n) => n,
        Payload::Len(_) | Payload::Fixed64(_) | Payload::Fixed32(_) => before,
    }
}

// The same list. One that is empty has room for all payloads of the field.
fn with_room(
    alloc: Global,
    all: Run<Bytes>,
    field: u32,
    bytes: &[u8],
) -> Result<Run<Bytes>, NoMemory>
    ensures { IfOk result (λ same. same ≡ all) }
{
    if all.is_empty() {
        Ok(Run::of(Vec::with_capacity(alloc, count(field, bytes))?))
    } else {
        Ok(all)
    }
}

// The list with the bytes that a field of these bytes holds behind it.
pub(crate) fn with_payload(
    alloc: Global,
    all: Run<Bytes>,
    field: u32,
    payload: Payload,
    bytes: &[u8],
) -> Result<Run<Bytes>, NoMemory>
    ensures { IfOk result (λ more. more ≡ all ++ bytes_in (content payload.entry)) }
{
    match payload {
        Payload::Len(text) => {
            let mut more = with_room(alloc, all, field, bytes)?;
            more.add(Bytes::copy_of(alloc, text)?)?;
            Ok(more)
        }
        Payload::Varint(_) | Payload::Fixed64(_) | Payload::Fixed32(_) => Ok(all),
    }
}

// Adds the numbers that a field holds: one, or packed ones.
pub(crate) fn add_held(all: &mut Run<u32>, payload: Payload) -> Result<(), NoMemory>
    ensures { OnOk result (all.new ≡ all.old ++ map uint32 (numbers_in (content payload.entry))) }
{
    match payload {
        Payload::Varint(n) => add_low(all, n),
        Payload::Len(text) => add_packed(all, text),
        Payload::Fixed64(_) | Payload::Fixed32(_) => Ok(()),
    }
}

// Adds packed numbers.
fn add_packed(all: &mut Run<u32>, text: &[u8]) -> Result<(), NoMemory>
    ensures { OnOk result (all.new ≡ all.old ++ map uint32 (varints text.now)) }
{
    let mut packed = Varints::new(text);
    while let Some(n) = packed.next() {
        add_low(all, n)?;
    }
    Ok(())
}

// The repeated numbers in a field.
pub(crate) fn numbers(alloc: Global, field: u32, bytes: &[u8]) -> Result<Run<u32>, NoMemory>
    ensures { IfOk result (λ ns. ns ≡ map uint32 (numbers field (fields 0 bytes.now))) }
{
    let mut all = Run::new(alloc);
    let mut fields = Fields::new(bytes);
    while let Ok(Some(found)) = fields.next() {
        if found.number == field {
            add_held(&mut all, found.payload)?;
        }
    }
    Ok(all)
}
