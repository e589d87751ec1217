// The messages that stand inside others, as they are read.
ghost use Rattle.std.specs.Prelude.{◌≡◌, IfOk};
ghost use Rattle.dkv_wire.specs.FieldLists.{fields};
ghost use Rattle.dkv_msgs.specs.ByField.{int32, int64};
ghost use Rattle.dkv_msgs.specs.Messages.{atomic_write, each_of, one_of, kv_value, kv_entry};
ghost use Rattle.dkv_msgs.specs.Parts.{value_of, entry_of};

use crate::read_counts::{WriteCounts, count};
use crate::read_fields::{Payloads, add_held, number_or, text_or, with_payload};
use crate::read_parts::Parts;
use crate::types::{KvEntry, WatchKeyOutput};
use dkv_base::{AtomicWrite, Bytes, Check, Enqueue, Mutation, NoMemory, ReadRange, Run, Value};
use dkv_wire::{Fields, Payload};
use std::alloc::Global;

// What the payload of an embedded message is read as. One that is not whole fields is read as those
// that it begins with.
pub(crate) trait Embedded: Sized {
    ghost use Rattle.std.specs.Prelude.{List};
    ghost use Rattle.dkv_wire.specs.Wire.{Item};

    ghost read_of: { List Item → Self };

    fn read(alloc: Global, bytes: &[u8]) -> Result<Self, NoMemory>
        ensures { IfOk result (λ m. m ≡ read_of (fields 0 bytes.now)) };
}

// The messages in a field, in order.
pub(crate) fn each<M: Embedded + Drop>(
    alloc: Global,
    field: u32,
    bytes: &[u8],
) -> Result<Run<M>, NoMemory>
    ensures { IfOk result (λ ms. ms ≡ each_of M.read_of field (fields 0 bytes.now)) }
{
    let mut all = Run::of(Vec::with_capacity(alloc, count(field, bytes))?);
    let mut texts = Payloads::new(field, bytes);
    while let Some(text) = texts.next() {
        all.add(M::read(alloc, text)?)?;
    }
    Ok(all)
}

// A write from its fields. The counts make the room.
pub(crate) fn write_of(
    alloc: Global,
    counts: WriteCounts,
    bytes: &[u8],
) -> Result<AtomicWrite, NoMemory>
    ensures { IfOk result (λ w. w ≡ atomic_write (fields 0 bytes.now)) }
{
    let mut checks = Run::of(Vec::with_capacity(alloc, counts.checks)?);
    let mut mutations = Run::of(Vec::with_capacity(alloc, counts.mutations)?);
    let mut enqueues = Run::of(Vec::with_capacity(alloc, counts.enqueues)?);
    let mut fields = Fields::new(bytes);
    while let Ok(Some(found)) = fields.next() {
        if let Payload::Len(text) = found.payload {
            match found.number {
                1 => checks.add(Check::read(alloc, text)?)?,
                2 => mutations.add(Mutation::read(alloc, text)?)?,
                3 => enqueues.add(Enqueue::read(alloc, text)?)?,
                _ => {}
            }
        }
    }
    Ok(AtomicWrite {
        checks,
        mutations,
        enqueues,
    })
}

pub(crate) fn low_signed(n: u64) -> i32
    ensures { result ≡ int32 n }
{
    ((n % (1 << 32)) as u32).cast_signed()
}

fn signed(n: u64) -> i64
    ensures { result ≡ int64 n }
{
    n.cast_signed()
}

// A value from its parts.
fn value_of(alloc: Global, parts: Parts) -> Result<Value, NoMemory>
    ensures { IfOk result (λ v. v ≡ value_of parts.entry) }
{
    Ok(Value {
        bytes: Bytes::copy_of(alloc, parts.bytes1)?,
        encoding: low_signed(parts.number2),
    })
}

// The value in a field, if it is given, from all its pieces.
#[tactic(auto, using(crate::proofs::Joined::value_given))]
fn given_value(alloc: Global, field: u32, bytes: &[u8]) -> Result<Option<Value>, NoMemory>
    ensures { IfOk result (λ v. v ≡ one_of kv_value field (fields 0 bytes.now)) }
{
    match Parts::joined(field, bytes) {
        None => Ok(None),
        Some(parts) => Ok(Some(value_of(alloc, parts)?)),
    }
}

// An entry from its parts.
fn entry_of(alloc: Global, parts: Parts) -> Result<KvEntry, NoMemory>
    ensures { IfOk result (λ e. e ≡ entry_of parts.entry) }
{
    Ok(KvEntry {
        key: Bytes::copy_of(alloc, parts.bytes1)?,
        value: Bytes::copy_of(alloc, parts.bytes2)?,
        encoding: low_signed(parts.number3),
        versionstamp: Bytes::copy_of(alloc, parts.bytes4)?,
    })
}

// The entry in a field, if it is given, from all its pieces.
#[tactic(auto, using(crate::proofs::Joined::entry_given))]
fn given_entry(alloc: Global, field: u32, bytes: &[u8]) -> Result<Option<KvEntry>, NoMemory>
    ensures { IfOk result (λ e. e ≡ one_of kv_entry field (fields 0 bytes.now)) }
{
    match Parts::joined(field, bytes) {
        None => Ok(None),
        Some(parts) => Ok(Some(entry_of(alloc, parts)?)),
    }
}

impl Embedded for ReadRange {
    ghost use Rattle.dkv_msgs.specs.Messages.{read_range};

    ghost read_of = { read_range };

    fn read(alloc: Global, bytes: &[u8]) -> Result<ReadRange, NoMemory> {
        let parts = Parts::of(bytes);
        Ok(ReadRange {
            start: Bytes::copy_of(alloc, parts.bytes1)?,
            end: Bytes::copy_of(alloc, parts.bytes2)?,
            limit: low_signed(parts.number3),
            reverse: parts.number4 != 0,
        })
    }
}

impl Embedded for Check {
    ghost use Rattle.dkv_msgs.specs.Messages.{check};

    ghost read_of = { check };

    fn read(alloc: Global, bytes: &[u8]) -> Result<Check, NoMemory> {
        let parts = Parts::of(bytes);
        Ok(Check {
            key: Bytes::copy_of(alloc, parts.bytes1)?,
            versionstamp: Bytes::copy_of(alloc, parts.bytes2)?,
        })
    }
}

impl Embedded for Mutation {
    ghost use Rattle.dkv_msgs.specs.Messages.{mutation};

    ghost read_of = { mutation };

    fn read(alloc: Global, bytes: &[u8]) -> Result<Mutation, NoMemory> {
        let parts = Parts::of(bytes);
        Ok(Mutation {
            key: Bytes::copy_of(alloc, parts.bytes1)?,
            value: given_value(alloc, 2, bytes)?,
            kind: low_signed(parts.number3),
            expire_at_ms: signed(parts.number4),
        })
    }
}

impl Embedded for Enqueue {
    ghost use Rattle.dkv_msgs.specs.Messages.{enqueue};

    ghost read_of = { enqueue };

    fn read(alloc: Global, bytes: &[u8]) -> Result<Enqueue, NoMemory> {
        let mut payload: &[u8] = &[];
        let mut deadline = 0;
        let mut undelivered = Run::new(alloc);
        let mut backoff = Run::new(alloc);
        let mut fields = Fields::new(bytes);
        while let Ok(Some(found)) = fields.next() {
            match found.number {
                1 => payload = text_or(payload, found.payload),
                2 => deadline = number_or(deadline, found.payload),
                3 => undelivered = with_payload(alloc, undelivered, 3, found.payload, bytes)?,
                4 => add_held(&mut backoff, found.payload)?,
                _ => {}
            }
        }
        Ok(Enqueue {
            payload: Bytes::copy_of(alloc, payload)?,
            deadline_ms: signed(deadline),
            undelivered,
            backoff,
        })
    }
}

// A watched key.
impl Embedded for Bytes {
    ghost use Rattle.dkv_msgs.specs.Messages.{watch_key};

    ghost read_of = { watch_key };

    fn read(alloc: Global, bytes: &[u8]) -> Result<Bytes, NoMemory> {
        Bytes::copy_of(alloc, Parts::of(bytes).bytes1)
    }
}

impl Embedded for KvEntry {
    ghost use Rattle.dkv_msgs.specs.Messages.{kv_entry};

    ghost read_of = { kv_entry };

    fn read(alloc: Global, bytes: &[u8]) -> Result<KvEntry, NoMemory> {
        entry_of(alloc, Parts::of(bytes))
    }
}

// The entries of one range.
impl Embedded for Run<KvEntry> {
    ghost use Rattle.dkv_msgs.specs.Messages.{range_output};

    ghost read_of = { range_output };

    fn read(alloc: Global, bytes: &[u8]) -> Result<Run<KvEntry>, NoMemory> {
        each(alloc, 1, bytes)
    }
}

impl Embedded for WatchKeyOutput {
    ghost use Rattle.dkv_msgs.specs.Messages.{watch_key_output};

    ghost read_of = { watch_key_output };

    fn read(alloc: Global, bytes: &[u8]) -> Result<WatchKeyOutput, NoMemory> {
        Ok(WatchKeyOutput {
            changed: Parts::of(bytes).number1 != 0,
            entry: given_entry(alloc, 2, bytes)?,
        })
    }
}
