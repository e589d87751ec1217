// The messages that stand inside others, as they are written.
ghost use Rattle.std.specs.Prelude.{All};
ghost use Rattle.dkv_base.specs.Protobuf.{bytes_field};
ghost use Rattle.dkv_msgs.specs.Spellings.{spell_range, spell_kv_entry, spell_range_output, spell_watch_key_output};
ghost use Rattle.dkv_base.specs.Spelling.{spell_check, spell_value, spell_mutation, spell_enqueue};
ghost use Rattle.dkv_msgs.specs.Fits.{RangeFits, ValueFits, MutationFits, EnqueueFits, EntryFits, KeyOutputFits};

use crate::types::{KvEntry, WatchKeyOutput};
use crate::write_fields::{
    Spelled, add_bytes, add_flag, add_messages, add_numbers, add_optional, add_payloads, add_signed,
};
use dkv_base::{Bytes, Check, Enqueue, Mutation, NoMemory, ReadRange, Run, Value};
use dkv_wire::Out;

impl Spelled for ReadRange {
    ghost spelling = { λ r. spell_range r };

    ghost fits = { RangeFits };

    fn spell(&self, out: &mut Out) -> Result<(), NoMemory> {
        add_bytes(out, 1, self.start.as_slice())?;
        add_bytes(out, 2, self.end.as_slice())?;
        add_signed(out, 3, i64::from(self.limit))?;
        add_flag(out, 4, self.reverse)
    }
}

impl Spelled for Check {
    ghost spelling = { λ c. spell_check c };

    ghost fits = { λ _. Unit {0} };

    fn spell(&self, out: &mut Out) -> Result<(), NoMemory> {
        add_bytes(out, 1, self.key.as_slice())?;
        add_bytes(out, 2, self.versionstamp.as_slice())
    }
}

impl Spelled for Value {
    ghost spelling = { λ v. spell_value v };

    ghost fits = { ValueFits };

    fn spell(&self, out: &mut Out) -> Result<(), NoMemory> {
        add_bytes(out, 1, self.bytes.as_slice())?;
        add_signed(out, 2, i64::from(self.encoding))
    }
}

impl Spelled for Mutation {
    ghost spelling = { λ m. spell_mutation m };

    ghost fits = { MutationFits };

    fn spell(&self, out: &mut Out) -> Result<(), NoMemory> {
        add_bytes(out, 1, self.key.as_slice())?;
        add_optional(out, 2, &self.value)?;
        add_signed(out, 3, i64::from(self.kind))?;
        add_signed(out, 4, self.expire_at_ms)?;
        Ok(())
    }
}

impl Spelled for Enqueue {
    ghost spelling = { λ q. spell_enqueue q };

    ghost fits = { EnqueueFits };

    fn spell(&self, out: &mut Out) -> Result<(), NoMemory> {
        add_bytes(out, 1, self.payload.as_slice())?;
        add_signed(out, 2, self.deadline_ms)?;
        add_payloads(out, 3, self.undelivered.as_slice())?;
        add_numbers(out, 4, self.backoff.as_slice())
    }
}

/// A watched key is a message of one field.
impl Spelled for Bytes {
    ghost spelling = { λ key. bytes_field 1 key };

    ghost fits = { λ _. Unit {0} };

    fn spell(&self, out: &mut Out) -> Result<(), NoMemory> {
        add_bytes(out, 1, self.as_slice())
    }
}

impl Spelled for KvEntry {
    ghost spelling = { λ e. spell_kv_entry e };

    ghost fits = { EntryFits };

    fn spell(&self, out: &mut Out) -> Result<(), NoMemory> {
        add_bytes(out, 1, self.key.as_slice())?;
        add_bytes(out, 2, self.value.as_slice())?;
        add_signed(out, 3, i64::from(self.encoding))?;
        add_bytes(out, 4, self.versionstamp.as_slice())
    }
}

/// The entries of one range.
impl Spelled for Run<KvEntry> {
    ghost spelling = { λ es. spell_range_output es };

    ghost fits = { All EntryFits };

    fn spell(&self, out: &mut Out) -> Result<(), NoMemory> {
        add_messages(out, 1, self.as_slice())
    }
}

impl Spelled for WatchKeyOutput {
    ghost spelling = { λ k. spell_watch_key_output k };

    ghost fits = { KeyOutputFits };

    fn spell(&self, out: &mut Out) -> Result<(), NoMemory> {
        add_flag(out, 1, self.changed)?;
        add_optional(out, 2, &self.entry)
    }
}
