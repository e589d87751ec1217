// What the database answers, as the reply that is sent.
ghost use Rattle.std.specs.Prelude.{◌≡◌, IfOk};
ghost use Rattle.dkv_msgs.specs.Outputs.{entry_output, entries_output, told_range, told, read_output, written_output, fails_output};
ghost use Rattle.dkv_msgs.specs.Spellings.{spell_kv_entry, spell_range_output, spell_snapshot_read_output, spell_atomic_write_output};

use crate::write_fields::{Spelled, add_bytes, add_messages, add_number, add_numbers, add_signed};
use dkv_base::{Bytes, Entry, NoMemory, Run};
use dkv_key::stamp_of;
use dkv_wire::Out;
use dkv_wire::limits::MAX_HEAD_BYTES;
use std::alloc::Global;

// Room for the numbers and the stamp of an entry or a reply, made at once.
const ROOM: usize = 4 * MAX_HEAD_BYTES;

/// The length of the reply to a write that was made: field 1 with a number of one byte, and field 2 with a stamp.
pub const WRITTEN_BYTES: usize = 14;

/// An entry is told with the stamp of the commit that wrote it.
impl<'a> Spelled for &'a Entry {
    ghost spelling = { λ e. spell_kv_entry (entry_output e.now) };

    ghost fits = { λ _. Unit {0} };

    fn spell(&self, out: &mut Out) -> Result<(), NoMemory> {
        let held = self.key.len().saturating_add(self.bytes.len());
        out.reserve(held.saturating_add(ROOM))?;
        add_bytes(out, 1, self.key.as_slice())?;
        add_bytes(out, 2, self.bytes.as_slice())?;
        add_signed(out, 3, i64::from(self.encoding))?;
        add_bytes(out, 4, &stamp_of(self.commit))
    }
}

/// The entries of one range.
impl<'a> Spelled for Run<&'a Entry> {
    ghost spelling = { λ es. spell_range_output (entries_output (told_range es)) };

    ghost fits = { λ _. Unit {0} };

    fn spell(&self, out: &mut Out) -> Result<(), NoMemory> {
        add_messages(out, 1, self.as_slice())?;
        Ok(())
    }
}

/// The reply to a read: the entries of each range, strongly consistent, with status 1. They are copied once, into the
/// reply.
pub fn read_reply(alloc: Global, ranges: &[Run<&Entry>]) -> Result<Bytes, NoMemory>
    ensures { IfOk result (λ b. b ≡ spell_snapshot_read_output (read_output (told ranges.now))) }
{
    let mut out = Out::new(alloc);
    add_messages(&mut out, 1, ranges)?;
    add_number(&mut out, 4, 1)?;
    add_number(&mut out, 8, 1)?;
    Ok(out.finish())
}

/// The reply to a write that was made as commit n: status 1 and the commit's stamp. Takes no memory.
#[tactic(auto, using(crate::proofs::Stamped::stamped))]
pub fn written_body(n: u64) -> [u8; WRITTEN_BYTES]
    ensures { result ≡ spell_atomic_write_output (written_output n) }
{
    let mut body = [8, 1, 18, 10, 0, 0, 0, 0, 0, 0, 0, 0, 0, 0];
    body[4..].copy_from_slice(&stamp_of(n));
    body
}

/// The same, as bytes. Takes memory for them.
pub fn written_reply(alloc: Global, n: u64) -> Result<Bytes, NoMemory>
    ensures { IfOk result (λ b. b ≡ spell_atomic_write_output (written_output n)) }
{
    Bytes::copy_of(alloc, &written_body(n))
}

/// The reply to a write whose checks at these places failed: status 2 and the places.
pub fn fails_reply(alloc: Global, failed: Run<u32>) -> Result<Bytes, NoMemory>
    ensures { IfOk result (λ b. b ≡ spell_atomic_write_output (fails_output failed)) }
{
    let mut out = Out::new(alloc);
    add_number(&mut out, 1, 2)?;
    add_numbers(&mut out, 4, failed.as_slice())?;
    Ok(out.finish())
}
